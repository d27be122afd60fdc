//! The trusted edge: a link over TCP.
//!
//! No contract says what the system sends and receives. So the link tells no content, and not which addresses were
//! dialled.
ghost use Rattle.std.specs.Prelude.{◌≡◌, ◌<◌, ◌≤◌, length, None, Some, false, true, IfOk, IsOk, IsErr, OnErr, is_err};
ghost use Rattle.std.specs.Io.{ReadsAtMost};
ghost use Rattle.std.specs.Io.KnownBytes.{ReadConsumes, WriteAppends};
ghost use Rattle.route_io.specs.Causes.{HasCause, counted, next_count};
ghost use Rattle.route_io.specs.Links.{FindsNoneLeft};

use crate::link::Link;
use crate::outside::Failed;
use crate::standard::write_through;
use std::io;
use std::io::Read;
use std::net::{Net, OpenStream, Shutdown, TcpStream};
use std::time::Duration;

// For closing a link: how many bytes one read asks for, how many reads there are, and how long each may wait.
const PIECE: usize = 16_384;

const PIECES: usize = 64;

const PAUSE_MILLIS: u64 = 250;

/// A peer over TCP. Each error of the system is counted as a fault. So are a read or write before the peer was reached,
/// and a write that takes no byte of its piece.
#[derive(Drop)]
pub struct TcpLink<'a, R: Net> {
    net: &'a R,
    stream: Option<R::Stream>,
    faults: u64,
}

impl<'a, R: Net> TcpLink<'a, R> {
    /// A link that is not connected.
    pub fn new(net: &'a R) -> TcpLink<'a, R>
        ensures { result.faults ≡ 0 }
    {
        TcpLink {
            net,
            stream: None,
            faults: 0,
        }
    }

    /// Closes the connection so that the peer gets all that was written. First it ends its own side. Then it reads and
    /// drops what the peer still sends, up to a megabyte, until the peer closes or is silent for a quarter of a second.
    /// A system that closes a connection with unread bytes resets it, and then the peer would lose what it has not
    /// read.
    pub fn close(self) {
        let Some(mut stream) = self.stream else {
            return;
        };
        let pause = Some(Duration::from_millis(PAUSE_MILLIS));
        if stream.shutdown(Shutdown::Write).is_err() || stream.set_read_timeout(pause).is_err() {
            return;
        }
        let mut piece = [0u8; PIECE];
        for _ in 0..PIECES {
            match stream.read(&mut piece) {
                Ok(0) | Err(_) => return,
                Ok(_) => {}
            }
        }
    }

    fn fail<T>(&mut self) -> Result<T, Failed>
        ensures failed { IsErr result }
        ensures cause { HasCause self.old.faults self.new.faults result }
        ensures counted { self.new.faults ≡ next_count self.old.faults }
    {
        self.faults = self.faults.saturating_add(1);
        Err(Failed)
    }
}

impl<'a, R: Net> Link for TcpLink<'a, R> {
    ghost seen = { λ s. record {
      incoming = None;
      outgoing = None;
      room = None;
      acts = None;
      dialled = None;
      sure = false;
      faults = s.faults;
    } };

    fn dial(&mut self, address: &str) -> Result<(), Failed>
        ensures sure { false ≡ true → IsOk result }
        ensures cause { HasCause self.old.faults self.new.faults result }
        ensures counted { self.new.faults ≡ counted (is_err result) self.old.faults }
    {
        let Ok(stream) = connect(self.net, address) else {
            return self.fail();
        };
        self.stream = Some(stream);
        Ok(())
    }

    fn read(&mut self, buf: &mut [u8]) -> Result<usize, Failed>
        ensures bound { ReadsAtMost result buf.new }
        ensures bytes { ReadConsumes None None result buf.new }
        ensures sure { false ≡ true → IsOk result }
        ensures cause { HasCause self.old.faults self.new.faults result }
        ensures counted { self.new.faults ≡ counted (is_err result) self.old.faults }
    {
        let Some(stream) = &mut self.stream else {
            return self.fail();
        };
        let Ok(count) = stream.read(buf) else {
            return self.fail();
        };
        Ok(count)
    }

    fn write(&mut self, piece: &[u8]) -> Result<usize, Failed>
        ensures bound { IfOk result (λ n. n ≤ length piece.now) }
        ensures some { 0 < length piece.now → IfOk result (λ n. 0 < n) }
        ensures bytes { WriteAppends None None result piece.now }
        ensures sure { false ≡ true → OnErr result (FindsNoneLeft (⟦<TcpLink<'a, R> as Link>⟧.seen self.old) piece.now) }
        ensures cause { HasCause self.old.faults self.new.faults result }
        ensures counted { self.new.faults ≡ counted (is_err result) self.old.faults }
    {
        let Some(stream) = &mut self.stream else {
            return self.fail();
        };
        let Some(count) = write_through(stream, piece) else {
            return self.fail();
        };
        Ok(count)
    }
}

// Writes are sent at once (`TCP_NODELAY`), without waiting for earlier ones to be acknowledged.
fn connect<R: Net>(net: &R, address: &str) -> io::Result<R::Stream> {
    let stream = TcpStream::connect(net, address)?;
    stream.set_nodelay(true)?;
    Ok(stream)
}

#[cfg(test)]
mod tests {
    use super::TcpLink;
    use crate::link::Link;
    use std::io::{Read, Write};
    use std::net::{Ipv4Addr, Net, SocketAddr, TcpListener, TcpStream};
    use std::process::Abort;
    use std::test::Fail;

    // Each of these is a fault.
    fn fails_before_a_dial<R: Net>(rt: &impl Abort, link: &mut TcpLink<'_, R>) {
        let mut front = [0u8; 2];
        assert!(rt; link.read(&mut front).is_err());
        assert!(rt; link.write(b"a").is_err());
        assert!(rt; link.dial("no port").is_err());
        assert!(rt; link.faults == 3);
    }

    // A link to a listener of this machine, and the listener's end of the connection.
    fn dialled<R: Net>(rt: &HostRuntime, link: &mut TcpLink<'_, R>) -> Result<TcpStream, Fail> {
        let here = SocketAddr::from((Ipv4Addr::LOCALHOST, 0));
        let listener = TcpListener::bind(rt, here)?;
        let address = format!(in rt.alloc(); "{}", listener.local_addr()?)?;
        if link.dial(address.as_str()).is_err() {
            return Err(Fail::from("the listener is not reached"));
        }
        let (peer, _) = listener.accept()?;
        Ok(peer)
    }

    // What is written over the link, as the peer reads it.
    fn writes<R: Net>(
        rt: &impl Abort,
        link: &mut TcpLink<'_, R>,
        peer: &mut TcpStream,
    ) -> Result<(), Fail> {
        assert!(rt; link.write_all(b"update").is_ok());
        let mut came = [0u8; 6];
        peer.read_exact(&mut came)?;
        assert!(rt; came == *b"update");
        Ok(())
    }

    // What the peer wrote, in the pieces of the reads.
    fn reads<R: Net>(
        rt: &impl Abort,
        link: &mut TcpLink<'_, R>,
        peer: &mut TcpStream,
    ) -> Result<(), Fail> {
        peer.write_all(b"marker")?;
        let mut front = [0u8; 2];
        assert!(rt; link.read(&mut front) == Ok(2));
        assert!(rt; front == *b"ma");
        let mut rest = [0u8; 6];
        assert!(rt; link.read(&mut rest) == Ok(4));
        assert!(rt; rest == *b"rker\0\0");
        Ok(())
    }

    #[test]
    fn reads_and_writes_over_tcp(rt: HostRuntime) -> Result<(), Fail> {
        let mut link = TcpLink::new(&rt);
        fails_before_a_dial(&rt, &mut link);
        let mut peer = dialled(&rt, &mut link)?;
        writes(&rt, &mut link, &mut peer)?;
        reads(&rt, &mut link, &mut peer)?;
        // a peer that has closed
        drop(peer);
        assert!(rt; link.read(&mut [0u8; 2]) == Ok(0));
        assert!(rt; link.faults == 3);
        Ok(())
    }

    // The peer gets the answer even if it had sent bytes that nobody read.
    #[test]
    fn a_link_that_is_closed_loses_no_answer(rt: HostRuntime) -> Result<(), Fail> {
        let mut link = TcpLink::new(&rt);
        let mut peer = dialled(&rt, &mut link)?;
        peer.write_all(&[0u8; 40_000])?;
        assert!(rt; link.write_all(b"answer").is_ok());
        link.close();
        let mut came = [0u8; 6];
        peer.read_exact(&mut came)?;
        assert!(rt; came == *b"answer");
        assert!(rt; peer.read(&mut came)? == 0);
        Ok(())
    }
}
