//! The trusted edge: a source and a sink over `std::io`.
//!
//! No contract says what the system sends and receives, so neither tells any content.
ghost use Rattle.std.specs.Prelude.{◌≡◌, ◌<◌, ◌≤◌, length, take, None, IfOk, IfSome, is_err};
ghost use Rattle.std.specs.Io.{ReadsAtMost};
ghost use Rattle.std.specs.Io.KnownBytes.{ReadConsumes, Appends};
ghost use Rattle.route_io.specs.Causes.{HasCause, counted};

use crate::outside::{Failed, Sink, Source};
use std::io::{Read, Write};

/// A source over a reader. Each error of the reader is counted as a fault.
#[derive(Drop)]
pub struct StdSource<R> {
    reader: R,
    faults: u64,
}

impl<R: Read> StdSource<R> {
    /// A source before the first call.
    pub fn new(reader: R) -> StdSource<R>
        ensures reader { result.reader ≡ reader }
        ensures faults { result.faults ≡ 0 }
    {
        StdSource { reader, faults: 0 }
    }
}

impl<R: Read> Source for StdSource<R> {
    ghost seen = { λ s. record { left = None; faults = s.faults } };

    fn read(&mut self, buf: &mut [u8]) -> Result<usize, Failed>
        ensures bound { ReadsAtMost result buf.new }
        ensures cause { HasCause self.old.faults self.new.faults result }
        ensures counted { self.new.faults ≡ counted (is_err result) self.old.faults }
        // if the reader tells what it gives, this is what it gave
        ensures gave { ReadConsumes (R.remaining self.old.reader) (R.remaining self.new.reader)
            result buf.new }
    {
        let Ok(count) = self.reader.read(buf) else {
            self.faults = self.faults.saturating_add(1);
            return Err(Failed);
        };
        Ok(count)
    }
}

/// A sink over a writer, which is flushed after each write. Each error of the writer is counted as a fault, and so is a
/// write that takes no byte of its piece.
#[derive(Drop)]
pub struct StdSink<W> {
    writer: W,
    faults: u64,
}

impl<W: Write> StdSink<W> {
    /// A sink before the first call.
    pub fn new(writer: W) -> StdSink<W>
        ensures writer { result.writer ≡ writer }
        ensures faults { result.faults ≡ 0 }
    {
        StdSink { writer, faults: 0 }
    }
}

impl<W: Write> Sink for StdSink<W> {
    ghost seen = { λ s. record { held = None; room = None; writes = None; faults = s.faults } };

    fn write(&mut self, piece: &[u8]) -> Result<usize, Failed>
        ensures bound { IfOk result (λ n. n ≤ length piece.now) }
        ensures some { 0 < length piece.now → IfOk result (λ n. 0 < n) }
        ensures cause { HasCause self.old.faults self.new.faults result }
        ensures counted { self.new.faults ≡ counted (is_err result) self.old.faults }
        // if the writer tells what it holds, this is what it took
        ensures took { IfOk result (λ n.
            Appends (W.contents self.old.writer) (W.contents self.new.writer) (take n piece.now)) }
    {
        match write_through(&mut self.writer, piece) {
            Some(count) => Ok(count),
            None => {
                self.faults = self.faults.saturating_add(1);
                Err(Failed)
            }
        }
    }
}

// Writes and flushes. The answer `None` means an error, or a write that took no byte of its piece.
pub(crate) fn write_through<W: Write>(writer: &mut W, piece: &[u8]) -> Option<usize>
    ensures bound { IfSome result (λ n. n ≤ length piece.now) }
    ensures some { 0 < length piece.now → IfSome result (λ n. 0 < n) }
    ensures took { IfSome result (λ n.
        Appends (W.contents writer.old) (W.contents writer.new) (take n piece.now)) }
{
    let count = writer.write(piece).ok()?;
    if count == 0 && !piece.is_empty() {
        return None;
    }
    writer.flush().ok()?;
    Some(count)
}

#[cfg(test)]
mod tests {
    use super::{StdSink, StdSource};
    use crate::outside::{ReadEnd, read_all, write_all};
    use std::io;
    use std::io::{Read, Write};
    use std::process::Abort;
    use std::test::Fail;

    // Gives a text byte by byte, and fails once, before the byte at `cut`.
    #[derive(Drop)]
    struct Flaky<'a> {
        text: &'a [u8],
        place: usize,
        cut: Option<usize>,
    }

    impl<'a> Read for Flaky<'a> {
        fn read(&mut self, buf: &mut [u8]) -> io::Result<usize> {
            if self.cut == Some(self.place) {
                self.cut = None;
                return Err(io::Error::from(io::ErrorKind::BrokenPipe));
            }
            match (self.text.get(self.place), buf.first_mut()) {
                (Some(byte), Some(front)) => {
                    *front = *byte;
                    self.place = self.place.saturating_add(1);
                    Ok(1)
                }
                _ => Ok(0),
            }
        }
    }

    #[test]
    fn reads_through(rt: HostRuntime) -> Result<(), Fail> {
        let mut source = StdSource::new(Flaky {
            text: b"routes",
            place: 0,
            cut: Some(4),
        });
        let cut = read_all(rt.alloc(), &mut source, 10);
        assert!(rt; matches!(cut, Err(ReadEnd::Fault)));
        assert!(rt; source.faults == 1);
        let rest = read_all(rt.alloc(), &mut source, 10)?;
        assert!(rt; rest.as_slice() == b"es".as_slice());
        assert!(rt; source.faults == 1);
        Ok(())
    }

    // Its flushes fail, and its writes too unless `takes` is set.
    #[derive(Drop)]
    struct Broken {
        takes: bool,
    }

    impl Write for Broken {
        fn write(&mut self, buf: &[u8]) -> io::Result<usize> {
            if self.takes {
                Ok(buf.len())
            } else {
                Err(io::Error::from(io::ErrorKind::BrokenPipe))
            }
        }

        fn flush(&mut self) -> io::Result<()> {
            Err(io::Error::from(io::ErrorKind::BrokenPipe))
        }
    }

    // A write that finds no room left takes nothing, which is a fault.
    fn fills(rt: &impl Abort, room: &mut [u8]) {
        let mut sink = StdSink::new(room);
        assert!(rt; write_all(&mut sink, b"abc").is_ok());
        assert!(rt; sink.faults == 0);
        assert!(rt; write_all(&mut sink, b"de").is_err());
        assert!(rt; sink.faults == 1);
    }

    // A piece counts as written only if the flush behind it succeeds.
    fn fails(rt: &impl Abort, takes: bool) {
        let mut sink = StdSink::new(Broken { takes });
        assert!(rt; write_all(&mut sink, b"abc").is_err());
        assert!(rt; sink.faults == 1);
    }

    #[test]
    fn writes_through(rt: HostRuntime) {
        let mut room = [0u8; 4];
        fills(&rt, room.as_mut_slice());
        assert!(rt; room == *b"abcd");
        fails(&rt, true);
        fails(&rt, false);
    }
}
