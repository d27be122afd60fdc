//! A peer that waits for the answers to one frame before it sends the next.
ghost use Rattle.std.specs.Prelude.{◌≡◌, ◌<◌, ◌≤◌, length, min, None, Some, false, IsErr, IfOk, IfSome};
ghost use Rattle.std.specs.Io.{ReadsAtMost};
ghost use Rattle.std.specs.Io.KnownBytes.{ReadConsumes, WriteAppends};
ghost use Rattle.route_io.specs.Causes.{HasCause, StaysTold};
ghost use Rattle.route_io.specs.Links.{Dials, OnlyDials, OnlyReads, OnlyWrites, room_left};

use super::{no_disk, sink_of, words_of};
use route_io::{Failed, Link, MemLink, MemSource};
use routing_commands::run::run;
use std::alloc::Global;
use std::test::Fail;
use topology::Status;

const NETWORK: &str = "\
node 1
node 2
node 3
link 1 2 any
link 2 3 any
prefix 10.0.0.0/8
";

// Asks node 2 to announce the prefix, and then to withdraw it.
const ANNOUNCE: &[u8] = b"\x01\x01\x00\x00\x00\x02\x00\x00";

const TAKE_BACK: &[u8] = b"\x01\x02\x00\x00\x00\x02\x00\x00";

// An update with the path for each neighbour, and then one without a path for each.
const ANSWERS: &[u8] =
    b"\x01\x08\x00\x00\x00\x15\x00\x01\x00\x00\x00\x01\x00\x00\x00\x01\x00\x02\x00\x00\x00\x01\x00\x00\x01\x00\x02\x01\x08\x00\x00\x00\x15\x00\x03\x00\x00\x00\x01\x00\x00\x00\x01\x00\x02\x00\x00\x00\x01\x00\x00\x01\x00\x02\x01\x08\x00\x00\x00\x13\x00\x01\x00\x00\x00\x01\x00\x00\x00\x02\x00\x02\x00\x00\x00\x02\x00\x00\x00\x01\x08\x00\x00\x00\x13\x00\x03\x00\x00\x00\x01\x00\x00\x00\x02\x00\x02\x00\x00\x00\x02\x00\x00\x00";

// How many of these bytes answer the first frame.
const OWED: usize = 54;

// Sends `first` at once, and `next` when it has received all that is owed for the first. An earlier read fails. It
// tells nothing but its faults.
#[derive(Drop)]
struct WaitingPeer {
    first: MemLink,
    next: MemLink,
    has_begun: bool,
    faults: u64,
}

impl WaitingPeer {
    fn fail<T>(&mut self) -> Result<T, Failed>
        ensures failed { IsErr result }
        ensures cause { HasCause self.old.faults self.new.faults result }
    {
        self.faults = self.faults.saturating_add(1);
        Err(Failed)
    }
}

impl Link for WaitingPeer {
    ghost seen = { λ s. record {
      incoming = None;
      outgoing = None;
      room = None;
      acts = None;
      dialled = None;
      sure = false;
      faults = s.faults;
    } };

    fn dial(&mut self, _address: &str) -> Result<(), Failed> {
        Ok(())
    }

    fn read(&mut self, buf: &mut [u8]) -> Result<usize, Failed> {
        if !self.has_begun {
            self.has_begun = true;
            let Ok(count) = self.first.read(buf) else {
                return self.fail();
            };
            return Ok(count);
        }
        if self.first.outgoing().len() < OWED {
            return self.fail();
        }
        let Ok(count) = self.next.read(buf) else {
            return self.fail();
        };
        Ok(count)
    }

    fn write(&mut self, piece: &[u8]) -> Result<usize, Failed> {
        let Ok(count) = self.first.write(piece) else {
            return self.fail();
        };
        Ok(count)
    }
}

fn link_of(alloc: Global, incoming: &[u8], room: usize) -> Result<MemLink, Fail> {
    let incoming = Vec::from_slice(alloc, incoming)?;
    let room = vec![in alloc; 0; room]?;
    let (reads, writes) = (Vec::new(alloc), Vec::new(alloc));
    Ok(MemLink::new(incoming, room, false, reads, writes))
}

#[test]
fn answers_a_frame_before_it_reads_the_next(rt: HostRuntime) -> Result<(), Fail> {
    let alloc = rt.alloc();
    let words = words_of(alloc, &["node", "2", "127.0.0.1:1"])?;
    let network = Vec::from_slice(alloc, NETWORK.as_bytes())?;
    let mut source = MemSource::new(network, Vec::new(alloc));
    let mut sink = sink_of(alloc, 0, &[])?;
    let mut notes = sink_of(alloc, 128, &[])?;
    let mut peer = WaitingPeer {
        first: link_of(alloc, ANNOUNCE, ANSWERS.len())?,
        next: link_of(alloc, TAKE_BACK, 0)?,
        has_begun: false,
        faults: 0,
    };
    let mut disk = no_disk(alloc);
    let status = run(
        alloc,
        &words,
        &mut source,
        &mut sink,
        &mut notes,
        &mut peer,
        &mut disk,
    );
    assert_eq!(rt; status, Status::Done);
    assert_eq!(rt; peer.first.outgoing(), ANSWERS);
    Ok(())
}
