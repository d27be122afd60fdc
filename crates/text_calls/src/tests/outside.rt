//! Sources, sinks and links over memory, and what is received over a link. The counts of faults over `std` are tested
//! in `route_io` itself.
ghost use Rattle.std.specs.Prelude.{◌≡◌, ◌<◌, ◌≤◌, length, None, IfOk, IsErrOf, OnErr};
ghost use Rattle.std.specs.Io.{ReadsAtMost};
ghost use Rattle.std.specs.Io.KnownBytes.{ReadConsumes, WriteAppends};
ghost use Rattle.route_io.specs.Links.{as_sink, Dials, OnlyDials, OnlyReads, OnlyWrites};
ghost use Rattle.route_io.specs.Shelf.{ExceedsRoom};

use route_io::{
    Failed, Filled, Link, MemLink, NotFilled, PlainLink, PlainSink, PlainSource, ReadEnd, Received,
    Sink, read_all, write_all,
};
use std::alloc::{AllocError, Global};
use std::process::Abort;
use std::test::Fail;

// Over a plain link a write fails only if the bytes exceed the room.
fn write_over_link(link: &mut PlainLink, piece: &[u8]) -> Result<(), Failed>
    ensures { OnErr result
        (ExceedsRoom (as_sink (⟦<PlainLink as Link>⟧.seen link.old)) piece.now) }
{
    link.write_all(piece)
}

// The link brings `hello`, and nothing else.
fn reads(rt: &impl Abort, link: &mut PlainLink) {
    let mut buf = [0u8; 4];
    assert!(rt; link.read(&mut buf) == Ok(4));
    assert!(rt; buf == *b"hell");
    assert!(rt; link.read(&mut buf) == Ok(1));
    assert!(rt; link.read(&mut buf) == Ok(0));
}

#[test]
fn plain_link_ends(rt: HostRuntime) -> Result<(), Fail> {
    let alloc = rt.alloc();
    let mut link = PlainLink::new(b"hello".to_vec(alloc)?, b"....".to_vec(alloc)?);
    assert!(rt; link.dial("anywhere").is_ok());
    reads(&rt, &mut link);
    assert!(rt; write_over_link(&mut link, b"abc").is_ok());
    assert!(rt; write_over_link(&mut link, b"de").is_err());
    assert!(rt; link.outgoing() == b"abcd".as_slice());
    Ok(())
}

// A link whose read or write with this number fails.
fn failing(alloc: Global, dial: bool, read: u64, write: u64) -> Result<MemLink, AllocError> {
    Ok(MemLink::new(
        b"hello".to_vec(alloc)?,
        b"......".to_vec(alloc)?,
        dial,
        vec![in alloc; read]?,
        vec![in alloc; write]?,
    ))
}

// Whether a dial and two writes fail, one after another.
fn begun(link: &mut MemLink) -> [bool; 3] {
    [
        link.dial("peer").is_err(),
        link.write_all(b"abc").is_err(),
        link.write_all(b"de").is_err(),
    ]
}

// Whether one more write and two reads fail.
fn ended(link: &mut MemLink) -> [bool; 3] {
    let mut buf = [0u8; 4];
    [
        link.write_all(b"f").is_err(),
        link.read(&mut buf).is_err(),
        link.read(&mut buf).is_err(),
    ]
}

// A dial that fails or not, and the numbers of a read and a write that fail; checks what two writes take.
fn check_failing(
    rt: &impl Abort,
    alloc: Global,
    dial: bool,
    read: u64,
    write: u64,
    outgoing: &[u8],
) -> Result<(), Fail> {
    let mut link = failing(alloc, dial, read, write)?;
    assert!(rt; begun(&mut link) == [dial, write == 1, write == 2]);
    assert!(rt; link.outgoing() == outgoing);
    assert!(rt; ended(&mut link) == [write == 3, read == 1, read == 2]);
    Ok(())
}

#[test]
fn each_call_fails_in_turn(rt: HostRuntime) -> Result<(), Fail> {
    check_failing(&rt, rt.alloc(), false, 0, 0, b"abcde")?;
    check_failing(&rt, rt.alloc(), true, 0, 0, b"abcde")?;
    check_failing(&rt, rt.alloc(), false, 1, 0, b"abcde")?;
    check_failing(&rt, rt.alloc(), false, 2, 0, b"abcde")?;
    check_failing(&rt, rt.alloc(), false, 0, 1, b"de")?;
    check_failing(&rt, rt.alloc(), false, 0, 2, b"abc")?;
    check_failing(&rt, rt.alloc(), false, 0, 3, b"abcde")
}

// Takes at most two bytes by one write.
#[derive(Drop)]
struct Narrow {
    link: MemLink,
}

impl Link for Narrow {
    ghost seen = { λ s. record (⟦<MemLink as Link>⟧.seen s.link) { room = None; acts = None } };

    fn dial(&mut self, address: &str) -> Result<(), Failed> {
        self.link.dial(address)
    }

    fn read(&mut self, buf: &mut [u8]) -> Result<usize, Failed> {
        self.link.read(buf)
    }

    fn write(&mut self, piece: &[u8]) -> Result<usize, Failed> {
        self.link.write(&piece[..piece.len().min(2)])
    }
}

// The write with this number is the first to fail; checks what was taken by then.
fn check_narrow(rt: &impl Abort, alloc: Global, write: u64, outgoing: &[u8]) -> Result<(), Fail> {
    let mut link = Narrow {
        link: failing(alloc, false, 0, write)?,
    };
    assert!(rt; link.write_all(b"abcde").is_ok() == (write == 4));
    assert!(rt; link.link.outgoing() == outgoing);
    assert!(rt; link.write_all(b"f").is_err() == (write == 4));
    Ok(())
}

#[test]
fn writes_what_a_write_left(rt: HostRuntime) -> Result<(), Fail> {
    check_narrow(&rt, rt.alloc(), 1, b"")?;
    check_narrow(&rt, rt.alloc(), 2, b"ab")?;
    check_narrow(&rt, rt.alloc(), 3, b"abcd")?;
    check_narrow(&rt, rt.alloc(), 4, b"abcde")
}

// How one fill ended.
fn fill(received: &mut Received, link: &mut MemLink) -> u8 {
    match received.fill(link) {
        Ok(Filled::More) => b'm',
        Ok(Filled::End) => b'e',
        Err(NotFilled::Fault) => b'f',
        Err(NotFilled::NoMemory) => b'n',
    }
}

// A link that brings this, and whose read with this number fails.
fn coming(alloc: Global, incoming: Vec<u8>, read: u64) -> Result<MemLink, AllocError> {
    let reads = vec![in alloc; read]?;
    Ok(MemLink::new(incoming, Vec::new(alloc), false, reads, Vec::new(alloc)))
}

// Two reads bring 20,000 bytes. The read with this number fails, and the next one goes on.
fn check_fills(rt: &impl Abort, alloc: Global, read: u64, answers: [u8; 3]) -> Result<(), Fail> {
    let incoming = vec![in alloc; 7; 20000]?;
    let mut link = coming(alloc, incoming, read)?;
    let mut received = Received::new(alloc);
    let came = [
        fill(&mut received, &mut link),
        fill(&mut received, &mut link),
        fill(&mut received, &mut link),
    ];
    assert!(rt; came == answers, "read {read}");
    assert!(rt; received.as_slice().len() == 20000, "read {read}");
    Ok(())
}

#[test]
fn a_read_that_fails_loses_nothing(rt: HostRuntime) -> Result<(), Fail> {
    check_fills(&rt, rt.alloc(), 0, *b"mme")?;
    check_fills(&rt, rt.alloc(), 1, *b"fmm")?;
    check_fills(&rt, rt.alloc(), 2, *b"mfm")?;
    check_fills(&rt, rt.alloc(), 3, *b"mmf")
}

#[test]
fn takes_from_the_front(rt: HostRuntime) -> Result<(), Fail> {
    let incoming = b"hello peer".to_vec(rt.alloc())?;
    let mut link = coming(rt.alloc(), incoming, 0)?;
    let mut received = Received::new(rt.alloc());
    assert!(rt; fill(&mut received, &mut link) == b'm');
    received.take_front(6);
    assert!(rt; received.as_slice() == b"peer".as_slice());
    assert!(rt; fill(&mut received, &mut link) == b'e');
    received.take_front(9);
    assert!(rt; received.as_slice().is_empty());
    Ok(())
}

// No fault comes over a plain source.
fn read_plain(alloc: Global, source: &mut PlainSource, max: usize) -> Result<Vec<u8>, ReadEnd>
    ensures { IsErrOf result ReadEnd.Fault → ⊥ }
{
    read_all(alloc, source, max)
}

// Over a plain sink a write fails only if the bytes exceed the room.
fn write_plain(sink: &mut PlainSink, piece: &[u8]) -> Result<(), Failed>
    ensures { OnErr result (ExceedsRoom (⟦<PlainSink as Sink>⟧.seen sink.old) piece.now) }
{
    write_all(sink, piece)
}

// A source of six bytes, from which at most so many are wanted.
fn check_read(rt: &impl Abort, alloc: Global, max: usize) -> Result<(), Fail> {
    let mut source = PlainSource::new(b"routes".to_vec(alloc)?);
    match read_plain(alloc, &mut source, max) {
        Ok(all) => assert!(rt; max >= 6 && all.as_slice() == b"routes".as_slice()),
        Err(_) => assert!(rt; max < 6),
    }
    Ok(())
}

#[test]
fn plain_ends(rt: HostRuntime) -> Result<(), Fail> {
    for max in [0, 5, 6, 7] {
        check_read(&rt, rt.alloc(), max)?;
    }
    let mut sink = PlainSink::new(b"....".to_vec(rt.alloc())?);
    assert!(rt; write_plain(&mut sink, b"abc").is_ok());
    assert!(rt; write_plain(&mut sink, b"de").is_err());
    assert!(rt; sink.held() == b"abcd".as_slice());
    Ok(())
}
