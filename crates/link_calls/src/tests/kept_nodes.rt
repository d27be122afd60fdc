//! One node that keeps its frames on a disk in memory. It is started twice, by the words of the program and by the
//! calls for one node, and each call of the disk fails in turn.
use super::{sink_of, words_of};
use acceptor_journal::MemDisk;
use route_io::{MemLink, MemSource};
use route_node::{restore, serve_kept};
use routing_commands::run::run;
use schedule_file::parse_topology;
use std::alloc::Global;
use std::rc::Rc;
use std::test::Fail;
use topology::{FrameFault, NodeId, Status, Topology};

const TWO: &str = "\
node 1
node 2
link 1 2 any
prefix 10.0.0.0/8
";

// Asks node 2 to announce the prefix, and in its second run to withdraw it.
const ANNOUNCE: &[u8] = b"\x01\x01\x00\x00\x00\x02\x00\x00";

const TAKE_BACK: &[u8] = b"\x01\x02\x00\x00\x00\x02\x00\x00";

// What it then tells node 1: two updates of one session.
const ANNOUNCED: &[u8] =
    b"\x01\x08\x00\x00\x00\x15\x00\x01\x00\x00\x00\x01\x00\x00\x00\x01\x00\x02\x00\x00\x00\x01\x00\x00\x01\x00\x02";

const TAKEN_BACK: &[u8] =
    b"\x01\x08\x00\x00\x00\x13\x00\x01\x00\x00\x00\x01\x00\x00\x00\x02\x00\x02\x00\x00\x00\x02\x00\x00\x00";

// The file after the two runs.
const BOTH_KEPT: &[u8] =
    b"\x01\x00\x00\x00\x08\x01\x01\x00\x00\x00\x02\x00\x00\x01\x00\x00\x00\x08\x01\x02\x00\x00\x00\x02\x00\x00\x00";

// How many calls of the disk the first run makes, and how many both runs make.
const FIRST_CALLS: u64 = 10;

const BOTH_CALLS: u64 = 22;

fn disk_of(alloc: Global, content: &[u8], failing: &[u64]) -> Result<MemDisk, Fail> {
    let content = Vec::from_slice(alloc, content)?;
    Ok(MemDisk::new(alloc, content, Vec::from_slice(alloc, failing)?))
}

fn link_of(alloc: Global, incoming: &[u8], dial_fails: bool) -> Result<MemLink, Fail> {
    let incoming = Vec::from_slice(alloc, incoming)?;
    let room = vec![in alloc; 0; 4096]?;
    let (reads, writes) = (Vec::new(alloc), Vec::new(alloc));
    Ok(MemLink::new(incoming, room, dial_fails, reads, writes))
}

// How the node is started.
enum Way {
    Words,
    Calls,
}

const WAYS: [Way; 2] = [Way::Words, Way::Calls];

// The status of a run of the node with this number, by the words of the program.
fn status_by_words(
    alloc: Global,
    node: &str,
    link: &mut MemLink,
    disk: &mut MemDisk,
) -> Result<Status, Fail> {
    let words = words_of(alloc, &["node", node, "127.0.0.1:1", "journal"])?;
    let mut source = MemSource::new(Vec::from_slice(alloc, TWO.as_bytes())?, Vec::new(alloc));
    let mut sink = sink_of(alloc, 0, &[])?;
    let mut notes = sink_of(alloc, 128, &[])?;
    Ok(run(
        alloc,
        &words,
        &mut source,
        &mut sink,
        &mut notes,
        link,
        disk,
    ))
}

fn network(alloc: Global) -> Result<Rc<Topology>, Fail> {
    match parse_topology(alloc, TWO.as_bytes()) {
        Ok(topology) => Ok(Rc::new(alloc, topology)?),
        Err(_) => Err(Fail::from("a network")),
    }
}

// How node 2 ends, over a link that needs no dial.
fn status_by_calls(alloc: Global, link: &mut MemLink, disk: &mut MemDisk) -> Result<Status, Fail> {
    let id = NodeId::new(2);
    let network = network(alloc)?;
    if network.rank_of(id).is_none() {
        return Err(Fail::from("node 2"));
    }
    let shared = network.clone()?;
    let kept = match restore(alloc, id, shared, disk, "journal") {
        Ok(kept) => kept,
        Err(status) => return Ok(status),
    };
    Ok(serve_kept(alloc, kept, network, link, disk))
}

// Whether node 2 on this disk, given these bytes, ends like this and sends those bytes.
fn comes_to(
    alloc: Global,
    way: &Way,
    incoming: &[u8],
    disk: &mut MemDisk,
    status: Status,
    outgoing: &[u8],
) -> Result<bool, Fail> {
    let mut link = link_of(alloc, incoming, false)?;
    let answer = match way {
        Way::Words => status_by_words(alloc, "2", &mut link, disk)?,
        Way::Calls => status_by_calls(alloc, &mut link, disk)?,
    };
    Ok(answer == status && link.outgoing() == outgoing)
}

// Whether a second run goes on where the first one ended.
fn goes_on(alloc: Global, way: &Way) -> Result<bool, Fail> {
    let mut disk = disk_of(alloc, b"", &[])?;
    let first = comes_to(alloc, way, ANNOUNCE, &mut disk, Status::Done, ANNOUNCED)?;
    let second = comes_to(alloc, way, TAKE_BACK, &mut disk, Status::Done, TAKEN_BACK)?;
    Ok(first && second && disk.content() == BOTH_KEPT)
}

// Whether the first run answers nothing if this call of the disk fails.
fn fails_first(alloc: Global, way: &Way, call: u64) -> Result<bool, Fail> {
    let mut disk = disk_of(alloc, b"", &[call])?;
    comes_to(alloc, way, ANNOUNCE, &mut disk, Status::DiskFault, b"")
}

// Whether the second run does so, after a first run that succeeded.
fn fails_second(alloc: Global, way: &Way, call: u64) -> Result<bool, Fail> {
    let mut disk = disk_of(alloc, b"", &[call])?;
    let done = comes_to(alloc, way, ANNOUNCE, &mut disk, Status::Done, ANNOUNCED)?;
    let failed = comes_to(alloc, way, TAKE_BACK, &mut disk, Status::DiskFault, b"")?;
    Ok(done && failed)
}

#[test]
fn goes_on_where_it_ended(rt: HostRuntime) -> Result<(), Fail> {
    let alloc = rt.alloc();
    for way in &WAYS {
        assert!(rt; goes_on(alloc, way)?);
    }
    Ok(())
}

#[test]
fn ends_where_a_call_of_the_disk_fails(rt: HostRuntime) -> Result<(), Fail> {
    let alloc = rt.alloc();
    for way in &WAYS {
        for call in 1..=FIRST_CALLS {
            assert!(rt; fails_first(alloc, way, call)?, "{call}");
        }
        for call in FIRST_CALLS + 1..=BOTH_CALLS {
            assert!(rt; fails_second(alloc, way, call)?, "{call}");
        }
    }
    Ok(())
}

// Files whose first record is refused, and the fault: a record without bytes, one with a byte after its frame, a frame
// that is cut off, a frame that only nodes send, and a prefix that does not exist.
const REFUSED: [(&[u8], FrameFault); 5] = [
    (b"\x01\x00\x00\x00\x00\x00", FrameFault::Length),
    (
        b"\x01\x00\x00\x00\x07\x01\x06\x00\x00\x00\x00\x00\x00",
        FrameFault::Length,
    ),
    (
        b"\x01\x00\x00\x00\x05\x01\x06\x00\x00\x00\x00",
        FrameFault::Length,
    ),
    (
        b"\x01\x00\x00\x00\x0b\x01\x13\x00\x00\x00\x05\x00\x00\x00\x01\x01\x00",
        FrameFault::Direction,
    ),
    (
        b"\x01\x00\x00\x00\x08\x01\x01\x00\x00\x00\x02\x00\x01\x00",
        FrameFault::Name,
    ),
];

// Whether the file is refused at its first record with this fault, and left unchanged.
fn refuses(alloc: Global, way: &Way, file: &[u8], fault: FrameFault) -> Result<bool, Fail> {
    let mut disk = disk_of(alloc, file, &[])?;
    let status = Status::BadJournal(0, fault);
    let refused = comes_to(alloc, way, ANNOUNCE, &mut disk, status, b"")?;
    Ok(refused && disk.content() == file)
}

#[test]
fn leaves_a_file_that_is_refused_as_it_was(rt: HostRuntime) -> Result<(), Fail> {
    let alloc = rt.alloc();
    for way in &WAYS {
        for (file, fault) in REFUSED {
            assert!(rt; refuses(alloc, way, file, fault)?, "{file:?}");
        }
    }
    Ok(())
}

// Whether a run of the node with this number, whose dial may fail, ends like this, and leaves this of a file with a
// torn gate.
fn leaves(
    alloc: Global,
    node: &str,
    dial_fails: bool,
    status: Status,
    file: &[u8],
) -> Result<bool, Fail> {
    let mut disk = disk_of(alloc, b"\x07", &[])?;
    let mut link = link_of(alloc, ANNOUNCE, dial_fails)?;
    let answer = status_by_words(alloc, node, &mut link, &mut disk)?;
    Ok(answer == status && disk.content() == file)
}

#[test]
fn opens_the_file_behind_the_number_and_before_the_dial(rt: HostRuntime) -> Result<(), Fail> {
    let alloc = rt.alloc();
    let none = Status::NoSuchNode(NodeId::new(3));
    assert!(rt; leaves(alloc, "3", false, none, b"\x07")?);
    assert!(rt; leaves(alloc, "2", true, Status::LinkFault, b"\x00")?);
    Ok(())
}
