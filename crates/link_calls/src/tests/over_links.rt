//! Runs of one node over a link in memory that fails or has little room.
use super::{no_disk, sink_of, words_of};
use route_io::{MemLink, MemSink, MemSource, PlainLink, PlainSource};
use route_node::attend_plain;
use routing_commands::run::run;
use std::alloc::Global;
use std::test::Fail;
use topology::{NodeId, Status};

const THREE: &str = "\
node 1
node 2
node 3
link 1 2 any
link 2 3 any
prefix 10.0.0.0/8
";

// Asks node 2 to announce the prefix.
const ANNOUNCE: &[u8] = b"\x01\x01\x00\x00\x00\x02\x00\x00";

// What node 2 of three nodes then tells its neighbours.
const TOLD: &[u8] =
    b"\x01\x08\x00\x00\x00\x15\x00\x01\x00\x00\x00\x01\x00\x00\x00\x01\x00\x02\x00\x00\x00\x01\x00\x00\x01\x00\x02\x01\x08\x00\x00\x00\x15\x00\x03\x00\x00\x00\x01\x00\x00\x00\x01\x00\x02\x00\x00\x00\x01\x00\x00\x01\x00\x02";

// Whether the dial fails, the reads and writes of the link that fail, and what is sent over it. In the last row, the
// first write for the withdrawal fails.
const FAULTS: [(bool, &[u64], &[u64], &[u8]); 3] = [
    (true, &[], &[], b""),
    (false, &[1], &[], b""),
    (false, &[], &[3], TOLD),
];

// Asks node 2 to announce the prefix and to withdraw it.
const THERE_AND_BACK: &[u8] = b"\x01\x01\x00\x00\x00\x02\x00\x00\x01\x02\x00\x00\x00\x02\x00\x00";

fn link_of(
    alloc: Global,
    incoming: &[u8],
    dial: bool,
    reads: &[u64],
    writes: &[u64],
) -> Result<MemLink, Fail> {
    let incoming = Vec::from_slice(alloc, incoming)?;
    let room = vec![in alloc; 0; 4096]?;
    let reads = Vec::from_slice(alloc, reads)?;
    let writes = Vec::from_slice(alloc, writes)?;
    Ok(MemLink::new(incoming, room, dial, reads, writes))
}

// The status of a run of this node of the file's network over the link. The notes are added to `notes`.
fn status_over(
    alloc: Global,
    file: &str,
    node: &str,
    link: &mut MemLink,
    notes: &mut MemSink,
) -> Result<Status, Fail> {
    let words = words_of(alloc, &["node", node, "127.0.0.1:1"])?;
    let content = Vec::from_slice(alloc, file.as_bytes())?;
    let mut source = MemSource::new(content, Vec::new(alloc));
    let mut sink = sink_of(alloc, 0, &[])?;
    let mut disk = no_disk(alloc);
    Ok(run(
        alloc,
        &words,
        &mut source,
        &mut sink,
        notes,
        link,
        &mut disk,
    ))
}

#[test]
fn ends_where_the_link_fails(rt: HostRuntime) -> Result<(), Fail> {
    let alloc = rt.alloc();
    for (dial, reads, writes, outgoing) in FAULTS {
        let mut link = link_of(alloc, THERE_AND_BACK, dial, reads, writes)?;
        let mut notes = sink_of(alloc, 128, &[])?;
        let status = status_over(alloc, THREE, "2", &mut link, &mut notes)?;
        assert_eq!(rt; status, Status::LinkFault, "{reads:?} {writes:?}");
        assert_eq!(rt; link.outgoing(), outgoing, "{reads:?} {writes:?}");
        assert_eq!(rt;
            notes.held(),
            b"link fault\n".as_slice(),
            "{reads:?} {writes:?}"
        );
    }
    Ok(())
}

#[test]
fn fails_over_a_plain_link_only_for_room(rt: HostRuntime) -> Result<(), Fail> {
    let alloc = rt.alloc();
    for (room, status) in [
        (0, Status::LinkFault),
        (TOLD.len() - 1, Status::LinkFault),
        (TOLD.len(), Status::Done),
        (TOLD.len() + 1, Status::Done),
    ] {
        let mut source = PlainSource::new(Vec::from_slice(alloc, THREE.as_bytes())?);
        let incoming = Vec::from_slice(alloc, ANNOUNCE)?;
        let mut link = PlainLink::new(incoming, vec![in alloc; 0; room]?);
        let id = NodeId::new(2);
        let answer = attend_plain(alloc, id, "127.0.0.1:1", &mut source, &mut link);
        assert_eq!(rt; answer, status, "{room}");
        assert!(rt; TOLD.starts_with(link.outgoing()), "{room}");
    }
    Ok(())
}
