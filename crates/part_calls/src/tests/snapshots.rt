//! Calls of `marker_snapshot`: the cuts of a node, and what it records after each of them.
use super::entering::{appended, log_of};
use super::making::{STAR, network};
use marker_snapshot::{Recording, Snapshots};
use path_vector::{Cause, GaoRexford};
use std::alloc::Global;
use std::process::Abort;
use std::test::Fail;
use topology::{Epoch, NodeId, Scope, Session, Topology};
use trigger_log::NodeLog;

// What happens at node 2, or what is read from its snapshots.
#[derive(Clone, Copy)]
enum SnapshotAct {
    // the session with a neighbour ends, or is opened
    Close(u16, u32),
    Open(u16, u32),
    // the cut of an epoch is taken
    Take(u32),
    // a mark of an epoch, or the update with a number, comes from a neighbour in a session
    Mark(u16, u32, u32),
    Update(u16, u32, u32),
    // the epoch, and how many entries the cut of an epoch has
    Epoch(u32),
    Cut(u32, Option<u32>),
    // for an epoch and a neighbour: the session, the first number, how many, and whether the recording is finished
    Recorded(u32, u16, u32, u32, u32, bool),
    // there is no recording of the epoch with the neighbour
    Nothing(u32, u16),
}

// Node 2 has the neighbours 1, 3 and 4. By hand.
const ACTS: [SnapshotAct; 49] = [
    // nothing is recorded before the first cut
    SnapshotAct::Mark(1, 1, 0),
    SnapshotAct::Update(1, 1, 1),
    SnapshotAct::Epoch(0),
    SnapshotAct::Cut(0, None),
    SnapshotAct::Cut(1, None),
    SnapshotAct::Nothing(1, 1),
    // a session that the other end has not opened is held, and recorded too
    SnapshotAct::Close(4, 1),
    SnapshotAct::Open(4, 2),
    SnapshotAct::Take(1),
    SnapshotAct::Epoch(1),
    SnapshotAct::Cut(1, Some(2)),
    SnapshotAct::Recorded(1, 1, 1, 0, 0, false),
    SnapshotAct::Recorded(1, 4, 2, 0, 0, false),
    // the mark that raised the epoch ends the recording of its own session at once
    SnapshotAct::Mark(3, 1, 1),
    SnapshotAct::Recorded(1, 3, 1, 0, 0, true),
    SnapshotAct::Recorded(1, 1, 1, 0, 0, false),
    SnapshotAct::Update(3, 1, 1),
    SnapshotAct::Recorded(1, 3, 1, 0, 0, true),
    // the first number stays, the count goes on
    SnapshotAct::Update(1, 1, 2),
    SnapshotAct::Recorded(1, 1, 1, 2, 1, false),
    SnapshotAct::Update(1, 1, 3),
    SnapshotAct::Recorded(1, 1, 1, 2, 2, false),
    // a mark of a lower epoch ends nothing, and neither does anything in another session
    SnapshotAct::Mark(1, 1, 0),
    SnapshotAct::Recorded(1, 1, 1, 2, 2, false),
    SnapshotAct::Mark(4, 1, 1),
    SnapshotAct::Update(4, 1, 1),
    SnapshotAct::Recorded(1, 4, 2, 0, 0, false),
    // an epoch that is skipped has no cut
    SnapshotAct::Close(3, 1),
    SnapshotAct::Take(3),
    SnapshotAct::Epoch(3),
    SnapshotAct::Cut(1, Some(2)),
    SnapshotAct::Cut(2, None),
    SnapshotAct::Cut(3, Some(3)),
    SnapshotAct::Nothing(2, 1),
    // a session that the cut does not hold is not recorded
    SnapshotAct::Nothing(3, 3),
    // an update counts in each unfinished recording
    SnapshotAct::Update(1, 1, 4),
    SnapshotAct::Recorded(1, 1, 1, 2, 3, false),
    SnapshotAct::Recorded(3, 1, 1, 4, 1, false),
    // a mark of a higher epoch ends the recordings of lower epochs, and no others
    SnapshotAct::Mark(1, 1, 2),
    SnapshotAct::Update(1, 1, 5),
    SnapshotAct::Recorded(1, 1, 1, 2, 3, true),
    SnapshotAct::Recorded(3, 1, 1, 4, 2, false),
    // one mark ends the recordings of all epochs up to its own
    SnapshotAct::Mark(4, 2, 7),
    SnapshotAct::Recorded(1, 4, 2, 0, 0, true),
    SnapshotAct::Recorded(3, 4, 2, 0, 0, true),
    SnapshotAct::Mark(1, 1, 3),
    SnapshotAct::Update(1, 1, 6),
    SnapshotAct::Recorded(1, 1, 1, 2, 3, true),
    SnapshotAct::Recorded(3, 1, 1, 4, 2, true),
];

type Log = Box<NodeLog<GaoRexford>>;

fn enter(alloc: Global, net: &Topology, log: Log, cause: Cause) -> Result<Log, Fail> {
    let trigger = log.next_trigger();
    let (log, _outgoing) = appended(alloc, net, log, trigger, Scope::All, cause)?;
    Ok(log)
}

// The log after a session ended or was opened.
fn changed(alloc: Global, net: &Topology, log: Log, act: SnapshotAct) -> Result<Log, Fail> {
    match act {
        SnapshotAct::Close(nbr, session) => {
            let nbr = NodeId::new(nbr);
            let session = Session::new(session);
            enter(alloc, net, log, Cause::Down { nbr, session })
        }
        SnapshotAct::Open(nbr, session) => {
            let nbr = NodeId::new(nbr);
            let session = Session::new(session);
            enter(alloc, net, log, Cause::Up { nbr, session })
        }
        _ => Ok(log),
    }
}

// The snapshots after the cut of an epoch was taken.
fn taken(
    net: &Topology,
    log: &NodeLog<GaoRexford>,
    snapshots: Snapshots,
    act: SnapshotAct,
) -> Result<Snapshots, Fail> {
    match act {
        SnapshotAct::Take(epoch) => Ok(snapshots.take(Epoch::new(epoch), log, net)?),
        _ => Ok(snapshots),
    }
}

fn hears(snapshots: &mut Snapshots, act: SnapshotAct) {
    match act {
        SnapshotAct::Mark(nbr, session, epoch) => {
            snapshots.on_marker(NodeId::new(nbr), Session::new(session), Epoch::new(epoch))
        }
        SnapshotAct::Update(nbr, session, seq) => {
            snapshots.on_update(NodeId::new(nbr), Session::new(session), seq)
        }
        _ => {}
    }
}

fn reads(rt: &impl Abort, snapshots: &Snapshots, act: SnapshotAct) {
    match act {
        SnapshotAct::Epoch(epoch) => assert!(rt; snapshots.epoch() == Epoch::new(epoch)),
        SnapshotAct::Cut(epoch, entries) => assert!(rt;
            snapshots.cut_of(Epoch::new(epoch)) == entries
        ),
        SnapshotAct::Recorded(epoch, nbr, session, first, count, done) => {
            let session = Session::new(session);
            let recording = Recording {
                session,
                first,
                count,
                done,
            };
            let read = snapshots.recorded(Epoch::new(epoch), NodeId::new(nbr));
            assert!(rt; read == Some(recording));
        }
        SnapshotAct::Nothing(epoch, nbr) => {
            let read = snapshots.recorded(Epoch::new(epoch), NodeId::new(nbr));
            assert!(rt; read.is_none());
        }
        _ => {}
    }
}

fn plays(rt: &impl Abort, alloc: Global, net: &Topology, start: Log) -> Result<(), Fail> {
    let mut log = start;
    let mut snapshots = Snapshots::new(alloc);
    for act in &ACTS {
        log = changed(alloc, net, log, *act)?;
        snapshots = taken(net, &log, snapshots, *act)?;
        hears(&mut snapshots, *act);
        reads(rt, &snapshots, *act);
    }
    Ok(())
}

#[test]
fn cuts_are_taken_and_updates_recorded(rt: HostRuntime) -> Result<(), Fail> {
    let net = network(rt.alloc(), &[1, 2, 3, 4], &STAR, 0)?;
    let log = log_of(rt.alloc(), &net, 2, GaoRexford)?;
    plays(&rt, rt.alloc(), &net, log)
}
