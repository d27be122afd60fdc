//! A node between two others.
use super::super::networks::{HOLDING_LINE, LINE};
use super::desk::Desk;
use marker_snapshot::Recording;
use node_core::{Input, Node, Stop, laws};
use path_vector::ShortestAll;
use std::process::Abort;
use std::test::Fail;
use topology::{Epoch, LimitKind, NodeId, Session};

// What is done at node 2, between the nodes 1 and 3. By hand: updates that are out of turn, or of a session that is not
// held, are idle; a node that is no consolidator does not propose, but each node hears decisions, and publishes its
// table of an epoch of which it has a cut, without paths through nodes that did not respond.
const STARTED: &str = "\
originate 1 | logged 1; update 1 1 1; update 3 1 1
originate 1 | idle AlreadyOrigin
withdraw 0 | idle NotOrigin
update 1 1 2 1 | idle WrongSeq { expected: 1, got: 2 }
update 1 2 1 1 | idle WrongSession
update 1 1 1 1 | logged 2; update 1 1 2; update 3 1 2
update 1 1 1 1 | idle WrongSeq { expected: 2, got: 1 }
open 1 2 | idle AlreadyOpen
snap | cut 1; marker 1 1 1; marker 3 1 1
propose 1 | idle NotConsolidator
control 3 decision 3 1/1 2 |
control 3 decision 1 1/1 2 | published 1 with 0
control 3 decision 1 1/1 2 | idle Decided
";

// The path of the higher neighbour is no better. The session with node 1 ends, so the other path is told. Both open the
// next session, and a marker goes out in each held session, ready or not.
const BROKEN: &str = "\
update 3 1 1 3 | logged 3
notice 1 | logged 4; update 3 1 3
notice 1 | idle NotOpen
marker 1 1 2 | idle WrongSession
hello 1 2 2 | idle WrongSession
open 1 1 | idle OldSession
open 1 2 | logged 5; hello 1 2 1
snap | cut 2; marker 1 2 2; marker 3 1 2
";

// A greeting of a higher epoch raises the epoch before it makes the session ready, and both prefixes are told. Epoch 3
// was skipped: it has no cut, and never a table. A mark that is not higher, and a second greeting, hand out nothing.
// The last update leaves no path.
const READY: &str = "\
hello 1 2 4 | cut 4; marker 1 2 4; marker 3 1 4; logged 6; update 1 2 1; update 1 2 2
control 3 decision 4 1/1 2 | published 4 with 0
marker 3 1 3 |
hello 1 2 4 |
withdraw 1 | logged 7; update 1 2 3; update 3 1 4
prefer 3 200 | logged 8
update 3 1 2 - | logged 9; update 1 2 4; update 3 1 5
marker 3 1 32 | cut 32; marker 1 2 32; marker 3 1 32
marker 1 2 32 |
";

// Node 2 holds back from node 1. Changes go to node 3 at once, and to node 1 at a flush, as one update for each prefix.
// A session that ends holds nothing back any more.
const HOLDING: &str = "\
flush 1 | idle NothingPending
originate 1 | logged 1; update 3 1 1
withdraw 1 | logged 2; update 3 1 2
update 3 1 1 3 | logged 3; update 3 1 3
flush 3 | idle NothingPending
flush 1 | logged 4; update 1 1 1; update 1 1 2
flush 1 | idle NothingPending
originate 1 | logged 5; update 3 1 4
snap | cut 1; marker 1 1 1; marker 3 1 1
notice 1 | logged 6
flush 1 | idle NotOpen
";

// What node 2 admits, and what it does not.
const FITTING: &str = "\
originate 1: yes
originate 2: no
withdraw 0: yes
withdraw 2: no
prefer 3 1000000: yes
prefer 3 1000001: no
prefer 2 1: no
update 1 1 1 13: yes
update 1 1 1 -: yes
update 1 0 1 1: no
update 1 1 0 1: no
update 1 1 1 31: no
update 1 1 1 14: no
update 4 1 1 4: no
marker 1 1 1: yes
marker 1 1 0: no
marker 1 1 33: no
hello 1 1 0: yes
hello 1 1 32: yes
hello 1 1 33: no
hello 2 1 1: no
notice 3: yes
notice 2: no
flush 3: yes
flush 2: no
open 3 1: yes
open 3 0: no
snap: yes
propose 1: yes
propose 32: yes
propose 0: no
propose 33: no
control 3 decision 1 1/1 2: yes
control 3 decision 33 1/1 2: no
";

// The cuts at the end: how many entries each has.
fn cuts(rt: &impl Abort, node: &Node<ShortestAll>) {
    assert_eq!(rt; node.id(), NodeId::new(2));
    assert_eq!(rt; node.log().len(), 9);
    let snapshots = node.snapshots();
    assert_eq!(rt; snapshots.epoch(), Epoch::new(32));
    for (epoch, entries) in [
        (1, Some(2)),
        (2, Some(5)),
        (3, None),
        (4, Some(5)),
        (32, Some(9)),
    ] {
        assert_eq!(rt; snapshots.cut_of(Epoch::new(epoch)), entries);
    }
}

// What was recorded of node 3 and of node 1 after the cut of epoch 1.
fn recordings(rt: &impl Abort, node: &Node<ShortestAll>) {
    let snapshots = node.snapshots();
    let one = Recording {
        session: Session::new(1),
        first: 1,
        count: 1,
        done: true,
    };
    assert_eq!(rt;
        snapshots.recorded(Epoch::new(1), NodeId::new(3)),
        Some(one)
    );
    let none = Recording {
        session: Session::new(1),
        first: 0,
        count: 0,
        done: false,
    };
    assert_eq!(rt;
        snapshots.recorded(Epoch::new(1), NodeId::new(1)),
        Some(none)
    );
}

#[test]
fn one_node_between_two(rt: HostRuntime) -> Result<(), Fail> {
    laws::what_fits_may_come();
    let mut desk = Desk::new(&rt, rt.alloc(), LINE, 2)?;
    for lines in [STARTED, BROKEN, READY] {
        desk.run(&rt, rt.alloc(), lines)?;
    }
    cuts(&rt, desk.node()?);
    recordings(&rt, desk.node()?);
    // one more epoch than allowed
    let stop = Stop::Limit(LimitKind::Epochs, 32);
    desk.stops(&rt, Input::Snap, Some(stop))
}

#[test]
fn one_node_holds_back_from_another(rt: HostRuntime) -> Result<(), Fail> {
    let mut desk = Desk::new(&rt, rt.alloc(), HOLDING_LINE, 2)?;
    desk.run(&rt, rt.alloc(), HOLDING)?;
    let node = desk.node()?;
    assert!(rt; node.log().pending().is_empty());
    assert!(rt; node.check_marks().is_ok());
    Ok(())
}

#[test]
fn what_a_node_admits(rt: HostRuntime) -> Result<(), Fail> {
    let mut desk = Desk::new(&rt, rt.alloc(), LINE, 2)?;
    desk.admits(&rt, rt.alloc(), FITTING)
}
