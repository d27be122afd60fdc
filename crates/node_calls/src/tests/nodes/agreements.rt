//! The only consolidator of a network, which hears the messages that it sends to itself.
use super::super::networks::APART;
use super::desk::Desk;
use consolidator::Message;
use incomplete_closure::{RespondingNodes, Value};
use node_core::{Input, Node, Stop};
use path_vector::ShortestAll;
use std::alloc::Global;
use std::process::Abort;
use std::test::Fail;
use topology::limits::MOST_TRIGGERS;
use topology::{Ballot, Epoch, LimitKind, NodeId, Trigger, Triggers};

// What is done at node 1, and what it hands out, or why it does nothing. Each message that it sends gets the next
// number, from 1, and later arrives by that number. Decisions of others come from node 2, with a value to which only
// node 1 responded. By hand: the agreement on epoch 1, with its table; a cut that comes after its decision; an older
// epoch, which is decided after a newer one was published.
const ALONE: &str = "\
originate 0 | logged 1
snap | cut 1; 1 to 1: report 1 of 1 with 1
propose 1 | idle NoReport
hear 1 |
hear 1 | idle Duplicate
propose 1 | 2 to 1: prepare 1 1/1
hear 2 | 3 to 1: promise 1 1/1 -
hear 2 | idle Promised(Ballot { round: 1, node: NodeId(1) })
hear 3 | 4 to 1: accept 1 1/1 1
hear 3 | idle StaleBallot
hear 4 | 5 to 1: accepted 1 1/1
hear 4 | idle Duplicate
hear 5 | 6 to 1: decision 1 1; 7 to 2: decision 1 1
hear 5 | idle Duplicate
hear 6 | published 1 with 1
hear 6 | idle Decided
hear 1 | idle Decided
propose 1 | idle Decided
control 2 decision 3 1/1 1 |
withdraw 0 | logged 2
snap | cut 2; 8 to 1: report 2 of 1 with 2
snap | cut 3; 9 to 1: report 3 of 1 with 2; published 3 with 0
control 2 decision 2 1/1 1 |
snap | cut 4; 10 to 1: report 4 of 1 with 2
hear 10 |
propose 4 | 11 to 1: prepare 4 1/1
hear 11 | 12 to 1: promise 4 1/1 -
";

// After a crash between the report and the ballot.
const FORGOTTEN: &str = "\
hear 12 | idle StaleBallot
propose 4 | idle NoReport
hear 10 |
propose 4 | 13 to 1: prepare 4 2/1
hear 11 | idle Promised(Ballot { round: 1, node: NodeId(1) })
hear 13 | 14 to 1: promise 4 2/1 -
";

// A message, and whether node 1 admits it: its sender, its kind, its epoch, a ballot or the node of a report, and the
// nodes of a value. Node 1 is the only consolidator, node 2 is the other node.
const FITTING: &str = "\
control 1 prepare 1 1/1 -: yes
control 2 prepare 1 1/1 -: no
control 1 prepare 0 1/1 -: no
control 1 prepare 33 1/1 -: no
control 1 prepare 32 0/1 -: no
control 1 prepare 32 1/3 -: no
control 1 promise 1 1/1 -: yes
control 1 promise 1 1/1 2: yes
control 1 promise 1 1/1 3: no
control 1 accept 1 1/2 12: yes
control 1 accept 1 1/2 21: no
control 1 accept 1 1/2 11: no
control 1 accept 1 1/2 123: no
control 2 accepted 1 1/1 -: no
control 2 decision 1 1/1 2: yes
control 3 decision 1 1/1 2: no
control 1 report 1 0/1 -: yes
control 2 report 1 0/2 -: yes
control 2 report 1 0/1 -: no
control 1 report 0 0/1 -: no
";

// The node asks for promises of the first ballot on epoch 1.
const PROPOSING: &str = "\
snap | cut 1; 1 to 1: report 1 of 1 with 0
hear 1 |
propose 1 | 2 to 1: prepare 1 1/1
";

// What it keeps at the end: the decisions of epochs 1, 2 and 3, and the tables of 1 and 3.
fn views(rt: &impl Abort, node: &Node<ShortestAll>) {
    for (epoch, decided, table) in [
        (1, true, true),
        (2, true, false),
        (3, true, true),
        (4, false, false),
    ] {
        let epoch = Epoch::new(epoch);
        assert!(rt; node.decision(epoch).is_some() == decided);
        assert!(rt; node.tables().of(epoch).is_some() == table);
    }
    match node.tables().newest() {
        Some(table) => assert_eq!(rt; table.epoch(), Epoch::new(3)),
        None => assert!(rt; false),
    }
}

// So many triggers of node 1.
fn triggers_of(alloc: Global, count: u32) -> Result<Triggers, Fail> {
    let mut triggers = Vec::new(alloc);
    for place in 0..count {
        triggers.push(Trigger {
            node: NodeId::new(1),
            count: place + 1,
        })?;
    }
    Ok(Triggers::new(triggers)?.ok_or("triggers that ascend")?)
}

// The first ballot of node 1.
fn first_ballot() -> Ballot {
    Ballot {
        round: 1,
        node: NodeId::new(1),
    }
}

// A promise of the first ballot on epoch 1, which names a value with this many incomplete triggers.
fn promise_of(alloc: Global, count: u32) -> Result<Input, Fail> {
    let incomplete = triggers_of(alloc, count)?;
    let value = Value {
        responding: RespondingNodes::new(Vec::new(alloc)),
        incomplete,
    };
    let message = Message::Promise {
        epoch: Epoch::new(1),
        ballot: first_ballot(),
        named: Some((first_ballot(), value)),
    };
    Ok(Input::Control {
        from: NodeId::new(1),
        message,
    })
}

// What the node does with such a promise: it proposes the value, or stops.
fn proposes(rt: &impl Abort, alloc: Global, count: u32, stop: Option<Stop>) -> Result<(), Fail> {
    let promise = promise_of(alloc, count)?;
    let mut desk = Desk::new(rt, alloc, APART, 1)?;
    desk.run(rt, alloc, PROPOSING)?;
    desk.stops(rt, promise, stop)
}

#[test]
fn how_large_a_value_may_be(rt: HostRuntime) -> Result<(), Fail> {
    proposes(&rt, rt.alloc(), MOST_TRIGGERS, None)?;
    let limit = Stop::Limit(LimitKind::Triggers, MOST_TRIGGERS);
    proposes(&rt, rt.alloc(), MOST_TRIGGERS + 1, Some(limit))
}

#[test]
fn what_a_consolidator_admits(rt: HostRuntime) -> Result<(), Fail> {
    let mut desk = Desk::new(&rt, rt.alloc(), APART, 1)?;
    desk.admits(&rt, rt.alloc(), FITTING)
}

#[test]
fn a_consolidator_alone(rt: HostRuntime) -> Result<(), Fail> {
    let mut desk = Desk::new(&rt, rt.alloc(), APART, 1)?;
    desk.run(&rt, rt.alloc(), ALONE)?;
    desk.forget();
    desk.run(&rt, rt.alloc(), FORGOTTEN)?;
    views(&rt, desk.node()?);
    Ok(())
}
