//! Calls of `trigger_log`: what a node enters, and what each entry sends.
use super::entering::{appended, log_of, shorter};
use super::making::{Items, are_items, is_alone, network, path_of, trigger};
use path_vector::{Cause, GaoRexford, Policy, ShortestAll};
use std::alloc::Global;
use std::process::Abort;
use std::test::Fail;
use topology::{NodeId, PrefixId, Relation, Scope, Session, Topology, Trigger};
use trigger_log::NodeLog;

// What happens at node 2: it receives an update of the first prefix from a neighbour in a session, for a trigger of the
// neighbour with this counter; it starts to originate the second prefix; a session ends; it opens a session; the other
// end opens it too.
#[derive(Clone, Copy)]
enum LogAct {
    Hear(u16, u32, u32),
    Begin,
    Close(u16, u32),
    Open(u16, u32),
    Greet(u16, u32),
}

// Node 2 has the peers 1 and 3 and the customer 4. Each act has the items that it sends: first if peers are told
// nothing of peers, then if everybody is told everything. Worked out by hand.
const ACTS: [(LogAct, Items, Items); 9] = [
    // the path of a peer: only to the customer, or to all
    (
        LogAct::Hear(1, 1, 1),
        &[(4, 1, 1)],
        &[(1, 1, 1), (3, 1, 1), (4, 1, 1)],
    ),
    // the own second prefix: to all
    (
        LogAct::Begin,
        &[(1, 1, 1), (3, 1, 1), (4, 1, 2)],
        &[(1, 1, 2), (3, 1, 2), (4, 1, 2)],
    ),
    // the session ends with a close, and the path of the peer is withdrawn from everybody who knew it
    (
        LogAct::Close(1, 1),
        &[(1, 1, 2), (4, 1, 3)],
        &[(1, 1, 3), (3, 1, 3), (4, 1, 3)],
    ),
    (LogAct::Open(1, 2), &[], &[]),
    // the own prefix, numbered anew
    (LogAct::Greet(1, 2), &[(1, 2, 1)], &[(1, 2, 1)]),
    (
        LogAct::Hear(1, 2, 2),
        &[(4, 1, 4)],
        &[(1, 2, 2), (3, 1, 4), (4, 1, 4)],
    ),
    (
        LogAct::Close(1, 2),
        &[(1, 2, 2), (4, 1, 5)],
        &[(1, 2, 3), (3, 1, 5), (4, 1, 5)],
    ),
    (LogAct::Open(1, 3), &[], &[]),
    // nobody else had opened it, so there is no close
    (LogAct::Close(1, 3), &[], &[]),
];

fn star(alloc: Global) -> Result<Box<Topology>, Fail> {
    let links = [
        (2, 1, Relation::Peer),
        (2, 3, Relation::Peer),
        (2, 4, Relation::Customer),
    ];
    network(alloc, &[1, 2, 3, 4], &links, 2)
}

// The path of an update is just its neighbour, which is the origin.
fn cause_of(alloc: Global, act: LogAct) -> Result<(Scope, Cause), Fail> {
    let (from, session) = match act {
        LogAct::Begin => return Ok((Scope::One(PrefixId::new(1)), Cause::Originate)),
        LogAct::Hear(from, session, _) => (from, session),
        LogAct::Close(from, session) => (from, session),
        LogAct::Open(from, session) => (from, session),
        LogAct::Greet(from, session) => (from, session),
    };
    let nbr = NodeId::new(from);
    let session = Session::new(session);
    let cause = match act {
        LogAct::Close(_, _) => Cause::Down { nbr, session },
        LogAct::Open(_, _) => Cause::Up { nbr, session },
        LogAct::Greet(_, _) => Cause::Ready { nbr, session },
        _ => {
            let path = path_of(alloc, &[from])?;
            let cause = Cause::Recv {
                from: nbr,
                session,
                seq: 1,
                path,
            };
            return Ok((Scope::One(PrefixId::new(0)), cause));
        }
    };
    Ok((Scope::All, cause))
}

// An update brings its own trigger; any other entry gets the next one.
fn trigger_of<P: Policy + Copy>(log: &NodeLog<P>, act: LogAct) -> Trigger {
    match act {
        LogAct::Hear(from, _, count) => trigger(from, count),
        _ => log.next_trigger(),
    }
}

// The last entry has this trigger and lists these items.
fn is_last<P: Policy + Copy>(rt: &impl Abort, log: &NodeLog<P>, trigger: &Trigger, items: Items) {
    match log.entry(log.len()) {
        None => assert!(rt; false),
        Some(entry) => {
            is_alone(rt, entry.triggers.as_slice(), trigger);
            are_items(rt, &entry.sent, items, trigger);
        }
    }
}

// The act fits, and its entry lists these items; all of them except a close go out.
fn enter<P: Policy + Copy>(
    rt: &impl Abort,
    alloc: Global,
    net: &Topology,
    log: Box<NodeLog<P>>,
    act: LogAct,
    items: Items,
) -> Result<Box<NodeLog<P>>, Fail> {
    let (scope, cause) = cause_of(alloc, act)?;
    assert!(rt; log.fits(scope, &cause));
    let trigger = trigger_of(&log, act);
    let (log, outgoing) = appended(alloc, net, log, trigger, scope, cause)?;
    assert!(rt; outgoing.len() <= items.len() && items.len() <= outgoing.len() + 1);
    is_last(rt, &log, &trigger, items);
    Ok(log)
}

// What is counted of the sessions at the end.
fn counts<P: Policy + Copy>(rt: &impl Abort, log: &NodeLog<P>, sent: u32) {
    let nbr = NodeId::new(1);
    assert!(rt; log.sent_count(nbr, Session::new(2)) == sent);
    assert!(rt; log.received(nbr, Session::new(2)) == 1);
    assert!(rt; log.held(nbr).is_none());
    assert!(rt; log.ready(NodeId::new(4)));
    assert!(rt; log.sessions().len() == 5);
    assert!(rt; log.kept_from() == 1);
    assert!(rt; log.live().owns(PrefixId::new(1)));
    assert!(rt; log.next_trigger() == trigger(2, 8));
}

// The first two entries are dropped. The others keep their places, and the base is the routes after those two.
fn drops(rt: &impl Abort, log: &NodeLog<GaoRexford>) {
    let nbr = NodeId::new(1);
    let heard = PrefixId::new(0);
    assert!(rt; log.kept_from() == 3);
    assert!(rt; log.len() == 9);
    assert!(rt; log.entries().len() == 7);
    assert!(rt; log.entry(2).is_none());
    assert!(rt; log.entry(3).is_some());
    assert!(rt; log.base().owns(PrefixId::new(1)));
    assert!(rt; log.base().candidate(heard, nbr).is_some());
    assert!(rt; log.live().candidate(heard, nbr).is_none());
}

fn plays<P: Policy + Copy>(
    rt: &impl Abort,
    alloc: Global,
    net: &Topology,
    start: Box<NodeLog<P>>,
    to_all: bool,
) -> Result<Box<NodeLog<P>>, Fail> {
    let mut log = start;
    for (act, few, all) in &ACTS {
        let items = if to_all { *all } else { *few };
        log = enter(rt, alloc, net, log, *act, items)?;
    }
    Ok(log)
}

// After all acts, if peers are told nothing of peers.
fn plays_to_few(rt: &impl Abort, alloc: Global, net: &Topology) -> Result<(), Fail> {
    let log = log_of(alloc, net, 2, GaoRexford)?;
    let log = plays(rt, alloc, net, log, false)?;
    counts(rt, &log, 2);
    let log = shorter(alloc, net, log, 3)?;
    drops(rt, &log);
    Ok(())
}

// After all acts, if everybody is told everything.
fn plays_to_all(rt: &impl Abort, alloc: Global, net: &Topology) -> Result<(), Fail> {
    let log = log_of(alloc, net, 2, ShortestAll)?;
    let log = plays(rt, alloc, net, log, true)?;
    counts(rt, &log, 3);
    Ok(())
}

#[test]
fn sessions_end_and_open_again(rt: HostRuntime) -> Result<(), Fail> {
    let net = star(rt.alloc())?;
    plays_to_few(&rt, rt.alloc(), &net)
}

#[test]
fn everything_is_told_to_all(rt: HostRuntime) -> Result<(), Fail> {
    let net = star(rt.alloc())?;
    plays_to_all(&rt, rt.alloc(), &net)
}
