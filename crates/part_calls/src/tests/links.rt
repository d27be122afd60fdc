//! Calls of `link_model`: what is on its way over links that fail and come up again.
use super::making::network;
use link_model::{LinkState, Links, WaySet};
use std::alloc::Global;
use std::process::Abort;
use std::test::Fail;
use topology::{Epoch, Item, NodeId, Relation, Session};

// An act on the links, with its expected answer.
#[derive(Clone, Copy)]
enum LinkAct {
    // from one node to another, in a session, an item with this number: whether it is queued
    Push(u16, u16, u32, u32, bool),
    // the number of the oldest item from one node to another
    Front(u16, u16, Option<u32>),
    // the same, and the item is removed
    Take(u16, u16, Option<u32>),
    // whether the call did anything
    Fail(u16, u16, bool),
    Restore(u16, u16, bool),
    // whether the link of two nodes is up, and its session
    State(u16, u16, bool, u32),
    // whether something is on the way from one node to another
    Busy(u16, u16, bool),
}

// The links 1 2 and 2 3, by hand.
const ACTS: [LinkAct; 41] = [
    // the start: session 1, and nothing on its way
    LinkAct::State(1, 2, true, 1),
    LinkAct::State(3, 2, true, 1),
    LinkAct::Front(1, 2, None),
    LinkAct::Take(1, 2, None),
    LinkAct::Busy(1, 2, false),
    // in the session carried, and in another one
    LinkAct::Push(1, 2, 1, 10, true),
    LinkAct::Push(1, 2, 1, 11, true),
    LinkAct::Push(2, 1, 1, 20, true),
    LinkAct::Push(2, 3, 1, 30, true),
    LinkAct::Push(1, 2, 2, 12, false),
    // in order
    LinkAct::Front(1, 2, Some(10)),
    LinkAct::Take(1, 2, Some(10)),
    LinkAct::Front(1, 2, Some(11)),
    LinkAct::Busy(1, 2, true),
    LinkAct::Busy(2, 1, true),
    // a failure loses what is on both ways of its link, happens only once, and both ends see it
    LinkAct::Fail(2, 1, true),
    LinkAct::Fail(1, 2, false),
    LinkAct::State(1, 2, false, 1),
    LinkAct::State(2, 1, false, 1),
    LinkAct::Front(1, 2, None),
    LinkAct::Take(2, 1, None),
    LinkAct::Busy(1, 2, false),
    LinkAct::Busy(2, 1, false),
    LinkAct::Push(1, 2, 1, 13, false),
    LinkAct::Front(2, 3, Some(30)),
    // the next session, only once, without what was lost
    LinkAct::Restore(1, 2, true),
    LinkAct::Restore(2, 1, false),
    LinkAct::State(1, 2, true, 2),
    LinkAct::State(2, 1, true, 2),
    LinkAct::Front(1, 2, None),
    LinkAct::Front(2, 1, None),
    // an item of the old session is lost, one of the new session is queued
    LinkAct::Push(1, 2, 1, 14, false),
    LinkAct::Push(2, 1, 2, 21, true),
    LinkAct::Busy(2, 1, true),
    LinkAct::Take(2, 1, Some(21)),
    LinkAct::Busy(2, 1, false),
    LinkAct::Take(2, 1, None),
    // the other link is not affected
    LinkAct::State(2, 3, true, 1),
    LinkAct::Busy(2, 3, true),
    LinkAct::Take(2, 3, Some(30)),
    LinkAct::Front(3, 2, None),
];

fn number(item: &Item) -> Option<u32> {
    match item {
        Item::Hello(epoch) => Some(epoch.number()),
        Item::Marker(epoch) => Some(epoch.number()),
        Item::Update { .. } => None,
    }
}

fn front(rt: &impl Abort, links: &Links, from: NodeId, to: NodeId, oldest: Option<u32>) {
    match links.front(from, to) {
        Some(item) => assert!(rt; number(item) == oldest),
        None => assert!(rt; oldest.is_none()),
    }
}

fn take(rt: &impl Abort, links: &mut Links, from: NodeId, to: NodeId, oldest: Option<u32>) {
    match links.pop_front(from, to) {
        Some(item) => assert!(rt; number(&item) == oldest),
        None => assert!(rt; oldest.is_none()),
    }
}

fn is(rt: &impl Abort, links: &Links, a: NodeId, b: NodeId, up: bool, session: u32) {
    let session = Session::new(session);
    let state = if up {
        LinkState::Up(session)
    } else {
        LinkState::Down(session)
    };
    assert!(rt; links.state(a, b) == state);
}

fn busy(rt: &impl Abort, links: &Links, from: NodeId, to: NodeId, busy: bool) {
    match links.way_of(from, to) {
        Some(way) => assert!(rt; links.busy().has(way) == busy),
        None => assert!(rt; false),
    }
}

fn play(rt: &impl Abort, links: &mut Links, act: LinkAct) -> Result<(), Fail> {
    match act {
        LinkAct::Push(from, to, session, tag, queued) => {
            let item = Item::Hello(Epoch::new(tag));
            let session = Session::new(session);
            let answer = links.push(NodeId::new(from), NodeId::new(to), session, item)?;
            assert!(rt; answer == queued);
        }
        LinkAct::Front(from, to, oldest) => {
            front(rt, links, NodeId::new(from), NodeId::new(to), oldest)
        }
        LinkAct::Take(from, to, oldest) => take(
            rt,
            links,
            NodeId::new(from),
            NodeId::new(to),
            oldest,
        ),
        LinkAct::Fail(a, b, done) => {
            assert!(rt; links.fail(NodeId::new(a), NodeId::new(b)) == done)
        }
        LinkAct::Restore(a, b, done) => {
            assert!(rt; links.restore(NodeId::new(a), NodeId::new(b)) == done)
        }
        LinkAct::State(a, b, up, session) => {
            is(rt, links, NodeId::new(a), NodeId::new(b), up, session)
        }
        LinkAct::Busy(from, to, is) => busy(rt, links, NodeId::new(from), NodeId::new(to), is),
    }
    Ok(())
}

fn plays(rt: &impl Abort, links: &mut Links) -> Result<(), Fail> {
    for act in &ACTS {
        play(rt, links, *act)?;
    }
    Ok(())
}

fn line(alloc: Global) -> Result<Box<Links>, Fail> {
    let links = [(1, 2, Relation::Any), (2, 3, Relation::Any)];
    let net = network(alloc, &[1, 2, 3], &links, 0)?;
    Ok(Box::new(alloc, Links::new(alloc, &net)?)?)
}

// The ways 1 to 2, 2 to 1, 2 to 3 and 3 to 2 have the numbers 0 to 3.
fn finds(rt: &impl Abort, links: &mut Links, all: &WaySet) -> Result<(), Fail> {
    assert!(rt; links.busy().first_common(all).is_none());
    let item = Item::Hello(Epoch::new(1));
    links.push(NodeId::new(3), NodeId::new(2), Session::new(1), item)?;
    assert!(rt; links.busy().first_common(all) == Some(3));
    Ok(())
}

fn finds_the_first(rt: &impl Abort, alloc: Global, links: &mut Links) -> Result<(), Fail> {
    let all = links.all(alloc)?;
    finds(rt, links, &all)
}

#[test]
fn the_first_busy_way_is_found(rt: HostRuntime) -> Result<(), Fail> {
    let mut links = line(rt.alloc())?;
    finds_the_first(&rt, rt.alloc(), &mut links)
}

#[test]
fn two_sets_of_ways_share_some(rt: HostRuntime) -> Result<(), Fail> {
    let mut ways = WaySet::new(rt.alloc())?;
    let mut others = WaySet::new(rt.alloc())?;
    ways.put(3, true);
    ways.put(64, true);
    ways.put(4_095, true);
    others.put(2, true);
    others.put(64, true);
    others.put(4_095, true);
    assert!(rt; ways.first_common(&others) == Some(64));
    others.put(64, false);
    assert!(rt; ways.first_common(&others) == Some(4_095));
    ways.put(4_095, false);
    assert!(rt; ways.first_common(&others).is_none());
    Ok(())
}

#[test]
fn links_fail_and_come_up(rt: HostRuntime) -> Result<(), Fail> {
    let mut links = line(rt.alloc())?;
    plays(&rt, &mut links)
}
