//! Histories of one node, with their best path, offers and order worked out by hand.
use super::state_of;
use crate::tests::making::{network, node, nodes_in, number, split};
use path_vector::{Cause, GaoRexford, Policy, RouteState, ShortestAll};
use std::alloc::Global;
use std::process::Abort;
use std::test::Fail;
use topology::{NodeId, Path, PrefixId, Relation, Scope, Session, Topology};

const NODE: u16 = 10;

// Node 10 and its neighbours: 1 is its customer, 2 its provider, 3 its peer, and 4 has relation `Any`.
fn star(alloc: Global) -> Result<Box<Topology>, Fail> {
    let links = [
        (NODE, 1, Relation::Customer),
        (2, NODE, Relation::Customer),
        (3, NODE, Relation::Peer),
        (NODE, 4, Relation::Any),
    ];
    network(alloc, &[NODE, 4, 3, 2, 1], &links, 1)
}

// The entries of node 10; then, for `GaoRexford`, its best path, the neighbours that are told of it, and the order of
// all neighbours; then the same for `ShortestAll`. An entry is its kind, its neighbour, a session or a preference, and
// a path.
const HISTORIES: &str = "- | - - 1,2,3,4 | - - 1,2,3,4
recv 1 1 1,9; recv 2 1 2,9 | 10,1,9 1,2,3,4 1,2,3,4 | 10,1,9 1,2,3,4 1,2,3,4
recv 1 1 1,8,9; recv 2 1 2,9 | 10,2,9 1,4 2,1,3,4 | 10,2,9 1,2,3,4 2,1,3,4
recv 1 1 1,9; recv 3 1 3,7,8,9; prefer 3 200 - | 10,3,7,8,9 1,4 3,1,2,4 | 10,1,9 1,2,3,4 1,3,2,4
recv 4 1 4,9; recv 3 1 3,9; recv 3 1 - | 10,4,9 1,2,3,4 4,1,2,3 | 10,4,9 1,2,3,4 4,1,2,3
recv 2 1 2,10,9 | - - 1,2,3,4 | - - 1,2,3,4
recv 1 1 1,9; originate 0 0 - | 10 1,2,3,4 1,2,3,4 | 10 1,2,3,4 1,2,3,4
originate 0 0 -; withdraw 0 0 -; recv 3 1 3,9 | 10,3,9 1,4 3,1,2,4 | 10,3,9 1,2,3,4 3,1,2,4
recv 1 1 1,9; recv 2 1 2,8,9; down 1 1 - | 10,2,8,9 1,4 2,1,3,4 | 10,2,8,9 1,2,3,4 2,1,3,4
prefer 2 50 -; recv 2 1 2,7; down 2 1 -; up 2 2 -; ready 2 2 -; recv 2 1 2,6; recv 2 2 2,9; recv 3 1 3,9 \
| 10,3,9 1,4 3,2,1,4 | 10,2,9 1,2,3,4 2,3,1,4";

fn cause(alloc: Global, text: &str) -> Result<Cause, Fail> {
    let (kind, rest) = split(text, ' ')?;
    let (nbr, rest) = split(rest, ' ')?;
    let (word, path) = split(rest, ' ')?;
    let nbr = node(nbr)?;
    let value = number(word)?;
    let session = Session::new(value);
    Ok(match kind {
        "originate" => Cause::Originate,
        "withdraw" => Cause::Withdraw,
        "down" => Cause::Down { nbr, session },
        "up" => Cause::Up { nbr, session },
        "ready" => Cause::Ready { nbr, session },
        "prefer" => Cause::Prefer { nbr, value },
        _ => Cause::Recv {
            from: nbr,
            session,
            seq: 1,
            path: Path::new(nodes_in(alloc, path)?)?,
        },
    })
}

fn scope(cause: &Cause) -> Scope {
    match cause {
        Cause::Originate | Cause::Withdraw | Cause::Recv { .. } => Scope::One(PrefixId::new(0)),
        _ => Scope::All,
    }
}

fn nodes_of<'a>(path: Option<&'a Path>) -> &'a [NodeId] {
    match path {
        Some(path) => path.nodes(),
        None => &[],
    }
}

// Takes the entries.
fn enter<P: Policy + Copy>(
    alloc: Global,
    state: &mut RouteState<P>,
    entries: &str,
) -> Result<(), Fail> {
    for text in entries.split(';') {
        if text != "-" {
            let cause = cause(alloc, text.trim())?;
            state.apply(scope(&cause), &cause)?;
        }
    }
    Ok(())
}

// The best path, and the neighbours that it is offered to.
fn goes<P: Policy + Copy>(
    rt: &impl Abort,
    alloc: Global,
    state: &RouteState<P>,
    best: &[NodeId],
    told: &[NodeId],
) -> Result<(), Fail> {
    let prefix = PrefixId::new(0);
    let mut last = None;
    let chosen = state.chosen(prefix, &mut last)?;
    assert!(rt; nodes_of(chosen.path.as_ref()) == best);
    for nbr in 1..5 {
        let nbr = NodeId::new(nbr);
        let offered: &[NodeId] = if told.contains(&nbr) { best } else { &[] };
        assert!(rt;
            nodes_of(state.offered_path(&chosen, nbr)) == offered,
            "to {nbr:?}"
        );
    }
    Ok(())
}

fn is_in_order<P: Policy + Copy>(
    rt: &impl Abort,
    state: &RouteState<P>,
    order: &[NodeId],
) -> Result<(), Fail> {
    let found = state.order(PrefixId::new(0))?;
    assert!(rt; found.as_slice() == order);
    Ok(())
}

fn shows<P: Policy + Copy>(
    rt: &impl Abort,
    alloc: Global,
    state: &RouteState<P>,
    wanted: &str,
) -> Result<(), Fail> {
    let (best, rest) = split(wanted, ' ')?;
    let (told, order) = split(rest, ' ')?;
    let best = nodes_in(alloc, best)?;
    let told = nodes_in(alloc, told)?;
    goes(rt, alloc, state, &best, &told)?;
    is_in_order(rt, state, &nodes_in(alloc, order)?)
}

// What a state of this policy shows after the entries.
fn holds<P: Policy + Copy>(
    rt: &impl Abort,
    alloc: Global,
    net: &Topology,
    policy: P,
    entries: &str,
    wanted: &str,
) -> Result<(), Fail> {
    let mut state = state_of(alloc, net, NODE, policy)?;
    enter(alloc, &mut state, entries)?;
    shows(rt, alloc, &state, wanted)
}

fn both_hold(rt: &impl Abort, alloc: Global, net: &Topology, line: &str) -> Result<(), Fail> {
    let (entries, rest) = split(line, '|')?;
    let (first, second) = split(rest, '|')?;
    holds(rt, alloc, net, GaoRexford, entries.trim(), first.trim())?;
    holds(rt, alloc, net, ShortestAll, entries.trim(), second.trim())
}

fn all_hold(rt: &impl Abort, alloc: Global, net: &Topology) -> Result<(), Fail> {
    for line in HISTORIES.lines() {
        both_hold(rt, alloc, net, line)?;
    }
    Ok(())
}

#[test]
fn histories_at_both_policies(rt: HostRuntime) -> Result<(), Fail> {
    let net = star(rt.alloc())?;
    all_hold(&rt, rt.alloc(), &net)
}
