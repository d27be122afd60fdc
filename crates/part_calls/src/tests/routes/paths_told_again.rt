//! A neighbour that tells paths again, and the candidates after each update, worked out by hand.
use super::state_of;
use crate::tests::making::{ids, network, path_of};
use path_vector::{Cause, RouteState, ShortestAll};
use std::alloc::Global;
use std::process::Abort;
use std::test::Fail;
use topology::{NodeId, Path, PrefixId, Relation, Scope, Session};

const NODE: u16 = 30;

// Two paths that differ only in their last node, and one that has the own node.
const FIRST: [u16; 12] = [1, 2, 3, 4, 5, 6, 7, 8, 9, 10, 11, 12];

const SECOND: [u16; 12] = [1, 2, 3, 4, 5, 6, 7, 8, 9, 10, 11, 13];

const ROUND: [u16; 12] = [1, 2, 3, 4, 5, 6, 7, 8, 9, 10, 11, NODE];

fn hear(
    alloc: Global,
    state: &mut RouteState<ShortestAll>,
    prefix: u16,
    path: &[u16],
) -> Result<(), Fail> {
    let cause = Cause::Recv {
        from: NodeId::new(1),
        session: Session::new(1),
        seq: 1,
        path: path_of(alloc, path)?,
    };
    state.apply(Scope::One(PrefixId::new(prefix)), &cause)?;
    Ok(())
}

// The candidate for a prefix has these nodes after the own one.
fn has(
    rt: &impl Abort,
    alloc: Global,
    state: &RouteState<ShortestAll>,
    prefix: u16,
    wanted: &[u16],
) -> Result<(), Fail> {
    let wanted = ids(alloc, wanted)?;
    match state.candidate(PrefixId::new(prefix), NodeId::new(1)) {
        Some(nodes) => assert!(rt; nodes == wanted.as_slice()),
        None => assert!(rt; wanted.is_empty()),
    }
    Ok(())
}

fn nodes_of(path: &Option<Path>) -> &[NodeId] {
    match path {
        Some(path) => path.nodes(),
        None => &[],
    }
}

// The best path for a prefix has these nodes after the own one, whatever path was made last.
fn goes(
    rt: &impl Abort,
    alloc: Global,
    state: &RouteState<ShortestAll>,
    prefix: u16,
    last: &mut Option<Path>,
    wanted: &[u16],
) -> Result<(), Fail> {
    let wanted = ids(alloc, wanted)?;
    let chosen = state.chosen(PrefixId::new(prefix), last)?;
    match nodes_of(&chosen.path) {
        [] => assert!(rt; wanted.is_empty()),
        [_, rest @ ..] => assert!(rt; rest == wanted.as_slice()),
    }
    Ok(())
}

// The best paths for both prefixes. That of the first is mostly another than that of the second, which was made last.
fn both_go(
    rt: &impl Abort,
    alloc: Global,
    state: &RouteState<ShortestAll>,
    last: &mut Option<Path>,
    zero: &[u16],
    one: &[u16],
) -> Result<(), Fail> {
    goes(rt, alloc, state, 0, last, zero)?;
    goes(rt, alloc, state, 1, last, one)
}

fn all_hold(
    rt: &impl Abort,
    alloc: Global,
    state: &mut RouteState<ShortestAll>,
) -> Result<(), Fail> {
    let mut last = None;
    // the prefix of an update, its path, and the candidates for both prefixes after it
    let rows: [(u16, &[u16], &[u16], &[u16]); 5] = [
        (0, &FIRST, &FIRST, &[]),
        (1, &FIRST, &FIRST, &FIRST),
        (0, &SECOND, &SECOND, &FIRST),
        (1, &ROUND, &SECOND, &[]),
        (1, &SECOND, &SECOND, &SECOND),
    ];
    for (prefix, path, zero, one) in rows {
        hear(alloc, state, prefix, path)?;
        has(rt, alloc, state, 0, zero)?;
        has(rt, alloc, state, 1, one)?;
        both_go(rt, alloc, state, &mut last, zero, one)?;
    }
    Ok(())
}

// Node 30, which has the neighbour 1.
fn of_two(alloc: Global) -> Result<Box<RouteState<ShortestAll>>, Fail> {
    let net = network(alloc, &[NODE, 1], &[(NODE, 1, Relation::Peer)], 2)?;
    state_of(alloc, &net, NODE, ShortestAll)
}

#[test]
fn paths_told_again(rt: HostRuntime) -> Result<(), Fail> {
    let mut state = of_two(rt.alloc())?;
    all_hold(&rt, rt.alloc(), &mut state)
}
