//! Calls of `path_vector`: which route a node takes, and what it offers its neighbours.
use super::making::{ids, network, path_of};
use path_vector::{Best, Cause, Chosen, GaoRexford, Policy, RankedCandidate, RouteState};
use std::alloc::Global;
use std::process::Abort;
use std::test::Fail;
use topology::{NodeId, Path, PrefixId, Relation, Scope, Session, Topology};

mod histories;
mod paths_told_again;

// The state of a node before its first entry.
fn state_of<P: Policy + Copy>(
    alloc: Global,
    net: &Topology,
    node: u16,
    policy: P,
) -> Result<Box<RouteState<P>>, Fail> {
    let state = RouteState::new(alloc, net, NodeId::new(node), policy)?;
    Ok(Box::new(alloc, state)?)
}

// The state of node 2 in a network of nodes 1, 2 and 3, all linked: 2 and 3 are customers of 1, and peers of each
// other.
fn of_two(alloc: Global) -> Result<Box<RouteState<GaoRexford>>, Fail> {
    let links = [
        (1, 2, Relation::Customer),
        (1, 3, Relation::Customer),
        (2, 3, Relation::Peer),
    ];
    let net = network(alloc, &[1, 2, 3], &links, 1)?;
    state_of(alloc, &net, 2, GaoRexford)
}

// Applies an update of the first session.
fn hear(
    state: &mut RouteState<GaoRexford>,
    alloc: Global,
    from: u16,
    nodes: &[u16],
) -> Result<(), Fail> {
    let cause = Cause::Recv {
        from: NodeId::new(from),
        session: Session::new(1),
        seq: 1,
        path: path_of(alloc, nodes)?,
    };
    state.apply(Scope::One(PrefixId::new(0)), &cause)?;
    Ok(())
}

// Node 2 takes its peer 3 as the way to 3, and tells 1 nothing of its peer.
fn goes_by_its_peer(rt: &impl Abort, state: &RouteState<GaoRexford>, chosen: &Chosen) {
    match state.best(PrefixId::new(0)) {
        Best::Via(nbr, rest) => {
            assert!(rt; nbr == NodeId::new(3));
            assert!(rt; rest == [NodeId::new(3)].as_slice());
        }
        _ => assert!(rt; false),
    }
    assert!(rt; state.offered_path(chosen, NodeId::new(1)).is_none());
    assert!(rt; state.held(NodeId::new(1)) == Some(Session::new(1)));
}

// A copy of the state tries the peer first.
fn tries_its_peer_first(rt: &impl Abort, state: &RouteState<GaoRexford>) -> Result<(), Fail> {
    let again = state.copy()?;
    let order = again.order(PrefixId::new(0))?;
    assert!(rt; order.as_slice() == [NodeId::new(3), NodeId::new(1)].as_slice());
    Ok(())
}

// The path of a candidate is the same whichever path is known.
fn makes(
    rt: &impl Abort,
    alloc: Global,
    candidate: &RankedCandidate<'_>,
    known: &Path,
    wanted: &[u16],
) -> Result<(), Fail> {
    let wanted = ids(alloc, wanted)?;
    assert!(rt; candidate.path(None)?.nodes() == wanted.as_slice());
    assert!(rt; candidate.path(Some(known))?.nodes() == wanted.as_slice());
    Ok(())
}

// The candidates by rank: first that of the peer, then that of the provider.
fn ranks_both(
    rt: &impl Abort,
    alloc: Global,
    state: &RouteState<GaoRexford>,
    known: &Path,
) -> Result<(), Fail> {
    let mut sorted = Vec::new(alloc);
    state.put_by_rank(PrefixId::new(0), &mut sorted)?;
    assert!(rt; sorted.len() == 2);
    assert!(rt; sorted[0].nbr() == NodeId::new(3));
    assert!(rt; sorted[0].nodes().0 == NodeId::new(2));
    makes(rt, alloc, &sorted[0], known, &[2, 3])?;
    makes(rt, alloc, &sorted[1], known, &[2, 1, 3])
}

// The path of the own node, and those of the candidates where that of the peer is known.
fn makes_paths(
    rt: &impl Abort,
    alloc: Global,
    state: &RouteState<GaoRexford>,
    chosen: &Chosen,
) -> Result<(), Fail> {
    assert!(rt; state.own_path()?.nodes() == [state.node()].as_slice());
    let Some(known) = &chosen.path else {
        return Err(Fail::from("the peer tells a way"));
    };
    ranks_both(rt, alloc, state, known)
}

fn run(rt: &impl Abort, alloc: Global, state: &mut RouteState<GaoRexford>) -> Result<(), Fail> {
    hear(state, alloc, 1, &[1, 3])?;
    hear(state, alloc, 3, &[3])?;
    let mut last = None;
    let chosen = state.chosen(PrefixId::new(0), &mut last)?;
    goes_by_its_peer(rt, state, &chosen);
    makes_paths(rt, alloc, state, &chosen)?;
    tries_its_peer_first(rt, state)
}

#[test]
fn each_call_answers_where_there_is_memory(rt: HostRuntime) -> Result<(), Fail> {
    let mut state = of_two(rt.alloc())?;
    run(&rt, rt.alloc(), &mut state)
}
