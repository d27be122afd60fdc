//! Detours: deflections until the packet reaches a given node, then a walk along the path that this node published.
ghost use Rattle.std.specs.Prelude.{◌≡◌, true, IfOk, OnErr, option_copied};
ghost use Rattle.topology.specs.declared.names.Scheme.TheVariants as scheme;
ghost use Rattle.transient_mode.specs.TransientHops.{answered, IsMove, route_of, set_out, detoured};
ghost use Rattle.transient_mode.specs.TransientHops.{hop_under, transient_hop, IsDetour};

use crate::deflection::deflected;
use crate::moves::end_at;
use crate::routes::{after_first, follow, start};
use crate::{Move, View};
use epoch_packet::Packet;
use topology::{NoMemory, NodeId, Scheme, Topology};

// The nodes of a path after the first; none without a path.
fn route_of<'a>(path: Option<&'a [NodeId]>) -> &'a [NodeId]
    ensures { result.now ≡ route_of (option_copied path.entry) }
{
    match path {
        Some(nodes) => after_first(nodes),
        None => &[],
    }
}

// The first hop at the node of the detour. If the packet moves, it is marked as having been there.
fn set_out(topology: &Topology, packet: Packet, view: &View<'_>) -> Result<(Packet, Move), NoMemory>
    ensures hop { IfOk result (λ pair.
        pair ≡ answered packet (set_out topology.now packet view.now)) }
    ensures memory { OnErr result (IsMove (set_out topology.now packet view.now)) }
{
    let (moved, to) = start(topology, packet, view, route_of(view.stable))?;
    match to {
        Move::Next(_) => Ok((
            Packet {
                reached: true,
                ..moved
            },
            to,
        )),
        Move::Ended(_) => Ok((moved, to)),
    }
}

// A hop of a packet that has moves left, under a detour by a node.
fn detoured(
    topology: &Topology,
    node: NodeId,
    packet: Packet,
    view: &View<'_>,
) -> Result<(Packet, Move), NoMemory>
    ensures hop { IfOk result (λ pair.
        pair ≡ answered packet (detoured topology.now node packet view.now)) }
    ensures memory { OnErr result (IsMove (detoured topology.now node packet view.now)) }
{
    if packet.reached {
        return Ok(follow(topology, packet, view));
    }
    if view.at == node {
        return set_out(topology, packet, view);
    }
    deflected(topology, packet, view)
}

// A hop under a detour by a node.
#[tactic(auto, unfolding(crate::specs::TransientHops::hop_under))]
fn detour_by(
    topology: &Topology,
    node: NodeId,
    packet: Packet,
    view: View<'_>,
) -> Result<(Packet, Move), NoMemory>
    ensures hop { IfOk result (λ pair.
        pair ≡ answered packet (hop_under (scheme.Detour node) topology.now packet view.entry)) }
    ensures memory { OnErr result
        (IsMove (hop_under (scheme.Detour node) topology.now packet view.entry)) }
{
    match end_at(&packet, &view) {
        Some(end) => Ok((packet, Move::Ended(end))),
        None => detoured(topology, node, packet, &view),
    }
}

/// A hop under a detour by a node. Until the packet has been at this node, it moves as by deflection. In its first hop
/// there, it takes as its route the nodes that follow in the node's newest published path, or none without a path. In
/// this hop and all later ones it moves to the next node of its route, if that link is up, and removes the node from
/// the route. Otherwise it is stuck. A packet whose walk ends is returned as it was. The only error is `NoMemory`,
/// and only if the packet moves.
pub fn detour(
    topology: &Topology,
    packet: Packet,
    view: View<'_>,
) -> Result<(Packet, Move), NoMemory>
    requires { IsDetour topology.now.scheme }
    ensures hop { IfOk result (λ pair.
        pair ≡ answered packet (transient_hop topology.now packet view.entry)) }
    ensures memory { OnErr result (IsMove (transient_hop topology.now packet view.entry)) }
{
    match topology.scheme() {
        Scheme::Detour(node) => detour_by(topology, node, packet, view),
        Scheme::Deflect | Scheme::Backup => unreachable!(),
    }
}
