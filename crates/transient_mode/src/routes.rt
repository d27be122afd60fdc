//! Moves along a route, which has the nodes still ahead.
ghost use Rattle.std.specs.Prelude.{◌≡◌, IfOk, OnErr, Some};
ghost use Rattle.epoch_packet.specs.NodeLists.{after_first};
ghost use Rattle.transient_mode.specs.TransientHops.{answered, IsMove, next_up, along, follow};

use crate::moves::{if_up, spent};
use crate::{Move, View};
use epoch_packet::{End, Packet};
use topology::{NoMemory, NodeId, Topology};

// The nodes after the first.
pub(crate) fn after_first(nodes: &[NodeId]) -> &[NodeId]
    ensures { result.now ≡ after_first nodes.now }
{
    match nodes {
        [_, after @ ..] => after,
        [] => &[],
    }
}

// The next node of a route, if the link to it is up.
pub(crate) fn next_up(view: &View<'_>, route: &[NodeId]) -> Option<NodeId>
    ensures { result ≡ next_up view.now route.now }
{
    match route {
        [next, ..] => if_up(view, Some(*next)),
        [] => None,
    }
}

// Moves to the next node of the packet's route. Takes no memory.
pub(crate) fn along(topology: &Topology, packet: Packet, next: NodeId) -> (Packet, Move)
    ensures { result ≡ answered packet (along topology.now packet packet.route (Some next)) }
{
    let mut moved = spent(topology, packet, next);
    moved.route.drop_first();
    (moved, Move::Next(next))
}

// Moves along the packet's route. Takes no memory.
pub(crate) fn follow(topology: &Topology, packet: Packet, view: &View<'_>) -> (Packet, Move)
    ensures { result ≡ answered packet (follow topology.now packet view.now packet.route) }
{
    match next_up(view, packet.route.as_slice()) {
        Some(next) => along(topology, packet, next),
        None => (packet, Move::Ended(End::Stuck)),
    }
}

// Takes these nodes as the packet's route, and moves along it.
pub(crate) fn start(
    topology: &Topology,
    packet: Packet,
    view: &View<'_>,
    nodes: &[NodeId],
) -> Result<(Packet, Move), NoMemory>
    ensures hop { IfOk result (λ pair.
        pair ≡ answered packet (follow topology.now packet view.now nodes.now)) }
    ensures memory { OnErr result (IsMove (follow topology.now packet view.now nodes.now)) }
{
    match next_up(view, nodes) {
        Some(next) => {
            let mut moved = spent(topology, packet, next);
            moved.route.replace(after_first(nodes))?;
            Ok((moved, Move::Next(next)))
        }
        None => Ok((packet, Move::Ended(End::Stuck))),
    }
}
