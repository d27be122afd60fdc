//! Deflection: the packet goes to the first neighbour in the order that it has not visited, or else back.
ghost use Rattle.std.specs.Prelude.{◌≡◌, find, option_copied, IfOk, OnErr};
ghost use Rattle.topology.specs.declared.names.Scheme.TheVariants as scheme;
ghost use Rattle.epoch_packet.specs.NodeLists.{last_of};
ghost use Rattle.transient_mode.specs.TransientHops.{answered, IsMove, is_new, forward, if_up};
ghost use Rattle.transient_mode.specs.Sights.{Sight};
ghost use Rattle.transient_mode.specs.TransientHops.{back, deflected, hop_under};
ghost use Rattle.transient_mode.specs.TransientHops.{asks_for_order};

use crate::moves::{end_at, if_up, spent};
use crate::{Move, View};
use epoch_packet::{End, Packet, has_visited};
use topology::limits::MOST_TRAIL;
use topology::{NoMemory, NodeId, Scheme, Topology};

// Whether the link to the node is up, and the packet has not visited it.
fn is_new(topology: &Topology, visited: u64, up: &[NodeId], node: NodeId) -> bool
    ensures { result ≡ is_new topology.now visited up.now node }
{
    up.contains(&node) && !has_visited(topology, visited, node)
}

// The first of the nodes for which this holds.
fn first_new<'a>(
    topology: &Topology,
    visited: u64,
    up: &[NodeId],
    nodes: &'a [NodeId],
) -> Option<&'a NodeId>
    ensures { option_copied result ≡ find (is_new topology.now visited up.now) nodes.now }
{
    nodes
        .iter()
        .find(|node| is_new(topology, visited, up, **node))
}

// The neighbour to which the packet goes forward; `None` if the trail is full.
fn forward(topology: &Topology, packet: &Packet, view: &View<'_>) -> Option<NodeId>
    ensures { result ≡ forward topology.now packet.now view.now }
{
    if packet.trail.as_slice().len() < MOST_TRAIL {
        first_new(topology, packet.visited, view.up, view.order).copied()
    } else {
        None
    }
}

// Moves the packet back to the last node of its trail. Takes no memory.
fn back(topology: &Topology, packet: Packet, view: &View<'_>) -> (Packet, Move)
    ensures { result
        ≡ answered packet (back topology.now packet (if_up view.now (last_of packet.trail))) }
{
    match if_up(view, packet.trail.last()) {
        Some(node) => {
            let mut moved = spent(topology, packet, node);
            moved.trail.drop_last();
            (moved, Move::Next(node))
        }
        None => (packet, Move::Ended(End::Stuck)),
    }
}

/// Whether a hop of the packet at this node needs the order of the neighbours; `owns` says whether the node owns the
/// packet's prefix. Only a deflection needs it, and not with a trail of 64 nodes. If the hop does not need it, the hop
/// is the same for every order (`laws::a_hop_that_does_not_ask_is_the_same_for_each_order`). Takes no memory.
pub fn asks_for_order(topology: &Topology, packet: &Packet, at: NodeId, owns: bool) -> bool
    ensures { (view : Sight) → view.at ≡ at → view.owns ≡ owns →
        result ≡ asks_for_order topology.now packet.now view }
{
    if owns || packet.budget == 0 || packet.trail.as_slice().len() >= MOST_TRAIL {
        return false;
    }
    match topology.scheme() {
        Scheme::Deflect => true,
        Scheme::Detour(node) => !packet.reached && at != node,
        Scheme::Backup => false,
    }
}

// A deflection of a packet that has moves left. Going back or ending takes no memory.
#[tactic(auto, unfolding(crate::specs::TransientHops::deflected))]
pub(crate) fn deflected(
    topology: &Topology,
    mut packet: Packet,
    view: &View<'_>,
) -> Result<(Packet, Move), NoMemory>
    ensures hop { IfOk result (λ pair.
        pair ≡ answered packet (deflected topology.now packet view.now)) }
    ensures memory { OnErr result (IsMove (deflected topology.now packet view.now)) }
{
    match forward(topology, &packet, view) {
        Some(node) => {
            packet.trail.push(view.at)?;
            let moved = spent(topology, packet, node);
            Ok((moved, Move::Next(node)))
        }
        None => Ok(back(topology, packet, view)),
    }
}

/// A hop by deflection, whatever the scheme of the network. The packet moves to the first neighbour in the order whose
/// link is up and that does not count as visited. The node that it leaves goes to the end of its trail. With a trail of
/// 64 nodes it makes no such move. Otherwise, if the link to the last node of its trail is up, it moves back there, and
/// that node leaves the trail. Otherwise it is stuck. A packet whose walk ends is returned as it was. The only error is
/// `NoMemory`, and only if the packet moves.
#[tactic(auto, unfolding(crate::specs::TransientHops::hop_under))]
pub fn deflect(
    topology: &Topology,
    packet: Packet,
    view: View<'_>,
) -> Result<(Packet, Move), NoMemory>
    ensures hop { IfOk result (λ pair.
        pair ≡ answered packet (hop_under scheme.Deflect topology.now packet view.entry)) }
    ensures memory { OnErr result
        (IsMove (hop_under scheme.Deflect topology.now packet view.entry)) }
{
    match end_at(&packet, &view) {
        Some(end) => Ok((packet, Move::Ended(end))),
        None => deflected(topology, packet, &view),
    }
}
