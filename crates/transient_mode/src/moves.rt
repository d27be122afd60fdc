//! The result of a hop off the stable tables.
ghost use Rattle.std.specs.Prelude.{◌≡◌};
ghost use Rattle.topology.specs.Lists.{has};
ghost use Rattle.transient_mode.specs.TransientHops.{end_at, if_up, spent};

use crate::View;
use epoch_packet::{End, Packet, with_visited};
use topology::{NodeId, Topology};

/// The result of a hop off the stable tables.
#[derive(Clone, Copy, Debug, PartialEq, Eq)]
pub enum Move {
    /// The packet goes on to this neighbour.
    Next(NodeId),
    /// Its walk has ended here.
    Ended(End),
}

// How the walk ends at the node under every scheme, if it does.
pub(crate) fn end_at(packet: &Packet, view: &View<'_>) -> Option<End>
    ensures { result ≡ end_at packet.now view.now }
{
    if view.owns {
        return Some(End::Delivered);
    }
    if packet.budget == 0 {
        return Some(End::Expired);
    }
    None
}

// Whether the link to the node is up.
fn is_up(view: &View<'_>, node: NodeId) -> bool
    ensures { result ≡ has view.now.up node }
{
    view.up.contains(&node)
}

// The node, if the link to it is up.
pub(crate) fn if_up(view: &View<'_>, node: Option<NodeId>) -> Option<NodeId>
    ensures { result ≡ if_up view.now node }
{
    let node = node?;
    if is_up(view, node) { Some(node) } else { None }
}

// The packet after a move to a node. Takes no memory.
pub(crate) fn spent(topology: &Topology, packet: Packet, node: NodeId) -> Packet
    ensures { result ≡ spent topology.now node packet }
{
    let budget = packet.budget.saturating_sub(1);
    let visited = with_visited(topology, packet.visited, node);
    Packet {
        budget,
        visited,
        ..packet
    }
}
