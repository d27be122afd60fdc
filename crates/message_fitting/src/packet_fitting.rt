//! Which packets a node admits.
ghost use Rattle.std.specs.Prelude.{◌≡◌};
ghost use Rattle.std.specs.List.{list_all};
ghost use Rattle.topology.specs.Lists.{has};
ghost use Rattle.topology.specs.Net.{neighbours};
ghost use Rattle.message_fitting.specs.PacketFits.{are_links, carried_fits, packet_fits};

use crate::control_fitting::nodes_ascend;
use crate::names::{are_nodes, is_among, is_number};
use epoch_packet::{NodeList, Packet};
use topology::limits::{MOST_EPOCHS, MOST_TRAIL};
use topology::{NodeId, Topology};

// Whether a list that a packet carries has nodes of the network alone, and no more than it may have.
fn carried_fits(topology: &Topology, nodes: &NodeList) -> bool
    ensures { result ≡ carried_fits topology.now nodes.now }
{
    nodes.as_slice().len() <= MOST_TRAIL && are_nodes(topology, nodes.as_slice())
}

/// Whether the packet is numbered from 1, its prefix and nodes are of the network, and its stamp is an epoch from 1 to
/// 32, or 0.
pub fn packet_fits(topology: &Topology, packet: &Packet) -> bool
    ensures { result ≡ packet_fits topology.now packet.now }
{
    // that they have two and eight bytes is said where they are read
    let (_budget, _visited) = (packet.budget, packet.visited);
    is_number(packet.id)
        && packet.prefix.place() < topology.prefix_count()
        && packet.epoch.number() <= MOST_EPOCHS
        && carried_fits(topology, &packet.trail)
        && carried_fits(topology, &packet.route)
}

// Whether all of them are neighbours of the node.
fn are_near(topology: &Topology, node: NodeId, others: &[NodeId]) -> bool
    ensures { result ≡ list_all (has (neighbours topology.now node)) others.now }
{
    let near = topology.neighbours(node);
    others.iter().all(|other| is_among(near, *other))
}

/// Whether they are neighbours of the node, ascending.
pub fn are_links(topology: &Topology, node: NodeId, up: &[NodeId]) -> bool
    ensures { result ≡ are_links topology.now node up.now }
{
    nodes_ascend(up) && are_near(topology, node, up)
}
