//! Tests whether a value is a network that does not change.
ghost use Rattle.std.specs.Prelude.{ℕ, ◌≡◌, ◌↔◌, true};
ghost use Rattle.std.specs.List.{list_all};
ghost use Rattle.topology.specs.Lists.{has};
ghost use Rattle.topology.specs.Net.{linked};
ghost use Rattle.topology.specs.Paths.{differ};
ghost use Rattle.deflect_delivery.specs.Stills.{AreOrders, IsOrderOf, IsStill};

use crate::{Orders, Still, UpLinks};
use epoch_packet::NodeList;
use topology::{NodeId, Topology};

// Whether no node occurs twice.
fn all_differ(nodes: &[NodeId]) -> bool
    ensures { result ≡ differ nodes.now }
{
    match nodes {
        [] => true,
        [first, rest @ ..] => !rest.contains(first) && all_differ(rest),
    }
}

// Whether each of the ones is in the others.
fn are_among(ones: &[NodeId], others: &[NodeId]) -> bool
    ensures { result ≡ list_all (has others.now) ones.now }
{
    ones.iter().all(|one| others.contains(one))
}

// Whether the two have a link.
fn is_linked(topology: &Topology, a: NodeId, b: NodeId) -> bool
    ensures { result ≡ linked topology.now a b }
{
    topology.relation(a, b).is_some()
}

// Whether the node is one of the network.
fn is_node(topology: &Topology, node: NodeId) -> bool
    ensures { result ≡ has topology.now.nodes node }
{
    topology.rank_of(node).is_some()
}

// Whether all links are in the network.
fn are_links(topology: &Topology, links: &UpLinks) -> bool
    ensures { result ≡ list_all (λ (link : ℕ × ℕ). linked topology.now link.0 link.1) links.now }
{
    links
        .as_slice()
        .iter()
        .all(|link| is_linked(topology, link.0, link.1))
}

// Whether all nodes are in the network.
fn are_nodes(topology: &Topology, nodes: &NodeList) -> bool
    ensures { result ≡ list_all (has topology.now.nodes) nodes.now }
{
    nodes.as_slice().iter().all(|node| is_node(topology, *node))
}

// Whether the order has all neighbours of the node, each once. A list of another length is refused at once.
fn is_order(topology: &Topology, node: NodeId, order: &[NodeId]) -> bool
    ensures { result ≡ true ↔ IsOrderOf topology.now node order.now }
{
    // brings in the invariant of the topology: its nodes differ
    let _nodes = topology.nodes();
    let near = topology.neighbours(node);
    if order.len() != near.len() {
        return false;
    }
    are_among(order, near) && all_differ(order)
}

// Whether there is such an order for each node.
fn are_orders(topology: &Topology, nodes: &[NodeId], orders: &[NodeList]) -> bool
    ensures { result ≡ true ↔ AreOrders topology.now nodes.now orders.now }
{
    match nodes {
        [] => orders.is_empty(),
        [node, rest @ ..] => match orders {
            [] => false,
            [order, others @ ..] => {
                is_order(topology, *node, order.as_slice()) && are_orders(topology, rest, others)
            }
        },
    }
}

impl Still {
    /// Whether the value fits the topology: its links and owners are in the network, and there is an order for each
    /// node. Takes no memory.
    pub fn fits(&self, topology: &Topology) -> bool
        ensures { result ≡ true ↔ IsStill topology.now self.now }
    {
        let nodes = topology.nodes();
        are_links(topology, &self.up)
            && are_nodes(topology, &self.owners)
            && are_orders(topology, nodes, self.orders.as_slice())
    }
}
