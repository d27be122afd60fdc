//! Which names a network has, and numbers that are counted from 1.
ghost use Rattle.std.specs.Prelude.{◌≡◌};
ghost use Rattle.std.specs.List.{list_all};
ghost use Rattle.topology.specs.Lists.{has};
ghost use Rattle.message_fitting.specs.Names.{are_nodes, is_number, list_fits, trigger_fits, triggers_fit};

use topology::limits::MOST_TRIGGERS;
use topology::{NodeId, Topology, Trigger};

/// Whether the node is one of them.
pub fn is_among(nodes: &[NodeId], node: NodeId) -> bool
    ensures { result ≡ has nodes.now node }
{
    nodes.contains(&node)
}

// Whether it is a node of the network.
pub(crate) fn is_node(topology: &Topology, node: NodeId) -> bool
    ensures { result ≡ has topology.now.nodes node }
{
    topology.rank_of(node).is_some()
}

/// Whether all of them are nodes of the network.
pub fn are_nodes(topology: &Topology, nodes: &[NodeId]) -> bool
    ensures { result ≡ are_nodes topology.now nodes.now }
{
    match nodes {
        [] => true,
        [first, rest @ ..] => is_node(topology, *first) && are_nodes(topology, rest),
    }
}

/// Whether the number is counted from 1.
pub fn is_number(number: u32) -> bool
    ensures { result ≡ is_number number }
{
    number >= 1
}

pub(crate) fn trigger_fits(topology: &Topology, trigger: &Trigger) -> bool
    ensures { result ≡ trigger_fits topology.now trigger.now }
{
    is_node(topology, trigger.node) && is_number(trigger.count)
}

// Whether each is a trigger of the network.
pub(crate) fn are_triggers(topology: &Topology, triggers: &[Trigger]) -> bool
    ensures { result ≡ list_all (trigger_fits topology.now) triggers.now }
{
    triggers
        .iter()
        .all(|trigger| trigger_fits(topology, trigger))
}

// Whether the list has a trigger, and each is of the network.
fn triggers_fit(topology: &Topology, triggers: &[Trigger]) -> bool
    ensures { result ≡ triggers_fit topology.now triggers.now }
{
    !triggers.is_empty() && are_triggers(topology, triggers)
}

/// Whether the list has a trigger, each is of the network, and they are no more than a list may have.
pub fn list_fits(topology: &Topology, triggers: &[Trigger]) -> bool
    ensures { result ≡ list_fits topology.now triggers.now }
{
    triggers.len() <= MOST_TRIGGERS as usize && triggers_fit(topology, triggers)
}
