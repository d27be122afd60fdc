//! The network of a load.
ghost use Rattle.std.specs.Prelude.{◌≡◌, ◌-◌, ◌*◌, ◌<◌, ◌≤◌, ◌++◌, [], length, map, is_ok, IfOk, OnOk, IsOkUnless};
ghost use Rattle.topology.specs.Building.{nothing};
ghost use Rattle.load_plan.specs.Draws.{state_after};
ghost use Rattle.load_plan.specs.LoadNetwork.{AreBelow, drafted, first_providers, links_below, links_among, load_net, load_prefix, top_links};

use crate::draws::Draws;
use std::alloc::Global;
use topology::{BuildError, NoMemory, NodeId, Prefix, Relation, Topology};

/// The nodes, 1 to this one.
pub const NODES: u16 = 24;

/// The first of them agree on stable tables, 1 to this one.
const CONSOLIDATORS: u16 = 3;

/// So many prefixes, 10.0.0.0/16 and those behind it.
pub const PREFIXES: u16 = 12;

/// A network that is made of draws.
#[derive(Drop)]
pub struct LoadNetwork {
    pub topology: Topology,
    /// The first provider of each node from 4 on.
    pub first_providers: Vec<NodeId>,
    /// What is drawn from then on.
    pub draws: Draws,
}

// What a call answers that nothing refuses but want of memory.
fn unless_full<T: Drop>(answer: Result<T, BuildError>) -> Result<(), NoMemory>
    requires { IsOkUnless answer BuildError.NoMemory }
    ensures { is_ok result ≡ is_ok answer }
{
    match answer {
        Ok(_) => Ok(()),
        Err(BuildError::NoMemory) => Err(NoMemory),
        Err(_) => unreachable!(),
    }
}

// The nodes, the consolidators first.
fn add_nodes(topology: &mut Topology) -> Result<(), NoMemory>
    requires { topology.old ≡ nothing }
    ensures { OnOk result (topology.new ≡ drafted 24 3 [] 0) }
{
    for before in 0..CONSOLIDATORS {
        unless_full(topology.add_node(NodeId::new(before + 1), true))?;
    }
    for before in CONSOLIDATORS..NODES {
        unless_full(topology.add_node(NodeId::new(before + 1), false))?;
    }
    Ok(())
}

// The links among the consolidators.
fn add_top_links(topology: &mut Topology) -> Result<(), NoMemory>
    requires { topology.old ≡ drafted 24 3 [] 0 }
    ensures { OnOk result (topology.new ≡ drafted 24 3 top_links 0) }
{
    let one = NodeId::new(1);
    let two = NodeId::new(2);
    let three = NodeId::new(3);
    unless_full(topology.add_link(one, two, Relation::Peer))?;
    unless_full(topology.add_link(one, three, Relation::Peer))?;
    unless_full(topology.add_link(two, three, Relation::Peer))
}

// The links of a node to its two providers, which are lower nodes: one link where both are the same.
fn add_links_below(
    topology: &mut Topology,
    first: u16,
    second: u16,
    node: u16,
) -> Result<(), NoMemory>
    requires first { (0 < first) × (first < node) }
    requires second { (0 < second) × (second < node) }
    requires node { node ≤ 24 }
    requires drafted { topology.old ≡ drafted 24 3 topology.old.links 0 }
    requires below { AreBelow node topology.old.links }
    requires few { length topology.old.links ≤ 510 }
    ensures { OnOk result (topology.new ≡ drafted 24 3 (topology.old.links ++ links_below first second node) 0) }
{
    let id = NodeId::new(node);
    unless_full(topology.add_link(NodeId::new(first), id, Relation::Customer))?;
    if second == first {
        return Ok(());
    }
    unless_full(topology.add_link(NodeId::new(second), id, Relation::Customer))
}

// The links of the nodes that are no consolidators; their first providers.
fn add_providers(
    alloc: Global,
    topology: &mut Topology,
    draws: &mut Draws,
) -> Result<Vec<NodeId>, NoMemory>
    requires { topology.old ≡ drafted 24 3 top_links 0 }
    ensures links { OnOk result (topology.new ≡ drafted 24 3 (links_among draws.old.state 21) 0) }
    ensures first { IfOk result (λ providers. providers.items ≡ first_providers draws.old.state 21) }
    ensures draws { OnOk result (draws.new.state ≡ state_after draws.old.state 42) }
{
    let mut first_providers = Vec::new(alloc);
    for lower in CONSOLIDATORS..NODES {
        let first = draws.draw(lower) + 1;
        let second = draws.draw(lower) + 1;
        add_links_below(topology, first, second, lower + 1)?;
        first_providers.push(NodeId::new(first))?;
    }
    Ok(first_providers)
}

// The prefix at a place.
fn prefix_at(place: u16) -> Prefix
    requires { place < 12 }
    ensures { result ≡ load_prefix place }
{
    Prefix {
        bits: 167_772_160 + u32::from(place) * 65_536,
        len: 16,
    }
}

fn add_prefixes(topology: &mut Topology) -> Result<(), NoMemory>
    requires { topology.old ≡ drafted 24 3 topology.old.links 0 }
    ensures { OnOk result (topology.new ≡ drafted 24 3 topology.old.links 12) }
{
    for place in 0..PREFIXES {
        unless_full(topology.add_prefix(prefix_at(place)))?;
    }
    Ok(())
}

// Makes the whole network. Returns the first providers.
fn fill(alloc: Global, topology: &mut Topology, draws: &mut Draws) -> Result<Vec<NodeId>, NoMemory>
    requires { topology.old ≡ nothing }
    ensures topology { OnOk result (topology.new ≡ load_net draws.old.state) }
    ensures first { IfOk result (λ providers. providers.items ≡ first_providers draws.old.state 21) }
    ensures draws { OnOk result (draws.new.state ≡ state_after draws.old.state 42) }
{
    add_nodes(topology)?;
    add_top_links(topology)?;
    let first_providers = add_providers(alloc, topology, draws)?;
    add_prefixes(topology)?;
    Ok(first_providers)
}

/// The network of this number, with what is needed for what is to happen in it.
pub fn load_network(alloc: Global, number: u32) -> Result<LoadNetwork, NoMemory>
    ensures topology { IfOk result (λ made. made.topology ≡ load_net number) }
    ensures first { IfOk result (λ made. made.first_providers.items ≡ first_providers number 21) }
    ensures draws { IfOk result (λ made. made.draws.state ≡ state_after number 42) }
{
    let mut topology = Topology::empty(alloc);
    let mut draws = Draws::new(number);
    match fill(alloc, &mut topology, &mut draws) {
        Ok(first_providers) => Ok(LoadNetwork {
            topology,
            first_providers,
            draws,
        }),
        Err(full) => {
            // as a call, the drop is proved once for each type, and its collections are not opened here
            drop(topology);
            Err(full)
        }
    }
}
