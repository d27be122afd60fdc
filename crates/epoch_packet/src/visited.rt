//! The nodes that count as visited, as the bits of a number: bit i is for the i-th node in ascending order, counted
//! from 0. A node outside the network has no bit, and never counts as visited.
ghost use Rattle.std.specs.Prelude.{◌≡◌, ◌<◌, ◌||◌, ◌==◌, ℕ, true, false, IfSome, IfNone};
ghost use Rattle.topology.specs.Lists.{has};
ghost use Rattle.epoch_packet.specs.Visited.{rank, bit, visits, with_visit};

use topology::{NodeId, Topology};

// The place of a node's bit.
fn place_of(topology: &Topology, node: NodeId) -> Option<usize>
    ensures place { IfSome result (λ place. place ≡ rank topology.now node) }
    ensures node { IfSome result (λ _. has topology.now.nodes node ≡ true) }
    ensures small { IfSome result (λ place. place < 64) }
    ensures none { IfNone result (has topology.now.nodes node ≡ false) }
{
    // brings in the invariant of the topology: its nodes differ, and there are at most 64
    let _nodes = topology.nodes();
    topology.rank_of(node)
}

/// The number with only the bit of this node.
pub(crate) fn only_visited(topology: &Topology, node: NodeId) -> u64
    ensures { result ≡ bit topology.now node }
{
    match place_of(topology, node) {
        Some(place) => 1 << place,
        None => 0,
    }
}

/// Whether a node counts as visited. Takes no memory.
pub fn has_visited(topology: &Topology, visited: u64, node: NodeId) -> bool
    ensures { result ≡ visits topology.now visited node }
{
    match place_of(topology, node) {
        Some(place) => (visited >> place) & 1 == 1,
        None => false,
    }
}

/// The same set with this node added. Takes no memory.
pub fn with_visited(topology: &Topology, visited: u64, node: NodeId) -> u64
    ensures number { result ≡ with_visit topology.now visited node }
    ensures nodes { (x : ℕ) → has topology.now.nodes x ≡ true
        → visits topology.now result x ≡ (node == x || visits topology.now visited x) }
{
    visited | only_visited(topology, node)
}
