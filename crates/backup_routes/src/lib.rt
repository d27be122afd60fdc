//! The choice of a backup: one of the paths from which a node chose when it published its newest table; the published
//! path is one of them. A packet that has left the stable tables goes on along it, and visits no node twice.
#![tactic(auto)]

ghost use Rattle.std.specs.Prelude.{◌≡◌};
ghost use Rattle.std.specs.Option.{option_copied};
ghost use Rattle.std.specs.List.{list_any};
ghost use Rattle.epoch_packet.specs.Visited.{visits};
ghost use Rattle.backup_routes.specs.Backups.{is_open, qualifies, backup_for};

use epoch_packet::has_visited;
use topology::{NodeId, Path, Topology};

// Whether one of the nodes counts as visited.
fn any_visited(topology: &Topology, visited: u64, nodes: &[NodeId]) -> bool
    ensures { result ≡ list_any (visits topology.now visited) nodes.now }
{
    nodes
        .iter()
        .any(|node| has_visited(topology, visited, *node))
}

// Whether the link to the first node is up, and no node counts as visited.
fn is_open(topology: &Topology, visited: u64, up: &[NodeId], nodes: &[NodeId]) -> bool
    ensures { result ≡ is_open topology.now visited up.now nodes.now }
{
    match nodes {
        [next, ..] => up.contains(next) && !any_visited(topology, visited, nodes),
        [] => false,
    }
}

// Whether a packet can take the path.
fn qualifies(topology: &Topology, visited: u64, up: &[NodeId], path: &Path) -> bool
    ensures { result ≡ qualifies topology.now visited up.now path.now }
{
    match path.nodes() {
        [_, after @ ..] => is_open(topology, visited, up, after),
        [] => false,
    }
}

/// The first backup that a packet can take: the link to its second node is up, and none of its nodes after the first
/// counts as visited. `up` has the neighbours whose link is up. The answer is `None` exactly where it can take none.
/// Takes no memory.
pub fn backup_for<'a>(
    topology: &Topology,
    backups: &'a [Path],
    visited: u64,
    up: &[NodeId],
) -> Option<&'a Path>
    ensures { option_copied result ≡ backup_for topology.now backups.now visited up.now }
{
    backups
        .iter()
        .find(|path| qualifies(topology, visited, up, path))
}
