//! The places of nodes, looked up by number.
ghost use Rattle.std.specs.Prelude.{ℕ, ◌≡◌, ◌<◌, ◌≤◌, ◌^◌, Some, Option, slice_get, IfOk, IfSome, IfNone, false};
ghost use Rattle.std.specs.List.Sorted.{IsStrictlyIncreasing};
ghost use Rattle.topology.specs.Lists.{has};
ghost use Rattle.link_model.specs.Tables.{answer};

use std::alloc::Global;
use std::marker::Model;
use topology::{NoMemory, NodeId};

/// Nodes in ascending order, each with its place, from 0.
#[derive(Drop)]
pub struct Ranks {
    nodes: Vec<NodeId>,
    // The place of the node with each number, if there is one.
    places: Vec<Option<usize>>,
}

impl Model for Ranks {
    ghost use Rattle.std.specs.Prelude.{ℕ, List};
    ghost use Rattle.link_model.specs.Tables.{IsRanked};

    ghost Value = { List ℕ };

    ghost view = { λ r. r.nodes.items };

    ghost invariant = { λ r. IsRanked r.nodes.items r.places.items };
}

/// The entry at a place of a table; `None` beyond its end.
#[inline(always)]
pub fn entry(table: &[Option<usize>], place: usize) -> Option<usize>
    ensures { result ≡ answer table.now place }
{
    if place >= table.len() {
        return None;
    }
    table[place]
}

/// The place of a node in an ascending list.
pub fn place_of(nodes: &[NodeId], node: NodeId) -> Option<usize>
    ensures some { IfSome result (λ place. slice_get nodes.now place ≡ Some node) }
    ensures none { IfNone result (IsStrictlyIncreasing nodes.now → has nodes.now node ≡ false) }
{
    nodes.binary_search(&node).ok()
}

// A number above the numbers of all nodes.
fn bound_of(nodes: &[NodeId]) -> usize
    ensures above { IsStrictlyIncreasing nodes.now → (n r : ℕ) → slice_get nodes.now r ≡ Some n → n < result }
    ensures fits { result ≤ 2 ^ 16 }
{
    match nodes.last() {
        Some(node) => usize::from(node.number()) + 1,
        None => 0,
    }
}

impl Ranks {
    /// The places of these nodes.
    pub fn new(alloc: Global, nodes: &[NodeId]) -> Result<Ranks, NoMemory>
        requires { IsStrictlyIncreasing nodes.now }
        ensures { IfOk result (λ ranks. ranks ≡ nodes.now) }
    {
        let mut places = Vec::new(alloc);
        for number in 0..bound_of(nodes) {
            places.push(place_of(nodes, NodeId::new(number as u16)))?;
        }
        Ok(Ranks {
            nodes: Vec::from_slice(alloc, nodes)?,
            places,
        })
    }

    /// The place of a node; `None` if it is not in the list. Takes no memory.
    #[inline(always)]
    pub fn rank(&self, node: NodeId) -> Option<usize>
        ensures some { IfSome result (λ rank. slice_get self.now rank ≡ Some node) }
        ensures found { (rank : ℕ) → slice_get self.now rank ≡ Some node → result ≡ Some rank }
    {
        entry(&self.places, usize::from(node.number()))
    }
}
