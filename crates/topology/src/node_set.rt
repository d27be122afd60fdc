//! Sets of nodes that are read in two orders.
ghost use Rattle.std.specs.Prelude.{◌≡◌, ◌<◌, ◌↔◌, [], ◌∷◌, ◌++◌, Some, false, length, slice_get, nat_lt, position, vec_len, vec_capacity, IsOk, OnOk, IfOk, IfSome, IsNone, IsTrue};
ghost use Rattle.topology.specs.Lists.{ascending, has, put_ascending};

use crate::{NoMemory, NodeId};
use indexmap::IndexSet;
use std::alloc::{AllocFailed, Global};
use std::marker::Model;

// The place of the first node that is greater.
fn first_greater(nodes: &[NodeId], id: NodeId) -> Option<usize>
    ensures { result ≡ position (λ x. nat_lt id x) nodes.now }
{
    nodes.iter().position(|other| id < *other)
}

// How far the number of a node is above the first one. This is its place where the numbers have no gap.
fn offset(nodes: &[NodeId], id: NodeId) -> usize {
    match nodes.first() {
        Some(first) => usize::from(id.number().saturating_sub(first.number())),
        None => 0,
    }
}

// Whether the node is at this place.
fn stands_at(nodes: &[NodeId], place: usize, id: NodeId) -> bool
    ensures { IsTrue result → slice_get nodes.now place ≡ Some id }
{
    place < nodes.len() && nodes[place] == id
}

/// Inserts a node in front of the first greater one.
pub(crate) fn insert_ascending(
    nodes: &mut Vec<NodeId>,
    id: NodeId,
) -> Result<(), AllocFailed<NodeId>>
    ensures ok { OnOk result (nodes.new.items ≡ put_ascending id nodes.old.items) }
    ensures succeeds { vec_len nodes.old < vec_capacity nodes.old → IsOk result }
{
    let place = first_greater(nodes, id).unwrap_or(nodes.len());
    nodes.insert(place, id)
}

/// A set of nodes, read in the order in which they were added or in ascending order.
#[derive(Drop)]
pub struct NodeSet {
    added: IndexSet<NodeId>,
    ascending: Vec<NodeId>,
}

impl Model for NodeSet {
    ghost use Rattle.std.specs.Prelude.{min, ◌-◌, vec_len, vec_capacity};
    ghost use Rattle.indexmap.specs.IndexSet.{spare};
    ghost use Rattle.topology.specs.Tables.{Members, InBothOrders};

    ghost Value = { Members };

    ghost view = { λ s. record { nodes = s.added.keys; room = min (spare s.added) (vec_capacity s.ascending - vec_len s.ascending) } };

    ghost invariant = { λ s. InBothOrders s.added.keys s.ascending.items };
}

impl NodeSet {
    #[tactic(auto, unfolding(crate::specs::Lists::ascending))]
    pub fn empty(alloc: Global) -> NodeSet
        ensures { result.nodes ≡ [] }
    {
        NodeSet {
            added: IndexSet::new(alloc),
            ascending: Vec::new(alloc),
        }
    }

    pub fn len(&self) -> usize
        ensures { result ≡ length self.now.nodes }
    {
        self.added.len()
    }

    pub fn contains(&self, id: NodeId) -> bool
        ensures { result ≡ has self.now.nodes id }
    {
        self.added.contains(&id)
    }

    /// The place of a node in the order in which they were added.
    pub fn place(&self, id: NodeId) -> Option<usize>
        ensures some { IfSome result (λ place. slice_get self.now.nodes place ≡ Some id) }
        ensures none { IsNone result ↔ (has self.now.nodes id ≡ false) }
    {
        self.added.get_index_of(&id)
    }

    /// The node at a place in the order in which they were added.
    pub fn at(&self, place: usize) -> Option<NodeId>
        ensures { result ≡ slice_get self.now.nodes place }
    {
        self.added.get_index(place).copied()
    }

    pub fn ascending(&self) -> &[NodeId]
        ensures { result.now ≡ ascending self.now.nodes }
    {
        &self.ascending
    }

    /// The place of a node in ascending order. Where the numbers have no gap, it is found without a search.
    pub fn rank(&self, id: NodeId) -> Option<usize>
        ensures some { IfSome result (λ rank. slice_get (ascending self.now.nodes) rank ≡ Some id) }
        ensures none { IsNone result ↔ (has self.now.nodes id ≡ false) }
    {
        let place = offset(&self.ascending, id);
        if stands_at(&self.ascending, place, id) {
            return Some(place);
        }
        self.searched(id)
    }

    // The place of a node in ascending order, by a search.
    fn searched(&self, id: NodeId) -> Option<usize>
        ensures some { IfSome result (λ rank. slice_get (ascending self.now.nodes) rank ≡ Some id) }
        ensures none { IsNone result ↔ (has self.now.nodes id ≡ false) }
    {
        self.ascending.binary_search(&id).ok()
    }

    /// Reserves room for one more node.
    pub fn reserve(&mut self) -> Result<(), NoMemory>
        ensures ok { OnOk result (0 < self.new.room) }
        ensures nodes { self.new.nodes ≡ self.old.nodes }
    {
        self.added.reserve(1)?;
        self.ascending.reserve(1)?;
        Ok(())
    }

    /// Adds a node. There must be room for it.
    pub fn add(&mut self, id: NodeId)
        requires room { 0 < self.old.room }
        requires new { has self.old.nodes id ≡ false }
        ensures { self.new.nodes ≡ self.old.nodes ++ id ∷ [] }
    {
        self.added.insert(id).unwrap();
        insert_ascending(&mut self.ascending, id).unwrap();
    }
}
