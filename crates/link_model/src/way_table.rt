//! The ways over the links of a network, by number.
ghost use Rattle.std.specs.Prelude.{ℕ, ◌≡◌, ◌<◌, ◌≤◌, ◌++◌, ◌∷◌, [], Some, None, map, length, slice_get, IfOk, OnOk, IfSome, if◌then◌else◌};
ghost use Rattle.std.specs.List.Sorted.{IsStrictlyIncreasing};
ghost use Rattle.topology.specs.Lists.{ascending, has};
ghost use Rattle.topology.specs.Net.{linked, neighbours};
ghost use Rattle.link_model.specs.declared.way_set.TheConstants.{MOST_WAYS};
ghost use Rattle.link_model.specs.Tables.{cells, ends, ways_of};

use crate::ranks::{Ranks, entry, place_of};
use std::alloc::Global;
use std::marker::Model;
use topology::{NoMemory, NodeId, Topology, Way};

/// Different ways, numbered from 0.
#[derive(Drop)]
pub struct WayTable {
    ranks: Ranks,
    // The number of each way, at the rank of its sender, then at the rank of its receiver.
    rows: Vec<Vec<Option<usize>>>,
    ways: Vec<Way>,
}

impl Model for WayTable {
    ghost use Rattle.std.specs.Prelude.{List, map};
    ghost use Rattle.topology.specs.declared.ways.Way.{Way};
    ghost use Rattle.link_model.specs.Tables.{IsTabled};

    ghost Value = { List Way };

    ghost view = { λ t. t.ways.items };

    ghost invariant = { λ t. IsTabled t.ranks (map (λ row. row.items) t.rows.items) t.ways.items };
}

// Whether a node is in an ascending list.
fn is_near(near: &[NodeId], node: NodeId) -> bool
    ensures { IsStrictlyIncreasing near.now → result ≡ has near.now node }
{
    place_of(near, node).is_some()
}

// The number of the way to a node, if the node is near: the next number, which is new.
fn fresh_cell(
    near: &[NodeId],
    from: NodeId,
    to: NodeId,
    ways: &mut Vec<Way>,
) -> Result<Option<usize>, NoMemory>
    requires { IsStrictlyIncreasing near.now }
    ensures cell { IfOk result (λ cell. cell ≡ (if has near.now to then Some (length ways.old.items) else None)) }
    ensures ways { OnOk result (ways.new.items ≡ (if has near.now to then ways.old.items ++ ends from to ∷ [] else ways.old.items)) }
{
    if !is_near(near, to) {
        return Ok(None);
    }
    let number = ways.len();
    ways.push(Way { from, to })?;
    Ok(Some(number))
}

// The numbers of the ways from a node, which are new.
fn fresh_row(
    alloc: Global,
    topology: &Topology,
    from: NodeId,
    ways: &mut Vec<Way>,
) -> Result<Vec<Option<usize>>, NoMemory>
    ensures row { IfOk result (λ row. row.items ≡ cells (linked topology.now from) (length ways.old.items) (ascending topology.now.nodes)) }
    ensures ways { OnOk result (ways.new.items ≡ ways.old.items ++ map (ends from) (neighbours topology.now from)) }
{
    topology::laws::neighbours_are_linked();
    let near = topology.neighbours(from);
    let mut row = Vec::new(alloc);
    for to in topology.nodes() {
        row.push(fresh_cell(near, from, *to, ways)?)?;
    }
    Ok(row)
}

impl WayTable {
    /// The ways over the links of a network, by sender, then receiver.
    pub fn new(alloc: Global, topology: &Topology) -> Result<WayTable, NoMemory>
        ensures { IfOk result (λ table. table ≡ ways_of topology.now) }
    {
        topology::laws::ascending_is_sorted();
        let nodes = topology.nodes();
        let mut rows = Vec::with_capacity(alloc, nodes.len())?;
        let mut ways = Vec::new(alloc);
        for from in nodes {
            rows.push(fresh_row(alloc, topology, *from, &mut ways)?)?;
        }
        Ok(WayTable {
            ranks: Ranks::new(alloc, nodes)?,
            rows,
            ways,
        })
    }

    /// How many ways there are.
    pub fn len(&self) -> usize
        ensures length { result ≡ length self.now }
        ensures few { length self.now ≤ MOST_WAYS }
    {
        self.ways.len()
    }

    /// The way with this number. The answer is `None` exactly where no way has it.
    pub fn way(&self, number: usize) -> Option<Way>
        ensures { result ≡ slice_get self.now number }
    {
        self.ways.get(number).copied()
    }

    /// The number of a way; `None` if it is not in the table. Takes no memory.
    #[inline(always)]
    pub fn way_of(&self, from: NodeId, to: NodeId) -> Option<usize>
        ensures some { IfSome result (λ way. slice_get self.now way ≡ Some (ends from to)) }
        ensures found { (way : ℕ) → slice_get self.now way ≡ Some (ends from to) → result ≡ Some way }
        ensures few { IfSome result (λ way. way < MOST_WAYS) }
    {
        let sender = self.ranks.rank(from)?;
        let receiver = self.ranks.rank(to)?;
        entry(&self.rows[sender], receiver)
    }

    // As `way_of`, in a call of its own, as few guesses are wrong.
    #[inline(never)]
    fn look_up(&self, from: NodeId, to: NodeId) -> Option<usize>
        ensures some { IfSome result (λ way. slice_get self.now way ≡ Some (ends from to)) }
        ensures found { (way : ℕ) → slice_get self.now way ≡ Some (ends from to) → result ≡ Some way }
        ensures few { IfSome result (λ way. way < MOST_WAYS) }
    {
        self.way_of(from, to)
    }

    /// As `way_of`, with a guess at the number, which saves the look-up where it is right.
    #[inline(always)]
    pub fn way_near(&self, from: NodeId, to: NodeId, guess: usize) -> Option<usize>
        ensures some { IfSome result (λ way. slice_get self.now way ≡ Some (ends from to)) }
        ensures found { (way : ℕ) → slice_get self.now way ≡ Some (ends from to) → result ≡ Some way }
        ensures few { IfSome result (λ way. way < MOST_WAYS) }
    {
        if let Some(way) = self.ways.get(guess) {
            if way.from == from && way.to == to {
                return Some(guess);
            }
        }
        self.look_up(from, to)
    }
}
