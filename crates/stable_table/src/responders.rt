//! Which nodes responded.
ghost use Rattle.std.specs.Prelude.{ℕ, ◌≡◌, ◌<◌, ◌==◌, ◌||◌, false, length, IfOk, OnOk};
ghost use Rattle.topology.specs.Lists.{has};
ghost use Rattle.stable_table.specs.Flags.{is_flagged};
ghost use Rattle.stable_table.specs.Tables.{all_responded};

use incomplete_closure::Value;
use path_vector::RankedCandidate;
use std::alloc::Global;
use topology::{NoMemory, NodeId};

/// The nodes that responded for a value, as a flag at the place of each node's number, so that one is found without a
/// walk over all.
#[derive(Drop)]
pub(crate) struct Responders<'a> {
    pub(crate) value: &'a Value,
    flags: Vec<bool>,
    ghost flagged: { (n : ℕ) → is_flagged flags.items n ≡ has value.now.responding n },
}

// Extends the list up to this place, without flagging anything.
fn lengthen(flags: &mut Vec<bool>, place: usize) -> Result<(), NoMemory>
    requires { place < 65536 }
    ensures long { OnOk result (place < length flags.new.items) }
    ensures same { OnOk result ((n : ℕ) → is_flagged flags.new.items n ≡ is_flagged flags.old.items n) }
{
    if place < flags.len() {
        return Ok(());
    }
    flags.resize(place + 1, false)?;
    Ok(())
}

// Flags the place of this number.
fn flag(flags: &mut Vec<bool>, number: u16) -> Result<(), NoMemory>
    ensures { OnOk result ((n : ℕ) → is_flagged flags.new.items n ≡ (number == n || is_flagged flags.old.items n)) }
{
    let place = usize::from(number);
    lengthen(flags, place)?;
    flags[place] = true;
    Ok(())
}

// A list without flags that has room for the last of the nodes. The nodes of a set ascend, so that is room for all.
fn no_flags(alloc: Global, nodes: &[NodeId]) -> Result<Vec<bool>, NoMemory>
    ensures { IfOk result (λ flags. (n : ℕ) → is_flagged flags.items n ≡ false) }
{
    let mut flags = Vec::new(alloc);
    let Some(last) = nodes.last() else {
        return Ok(flags);
    };
    lengthen(&mut flags, usize::from(last.number()))?;
    Ok(flags)
}

// The list with a flag for each of the nodes.
fn flags_of(alloc: Global, nodes: &[NodeId]) -> Result<Vec<bool>, NoMemory>
    ensures { IfOk result (λ flags. (n : ℕ) → is_flagged flags.items n ≡ has nodes.now n) }
{
    let mut flags = no_flags(alloc, nodes)?;
    for node in nodes {
        flag(&mut flags, node.number())?;
    }
    Ok(flags)
}

impl<'a> Responders<'a> {
    /// The nodes that responded for this value. Takes memory in proportion to the largest of their numbers.
    pub(crate) fn new(alloc: Global, value: &'a Value) -> Result<Responders<'a>, NoMemory>
        ensures { IfOk result (λ set. set.value.now ≡ value.now) }
    {
        let flags = flags_of(alloc, value.responding.as_slice())?;
        Ok(Responders { value, flags })
    }

    /// Whether the node responded.
    pub(crate) fn responded(&self, node: NodeId) -> bool
        ensures { result ≡ has self.now.value.now.responding node }
    {
        match self.flags.get(usize::from(node.number())) {
            Some(flag) => *flag,
            None => false,
        }
    }

    /// Whether all nodes of the candidate responded.
    pub(crate) fn all_on(&self, candidate: &RankedCandidate<'_>) -> bool
        ensures { result ≡ all_responded self.now.value.now candidate.now.path }
    {
        let (own, others) = candidate.nodes();
        self.responded(own) && self.all_responded(others)
    }

    /// Whether all of the nodes responded.
    pub(crate) fn all_responded(&self, nodes: &[NodeId]) -> bool
        ensures { result ≡ all_responded self.now.value.now nodes.now }
    {
        nodes.iter().all(|node| self.responded(*node))
    }
}
