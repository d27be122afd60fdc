//! Lists of triggers.
ghost use Rattle.std.specs.Prelude.{◌≡◌, ◌≤◌, ◌↔◌, ◌==◌, [], ◌∷◌, length, slice_get, IfOk, IsOk, OnErr, IfSome, IsSome, IsTrue};
ghost use Rattle.topology.specs.Triggers.{Ascend, lists, union};

use crate::{NoMemory, Trigger};
use std::alloc::Global;
use std::marker::Model;
use std::rc::Rc;
use std::slice;

/// Triggers in ascending order, by node, then by counter, without repeats.
#[derive(Debug, Drop)]
pub struct Triggers {
    kept: Kept,
}

// Most lists have one trigger, which takes no memory. Copies of a longer list share it.
#[derive(Debug, Drop)]
enum Kept {
    Nothing,
    One(Trigger),
    Many(Rc<Vec<Trigger>>),
}

impl Model for Triggers {
    ghost use Rattle.std.specs.Prelude.{List};
    ghost use Rattle.topology.specs.declared.names.Trigger.{Trigger};
    ghost use Rattle.topology.specs.Triggers.{Ascend};
    ghost use Rattle.topology.specs.TriggerLists.{IsLong, listed_triggers};

    ghost Value = { List Trigger };

    ghost view = { λ t. listed_triggers t.kept };

    ghost invariant = { λ t. Ascend (listed_triggers t.kept) × IsLong t.kept };
}

// Whether each trigger is below the next one.
fn rises(list: &[Trigger]) -> bool
    ensures { IsTrue result ↔ Ascend list.now }
{
    for place in 0..list.len() {
        if place + 1 == list.len() {
            return true;
        }
        if !list[place].is_earlier(list[place + 1]) {
            return false;
        }
    }
    true
}

// The union of two ascending lists. Each step takes the earlier of the first two triggers that are left.
fn merged(alloc: Global, one: &[Trigger], other: &[Trigger]) -> Result<Vec<Trigger>, NoMemory>
    requires one { Ascend one.now }
    requires other { Ascend other.now }
    ensures { IfOk result (λ list. list.items ≡ union one.now other.now) }
{
    let mut list = Vec::with_capacity(alloc, one.len() + other.len())?;
    let mut here = 0;
    let mut there = 0;
    while here < one.len() && there < other.len() {
        let left = &one[here];
        let right = &other[there];
        if left.is_earlier(*right) {
            list.push(*left)?;
            here += 1;
        } else if right.is_earlier(*left) {
            list.push(*right)?;
            there += 1;
        } else {
            list.push(*left)?;
            here += 1;
            there += 1;
        }
    }
    let (_, left) = one.split_at(here);
    let (_, right) = other.split_at(there);
    list.extend_from_slice(left)?;
    list.extend_from_slice(right)?;
    Ok(list)
}

impl Triggers {
    /// The empty list. Takes no memory.
    pub fn none() -> Triggers
        ensures { result ≡ [] }
    {
        Triggers {
            kept: Kept::Nothing,
        }
    }

    /// The list of one trigger. Takes no memory.
    pub fn one(trigger: Trigger) -> Triggers
        ensures { result ≡ trigger ∷ [] }
    {
        Triggers {
            kept: Kept::One(trigger),
        }
    }

    /// The list of these triggers. The answer is `None` exactly where they do not ascend; then nothing is allocated.
    pub fn new(list: Vec<Trigger>) -> Result<Option<Triggers>, NoMemory>
        ensures some { IfOk result (λ triggers. IfSome triggers (λ t. t ≡ list.items)) }
        ensures none { IfOk result (λ triggers. IsSome triggers ↔ Ascend list.items) }
        ensures err { OnErr result (Ascend list.items) }
    {
        if !rises(&list) {
            return Ok(None);
        }
        let triggers = Triggers::from_ascending(list)?;
        Ok(Some(triggers))
    }

    /// The list of these triggers, which must ascend. One trigger takes no memory.
    pub fn from_ascending(list: Vec<Trigger>) -> Result<Triggers, NoMemory>
        requires { Ascend list.items }
        ensures triggers { IfOk result (λ triggers. triggers ≡ list.items) }
        ensures few { length list.items ≤ 1 → IsOk result }
    {
        match list.as_slice() {
            [] => return Ok(Triggers::none()),
            [trigger] => return Ok(Triggers::one(*trigger)),
            [_, _, ..] => {}
        }
        let alloc = *list.allocator();
        Ok(Triggers {
            kept: Kept::Many(Rc::new(alloc, list)?),
        })
    }

    /// A copy. A list of one trigger takes no memory.
    pub fn copy(&self) -> Result<Triggers, NoMemory>
        ensures copy { IfOk result (λ triggers. triggers ≡ self.now) }
        ensures few { length self.now ≤ 1 → IsOk result }
    {
        let kept = match &self.kept {
            Kept::Nothing => Kept::Nothing,
            Kept::One(trigger) => Kept::One(*trigger),
            Kept::Many(triggers) => Kept::Many(triggers.clone()?),
        };
        Ok(Triggers { kept })
    }

    pub fn as_slice(&self) -> &[Trigger]
        ensures triggers { result.now ≡ self.now }
        ensures ascend { Ascend self.now }
    {
        match &self.kept {
            Kept::Nothing => &[],
            Kept::One(trigger) => slice::from_ref(trigger),
            Kept::Many(triggers) => triggers.as_slice(),
        }
    }

    /// How many triggers there are.
    pub fn len(&self) -> usize
        ensures { result ≡ length self.now }
    {
        self.as_slice().len()
    }

    pub fn is_empty(&self) -> bool
        ensures { result ≡ (length self.now == 0) }
    {
        self.as_slice().is_empty()
    }

    /// The first trigger, where there is one.
    pub fn first(&self) -> Option<Trigger>
        ensures { result ≡ slice_get self.now 0 }
    {
        self.as_slice().first().copied()
    }

    /// Whether the trigger is one of them.
    pub fn contains(&self, trigger: Trigger) -> bool
        ensures { result ≡ lists self.now trigger }
    {
        self.as_slice().contains(&trigger)
    }

    /// The union of both lists.
    pub fn union(&self, alloc: Global, other: &Triggers) -> Result<Triggers, NoMemory>
        ensures { IfOk result (λ triggers. triggers ≡ union self.now other.now) }
    {
        let triggers = self.as_slice();
        let others = other.as_slice();
        if triggers.is_empty() {
            return other.copy();
        }
        if others.is_empty() {
            return self.copy();
        }
        let list = merged(alloc, triggers, others)?;
        Triggers::from_ascending(list)
    }
}
