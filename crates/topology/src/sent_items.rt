//! The items that an entry sent.
ghost use Rattle.std.specs.Prelude.{◌≡◌, ◌≤◌, ◌<◌, ◌^◌, ◌+◌, ◌↔◌, ◌∷◌, [], drop, length, slice_get, IfOk, IsOk, IfSome, IsSome, IsNone, IsTrue};
ghost use Rattle.std.specs.List.{list_any};
ghost use Rattle.topology.specs.Triggers.{Ascend};
ghost use Rattle.topology.specs.SentLists.{AreAlike, IsUnlike, is_above, listed_sent, marks_of};

use crate::alike_sent::AlikeSent;
use crate::packed_sent::{OneSent, TwoSent};
use crate::sent_list::SentList;
use crate::sent_ref::SentRef;
use crate::{NoMemory, Sent, Trigger};
use std::alloc::Global;
use std::marker::Model;
use std::rc::Rc;

/// The items that an entry sent: by neighbour ascending, then by prefix in file order. A `close`
/// stands at its neighbour's place.
#[derive(Debug, Drop)]
pub struct SentItems {
    kept: Kept,
}

// The items of an entry. Most entries send few of them for one trigger, which take no memory; the copies of any other
// list share it.
#[derive(Debug, Drop)]
enum Kept {
    Nothing,
    One(OneSent),
    Two(TwoSent),
    Alike(Rc<AlikeSent>),
    Many(Rc<Vec<Sent>>),
}

impl Model for SentItems {
    ghost use Rattle.std.specs.Prelude.{List};
    ghost use Rattle.topology.specs.declared.items.Sent.{Sent};
    ghost use Rattle.topology.specs.SentLists.{listed_sent, IsUnlike};

    ghost Value = { List Sent };

    ghost view = { λ s. listed_sent s.kept };

    ghost invariant = { λ s. IsUnlike s.kept };
}

// A copy of each item.
fn copies(alloc: Global, items: &[Sent]) -> Result<Vec<Sent>, NoMemory>
    ensures { IfOk result (λ list. list.items ≡ items.now) }
{
    let mut list = Vec::with_capacity(alloc, items.len())?;
    for item in items {
        list.push(item.copy()?)?;
    }
    Ok(list)
}

// The items in place, where there are at most two, one trigger is all that each of them lists, and their sessions and
// numbers are small.
fn in_place(items: &[Sent]) -> Option<Kept>
    ensures some { IfSome result (λ kept. listed_sent kept ≡ items.now) }
    ensures unlike { IfSome result (λ kept. IsUnlike kept) }
    ensures none { IsNone result → (t : Trigger) → AreAlike t items.now → ⊥ }
{
    match items {
        [] => Some(Kept::Nothing),
        [item] => Some(Kept::One(OneSent::of(item)?)),
        [one, other] => Some(Kept::Two(TwoSent::of(one, other)?)),
        [_, _, _, ..] => None,
    }
}

// The items in a block that copies share. Those that list one and the same trigger, in sessions and with numbers below 65,536,
// take six bytes each.
fn in_a_block(alloc: Global, items: &[Sent]) -> Result<Kept, NoMemory>
    ensures items { IfOk result (λ kept. listed_sent kept ≡ items.now) }
    ensures unlike { IfOk result (λ kept. ((t : Trigger) → AreAlike t items.now → ⊥) → IsUnlike kept) }
{
    if let Some(list) = AlikeSent::of(alloc, items)? {
        return Ok(Kept::Alike(Rc::new(alloc, list)?));
    }
    let list = copies(alloc, items)?;
    Ok(Kept::Many(Rc::new(alloc, list)?))
}

// How many triggers the items list. None where the count ends.
fn count_marks(items: &[Sent]) -> Option<usize>
    ensures some { IfSome result (λ marks. marks ≡ marks_of items.now) }
    ensures none { IsNone result → 2 ^ 64 ≤ marks_of items.now }
{
    let mut marks: usize = 0;
    for item in items {
        let Some(more) = marks.checked_add(item.triggers.len()) else {
            return None;
        };
        marks = more;
    }
    Some(marks)
}

impl SentItems {
    /// The list of these items. Up to two of them that list one and the same trigger, in sessions and with numbers below 65,536,
    /// take no memory.
    pub fn of(alloc: Global, items: &[Sent]) -> Result<SentItems, NoMemory>
        ensures items { IfOk result (λ sent. sent ≡ items.now) }
        ensures few { (t : Trigger) → AreAlike t items.now → IsOk result }
    {
        match in_place(items) {
            Some(kept) => Ok(SentItems { kept }),
            None => Ok(SentItems {
                kept: in_a_block(alloc, items)?,
            }),
        }
    }

    /// The items of this list. Up to two of them that list one and the same trigger, in sessions and with numbers below 65,536,
    /// take no memory.
    pub fn of_list(alloc: Global, list: &SentList) -> Result<SentItems, NoMemory>
        ensures items { IfOk result (λ sent. sent ≡ list.now) }
        ensures few { (t : Trigger) → AreAlike t list.now → IsOk result }
    {
        let Some((trigger, items)) = list.short() else {
            return SentItems::of(alloc, &list.whole(alloc)?);
        };
        let kept = match items {
            [] => Kept::Nothing,
            [item] => Kept::One(OneSent::short(item, trigger)),
            [one, other] => Kept::Two(TwoSent::short(one, other, trigger)),
            [_, _, _, ..] => {
                let list = AlikeSent::of_short(alloc, trigger, items)?;
                Kept::Alike(Rc::new(alloc, list)?)
            }
        };
        Ok(SentItems { kept })
    }

    /// No items. Takes no memory.
    pub fn none() -> SentItems
        ensures { result ≡ [] }
    {
        SentItems {
            kept: Kept::Nothing,
        }
    }

    /// The same items again. Up to two of them that list one and the same trigger, in sessions and with numbers below 65,536,
    /// take no memory.
    pub fn copy(&self) -> Result<SentItems, NoMemory>
        ensures copy { IfOk result (λ sent. sent ≡ self.now) }
        ensures few { (t : Trigger) → AreAlike t self.now → IsOk result }
    {
        match &self.kept {
            Kept::Nothing => Ok(SentItems::none()),
            Kept::One(item) => Ok(SentItems {
                kept: Kept::One(item.copy()),
            }),
            Kept::Two(items) => Ok(SentItems {
                kept: Kept::Two(items.copy()),
            }),
            Kept::Alike(items) => Ok(SentItems {
                kept: Kept::Alike(items.clone()?),
            }),
            Kept::Many(items) => Ok(SentItems {
                kept: Kept::Many(items.clone()?),
            }),
        }
    }

    /// Whether there are none, as in most entries. A list that was made of no items is one of them.
    #[inline(always)]
    pub fn is_none(&self) -> bool
        ensures { IsTrue result → self.now ≡ [] }
    {
        matches!(self.kept, Kept::Nothing)
    }

    /// How many items there are.
    pub fn len(&self) -> usize
        ensures { result ≡ length self.now }
    {
        match &self.kept {
            Kept::Nothing => 0,
            Kept::One(item) => item.len(),
            Kept::Two(items) => items.len(),
            Kept::Alike(items) => items.len(),
            Kept::Many(items) => items.len(),
        }
    }

    /// How many triggers they list, counted once for each item. None where the count ends. No item is laid out.
    pub fn marks(&self) -> Option<usize>
        ensures some { IfSome result (λ marks. marks ≡ marks_of self.now) }
        ensures none { IsNone result → 2 ^ 64 ≤ marks_of self.now }
    {
        match &self.kept {
            Kept::Nothing => Some(0),
            Kept::One(item) => Some(item.marks()),
            Kept::Two(items) => Some(items.marks()),
            Kept::Alike(items) => Some(items.marks()),
            Kept::Many(items) => count_marks(items.as_slice()),
        }
    }

    /// Whether one of them lists more triggers than this. No item is laid out.
    pub fn any_above(&self, most: usize) -> bool
        ensures { result ≡ list_any (is_above most) self.now }
    {
        match &self.kept {
            Kept::Nothing => false,
            Kept::One(item) => item.any_above(most),
            Kept::Two(items) => items.any_above(most),
            Kept::Alike(items) => items.any_above(most),
            Kept::Many(items) => items.iter().any(|item| item.triggers.len() > most),
        }
    }

    // The item at this place.
    #[inline(always)]
    fn lent(&self, place: usize) -> Option<SentRef<'_>>
        ensures item { result ≡ slice_get self.now place }
        ensures ascend { IfSome result (λ item. Ascend item.triggers) }
    {
        match &self.kept {
            Kept::Nothing => None,
            Kept::One(item) => item.at(place),
            Kept::Two(items) => items.at(place),
            Kept::Alike(items) => items.at(place),
            Kept::Many(items) => Some(SentRef::of(items.get(place)?)),
        }
    }

    /// The item at this place, lent as it is kept: nothing is copied.
    #[inline(always)]
    pub fn at(&self, place: usize) -> Option<SentRef<'_>>
        ensures item { result ≡ slice_get self.now place }
        ensures some { IsSome result ↔ place < length self.now }
        ensures rest { IfSome result (λ item. drop place self.now ≡ item ∷ drop (place + 1) self.now) }
        ensures ascend { IfSome result (λ item. Ascend item.triggers) }
    {
        self.lent(place)
    }
}
