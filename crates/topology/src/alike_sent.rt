//! Any number of items that were sent for one trigger, in one block.
ghost use Rattle.std.specs.Prelude.{◌≡◌, ◌∷◌, [], length, map, slice_get, IfOk, IfSome, IsNone};
ghost use Rattle.std.specs.List.{AllByRecursion, list_any};
ghost use Rattle.topology.specs.AlikeLists.{unpacked};
ghost use Rattle.topology.specs.Triggers.{Ascend};
ghost use Rattle.topology.specs.SentLists.{IsSmall, is_above, marks_of};
ghost use Rattle.topology.specs.declared.names.Trigger.{Trigger as AnyTrigger};

use crate::items::Sent;
use crate::packed_sent::{only, short};
use crate::sent_ref::SentRef;
use crate::{NoMemory, NodeId, Session, Trigger, Triggers};
use smallvec::SmallVec;
use std::alloc::Global;
use std::marker::Model;

/// How many items stand in the block. Those of a longer list stand behind it.
const IN_PLACE: usize = 8;

/// An item without its trigger, in a session and with a number of two bytes.
#[derive(Clone, Copy, Debug, Default)]
pub struct ShortSent {
    pub(crate) to: NodeId,
    pub(crate) session: u16,
    pub(crate) seq: u16,
}

impl ShortSent {
    /// The only trigger that this item lists, and the item without it. `None` exactly where it lists another number of
    /// triggers, or its session or its number does not have two bytes.
    #[inline(always)]
    pub(crate) fn of(
        to: NodeId,
        session: Session,
        seq: u32,
        triggers: &Triggers,
    ) -> Option<(Trigger, ShortSent)>
        ensures some { IfSome result (λ found.
            unpacked found.0 found.1 ≡ record { to = to; session = session; seq = seq; triggers = triggers.now }) }
        ensures none { IsNone result → (t : AnyTrigger) →
            IsSmall t (record { to = to; session = session; seq = seq; triggers = triggers.now }) → ⊥ }
    {
        let trigger = only(triggers)?;
        let session = short(session.number())?;
        let seq = short(seq)?;
        Some((trigger, ShortSent { to, session, seq }))
    }

    /// The item, which lists this trigger.
    pub(crate) fn with(&self, trigger: Trigger) -> Sent
        ensures { result ≡ unpacked trigger self.now }
    {
        Sent {
            to: self.to,
            session: Session::new(u32::from(self.session)),
            seq: u32::from(self.seq),
            triggers: Triggers::one(trigger),
        }
    }
}

/// Items that list the same one trigger, in sessions and with numbers of two bytes. The trigger stands once.
#[derive(Debug, Drop)]
pub struct AlikeSent {
    trigger: Trigger,
    items: SmallVec<ShortSent, IN_PLACE>,
}

impl Model for AlikeSent {
    ghost use Rattle.std.specs.Prelude.{List, map};
    ghost use Rattle.topology.specs.declared.items.Sent.{Sent};
    ghost use Rattle.topology.specs.AlikeLists.{unpacked};

    ghost Value = { List Sent };

    ghost view = { λ a. map (unpacked a.trigger) a.items.items };
}

// The item without the trigger, where it lists this one and no other, and its session and its number have two bytes.
fn packed(item: &Sent, trigger: &Trigger) -> Option<ShortSent>
    ensures some { IfSome result (λ packed. unpacked trigger.now packed ≡ item.now) }
    ensures none { IsNone result → IsSmall trigger.now item.now → ⊥ }
{
    let (own, packed) = ShortSent::of(item.to, item.session, item.seq, &item.triggers)?;
    if own != *trigger {
        return None;
    }
    Some(packed)
}

// The items without the trigger, where each is so.
fn all_packed(
    alloc: Global,
    items: &[Sent],
    trigger: &Trigger,
) -> Result<Option<SmallVec<ShortSent, IN_PLACE>>, NoMemory>
    ensures some { IfOk result (λ found. IfSome found (λ list. map (unpacked trigger.now) list.items ≡ items.now)) }
    ensures none { IfOk result (λ found. IsNone found → AllByRecursion (IsSmall trigger.now) items.now → ⊥) }
{
    let mut list = SmallVec::new(alloc);
    list.reserve(items.len())?;
    for item in items {
        let Some(packed) = packed(item, trigger) else {
            return Ok(None);
        };
        list.push(packed)?;
    }
    Ok(Some(list))
}

impl AlikeSent {
    /// These items, if there is one, they list one and the same trigger, and their sessions and numbers have two bytes.
    /// The answer is `None` exactly where that is not so.
    pub fn of(alloc: Global, items: &[Sent]) -> Result<Option<AlikeSent>, NoMemory>
        ensures some { IfOk result (λ found. IfSome found (λ kept. kept ≡ items.now)) }
        ensures none { IfOk result (λ found. IsNone found → (t : AnyTrigger) → AllByRecursion (IsSmall t) items.now → items.now ≡ []) }
    {
        let [first, ..] = items else {
            return Ok(None);
        };
        let Some(trigger) = only(&first.triggers) else {
            return Ok(None);
        };
        let Some(items) = all_packed(alloc, items, &trigger)? else {
            return Ok(None);
        };
        let Trigger { node, count } = trigger;
        Ok(Some(AlikeSent {
            trigger: Trigger { node, count },
            items,
        }))
    }

    /// These items, which list this trigger.
    pub(crate) fn of_short(
        alloc: Global,
        trigger: Trigger,
        items: &[ShortSent],
    ) -> Result<AlikeSent, NoMemory>
        ensures { IfOk result (λ kept. kept ≡ map (unpacked trigger) items.now) }
    {
        Ok(AlikeSent {
            trigger,
            items: SmallVec::from_slice(alloc, items)?,
        })
    }

    /// The item at this place.
    pub fn at(&self, place: usize) -> Option<SentRef<'_>>
        ensures item { result ≡ slice_get self.now place }
        ensures ascend { IfSome result (λ item. Ascend item.triggers) }
    {
        let item = self.items.as_slice().get(place)?;
        Some(SentRef::short(item.to, item.session, item.seq, &self.trigger))
    }

    /// How many items there are.
    pub fn len(&self) -> usize
        ensures { result ≡ length self.now }
    {
        self.items.len()
    }

    /// How many triggers they list, counted once for each item.
    #[tactic(auto, using(crate::proofs::Lent::alike_marks))]
    pub fn marks(&self) -> usize
        ensures { result ≡ marks_of self.now }
    {
        self.items.len()
    }

    /// Whether one of them lists more triggers than this.
    #[tactic(auto, using(crate::proofs::Lent::alike_above))]
    pub fn any_above(&self, most: usize) -> bool
        ensures { result ≡ list_any (is_above most) self.now }
    {
        !self.items.as_slice().is_empty() && most < 1
    }
}
