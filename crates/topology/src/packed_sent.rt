//! One or two items that were sent for one trigger, without a list on the heap.
ghost use Rattle.std.specs.Prelude.{◌≡◌, ◌≢◌, ◌≤◌, ◌^◌, ◌↔◌, ◌∷◌, [], length, slice_get, IfSome, IsNone};
ghost use Rattle.std.specs.List.{list_any};
ghost use Rattle.topology.specs.AlikeLists.{unpacked};
ghost use Rattle.topology.specs.Triggers.{Ascend};
ghost use Rattle.topology.specs.SentLists.{IsSmall, is_above, marks_of};

use crate::alike_sent::ShortSent;
use crate::items::Sent;
use crate::sent_ref::SentRef;
use crate::{NodeId, Session, Trigger, Triggers};
use std::marker::Model;
use std::slice;

/// An item that lists one trigger.
#[derive(Debug, Drop)]
pub struct OneSent {
    to: NodeId,
    session: Session,
    seq: u32,
    trigger: Trigger,
}

/// Two items that list the same one trigger, in sessions and with numbers of two bytes. The trigger stands once.
#[derive(Debug, Drop)]
pub struct TwoSent {
    to: (NodeId, NodeId),
    session: (u16, u16),
    seq: (u16, u16),
    trigger: Trigger,
}

impl Model for OneSent {
    ghost use Rattle.std.specs.Prelude.{List, [], ◌∷◌};
    ghost use Rattle.topology.specs.declared.items.Sent.{Sent};

    ghost Value = { List Sent };

    ghost view = { λ t. record { to = t.to; session = t.session; seq = t.seq; triggers = t.trigger ∷ [] } ∷ [] };
}

impl Model for TwoSent {
    ghost use Rattle.std.specs.Prelude.{List, [], ◌∷◌};
    ghost use Rattle.topology.specs.declared.items.Sent.{Sent};

    ghost Value = { List Sent };

    ghost view = { λ t.
        record { to = t.to.0; session = t.session.0; seq = t.seq.0; triggers = t.trigger ∷ [] }
        ∷ record { to = t.to.1; session = t.session.1; seq = t.seq.1; triggers = t.trigger ∷ [] } ∷ [] };
}

// The trigger, where there is one and no other.
pub(crate) fn only(triggers: &Triggers) -> Option<Trigger>
    ensures some { IfSome result (λ trigger. triggers.now ≡ trigger ∷ []) }
    ensures none { IsNone result → (t : Trigger) → triggers.now ≢ t ∷ [] }
{
    match triggers.as_slice() {
        [] => None,
        [trigger] => Some(*trigger),
        [_, _, ..] => None,
    }
}

// The trigger that both list, where each lists one and no other.
fn only_of_both(one: &Triggers, other: &Triggers) -> Option<Trigger>
    ensures one { IfSome result (λ trigger. one.now ≡ trigger ∷ []) }
    ensures other { IfSome result (λ trigger. other.now ≡ trigger ∷ []) }
    ensures none { IsNone result → (t : Trigger) → one.now ≡ t ∷ [] → other.now ≢ t ∷ [] }
{
    let trigger = only(one)?;
    let second = only(other)?;
    if trigger != second {
        return None;
    }
    Some(trigger)
}

// The number, where it has two bytes.
pub(crate) fn short(number: u32) -> Option<u16>
    ensures some { IfSome result (λ short. short ≡ number) }
    ensures none { IsNone result ↔ 2 ^ 16 ≤ number }
{
    u16::try_from(number).ok()
}

impl OneSent {
    /// This item, if it lists one trigger.
    pub fn of(item: &Sent) -> Option<OneSent>
        ensures some { IfSome result (λ kept. kept ≡ item.now ∷ []) }
        ensures none { IsNone result → (t : Trigger) → item.now.triggers ≢ t ∷ [] }
    {
        let trigger = only(&item.triggers)?;
        Some(OneSent {
            to: item.to,
            session: item.session,
            seq: item.seq,
            trigger,
        })
    }

    /// This item, which lists the trigger.
    pub(crate) fn short(item: &ShortSent, trigger: Trigger) -> OneSent
        ensures { result ≡ unpacked trigger item.now ∷ [] }
    {
        OneSent {
            to: item.to,
            session: Session::new(u32::from(item.session)),
            seq: u32::from(item.seq),
            trigger,
        }
    }

    /// The same item again.
    pub fn copy(&self) -> OneSent
        ensures { result ≡ self.now }
    {
        OneSent {
            to: self.to,
            session: self.session,
            seq: self.seq,
            trigger: self.trigger,
        }
    }

    /// The item at this place.
    pub fn at(&self, place: usize) -> Option<SentRef<'_>>
        ensures item { result ≡ slice_get self.now place }
        ensures ascend { IfSome result (λ item. Ascend item.triggers) }
    {
        match place {
            0 => Some(SentRef {
                to: self.to,
                session: self.session,
                seq: self.seq,
                triggers: slice::from_ref(&self.trigger),
            }),
            _ => None,
        }
    }

    /// How many items there are.
    pub fn len(&self) -> usize
        ensures { result ≡ length self.now }
    {
        let _to = self.to;
        1
    }

    /// How many triggers it lists, counted once for each item.
    pub fn marks(&self) -> usize
        ensures { result ≡ marks_of self.now }
    {
        let _to = self.to;
        1
    }

    /// Whether it lists more triggers than this.
    pub fn any_above(&self, most: usize) -> bool
        ensures { result ≡ list_any (is_above most) self.now }
    {
        let _to = self.to;
        most < 1
    }
}

impl TwoSent {
    /// These items, if they list one and the same trigger, and their sessions and numbers have two bytes.
    pub fn of(one: &Sent, other: &Sent) -> Option<TwoSent>
        ensures some { IfSome result (λ kept. kept ≡ one.now ∷ other.now ∷ []) }
        ensures none { IsNone result → (t : Trigger) → IsSmall t one.now → IsSmall t other.now → ⊥ }
    {
        let trigger = only_of_both(&one.triggers, &other.triggers)?;
        let session = short(one.session.number())?;
        let other_session = short(other.session.number())?;
        let seq = short(one.seq)?;
        let other_seq = short(other.seq)?;
        Some(TwoSent {
            to: (one.to, other.to),
            session: (session, other_session),
            seq: (seq, other_seq),
            trigger,
        })
    }

    /// These items, which list the trigger.
    pub(crate) fn short(one: &ShortSent, other: &ShortSent, trigger: Trigger) -> TwoSent
        ensures { result ≡ unpacked trigger one.now ∷ unpacked trigger other.now ∷ [] }
    {
        TwoSent {
            to: (one.to, other.to),
            session: (one.session, other.session),
            seq: (one.seq, other.seq),
            trigger,
        }
    }

    /// The same items again.
    pub fn copy(&self) -> TwoSent
        ensures { result ≡ self.now }
    {
        TwoSent {
            to: self.to,
            session: self.session,
            seq: self.seq,
            trigger: self.trigger,
        }
    }

    /// The item at this place.
    pub fn at(&self, place: usize) -> Option<SentRef<'_>>
        ensures item { result ≡ slice_get self.now place }
        ensures ascend { IfSome result (λ item. Ascend item.triggers) }
    {
        match place {
            0 => Some(SentRef::short(self.to.0, self.session.0, self.seq.0, &self.trigger)),
            1 => Some(SentRef::short(self.to.1, self.session.1, self.seq.1, &self.trigger)),
            _ => None,
        }
    }

    /// How many items there are.
    pub fn len(&self) -> usize
        ensures { result ≡ length self.now }
    {
        let _to = self.to;
        2
    }

    /// How many triggers they list, counted once for each item.
    pub fn marks(&self) -> usize
        ensures { result ≡ marks_of self.now }
    {
        let _to = self.to;
        2
    }

    /// Whether one of them lists more triggers than this.
    pub fn any_above(&self, most: usize) -> bool
        ensures { result ≡ list_any (is_above most) self.now }
    {
        let _to = self.to;
        most < 1
    }
}
