//! The items of an entry while they are listed.
ghost use Rattle.std.specs.Prelude.{◌≡◌, ◌≢◌, ◌++◌, ◌∷◌, [], map, IfOk, IfSome, IsNone, IsTrue, IsFalse, OnOk, OnErr};
ghost use Rattle.topology.specs.AlikeLists.{unpacked};
ghost use Rattle.topology.specs.SentLists.{AreUnlike};

use crate::alike_sent::ShortSent;
use crate::items::Sent;
use crate::{NoMemory, NodeId, Session, Trigger, Triggers};
use std::alloc::Global;
use std::marker::Model;

/// Items that are listed one by one, of which a `SentItems` is made. A list is emptied and used again. Its first items stand
/// in six bytes each, as long as they list one and the same trigger, in sessions and with numbers below 65,536.
#[derive(Drop)]
pub struct SentList {
    // What each of the first items lists, if there are any.
    trigger: Trigger,
    first: Vec<ShortSent>,
    others: Vec<Sent>,
}

impl Model for SentList {
    ghost use Rattle.std.specs.Prelude.{List, ◌++◌, map};
    ghost use Rattle.topology.specs.declared.items.Sent.{Sent};
    ghost use Rattle.topology.specs.AlikeLists.{unpacked};

    ghost Value = { List Sent };

    ghost use Rattle.topology.specs.SentLists.{AreWholeForReason};

    ghost view = { λ l. map (unpacked l.trigger) l.first.items ++ l.others.items };

    ghost invariant = { λ l. AreWholeForReason (map (unpacked l.trigger) l.first.items) l.others.items };
}

// Whether one more item may stand behind the first in six bytes, for this trigger: none stands whole, and the first, if there
// are any, list the same trigger.
#[inline(always)]
fn may_stand_behind(first: &[ShortSent], others: &[Sent], own: &Trigger, trigger: &Trigger) -> bool
    ensures none { IsTrue result → others.now ≡ [] }
    ensures same { IsTrue result → map (unpacked own.now) first.now ≡ map (unpacked trigger.now) first.now }
    ensures no { IsFalse result → others.now ≡ [] → (first.now ≢ []) × (own.now ≢ trigger.now) }
{
    others.is_empty() && (first.is_empty() || *own == *trigger)
}

impl SentList {
    /// The list without items. Takes no memory.
    pub fn new(alloc: Global) -> SentList
        ensures { result ≡ [] }
    {
        SentList {
            trigger: Trigger {
                node: NodeId::new(0),
                count: 0,
            },
            first: Vec::new(alloc),
            others: Vec::new(alloc),
        }
    }

    /// Empties the list, which keeps its memory.
    #[inline(always)]
    pub fn clear(&mut self)
        ensures { self.new ≡ [] }
    {
        self.first.clear();
        if !self.others.is_empty() {
            self.others.clear();
        }
    }

    /// Adds an item.
    #[inline(always)]
    pub fn push(
        &mut self,
        to: NodeId,
        session: Session,
        seq: u32,
        triggers: &Triggers,
    ) -> Result<(), NoMemory>
        ensures ok { OnOk result (self.new ≡ self.old ++ record { to = to; session = session; seq = seq; triggers = triggers.now } ∷ []) }
        ensures err { OnErr result (self.new ≡ self.old) }
    {
        let Some((trigger, item)) = ShortSent::of(to, session, seq, triggers) else {
            return self.push_whole(to, session, seq, triggers);
        };
        if !may_stand_behind(&self.first, &self.others, &self.trigger, &trigger) {
            return self.push_whole(to, session, seq, triggers);
        }
        self.first.reserve(1)?;
        self.trigger = trigger;
        self.first.push_reserved(item);
        Ok(())
    }

    // Adds an item behind all others, which cannot stand in six bytes with them.
    #[inline(never)]
    fn push_whole(
        &mut self,
        to: NodeId,
        session: Session,
        seq: u32,
        triggers: &Triggers,
    ) -> Result<(), NoMemory>
        requires { AreUnlike (self.old ++ record { to = to; session = session; seq = seq; triggers = triggers.now } ∷ []) }
        ensures ok { OnOk result (self.new ≡ self.old ++ record { to = to; session = session; seq = seq; triggers = triggers.now } ∷ []) }
        ensures err { OnErr result (self.new ≡ self.old) }
    {
        self.others.push(Sent {
            to,
            session,
            seq,
            triggers: triggers.copy()?,
        })?;
        Ok(())
    }

    /// The items in six bytes and the trigger that each of them lists, where all are such.
    #[inline(always)]
    pub(crate) fn short(&self) -> Option<(Trigger, &[ShortSent])>
        ensures some { IfSome result (λ found. self.now ≡ map (unpacked found.0) found.1.now) }
        ensures none { IsNone result → AreUnlike self.now }
    {
        if !self.others.is_empty() {
            return None;
        }
        Some((self.trigger, &self.first))
    }

    /// The items, each with its triggers.
    pub(crate) fn whole(&self, alloc: Global) -> Result<Vec<Sent>, NoMemory>
        ensures { IfOk result (λ items. items.items ≡ self.now) }
    {
        let mut items = Vec::with_capacity(alloc, self.first.len() + self.others.len())?;
        let trigger = self.trigger;
        for item in &self.first {
            items.push(item.with(trigger))?;
        }
        for item in &self.others {
            items.push(item.copy()?)?;
        }
        Ok(items)
    }
}
