//! The incomplete triggers of a value, for look-ups.
ghost use Rattle.std.specs.Prelude.{◌≡◌, ℕ, IfOk};
ghost use Rattle.std.specs.List.{list_any};
ghost use Rattle.topology.specs.declared.names.Trigger.{Trigger as AnyTrigger};
ghost use Rattle.topology.specs.Triggers.{lists};

use std::alloc::Global;
use std::collections::BTreeSet;
use std::marker::Model;
use topology::{NoMemory, Trigger, Triggers};

/// A set of triggers in which one is found without a walk over all. The triggers may be given in any order.
#[derive(Drop)]
pub(crate) struct Incomplete {
    set: BTreeSet<Trigger>,
}

impl Model for Incomplete {
    ghost use Rattle.std.specs.Prelude.{List};
    ghost use Rattle.topology.specs.declared.names.Trigger.{Trigger};

    ghost Value = { List Trigger };

    ghost view = { λ i. i.set.keys };
}

impl Incomplete {
    /// The set of these triggers.
    pub(crate) fn new(alloc: Global, triggers: &[Trigger]) -> Result<Incomplete, NoMemory>
        ensures { IfOk result (λ set. (t : AnyTrigger) → lists set t ≡ lists triggers.now t) }
    {
        let mut set = BTreeSet::new(alloc);
        for trigger in triggers {
            set.insert(*trigger)?;
        }
        Ok(Incomplete { set })
    }

    // Whether the trigger is in the set.
    fn has(&self, trigger: &Trigger) -> bool
        ensures { result ≡ lists self.now trigger.now }
    {
        self.set.contains(trigger)
    }

    // Whether one of the triggers is in the set.
    fn has_one(&self, triggers: &[Trigger]) -> bool
        ensures { result ≡ list_any (lists self.now) triggers.now }
    {
        for trigger in triggers {
            if self.has(trigger) {
                return true;
            }
        }
        false
    }

    /// Whether one of the triggers is in the set.
    pub(crate) fn has_any(&self, triggers: &Triggers) -> bool
        ensures { result ≡ list_any (lists self.now) triggers.now }
    {
        self.has_one(triggers.as_slice())
    }
}
