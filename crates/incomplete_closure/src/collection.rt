//! The triggers that were collected so far.
ghost use Rattle.std.specs.Prelude.{◌≡◌, [], OnOk, IfOk};
ghost use Rattle.incomplete_closure.specs.Collection.{collect_if};

use std::alloc::Global;
use std::collections::BTreeSet;
use std::marker::Model;
use topology::{NoMemory, Trigger};

/// A set of triggers, ascending.
#[derive(Drop)]
pub(crate) struct Collection {
    set: BTreeSet<Trigger>,
}

impl Model for Collection {
    ghost use Rattle.std.specs.Prelude.{List};
    ghost use Rattle.topology.specs.declared.names.Trigger.{Trigger};

    ghost Value = { List Trigger };

    ghost view = { λ m. m.set.keys };
}

impl Collection {
    pub(crate) fn new(alloc: Global) -> Collection
        ensures { result ≡ [] }
    {
        Collection {
            set: BTreeSet::new(alloc),
        }
    }

    /// Adds the trigger to the set, if `due`.
    pub(crate) fn collect_if(&mut self, due: bool, trigger: Trigger) -> Result<(), NoMemory>
        ensures { OnOk result (self.new ≡ collect_if due trigger self.old) }
    {
        if due {
            self.set.insert(trigger)?;
        }
        Ok(())
    }

    pub(crate) fn list(&self, alloc: Global) -> Result<Vec<Trigger>, NoMemory>
        ensures { IfOk result (λ list. list.items ≡ self.now) }
    {
        Ok(self.set.iter().copied().collect(alloc)?)
    }
}
