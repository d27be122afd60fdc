//! The list of the effects of an event.
ghost use Rattle.std.specs.Prelude.{◌≡◌, ◌↔◌, [], ◌∷◌, ◌++◌, IsTrue, OnErr, OnOk};

use crate::outcomes::{Effect, Effects};
use std::alloc::Global;
use std::marker::Model;
use topology::NoMemory;

/// Whether the caller of an event wants the list of its effects. Only the account is asked.
#[derive(Clone, Copy)]
pub enum Wanted {
    /// `World::deliver_next` does not: it answers the way alone. No effect is kept, so a drain takes no memory for them.
    NoEffects,
    /// `World::step` does: its outcome has the list.
    Effects,
}

/// The effects of an event, in their order. Where no effects are wanted, the list stays empty.
#[derive(Drop)]
pub struct Account {
    alloc: Global,
    wanted: Wanted,
    effects: Effects,
}

impl Model for Account {
    ghost use Rattle.run_record.specs.Accounts.{AccountView};

    ghost Value = { AccountView };

    ghost view = { λ a. record { wanted = a.wanted; list = a.effects } };
}

impl Account {
    /// An account without effects. Takes no memory.
    pub fn new(alloc: Global, wanted: Wanted) -> Account
        ensures { result ≡ record { wanted = wanted; list = [] } }
    {
        Account {
            alloc,
            wanted,
            effects: Effects::none(),
        }
    }

    /// Whether effects are wanted. Where they are not, an effect need not be made.
    #[inline(always)]
    pub fn wants_effects(&self) -> bool
        ensures { IsTrue result ↔ (self.now.wanted ≡ Wanted.Effects) }
    {
        match self.wanted {
            Wanted::NoEffects => false,
            Wanted::Effects => true,
        }
    }

    /// Adds an effect, where effects are wanted. After want of memory the account is as it was.
    #[inline(always)]
    pub fn tell(&mut self, effect: Effect) -> Result<(), NoMemory>
        ensures wanted { OnOk result (self.new.wanted ≡ self.old.wanted) }
        ensures told { OnOk result (self.old.wanted ≡ Wanted.Effects → self.new.list ≡ self.old.list ++ effect ∷ []) }
        ensures unwanted { self.old.wanted ≡ Wanted.NoEffects → self.new ≡ self.old }
        ensures err { OnErr result (self.new ≡ self.old) }
    {
        match self.wanted {
            Wanted::NoEffects => Ok(()),
            Wanted::Effects => self.effects.push(self.alloc, effect),
        }
    }

    /// The effects. Takes no memory.
    pub fn into_effects(self) -> Effects
        ensures { result ≡ self.list }
    {
        self.effects
    }
}
