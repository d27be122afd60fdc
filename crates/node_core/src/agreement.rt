//! The state of a node's epochs: its reports, its part in the agreements, its tables.
ghost use Rattle.std.specs.Prelude.{ℕ, ◌≡◌, ◌∷◌};
ghost use Rattle.topology.specs.Net.{Net};
ghost use Rattle.consolidator.specs.Facts.{Chronicle, Crash};
ghost use Rattle.consolidator.specs.Standing.{StandsFor};

use crate::reports::Reports;
use consolidator::Consolidator;
use stable_table::TwoTables;

/// The reports that a node made, its part in the agreement on each epoch, and its published tables. Few inputs
/// touch them.
#[derive(Drop)]
pub struct Agreement {
    pub(crate) reports: Reports,
    pub(crate) consolidator: Consolidator,
    pub(crate) tables: TwoTables,
}

impl Agreement {
    /// The node crashes: its part in the agreements loses what it collected. Nothing else changes. Takes no memory.
    pub(crate) fn forget(&mut self)
        ensures part { (net : Net) (past : Chronicle) (u : ℕ) → StandsFor net self.old.consolidator past u →
            StandsFor net self.new.consolidator (Crash u ∷ past) u }
        ensures reports { self.new.reports ≡ self.old.reports }
        ensures tables { self.new.tables ≡ self.old.tables }
    {
        self.consolidator.forget();
    }
}
