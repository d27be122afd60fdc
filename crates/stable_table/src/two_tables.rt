//! The two tables that a node keeps.
ghost use Rattle.std.specs.Prelude.{ℕ, List, [], ◌∷◌, ◌≡◌, Some, is_ok, option_map, option_and_then, option_to_list, OnOk, OnErr, IfErr};
ghost use Rattle.std.specs.Rc.{rc_value};
ghost use Rattle.stable_table.specs.Tables.{View};
ghost use Rattle.stable_table.specs.Published.{newest, kept, is_above, of_epoch};
ghost use Rattle.stable_table.specs.TwoTables.{StandsFor, epoch_of, next_hop};

use crate::tables::Table;
use std::marker::Model;
use std::rc::Rc;
use thiserror::Error;
use topology::{Epoch, NodeId, PrefixId};

/// Why a table is not published: a table of its epoch or of a later one was published before.
#[derive(Debug, Drop, Error)]
#[error("a table of epoch {} was published before", .kept.number())]
pub struct Older {
    /// The newest epoch for which a table was published.
    pub kept: Epoch,
    /// The table that was not published.
    pub refused: Rc<Table>,
}

/// The published tables of the two highest epochs. They are shared, not copied.
#[derive(Debug, Drop)]
pub struct TwoTables {
    newest: Option<Rc<Table>>,
    older: Option<Rc<Table>>,
}

impl Model for TwoTables {
    ghost use Rattle.std.specs.Prelude.{option_map};
    ghost use Rattle.std.specs.Rc.{rc_value};
    ghost use Rattle.stable_table.specs.TwoTables.{TwoViews};

    ghost Value = { TwoViews };

    ghost view = { λ t. record {
      newest = option_map rc_value t.newest;
      older = option_map rc_value t.older;
    } };
}

// The table, if it is of this epoch.
fn if_of(table: &Option<Rc<Table>>, epoch: Epoch) -> Option<&Rc<Table>>
    ensures { option_map (λ one. rc_value one.now) result ≡ of_epoch epoch_of epoch (option_to_list (option_map rc_value table.now)) }
{
    let table = table.as_ref()?;
    if table.epoch() == epoch {
        return Some(table);
    }
    None
}

impl TwoTables {
    /// No table. Takes no memory.
    pub fn new() -> TwoTables
        ensures { StandsFor result [] }
    {
        TwoTables {
            newest: None,
            older: None,
        }
    }

    /// Publishes a table. It becomes the newest, and the newest so far becomes the older one. A table whose epoch is
    /// not above all epochs published so far is refused, and nothing changes. Takes no memory.
    pub fn publish(&mut self, table: Rc<Table>) -> Result<(), Older>
        ensures published { OnOk result ((published : List View) → StandsFor self.old published →
            StandsFor self.new (rc_value table ∷ published)) }
        ensures above { (published : List View) → StandsFor self.old published →
            is_ok result ≡ is_above epoch_of (rc_value table).epoch (newest epoch_of published) }
        ensures kept { IfErr result (λ older. (published : List View) → StandsFor self.old published →
            option_map epoch_of (newest epoch_of published) ≡ Some older.kept) }
        ensures refused { IfErr result (λ older. older.refused ≡ table) }
        ensures err { OnErr result (self.new ≡ self.old) }
    {
        if let Some(newest) = &self.newest {
            let kept = newest.epoch();
            if table.epoch() <= kept {
                return Err(Older {
                    kept,
                    refused: table,
                });
            }
        }
        self.older = self.newest.replace(table);
        Ok(())
    }

    /// The published table of the highest epoch, if any. Takes no memory.
    pub fn newest(&self) -> Option<&Rc<Table>>
        ensures { (published : List View) → StandsFor self.now published →
            option_map (λ table. rc_value table.now) result ≡ newest epoch_of published }
    {
        self.newest.as_ref()
    }

    /// The table of an epoch, if it is one of the two. Takes no memory.
    #[tactic(auto, using(crate::proofs::Two::kept_newest, crate::proofs::Two::kept_older))]
    pub fn of(&self, epoch: Epoch) -> Option<&Rc<Table>>
        ensures { (published : List View) → StandsFor self.now published →
            option_map (λ table. rc_value table.now) result ≡ kept epoch_of epoch published }
    {
        if let Some(newest) = if_of(&self.newest, epoch) {
            return Some(newest);
        }
        if_of(&self.older, epoch)
    }

    /// The second node of the path for a prefix in the table of an epoch. The answer is `None` if neither of the two
    /// tables is of the epoch, if the table has no path for the prefix, or if the path has no second node, as for a
    /// prefix that the node originates. Takes no memory.
    #[tactic(auto, using(crate::proofs::Two::second_is))]
    pub fn next_hop(&self, epoch: Epoch, prefix: PrefixId) -> Option<NodeId>
        ensures { (published : List View) → StandsFor self.now published →
            result ≡ option_and_then (next_hop prefix) (kept epoch_of epoch published) }
    {
        let table = self.of(epoch)?;
        let nodes = table.path(prefix)?;
        nodes.get(1).copied()
    }
}
