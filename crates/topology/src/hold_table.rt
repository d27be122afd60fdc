//! The holds of a network: which node holds back updates from which neighbour.
ghost use Rattle.std.specs.Prelude.{◌≡◌, [], OnOk, OnErr};
ghost use Rattle.std.specs.List.{list_any};
ghost use Rattle.topology.specs.Net.{is_hold};
ghost use Rattle.topology.specs.Building.{put_hold};

use crate::{Hold, NoMemory, NodeId};
use indexmap::IndexSet;
use std::alloc::Global;
use std::marker::Model;

/// Holds in the order in which they were added, at most one for each ordered pair of nodes.
#[derive(Drop)]
pub struct HoldTable {
    holds: IndexSet<Hold>,
}

impl Model for HoldTable {
    ghost use Rattle.std.specs.Prelude.{List};
    ghost use Rattle.topology.specs.declared.links.Hold.{Hold};

    ghost Value = { List Hold };

    ghost view = { λ t. t.holds.keys };
}

impl HoldTable {
    pub fn empty(alloc: Global) -> HoldTable
        ensures { result ≡ [] }
    {
        HoldTable {
            holds: IndexSet::new(alloc),
        }
    }

    /// Whether `a` holds back its updates to `b`.
    pub fn has(&self, a: NodeId, b: NodeId) -> bool
        ensures { result ≡ list_any (is_hold a b) self.now }
    {
        self.holds.contains(&Hold { a, b })
    }

    /// Adds a hold at the end, unless there is one for the same two nodes.
    pub fn put(&mut self, hold: Hold) -> Result<(), NoMemory>
        ensures ok { OnOk result (self.new ≡ put_hold hold self.old) }
        ensures err { OnErr result (self.new ≡ self.old) }
    {
        self.holds.insert_full(hold)?;
        Ok(())
    }
}
