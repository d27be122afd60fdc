//! The preferences of a network's file, found by their two nodes.
ghost use Rattle.std.specs.Prelude.{◌≡◌, [], find, OnOk, OnErr};
ghost use Rattle.topology.specs.Net.{prefers};
ghost use Rattle.topology.specs.Building.{put_preference};

use crate::{NoMemory, NodeId, Pref};
use indexmap::IndexMap;
use std::alloc::Global;
use std::marker::Model;

/// The key of a preference: the node that prefers, and the neighbour whose candidates it prefers.
#[derive(Clone, Copy, Debug, PartialEq, Eq, Hash)]
pub struct Side {
    from: NodeId,
    to: NodeId,
}

/// Preferences in the order in which they were added, at most one for each ordered pair of nodes.
#[derive(Drop)]
pub struct PrefTable {
    prefs: IndexMap<Side, Pref>,
}

impl Model for PrefTable {
    ghost use Rattle.std.specs.Prelude.{List};
    ghost use Rattle.indexmap.specs.IndexMap.{values};
    ghost use Rattle.topology.specs.declared.links.Pref.{Pref};

    ghost Value = { List Pref };

    ghost use Rattle.topology.specs.Tables.{UnderTheirSides};

    ghost view = { λ t. values t.prefs };

    ghost invariant = { λ t. UnderTheirSides t.prefs.entries };
}

impl PrefTable {
    pub fn empty(alloc: Global) -> PrefTable
        ensures { result ≡ [] }
    {
        PrefTable {
            prefs: IndexMap::new(alloc),
        }
    }

    /// The preference of `a` for `b`.
    pub fn find(&self, a: NodeId, b: NodeId) -> Option<Pref>
        ensures { result ≡ find (prefers a b) self.now }
    {
        self.prefs.get(&Side { from: a, to: b }).copied()
    }

    /// Replaces the preference of the same two nodes, or else adds the preference at the end.
    pub fn put(&mut self, pref: Pref) -> Result<(), NoMemory>
        ensures ok { OnOk result (self.new ≡ put_preference pref self.old) }
        ensures err { OnErr result (self.new ≡ self.old) }
    {
        let side = Side {
            from: pref.a,
            to: pref.b,
        };
        self.prefs.insert(side, pref)?;
        Ok(())
    }
}
