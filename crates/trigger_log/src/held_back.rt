//! The updates that a node holds back from its neighbours.
ghost use Rattle.std.specs.Prelude.{◌≡◌, ◌==◌, [], filter, length, IfOk, OnOk};
ghost use Rattle.std.specs.List.{list_any};
ghost use Rattle.topology.specs.Lists.{has};
ghost use Rattle.topology.specs.Triggers.{union};
ghost use Rattle.topology.specs.Net.{holds_back, neighbours};
ghost use Rattle.trigger_log.specs.Putting.{is_to, put_row, rows_without, triggers_to};

use crate::pending_list::{PendingList, is_to};
use std::alloc::Global;
use topology::{NoMemory, NodeId, Pending, PrefixId, Session, Topology, Triggers};

/// The neighbours from which a node holds back updates, ascending, and the updates that it holds back now: a row for
/// each neighbour and prefix, by neighbour, then by prefix in file order. If the node holds back from nobody, there are
/// no rows, and none is looked for.
#[derive(Drop)]
pub struct HeldBack {
    alloc: Global,
    from: Vec<NodeId>,
    rows: PendingList,
}

impl HeldBack {
    /// The value before the first entry.
    pub fn new(alloc: Global, topology: &Topology, node: NodeId) -> Result<HeldBack, NoMemory>
        ensures from { IfOk result (λ held. held.from.items ≡ filter (holds_back topology.now node) (neighbours topology.now node)) }
        ensures rows { IfOk result (λ held. held.rows ≡ []) }
    {
        let near = topology.neighbours(node);
        let mut from = Vec::new(alloc);
        for nbr in near {
            if topology.holds(node, *nbr) {
                from.push(*nbr)?;
            }
        }
        Ok(HeldBack {
            alloc,
            from,
            rows: PendingList::new(alloc),
        })
    }

    /// Whether the node holds back from nobody.
    #[inline(always)]
    pub fn is_free(&self) -> bool
        ensures { result ≡ (length self.now.from.items == 0) }
    {
        self.from.is_empty()
    }

    /// Whether the node holds back its updates to this neighbour.
    #[inline(always)]
    pub fn holds(&self, nbr: NodeId) -> bool
        ensures { result ≡ has self.now.from.items nbr }
    {
        !self.is_free() && self.from.contains(&nbr)
    }

    /// The updates that are held back.
    pub fn rows(&self) -> &[Pending]
        ensures { result.now ≡ self.now.rows }
    {
        self.rows.as_slice()
    }

    /// Whether any update is held back from the neighbour.
    pub fn has_some(&self, nbr: NodeId) -> bool
        ensures { result ≡ list_any (is_to nbr) self.now.rows }
    {
        for row in self.rows.as_slice() {
            if is_to(row, nbr) {
                return true;
            }
        }
        false
    }

    // The triggers of all updates held back from the neighbour.
    fn triggers_to(&self, nbr: NodeId) -> Result<Triggers, NoMemory>
        ensures { IfOk result (λ triggers. triggers ≡ triggers_to nbr self.now.rows) }
    {
        let rows = self.rows.as_slice();
        let count = rows.len();
        let mut all = Triggers::none();
        for passed in 0..count {
            let row = &rows[count - 1 - passed];
            if is_to(row, nbr) {
                all = row.triggers.union(self.alloc, &all)?;
            }
        }
        Ok(all)
    }

    /// These triggers, together with those of all updates held back from the neighbour.
    pub fn united(&self, triggers: &Triggers, nbr: NodeId) -> Result<Triggers, NoMemory>
        ensures { IfOk result (λ all. all ≡ union triggers.now (triggers_to nbr self.now.rows)) }
    {
        let waiting = self.triggers_to(nbr)?;
        Ok(triggers.union(self.alloc, &waiting)?)
    }

    /// Removes the rows of the neighbour.
    pub fn forget(&mut self, nbr: NodeId)
        ensures rows { self.new.rows ≡ rows_without nbr self.old.rows }
        ensures from { self.new.from ≡ self.old.from }
    {
        self.rows.forget(nbr);
    }

    /// Adds that an update of the prefix is held back from the neighbour for these triggers.
    pub fn put(
        &mut self,
        to: NodeId,
        session: Session,
        prefix: PrefixId,
        triggers: &Triggers,
    ) -> Result<(), NoMemory>
        ensures rows { OnOk result (self.new.rows
            ≡ put_row (record { to = to; prefix = prefix; session = session; triggers = triggers.now }) self.old.rows) }
        ensures from { self.new.from ≡ self.old.from }
    {
        Ok(self.rows.put(to, session, prefix, triggers)?)
    }
}
