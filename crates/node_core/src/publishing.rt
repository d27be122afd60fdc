//! Publishes the table that is due, and drops the entries that the node needs no more.
ghost use Rattle.std.specs.Prelude.{ℕ, ◌≡◌, ◌≤◌, ◌++◌, List, length, Some, IfOk, IfSome, OnOk};
ghost use Rattle.topology.specs.Net.{Net};
ghost use Rattle.trigger_log.specs.Dropping.{trimmed};
ghost use Rattle.trigger_log.specs.Entries.{Entry as Logged};
ghost use Rattle.trigger_log.specs.Standing.{dropped_of};
ghost use Rattle.stable_table.specs.Trimming.{trimmed_table_of};
ghost use Rattle.chronicle.specs.Facts.{Chronicle};
ghost use Rattle.chronicle.specs.Logs.{log_of};
ghost use Rattle.chronicle.specs.Publications.{publish};
ghost use Rattle.cut_laws.specs.Own.{DropsWithin};
ghost use Rattle.node_core.specs.Answering.{IsDue, MayComplete};
ghost use Rattle.node_core.specs.Outputs.{Hands};
ghost use Rattle.node_core.specs.Sharing.{ServesFor};
ghost use Rattle.node_core.specs.Standing.{Follows};

use crate::node::Node;
use crate::outputs::{Output, OutputList};
use incomplete_closure::Value;
use path_vector::Policy;
use stable_table::{Table, droppable_before, table_after};
use std::rc::Rc;
use topology::{Epoch, NoMemory};
use trigger_log::NodeLog;

/// A table that is due, and the place of the first entry that the node keeps after it is published.
#[derive(Drop)]
pub struct Due {
    pub(crate) table: Table,
    pub(crate) place: u32,
}

impl<P: Policy + Copy> Node<P> {
    // The newest table. No contract rests on which one it is.
    fn newest(&self) -> Option<&Table> {
        Some(self.parts.agreement.tables.newest()?)
    }

    // The newest table, where it was made from a cut of this many entries and from an equal value that has no
    // incomplete trigger.
    fn same_newest(&self, cut: u32, value: &Value) -> Option<&Table>
        ensures { IfSome result (λ table. (policy : P) (net : Net) (u : ℕ) (now : Chronicle) (newer entries : List Logged) →
            Follows policy (P.rules policy) net u self.now now → newer ++ entries ≡ log_of u now → cut ≡ length entries →
            ServesFor (P.rules policy) net u value.now entries table.now) }
    {
        let newest = self.parts.agreement.tables.newest()?;
        if !newest.is_complete_by(value) {
            return None;
        }
        let count = self.parts.snapshots.cut_of(newest.epoch())?;
        if count != cut {
            return None;
        }
        Some(newest)
    }

    // The table of an epoch, from a cut of this many entries and from the value. It shares the rows of the newest table
    // where they are sure to be the same, as in a network at rest; else it shares the paths that the newest table has.
    fn table(&self, epoch: Epoch, cut: u32, value: &Value) -> Result<Table, NoMemory>
        ensures epoch { IfOk result (λ table. table.epoch ≡ epoch) }
        ensures table { IfOk result (λ table. (policy : P) (net : Net) (u : ℕ) (now : Chronicle) (newer entries : List Logged) →
            Follows policy (P.rules policy) net u self.now now → newer ++ entries ≡ log_of u now → cut ≡ length entries →
            dropped_of self.now.log.value ≤ cut →
            table ≡ trimmed_table_of (P.rules policy) net u epoch value.now
            (trimmed (dropped_of self.now.log.value) entries)) }
    {
        let Some(newest) = self.same_newest(cut, value) else {
            let parts = &self.parts;
            let earlier = self.newest();
            let table = table_after(
                parts.alloc,
                &parts.topology,
                &self.log,
                cut,
                epoch,
                value,
                earlier,
            )?;
            return Ok(table);
        };
        let again = newest.again(epoch)?;
        Ok(again)
    }

    // The table of the epoch, where the node has the cut and knows the decision. The caller does not use it where the
    // node has published a table of this epoch or of a later one.
    fn due(&self, epoch: Epoch) -> Result<Option<Due>, NoMemory>
        ensures { IfOk result (λ found. (policy : P) (net : Net) (u : ℕ) (now : Chronicle) →
            Follows policy (P.rules policy) net u self.now now →
            IsDue (P.rules policy) net u epoch now found) }
    {
        let parts = &self.parts;
        let Some(cut) = parts.snapshots.cut_of(epoch) else {
            return Ok(None);
        };
        let Some(value) = parts.agreement.consolidator.decision(epoch) else {
            return Ok(None);
        };
        let table = self.table(epoch, cut, value)?;
        let place = droppable_before(parts.alloc, &parts.topology, &self.log, cut, value)?;
        Ok(Some(Due { table, place }))
    }

    // Publishes the table of the epoch, where the node has the cut, knows the decision, and has published no table of
    // this epoch or of a later one. Then drops the entries of the log that the node needs no more. It is a call of its
    // own, as most inputs complete no epoch.
    #[inline(never)]
    fn conclude_epoch(self, epoch: Epoch, outputs: &mut OutputList) -> Result<Node<P>, NoMemory>
        ensures node { IfOk result (λ node. (policy : P) (net : Net) (u : ℕ) (past now : Chronicle) →
            Follows policy (P.rules policy) net u self now → MayComplete u past now (Some epoch) → DropsWithin net now u →
            Follows policy (P.rules policy) net u node (publish (P.rules policy) net u past now)) }
        ensures outputs { OnOk result ((policy : P) (net : Net) (u : ℕ) (first past now : Chronicle) →
            Follows policy (P.rules policy) net u self now → MayComplete u past now (Some epoch) → DropsWithin net now u →
            Hands first outputs.old now →
            Hands first outputs.new (publish (P.rules policy) net u past now)) }
    {
        let Some(due) = self.due(epoch)? else {
            return Ok(self);
        };
        let Due { table, place } = due;
        let table = Rc::new(self.parts.alloc, table)?;
        let shown = table.clone()?;
        let mut node = self;
        if node.parts.agreement.tables.publish(table).is_err() {
            return Ok(node);
        }
        outputs.push(Output::Published(shown))?;
        let Node { log, parts } = node;
        let log = NodeLog::drop_before_boxed(log, place)?;
        Ok(Node { log, parts })
    }

    /// Publishes the table that is due, if one is. It is of the epoch that the input may have completed.
    #[inline(always)]
    pub(crate) fn conclude(
        self,
        due: Option<Epoch>,
        outputs: &mut OutputList,
    ) -> Result<Node<P>, NoMemory>
        ensures node { IfOk result (λ node. (policy : P) (net : Net) (u : ℕ) (past now : Chronicle) →
            Follows policy (P.rules policy) net u self now → MayComplete u past now due → DropsWithin net now u →
            Follows policy (P.rules policy) net u node (publish (P.rules policy) net u past now)) }
        ensures outputs { OnOk result ((policy : P) (net : Net) (u : ℕ) (first past now : Chronicle) →
            Follows policy (P.rules policy) net u self now → MayComplete u past now due → DropsWithin net now u →
            Hands first outputs.old now →
            Hands first outputs.new (publish (P.rules policy) net u past now)) }
    {
        let Some(epoch) = due else {
            return Ok(self);
        };
        self.conclude_epoch(epoch, outputs)
    }
}
