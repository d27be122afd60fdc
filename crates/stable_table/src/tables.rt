//! The table of an epoch.
ghost use Rattle.std.specs.Prelude.{ℕ, List, [], ◌≡◌, ◌≤◌, ◌++◌, length, take, slice_get, option_map, option_and_then, unwrap_or, IfOk, IsTrue};
ghost use Rattle.trigger_log.specs.Entries.{Entry as Logged};
ghost use Rattle.trigger_log.specs.Dropping.{trimmed};
ghost use Rattle.trigger_log.specs.Standing.{StandsFor, dropped_of};
ghost use Rattle.stable_table.specs.Trimming.{ShowsTable, trimmed_table_of};

use crate::incomplete::Incomplete;
use crate::responders::Responders;
use crate::routes::{has_incomplete, routes_of};
use crate::rows::{Row, rows_of};
use incomplete_closure::Value;
use path_vector::Policy;
use std::alloc::Global;
use std::marker::Model;
use std::rc::Rc;
use topology::{Epoch, NoMemory, NodeId, Path, PrefixId, Topology};
use trigger_log::{Entry, NodeLog};

/// The stable table of an epoch at one node. It never changes.
#[derive(Debug, Drop)]
pub struct Table {
    epoch: Epoch,
    value: Value,
    // Tables of several epochs may share their rows.
    rows: Rc<Vec<Row>>,
}

impl Model for Table {
    ghost use Rattle.std.specs.Prelude.{map};
    ghost use Rattle.stable_table.specs.declared.rows.Row.{Row};
    ghost use Rattle.stable_table.specs.Tables.{View};

    ghost Value = { View };

    ghost view = { λ t. record {
      epoch = t.epoch;
      value = t.value;
      paths = map (λ (r : Row). r.path) t.rows.value.items;
      backups = map (λ (r : Row). r.backups.items) t.rows.value.items;
    } };
}

impl Table {
    /// The epoch of the table.
    pub fn epoch(&self) -> Epoch
        ensures { result ≡ self.now.epoch }
    {
        self.epoch
    }

    /// The same table for another epoch. The rows are shared, not copied.
    pub fn again(&self, epoch: Epoch) -> Result<Table, NoMemory>
        ensures { IfOk result (λ table. table ≡ record self.now { epoch = epoch }) }
    {
        Ok(Table {
            epoch,
            value: self.value.copy()?,
            rows: self.rows.clone()?,
        })
    }

    /// Whether the table was made by an equal value without incomplete triggers.
    pub fn is_complete_by(&self, value: &Value) -> bool
        ensures { IsTrue result → (self.now.value ≡ value.now) × (value.now.incomplete ≡ []) }
    {
        let own = self.value();
        if !value.incomplete.is_empty() {
            return false;
        }
        if !own.incomplete.is_empty() {
            return false;
        }
        own.responding.as_slice() == value.responding.as_slice()
    }

    /// The value by which the table was made.
    pub fn value(&self) -> &Value
        ensures { result.now ≡ self.now.value }
    {
        &self.value
    }

    /// The path of a prefix, with the own node in front. The answer is `None` if there is no path or no such prefix.
    /// Takes no memory.
    pub fn path(&self, prefix: PrefixId) -> Option<&[NodeId]>
        ensures { option_map (λ nodes. nodes.now) result
            ≡ option_and_then (λ path. path) (slice_get self.now.paths prefix) }
    {
        let row = self.rows.get(prefix.place() as usize)?;
        let path = row.path.as_ref()?;
        Some(path.nodes())
    }

    /// The backups of a prefix, by rank, each with the own node in front. There are none if there is no such prefix.
    /// Takes no memory.
    pub fn backups(&self, prefix: PrefixId) -> &[Path]
        ensures { result.now ≡ unwrap_or (slice_get self.now.backups prefix) [] }
    {
        match self.rows.get(prefix.place() as usize) {
            Some(row) => &row.backups,
            None => &[],
        }
    }

    /// The paths of all prefixes, in file order, without their backups. They share their nodes with the table.
    pub fn paths(&self, alloc: Global) -> Result<Vec<Option<Path>>, NoMemory>
        ensures { IfOk result (λ paths. paths.items ≡ self.now.paths) }
    {
        let mut paths = Vec::with_capacity(alloc, self.rows.len())?;
        for row in self.rows.as_slice() {
            paths.push(copy_path(&row.path)?)?;
        }
        Ok(paths)
    }
}

fn copy_path(path: &Option<Path>) -> Result<Option<Path>, NoMemory>
    ensures { IfOk result (λ copy. copy ≡ path.now) }
{
    match path {
        None => Ok(None),
        Some(path) => Ok(Some(path.copy()?)),
    }
}

// The first `count` entries.
pub(crate) fn first_of(entries: &[Entry], count: u32) -> &[Entry]
    ensures { result.now ≡ take count entries.now }
{
    &entries[..entries.len().min(count as usize)]
}

// The rows of the table that `table_after` describes.
fn rows_by<P: Policy + Copy>(
    alloc: Global,
    topology: &Topology,
    log: &NodeLog<P>,
    cut: u32,
    value: &Value,
    earlier: Option<&Table>,
) -> Result<Rc<Vec<Row>>, NoMemory>
    ensures { IfOk result (λ rows. (policy : P) (u : ℕ) (newer entries : List Logged) →
        StandsFor policy (P.rules policy) topology.now u log.now (newer ++ entries) → cut ≡ length entries →
        dropped_of log.now ≤ cut →
        ShowsTable (P.rules policy) topology.now u value.now (trimmed (dropped_of log.now) entries) rows.value.items) }
{
    let dropped = log.kept_from().saturating_sub(1);
    let entries = first_of(log.entries(), cut.saturating_sub(dropped));
    let incomplete = Incomplete::new(alloc, value.incomplete.as_slice())?;
    let responders = Responders::new(alloc, value)?;
    if cut == log.len() && !has_incomplete(entries, &incomplete) {
        return rows_of(alloc, topology, log.live(), &responders, log, earlier);
    }
    let state = routes_of(log.base(), entries, &incomplete)?;
    rows_of(alloc, topology, &state, &responders, log, earlier)
}

/// The table of an epoch at the node of a log. The first `cut` entries of the log are the cut, and `value` is the value
/// that was agreed on. For each prefix the table has the best path over the complete entries of the cut, if the own
/// node and all nodes of the path responded. It also has, by rank, all candidates over these entries whose nodes all
/// responded. Entries that the log dropped count as complete, and the cut must include them; else nothing is promised.
/// If the cut is the whole log and none of its entries is incomplete, the table is read from the live routes. Otherwise
/// a copy of the routes after the dropped entries takes each complete entry that is kept.
pub fn table_of<P: Policy + Copy>(
    alloc: Global,
    topology: &Topology,
    log: &NodeLog<P>,
    cut: u32,
    epoch: Epoch,
    value: &Value,
) -> Result<Table, NoMemory>
    ensures epoch { IfOk result (λ table. table.epoch ≡ epoch) }
    ensures table { IfOk result (λ table. (policy : P) (u : ℕ) (newer entries : List Logged) →
        StandsFor policy (P.rules policy) topology.now u log.now (newer ++ entries) → cut ≡ length entries →
        dropped_of log.now ≤ cut →
        table ≡ trimmed_table_of (P.rules policy) topology.now u epoch value.now (trimmed (dropped_of log.now) entries)) }
{
    table_after(alloc, topology, log, cut, epoch, value, None)
}

/// The same table, made after an earlier one of the node, if there is one: any paths that it has and this one needs are
/// copied from it, which takes no memory.
pub fn table_after<P: Policy + Copy>(
    alloc: Global,
    topology: &Topology,
    log: &NodeLog<P>,
    cut: u32,
    epoch: Epoch,
    value: &Value,
    earlier: Option<&Table>,
) -> Result<Table, NoMemory>
    ensures epoch { IfOk result (λ table. table.epoch ≡ epoch) }
    ensures table { IfOk result (λ table. (policy : P) (u : ℕ) (newer entries : List Logged) →
        StandsFor policy (P.rules policy) topology.now u log.now (newer ++ entries) → cut ≡ length entries →
        dropped_of log.now ≤ cut →
        table ≡ trimmed_table_of (P.rules policy) topology.now u epoch value.now (trimmed (dropped_of log.now) entries)) }
{
    let rows = rows_by(alloc, topology, log, cut, value, earlier)?;
    Ok(Table {
        epoch,
        value: value.copy()?,
        rows,
    })
}
