//! Copies of reports and tables for frames. The node itself shares its own.
ghost use Rattle.std.specs.Prelude.{◌≡◌, ℕ, true, IfOk, map, slice_get, option_and_then};
ghost use Rattle.std.specs.List.{list_all};
ghost use Rattle.topology.specs.Net.{Net};
ghost use Rattle.node_core.specs.Fits.{path_fits};
ghost use Rattle.admission_laws.specs.Handing.{table_fits};
ghost use Rattle.incomplete_closure.specs.Seen.{row_seen, report_seen};
ghost use Rattle.route_node.specs.Frames.{item_told, row_told, pending_told, report_told};

use incomplete_closure::{PendingRows, Report, Row, Rows, SessionRows};
use stable_table::Table;
use std::alloc::Global;
use topology::{NoMemory, Path, Pending, PrefixId, SentItems, Topology};
use wire_frames::Paths;

// Each item has the list that its frame has, because the triggers of a list ascend by type.
fn sent_is_told(sent: &SentItems)
    ensures { map item_told sent.now ≡ sent.now }
{
    for place in 0..sent.len() {
        let item = sent.at(place).unwrap();
        let _triggers = item.triggers;
    }
}

fn row_copy(row: &Row) -> Result<Row, NoMemory>
    ensures { IfOk result (λ copy. copy ≡ row_told (row_seen row.now)) }
{
    let _triggers = row.triggers.as_slice();
    sent_is_told(&row.sent);
    Ok(Row {
        triggers: row.triggers.copy()?,
        scope: row.scope,
        sent: row.sent.copy()?,
    })
}

fn rows_copy(alloc: Global, rows: &[Row]) -> Result<Rows, NoMemory>
    ensures { IfOk result (λ copy. copy ≡ map (λ r. row_told (row_seen r)) rows.now) }
{
    let mut list = Vec::with_capacity(alloc, rows.len())?;
    for row in rows {
        list.push(row_copy(row)?)?;
    }
    Ok(Rows::new(list))
}

fn pending_copy(row: &Pending) -> Result<Pending, NoMemory>
    ensures { IfOk result (λ copy. copy ≡ pending_told row.now) }
{
    let _triggers = row.triggers.as_slice();
    row.copy()
}

fn all_pending_copy(alloc: Global, rows: &[Pending]) -> Result<PendingRows, NoMemory>
    ensures { IfOk result (λ copy. copy ≡ map pending_told rows.now) }
{
    let mut list = Vec::with_capacity(alloc, rows.len())?;
    for row in rows {
        list.push(pending_copy(row)?)?;
    }
    Ok(PendingRows::new(list))
}

/// A copy of a report for a frame.
pub(crate) fn report_copy(alloc: Global, report: &Report) -> Result<Report, NoMemory>
    ensures { IfOk result (λ copy. copy ≡ report_told (report_seen report.now)) }
{
    Ok(Report {
        node: report.node,
        epoch: report.epoch,
        rows: rows_copy(alloc, report.rows.as_slice())?,
        sessions: SessionRows::new(Vec::from_slice(alloc, report.sessions.as_slice())?),
        pending: all_pending_copy(alloc, report.pending.as_slice())?,
    })
}

// The path of a prefix.
fn path_at(alloc: Global, table: &Table, prefix: PrefixId) -> Result<Option<Path>, NoMemory>
    ensures { IfOk result (λ path. (net : Net) (u : ℕ) → list_all (path_fits net u) table.now.paths ≡ true →
        path ≡ option_and_then (λ p. p) (slice_get table.now.paths prefix)) }
{
    let Some(nodes) = table.path(prefix) else {
        return Ok(None);
    };
    let list = Vec::from_slice(alloc, nodes)?;
    Ok(Path::new(list)?)
}

/// The paths of a table, one for each prefix.
pub(crate) fn paths_of(alloc: Global, topology: &Topology, table: &Table) -> Result<Paths, NoMemory>
    ensures { IfOk result (λ paths. (u : ℕ) → table_fits topology.now u table.now.paths ≡ true →
        paths ≡ table.now.paths) }
{
    let count = topology.prefix_count();
    let mut list = Vec::with_capacity(alloc, count as usize)?;
    for place in 0..count {
        list.push(path_at(alloc, table, PrefixId::new(place))?)?;
    }
    Ok(Paths::new(list))
}
