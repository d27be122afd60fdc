//! The check of rows.
ghost use Rattle.std.specs.Prelude.{ℕ, ◌≡◌, IfOk};
ghost use Rattle.table_audit.specs.Rows.{Place, is_simple, has_path, row_of, continues, kind_of, first_bad};
ghost use Rattle.topology.specs.Lists.{same_nodes};
ghost use Rattle.topology.specs.Paths.{differ};
ghost use Rattle.table_audit.specs.Verdicts.{verdict_of};
ghost use Rattle.table_audit.specs.Index.{IsIndexOf, place_of_key};

use crate::index::{Index, Key, key_of};
use crate::rows::AuditRow;
use std::alloc::Global;
use std::collections::BTreeSet;
use topology::{AuditKind, NoMemory, NodeId};

/// The result of checking rows.
#[derive(Clone, Copy, Debug, PartialEq, Eq)]
pub enum Verdict {
    /// No row is bad.
    Consistent,
    /// The line of the first bad row, and its fault.
    Bad { line: u32, kind: AuditKind },
}

/// Checks the rows in order, which is the order of their lines, and names the first bad one.
///
/// Rows are found by node, epoch and prefix, through one index of all rows. So the time grows like that of sorting
/// them.
pub fn check_rows(alloc: Global, rows: &[AuditRow]) -> Result<Verdict, NoMemory>
    ensures { IfOk result (λ verdict. verdict ≡ verdict_of (first_bad rows.now rows.now)) }
{
    let index = Index::of(alloc, rows)?;
    for row in rows {
        let found = kind_of(alloc, &index, rows, row)?;
        if let Some(kind) = found {
            return Ok(Verdict::Bad {
                line: row.line,
                kind,
            });
        }
    }
    Ok(Verdict::Consistent)
}

// The fault of a row, if it has one.
fn kind_of(
    alloc: Global,
    index: &Index,
    rows: &[AuditRow],
    row: &AuditRow,
) -> Result<Option<AuditKind>, NoMemory>
    requires { IsIndexOf rows.now rows.now index.now }
    ensures { IfOk result (λ kind. kind ≡ kind_of rows.now row.now) }
{
    let path = row.path.as_slice();
    if !is_simple(alloc, row.node, path)? {
        return Ok(Some(AuditKind::NotSimple));
    }
    if !has_path(index, rows, key_of(row.node, row.epoch, row.prefix), path) {
        return Ok(Some(AuditKind::Changed));
    }
    if !continues(index, rows, row) {
        return Ok(Some(AuditKind::DoesNotContinue));
    }
    Ok(None)
}

// Whether the path is empty, or begins with its node and repeats none.
fn is_simple(alloc: Global, node: NodeId, path: &[NodeId]) -> Result<bool, NoMemory>
    ensures { IfOk result (λ yes. yes ≡ is_simple node path.now) }
{
    match path {
        [] => Ok(true),
        [first, ..] => {
            if *first != node {
                return Ok(false);
            }
            let different = all_differ(alloc, path)?;
            Ok(different)
        }
    }
}

// Whether no node occurs twice.
fn all_differ(alloc: Global, nodes: &[NodeId]) -> Result<bool, NoMemory>
    ensures { IfOk result (λ yes. yes ≡ differ nodes.now) }
{
    let mut seen = BTreeSet::new(alloc);
    for node in nodes {
        if seen.contains(node) {
            return Ok(false);
        }
        seen.insert(*node)?;
    }
    Ok(true)
}

// Whether the row of this key, if there is one, has this path.
fn has_path(index: &Index, rows: &[AuditRow], key: Key, path: &[NodeId]) -> bool
    requires { IsIndexOf rows.now rows.now index.now }
    ensures { result ≡ has_path (row_of rows.now (place_of_key key)) path.now }
{
    match index.row(rows, key) {
        None => true,
        Some(row) => same_nodes(row.path.as_slice(), path),
    }
}

// Whether the nodes are the same, in the same order.
fn same_nodes(xs: &[NodeId], ys: &[NodeId]) -> bool
    ensures { result ≡ same_nodes xs.now ys.now }
{
    xs == ys
}

// Whether the row of the path's second node, if there is one, has the rest of the path.
fn continues(index: &Index, rows: &[AuditRow], row: &AuditRow) -> bool
    requires { IsIndexOf rows.now rows.now index.now }
    ensures { result ≡ continues rows.now row.now row.now.path }
{
    match row.path.as_slice() {
        [_, rest @ ..] => match rest {
            [second, ..] => has_path(index, rows, key_of(*second, row.epoch, row.prefix), rest),
            [] => true,
        },
        [] => true,
    }
}
