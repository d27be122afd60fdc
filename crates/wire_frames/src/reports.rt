//! The layouts of reports.
ghost use Rattle.std.specs.Prelude.{◌≡◌, ◌++◌, ◌==◌, ◌&&◌, true, IfOk, OnOk};
ghost use Rattle.incomplete_closure.specs.declared.reports.Report.{Report as AnyReport};
ghost use Rattle.topology.specs.declared.limits.TheConstants.{MOST_SESSIONS};
ghost use Rattle.wire_frames.specs.Formats.{listed};
ghost use Rattle.wire_frames.specs.Shown.{Passes};
ghost use Rattle.wire_frames.specs.Fields.{many, session_rows, report};
ghost use Rattle.wire_frames.specs.Listing.{report_fits, spelled_report, report_version, listed_report};

use crate::FrameKind;
use crate::counts::Count;
use crate::faults::ReadError;
use crate::fitting::{epoch_fits, node_fits};
use crate::layouts::{Layout, owned};
use crate::listed_runs::{ListedRows, PendingRun};
use crate::plain::is_plain;
use crate::reading::Fields;
use crate::series::{ReportRows, ReportSessions, fit_list, put_list, read_list, skip_list};
use crate::writing::{put_epoch, put_node};
use incomplete_closure::{PendingRows, Report, Rows, SessionRows};
use std::alloc::Global;
use topology::limits::{MOST_ENTRIES, MOST_PENDING, MOST_SESSIONS};
use topology::{NoMemory, NodeId, Session};

// The value before the first session.
fn first_session() -> (NodeId, Session)
    ensures { result ≡ (0, 0) }
{
    (NodeId::new(0), Session::new(0))
}

fn skip_sessions(fields: &mut Fields<'_>) -> Result<(), FrameKind>
    ensures { Passes (listed (many MOST_SESSIONS) session_rows (0, 0)) fields.old result fields.new }
{
    skip_list::<ReportSessions>(Count::Many(MOST_SESSIONS), &mut first_session(), fields)?;
    Ok(())
}

fn read_sessions(alloc: Global, fields: &mut Fields<'_>) -> Result<SessionRows, ReadError>
    ensures { IfOk result (λ x. (listed (many MOST_SESSIONS) session_rows (0, 0)).reads fields.old
        ≡ Ok (x, fields.new)) }
{
    let count = Count::Many(MOST_SESSIONS);
    let list = read_list::<ReportSessions>(count, &mut first_session(), alloc, fields)?;
    Ok(SessionRows::new(list))
}

/// A report each of whose rows and its items list the same one trigger.
pub(crate) struct PlainReport;

#[tactic(auto, unfolding(crate::specs::Fields::report))]
impl Layout for PlainReport {
    type Value = Report;

    ghost format = { report };

    fn skip(fields: &mut Fields<'_>) -> Result<(), FrameKind> {
        fields.node()?;
        fields.epoch()?;
        skip_list::<ReportRows>(Count::Many(MOST_ENTRIES), &mut 0, fields)?;
        skip_sessions(fields)
    }

    fn read(alloc: Global, fields: &mut Fields<'_>) -> Result<Report, ReadError> {
        let node = fields.node()?;
        let epoch = fields.epoch()?;
        let rows = read_list::<ReportRows>(Count::Many(MOST_ENTRIES), &mut 0, alloc, fields)?;
        let sessions = read_sessions(alloc, fields)?;
        Ok(Report {
            node,
            epoch,
            rows: Rows::new(rows),
            sessions,
            pending: PendingRows::new(Vec::new(alloc)),
        })
    }

    fn fits(told: &Report) -> bool {
        let rows = told.rows.as_slice();
        let sessions = told.sessions.as_slice();
        told.pending.as_slice().is_empty()
            && node_fits(told.node)
            && epoch_fits(told.epoch)
            && fit_list::<ReportRows>(Count::Many(MOST_ENTRIES), &mut 0, rows)
            && fit_list::<ReportSessions>(
                Count::Many(MOST_SESSIONS),
                &mut first_session(),
                sessions,
            )
    }

    fn put(told: &Report, out: &mut Vec<u8>) -> Result<(), NoMemory> {
        put_node(out, told.node)?;
        put_epoch(out, told.epoch)?;
        put_list::<ReportRows>(Count::Many(MOST_ENTRIES), told.rows.as_slice(), out)?;
        put_list::<ReportSessions>(Count::Many(MOST_SESSIONS), told.sessions.as_slice(), out)
    }

    #[tactic(auto, using(crate::proofs::Fields::report_law))]
    fn is_format() {}
}

// Whether each row and its items list the same one trigger, and nothing is pending.
fn are_plain(rows: &ListedRows, pending: u16) -> bool
    ensures { result ≡ (rows.now.plain && pending == 0) }
{
    rows.are_plain() && pending == 0
}

/// Any other report.
pub(crate) struct ListedReport;

#[tactic(auto, unfolding(crate::specs::Listing::listed_report))]
impl Layout for ListedReport {
    type Value = Report;

    ghost format = { listed_report };

    fn skip(fields: &mut Fields<'_>) -> Result<(), FrameKind> {
        fields.node()?;
        fields.epoch()?;
        let mut rows = ListedRows::first();
        skip_list::<ListedRows>(Count::Many(MOST_ENTRIES), &mut rows, fields)?;
        skip_sessions(fields)?;
        let mut behind = PendingRun::behind(rows.marks());
        let pending = skip_list::<PendingRun>(Count::Many(MOST_PENDING), &mut behind, fields)?;
        if are_plain(&rows, pending) {
            return Err(FrameKind::Value);
        }
        Ok(())
    }

    fn read(alloc: Global, fields: &mut Fields<'_>) -> Result<Report, ReadError> {
        let node = fields.node()?;
        let epoch = fields.epoch()?;
        let mut seen = ListedRows::first();
        let rows = read_list::<ListedRows>(Count::Many(MOST_ENTRIES), &mut seen, alloc, fields)?;
        let sessions = read_sessions(alloc, fields)?;
        let mut behind = PendingRun::behind(seen.marks());
        let pending = read_list::<PendingRun>(
            Count::Many(MOST_PENDING),
            &mut behind,
            alloc,
            fields,
        )?;
        let report = Report {
            node,
            epoch,
            rows: Rows::new(rows),
            sessions,
            pending: PendingRows::new(pending),
        };
        if is_plain(&report) {
            return Err(ReadError::Bad(FrameKind::Value));
        }
        Ok(report)
    }

    fn fits(told: &Report) -> bool {
        if !node_fits(told.node) || !epoch_fits(told.epoch) {
            return false;
        }
        let mut rows = ListedRows::first();
        if !fit_list::<ListedRows>(Count::Many(MOST_ENTRIES), &mut rows, told.rows.as_slice()) {
            return false;
        }
        let sessions = told.sessions.as_slice();
        if !fit_list::<ReportSessions>(Count::Many(MOST_SESSIONS), &mut first_session(), sessions) {
            return false;
        }
        let mut behind = PendingRun::behind(rows.marks());
        fit_list::<PendingRun>(
            Count::Many(MOST_PENDING),
            &mut behind,
            told.pending.as_slice(),
        ) && !is_plain(told)
    }

    fn put(told: &Report, out: &mut Vec<u8>) -> Result<(), NoMemory> {
        put_node(out, told.node)?;
        put_epoch(out, told.epoch)?;
        put_list::<ListedRows>(Count::Many(MOST_ENTRIES), told.rows.as_slice(), out)?;
        put_list::<ReportSessions>(Count::Many(MOST_SESSIONS), told.sessions.as_slice(), out)?;
        put_list::<PendingRun>(Count::Many(MOST_PENDING), told.pending.as_slice(), out)
    }

    #[tactic(auto, using(crate::proofs::Listing::listed_report_law))]
    fn is_format() {}
}

/// Whether the report may stand in a frame.
pub(crate) fn report_fits(told: &Report) -> bool
    ensures { result ≡ report_fits told.now }
{
    if is_plain(told) {
        return PlainReport::fits(told);
    }
    ListedReport::fits(told)
}

/// Writes the report at the end.
pub(crate) fn put_report(told: &Report, out: &mut Vec<u8>) -> Result<(), NoMemory>
    ensures { OnOk result (out.new.items ≡ out.old.items ++ spelled_report told.now) }
{
    if is_plain(told) {
        return PlainReport::put(told, out);
    }
    ListedReport::put(told, out)
}

/// The report of this version that the part spells.
pub(crate) fn owned_report(alloc: Global, version: u8, part: &[u8]) -> Result<Report, ReadError>
    ensures { IfOk result (λ x. (y : AnyReport) → report_fits y ≡ true → version
        ≡ report_version y → part.now ≡ spelled_report y → x ≡ y) }
{
    if version == 1 {
        return owned::<PlainReport>(alloc, part);
    }
    owned::<ListedReport>(alloc, part)
}
