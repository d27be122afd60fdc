//! The report of a cut.
ghost use Rattle.std.specs.Prelude.{ℕ, List, ◌≡◌, IfOk};
ghost use Rattle.topology.specs.Net.{Net};
ghost use Rattle.trigger_log.specs.Entries.{Entry};
ghost use Rattle.trigger_log.specs.Dropping.{trimmed};
ghost use Rattle.trigger_log.specs.Standing.{StandsFor, dropped_of};
ghost use Rattle.incomplete_closure.specs.Seen.{report_seen};
ghost use Rattle.epoch_report.specs.Downs.{first_downs};
ghost use Rattle.epoch_report.specs.Trimming.{trimmed_report};

use crate::telling::{pending_of, rows_of, sessions_of};
use incomplete_closure::Report;
use path_vector::Policy;
use std::alloc::Global;
use topology::{Epoch, NoMemory};
use trigger_log::NodeLog;

/// The report of an epoch by the node of a log whose cut is the whole log. It has a row for each entry that the log
/// keeps, the oldest first, with all items that the entry sent, `close` included; a row for each session ever held, by
/// ascending neighbour, then by session; and a row for each update that is held back. A dropped entry has no row; all
/// other rows are complete. If a `Down` lists several triggers, its session row has the first of them. Takes time and
/// memory in proportion to the kept entries, their items, the sessions and what is held back.
pub fn report_of<P: Policy + Copy>(
    alloc: Global,
    log: &NodeLog<P>,
    epoch: Epoch,
) -> Result<Report, NoMemory>
    ensures { IfOk result (λ report. (policy : P) (net : Net) (u : ℕ) (h : List Entry) →
        StandsFor policy (P.rules policy) net u log.now h →
        report_seen report
        ≡ first_downs (trimmed_report (P.rules policy) net u epoch (trimmed (dropped_of log.now) h))) }
{
    Ok(Report {
        node: log.next_trigger().node,
        epoch,
        rows: rows_of(alloc, log.entries())?,
        sessions: sessions_of(alloc, log.sessions())?,
        pending: pending_of(alloc, log.pending())?,
    })
}
