//! Reports of cuts, and items that are missing between two of them.
ghost use Rattle.std.specs.Prelude.{◌≡◌, ◌==◌, ◌&&◌, find};
ghost use Rattle.incomplete_closure.specs.Reports.{missing as is_missing};
ghost use Rattle.incomplete_closure.specs.Seen.{report_seen};
ghost use Rattle.incomplete_closure.specs.Opening.{row_of, received_of};

use crate::{PendingRows, Rows, SessionRow, SessionRows};
use topology::{Epoch, NodeId, Sent, Session};

/// A node's report of its cut of an epoch: its entries, its sessions, and what it holds back.
#[derive(Debug, Drop)]
pub struct Report {
    pub node: NodeId,
    pub epoch: Epoch,
    pub rows: Rows,
    pub sessions: SessionRows,
    pub pending: PendingRows,
}

// The row of the session with the neighbour. If rows repeat, the first counts.
pub(crate) fn session_of(report: &Report, nbr: NodeId, session: Session) -> Option<SessionRow>
    ensures { result ≡ row_of report.now nbr session }
{
    for row in report.sessions.as_slice() {
        if row.nbr == nbr && row.session == session {
            return Some(*row);
        }
    }
    None
}

// How many updates were received, by this row; 0 without a row.
pub(crate) fn received_of(row: &Option<SessionRow>) -> u32
    ensures { result ≡ received_of row.now }
{
    match row {
        Some(row) => row.received,
        None => 0,
    }
}

/// Whether the item goes to the node of the other report, which has received fewer updates in the session than the
/// item's number. Takes no memory.
pub fn missing(from: &Report, to: &Report, item: &Sent) -> bool
    ensures { result ≡ is_missing (report_seen from.now) (report_seen to.now) item.now }
{
    item.to == to.node && received_of(&session_of(to, from.node, item.session)) < item.seq
}
