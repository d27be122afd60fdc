//! Makes the rows of a report from the entries and sessions of a log and from what it holds back.
ghost use Rattle.std.specs.Prelude.{◌≡◌, map, IfOk};
ghost use Rattle.epoch_report.specs.Telling.{row_told, session_told};

use incomplete_closure::{PendingRows, Row, Rows, SessionRow, SessionRows};
use std::alloc::Global;
use topology::{NoMemory, Pending, SentItems};
use trigger_log::{Entry, SessionMark};

// The items that the entry sent, shared with it. Most entries sent none.
fn items_of(entry: &Entry) -> Result<SentItems, NoMemory>
    ensures { IfOk result (λ sent. sent ≡ entry.now.sent) }
{
    if entry.sent.is_none() {
        return Ok(SentItems::none());
    }
    entry.sent.copy()
}

fn row_of(entry: &Entry) -> Result<Row, NoMemory>
    ensures { IfOk result (λ row. row ≡ row_told entry.now) }
{
    Ok(Row {
        triggers: entry.triggers.copy()?,
        scope: entry.scope,
        sent: items_of(entry)?,
    })
}

/// A row for each entry, in order.
pub(crate) fn rows_of(alloc: Global, entries: &[Entry]) -> Result<Rows, NoMemory>
    ensures { IfOk result (λ rows. rows ≡ map row_told entries.now) }
{
    let mut rows = Vec::with_capacity(alloc, entries.len())?;
    for entry in entries {
        rows.push_reserved(row_of(entry)?);
    }
    Ok(Rows::new(rows))
}

fn session_of(mark: &SessionMark) -> SessionRow
    ensures { result ≡ session_told mark.now }
{
    SessionRow {
        nbr: mark.nbr,
        session: mark.session,
        received: mark.received,
        down: mark.down,
    }
}

/// A row for each mark, in order.
pub(crate) fn sessions_of(alloc: Global, marks: &[SessionMark]) -> Result<SessionRows, NoMemory>
    ensures { IfOk result (λ rows. rows ≡ map session_told marks.now) }
{
    let mut rows = Vec::with_capacity(alloc, marks.len())?;
    for mark in marks {
        rows.push(session_of(mark))?;
    }
    Ok(SessionRows::new(rows))
}

/// The rows of what is held back, in order.
pub(crate) fn pending_of(alloc: Global, held: &[Pending]) -> Result<PendingRows, NoMemory>
    ensures { IfOk result (λ rows. rows ≡ held.now) }
{
    let mut rows = Vec::with_capacity(alloc, held.len())?;
    for row in held {
        rows.push(row.copy()?)?;
    }
    Ok(PendingRows::new(rows))
}
