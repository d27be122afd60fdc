//! Keeps the frames that a node takes in its journal.
ghost use Rattle.std.specs.Prelude.{◌≡◌};
ghost use Rattle.route_node.specs.Keeping.{KeptBy, ended_by};

use acceptor_journal::{Disk, Journal, JournalEnd, MOST_JOURNAL_BYTES};
use topology::{LimitKind, Status};

/// The most bytes of a journal, as the status `Limit` names them.
pub const MOST_JOURNAL: u32 = MOST_JOURNAL_BYTES as u32;

/// How a run ends after a failed call of its journal.
pub(crate) fn status_of(end: JournalEnd) -> Status
    ensures { result ≡ ended_by end }
{
    match end {
        JournalEnd::NoMemory => Status::NoMemory,
        JournalEnd::Fault => Status::DiskFault,
        JournalEnd::Full => Status::Limit(LimitKind::Journal, MOST_JOURNAL),
    }
}

/// Appends the bytes of a frame to the journal, if there is one.
pub(crate) fn keep<D: Disk>(
    journal: Option<Journal>,
    disk: &mut D,
    frame: &[u8],
) -> Result<Option<Journal>, Status>
    ensures { KeptBy journal frame.now (D.seen disk.old) result (D.seen disk.new) }
{
    let Some(journal) = journal else {
        return Ok(None);
    };
    match journal.append(disk, frame) {
        Ok(journal) => Ok(Some(journal)),
        Err(end) => Err(status_of(end)),
    }
}
