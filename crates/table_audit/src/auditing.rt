//! The audit of a text.
ghost use Rattle.table_audit.specs.Audited.{Audited};

use crate::checking::{Verdict, check_rows};
use crate::laws::no_node_is_visited_twice;
use crate::reading::{RowsEnd, read_rows};
use route_io::{ReadEnd, Sink, Source, read_all, write_all};
use std::alloc::Global;
use topology::limits::MOST_BYTES;
use topology::{LimitKind, Status};

/// Reads a text from the source. If none of its rows is bad, writes to the sink that they are consistent.
/// `specs/Audited.antt` says what a user may rely on.
pub fn audit<I: Source, O: Sink>(alloc: Global, source: &mut I, sink: &mut O) -> Status
    ensures { Audited (I.seen source.old) (I.seen source.new) (O.seen sink.old) (O.seen sink.new) result }
{
    no_node_is_visited_twice();
    let bytes = match read_all(alloc, source, MOST_BYTES as usize) {
        Ok(bytes) => bytes,
        Err(ReadEnd::NoMemory) => return Status::NoMemory,
        Err(ReadEnd::Fault) => return Status::ReadFault,
        Err(ReadEnd::TooLong) => return Status::Limit(LimitKind::Bytes, MOST_BYTES),
    };
    let rows = match read_rows(alloc, &bytes) {
        Ok(rows) => rows,
        Err(RowsEnd::NoMemory) => return Status::NoMemory,
        Err(RowsEnd::Misspelled(line)) => return Status::BadTables(line),
    };
    let Ok(verdict) = check_rows(alloc, &rows) else {
        return Status::NoMemory;
    };
    match verdict {
        Verdict::Bad { line, kind } => Status::Inconsistent(line, kind),
        Verdict::Consistent => match write_all(sink, b"consistent\n") {
            Ok(()) => Status::Done,
            Err(_) => Status::WriteFault,
        },
    }
}
