//! The line that says why a run ended before its time.
ghost use Rattle.std.specs.Prelude.{◌≡◌, ◌+◌, ◌≤◌, [], ◌++◌, codes, decimal, length};
ghost use Rattle.topology.specs.Words.{fault_words};
ghost use Rattle.routing_commands.specs.Notes.{Noted, fault_numbers, note_words};

use arrayvec::ArrayString;
use itoa::Buffer;
use route_io::{Sink, write_all};
use topology::{FrameFault, LimitKind, Status};

/// More than the bytes of the longest line.
const ROOM: usize = 128;

// Words, and a number behind them.
fn push_number(text: &mut ArrayString<ROOM>, what: &str, number: u64)
    requires empty { text.old.bytes ≡ [] }
    requires few { length what.now ≤ 20 }
    ensures words { text.new.bytes ≡ what.now ++ decimal number }
    ensures short { length text.new.bytes ≤ 40 }
{
    let mut digits = Buffer::new();
    text.push_str(what);
    text.push_str(digits.format(number));
}

// Words, a number, and what is wrong there.
fn push_place(text: &mut ArrayString<ROOM>, what: &str, number: u64, why: &str)
    requires empty { text.old.bytes ≡ [] }
    requires few { length what.now ≤ 20 }
    requires short { length why.now ≤ 64 }
    ensures words { text.new.bytes ≡ what.now ++ decimal number ++ codes ": " ++ why.now }
    ensures short { length text.new.bytes ≤ 42 + length why.now }
{
    push_number(text, what, number);
    text.push_str(": ");
    text.push_str(why);
}

// The count that would pass its number.
fn limit(text: &mut ArrayString<ROOM>, kind: LimitKind, most: u32)
    requires { text.old.bytes ≡ [] }
    ensures words { text.new.bytes ≡ note_words (Status.Limit kind most) }
    ensures short { length text.new.bytes ≤ 127 }
{
    let mut number = Buffer::new();
    text.push_str("limit: ");
    text.push_str(kind.words());
    text.push_str(" ");
    text.push_str(number.format(most));
}

// The numbers of an update out of turn, behind the word for it.
fn numbers_of(text: &mut ArrayString<ROOM>, fault: FrameFault)
    requires { length text.old.bytes ≤ 64 }
    ensures words { text.new.bytes ≡ text.old.bytes ++ fault_numbers fault }
    ensures short { length text.new.bytes ≤ 127 }
{
    if let FrameFault::Sequence { expected, got } = fault {
        let mut number = Buffer::new();
        text.push_str(" expected ");
        text.push_str(number.format(expected));
        text.push_str(" got ");
        text.push_str(number.format(got));
    }
}

// Where in the bytes what is refused begins, and why it is, behind words for what it is.
fn push_fault(text: &mut ArrayString<ROOM>, what: &str, offset: u64, fault: FrameFault)
    requires empty { text.old.bytes ≡ [] }
    requires few { length what.now ≤ 20 }
    ensures words { text.new.bytes
        ≡ what.now ++ decimal offset ++ codes ": " ++ fault_words fault ++ fault_numbers fault }
    ensures short { length text.new.bytes ≤ 127 }
{
    push_place(text, what, offset, fault.words());
    numbers_of(text, fault);
}

// The words of the line.
fn words_of(status: &Status) -> ArrayString<ROOM>
    ensures words { result.bytes ≡ note_words status.now }
    ensures short { length result.bytes ≤ 127 }
{
    let mut text = ArrayString::new();
    match status {
        Status::Done => {}
        Status::Usage => {
            text.push_str(
                "usage: consensus_routing replay | load NUMBER | node ID ADDRESS | node ID ADDRESS FILE | audit | lead",
            );
        }
        Status::NoMemory => text.push_str("no memory"),
        Status::BadSchedule(line, kind) => {
            push_place(
                &mut text,
                "bad schedule: line ",
                u64::from(*line),
                kind.words(),
            )
        }
        Status::Limit(kind, most) => limit(&mut text, *kind, *most),
        Status::ReadFault => text.push_str("read fault"),
        Status::WriteFault => text.push_str("write fault"),
        Status::LinkFault => text.push_str("link fault"),
        Status::BadFrame(offset, fault) => {
            push_fault(&mut text, "bad frame: offset ", *offset, *fault)
        }
        Status::NoSuchNode(node) => {
            push_number(&mut text, "no such node: ", u64::from(node.number()))
        }
        Status::DiskFault => text.push_str("disk fault"),
        Status::BadJournal(offset, fault) => {
            push_fault(&mut text, "bad journal: offset ", *offset, *fault)
        }
        Status::BadTables(line) => push_number(&mut text, "bad tables: line ", u64::from(*line)),
        Status::Inconsistent(line, kind) => {
            push_place(
                &mut text,
                "inconsistent: line ",
                u64::from(*line),
                kind.words(),
            )
        }
    }
    text
}

/// Writes the line of a run that ended so, where it is not done. Takes no memory. Whether the line
/// can be written changes nothing.
pub fn tell<E: Sink>(notes: &mut E, status: &Status)
    ensures noted { Noted (E.seen notes.old) (E.seen notes.new) status.now }
    ensures silent { status.now ≡ Status.Done → notes.new ≡ notes.old }
{
    if matches!(status, Status::Done) {
        return;
    }
    let mut line = words_of(status);
    line.push_str("\n");
    let _told = write_all(notes, line.as_str().as_bytes());
}
