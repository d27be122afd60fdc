//! The top call.
ghost use Rattle.std.specs.Prelude.{◌≡◌, map};
ghost use Rattle.std.specs.String.{string_bytes};
ghost use Rattle.routing_commands.specs.Headline.{Headline, sides};
ghost use Rattle.routing_commands.specs.Limits.{LimitsAre};
ghost use Rattle.routing_commands.specs.Notes.{Noted};

use crate::forms::{Form, form_of};
use crate::notes::tell;
use acceptor_journal::Disk;
use leadership::lead;
use route_io::{Link, Sink, Source};
use route_node::{KeptNode, attend, attend_kept};
use route_replay::{load_at_exit, replay_at_exit};
use std::alloc::Global;
use table_audit::audit;
use topology::Status;

// Does what the words say. Words of no form leave all sides as they were.
fn outcome<I: Source, O: Sink, L: Link, D: Disk>(
    alloc: Global,
    words: &[String],
    source: &mut I,
    sink: &mut O,
    link: &mut L,
    disk: &mut D,
) -> Status
    ensures headline { Headline (map (λ word. string_bytes word) words.now)
        (sides (I.seen source.old) (O.seen sink.old) (L.seen link.old) (D.seen disk.old))
        (sides (I.seen source.new) (O.seen sink.new) (L.seen link.new) (D.seen disk.new)) result }
    ensures untouched { result ≡ Status.Usage → (source.new ≡ source.old) × (sink.new ≡ sink.old) × (link.new ≡ link.old) × (disk.new ≡ disk.old) }
{
    let Some(form) = form_of(words) else {
        return Status::Usage;
    };
    match form {
        Form::Replay => replay_at_exit(alloc, source, sink),
        Form::Load(number) => load_at_exit(alloc, number, sink),
        Form::Node(id, address) => attend(alloc, id, address, source, link),
        Form::KeptNode(id, address, file) => {
            let here = KeptNode { id, address, file };
            attend_kept(alloc, here, source, link, disk)
        }
        Form::Audit => audit(alloc, source, sink),
        Form::Lead => lead(alloc, source, sink),
    }
}

/// Does what the words say. The words are those after the program's name; `replay` reads a
/// schedule from the source, runs it, and writes its text to the sink; `load` with a number makes a
/// network and its schedule, runs it, and writes counts of the run; `node` with a number and an
/// address reads a network from the source, dials the address, and answers the frames that come over
/// the link as that node; with the name of a file behind the address, it keeps each frame there before
/// it answers, and begins behind the frames that the file has; `audit` reads printed tables from the
/// source, and writes one line where they are consistent; `lead` reads a script of members from the
/// source, runs it, and writes its text. The notes get one line where the run ended before its time; a
/// fault of theirs changes nothing. The process is to end behind this call: a replay and a load leave the memory of their worlds to
/// the system (`replay_at_exit`, `load_at_exit`). What a user may rely on stands in `specs/Headline.antt` and
/// `specs/Notes.antt`, and command by command in `route_replay/specs/Replayed.antt` and `Loaded.antt`,
/// `route_node/specs/Attended.antt` and `AttendedKept.antt`, `table_audit/specs/Audited.antt` and
/// `leadership/specs/Led.antt`.
pub fn run<I: Source, O: Sink, E: Sink, L: Link, D: Disk>(
    alloc: Global,
    words: &[String],
    source: &mut I,
    sink: &mut O,
    notes: &mut E,
    link: &mut L,
    disk: &mut D,
) -> Status
    ensures headline { Headline (map (λ word. string_bytes word) words.now)
        (sides (I.seen source.old) (O.seen sink.old) (L.seen link.old) (D.seen disk.old))
        (sides (I.seen source.new) (O.seen sink.new) (L.seen link.new) (D.seen disk.new)) result }
    // Words of no form leave the source, the sink, the link and the disk as they were.
    ensures untouched { result ≡ Status.Usage → (source.new ≡ source.old) × (sink.new ≡ sink.old) × (link.new ≡ link.old) × (disk.new ≡ disk.old) }
    ensures noted { Noted (E.seen notes.old) (E.seen notes.new) result }
    // Limits and ranges have the numbers that are written there, whatever came.
    ensures limits { LimitsAre }
    // A run that is done leaves the notes as they were.
    ensures silent { result ≡ Status.Done → notes.new ≡ notes.old }
{
    let status = outcome(alloc, words, source, sink, link, disk);
    tell(notes, &status);
    status
}
