//! Runs a script and writes its text.
ghost use Rattle.std.specs.Prelude.{◌≡◌, [], true, IfOk};
ghost use Rattle.topology.specs.Lists.{ascending};
ghost use Rattle.topology.specs.Paths.{differ};
ghost use Rattle.leadership.specs.Ends.{status_of};
ghost use Rattle.leadership.specs.Led.{Led};
ghost use Rattle.leadership.specs.Parsing.{AllKnown};
ghost use Rattle.leadership.specs.Running.{Runs};
ghost use Rattle.leadership.specs.Text.{stop, text};

use crate::directives::advance;
use crate::ends::RunEnd;
use crate::laws::one_value_is_chosen;
use crate::parser::{ScriptEnd, parse};
use crate::scripts::{Numbered, Script};
use crate::world::LeadWorld;
use route_io::{ReadEnd, Sink, Source, read_all};
use std::alloc::Global;
use topology::limits::MOST_BYTES;
use topology::{LimitKind, Status};

// Runs the directives, and writes the lines of each before the next one runs.
fn run_lines<O: Sink>(
    alloc: Global,
    world: LeadWorld,
    lines: &[Numbered],
    sink: &mut O,
) -> Result<(), RunEnd>
    requires { AllKnown world.members lines.now }
    ensures { Runs (O.seen sink.old) (O.seen sink.new)
        (text world.members world.events lines.now) (stop world.members world.events lines.now) result }
{
    let mut world = world;
    for numbered in lines {
        world = advance(alloc, world, numbered, sink)?;
    }
    Ok(())
}

// Runs a script in a new world.
fn run_script<O: Sink>(alloc: Global, script: &Script, sink: &mut O) -> Result<(), RunEnd>
    requires apart { differ script.now.members.nodes ≡ true }
    requires known { AllKnown script.now.members.nodes script.now.directives.items }
    ensures { let members = ascending script.now.members.nodes in
        Runs (O.seen sink.old) (O.seen sink.new)
        (text members [] script.now.directives.items) (stop members [] script.now.directives.items) result }
{
    let Ok(world) = LeadWorld::new(alloc, script.members.ascending()) else {
        return Err(RunEnd::NoMemory);
    };
    run_lines(alloc, world, &script.directives, sink)
}

// The status at the end of a run.
fn status_of(ran: Result<(), RunEnd>) -> Status
    ensures { result ≡ status_of ran }
{
    match ran {
        Ok(()) => Status::Done,
        Err(RunEnd::NoMemory) => Status::NoMemory,
        Err(RunEnd::WriteFault) => Status::WriteFault,
        Err(RunEnd::Limit(kind, number)) => Status::Limit(kind, number),
    }
}

/// Reads a script from the source, runs it, and writes its text to the sink. `specs/Led.antt` says what a user may rely
/// on.
pub fn lead<I: Source, O: Sink>(alloc: Global, source: &mut I, sink: &mut O) -> Status
    ensures { Led (I.seen source.old) (I.seen source.new) (O.seen sink.old) (O.seen sink.new) result }
{
    one_value_is_chosen();
    let bytes = match read_all(alloc, source, MOST_BYTES as usize) {
        Ok(bytes) => bytes,
        Err(ReadEnd::NoMemory) => return Status::NoMemory,
        Err(ReadEnd::Fault) => return Status::ReadFault,
        Err(ReadEnd::TooLong) => return Status::Limit(LimitKind::Bytes, MOST_BYTES),
    };
    let script = match parse(alloc, &bytes) {
        Ok(script) => script,
        Err(ScriptEnd::NoMemory) => return Status::NoMemory,
        Err(ScriptEnd::Bad { line, kind }) => return Status::BadSchedule(line, kind),
    };
    status_of(run_script(alloc, &script, sink))
}
