//! Runs a schedule and writes its text.
ghost use Rattle.std.specs.Prelude.{◌≡◌, [], IfOk};
ghost use Rattle.path_vector.specs.GaoRexford.{gao_rexford};
ghost use Rattle.route_replay.specs.Text.{stop, text, texts};
ghost use Rattle.route_replay.specs.Running.{AllFitting, Runs};
ghost use Rattle.route_replay.specs.Replayed.{Replayed};
ghost use Rattle.route_replay.specs.Turns.{WritesInTurn};

use crate::directives::advance;
use crate::ends::RunEnd;
use path_vector::{GaoRexford, Policy};
use route_io::{ReadEnd, Sink, Source, read_all};
use schedule_file::{Numbered, ParseEnd, Schedule, parse};
use std::alloc::Global;
use std::mem;
use std::rc::Rc;
use topology::limits::MOST_BYTES;
use topology::{LimitKind, NoMemory, Status, Topology};
use world_core::World;

/// What becomes of the memory of a world that has run to its end.
#[derive(Clone, Copy)]
pub enum AtEnd {
    /// It is given back, block by block.
    Free,
    /// It is left as it is, for a process that ends now. The system takes back all memory of a process at once.
    Leave,
}

/// Ends the world.
pub(crate) fn end<P: Policy + Copy>(world: World<P>, at_end: AtEnd) {
    match at_end {
        AtEnd::Free => drop(world),
        AtEnd::Leave => mem::forget(world),
    }
}

/// Runs the directives, writes the text of each before the next is taken, and ends the world.
pub fn run_lines<P: Policy + Copy, O: Sink>(
    alloc: Global,
    world: World<P>,
    lines: &[Numbered],
    sink: &mut O,
    at_end: AtEnd,
) -> Result<(), RunEnd>
    requires { AllFitting world.net lines.now }
    ensures runs { Runs (O.seen sink.old) (O.seen sink.new)
        (text (P.rules world.policy) world.net world.events lines.now)
        (stop (P.rules world.policy) world.net world.events lines.now) result }
    ensures in_turn { WritesInTurn (O.seen sink.old) (O.seen sink.new)
        (texts (P.rules world.policy) world.net world.events lines.now) }
{
    let mut world = world;
    let mut kept = None;
    for numbered in lines {
        world = advance(alloc, world, &mut kept, numbered, sink)?;
    }
    end(world, at_end);
    Ok(())
}

/// The world of a network before its first event.
pub(crate) fn first_world(alloc: Global, topology: Topology) -> Result<World<GaoRexford>, NoMemory>
    ensures net { IfOk result (λ world. world.net ≡ topology) }
    ensures events { IfOk result (λ world. world.events ≡ []) }
{
    let topology = Rc::new(alloc, topology)?;
    let world = World::new(alloc, topology, GaoRexford)?;
    Ok(world)
}

// Runs a schedule in a new world.
fn run_schedule<O: Sink>(
    alloc: Global,
    schedule: Schedule,
    sink: &mut O,
    at_end: AtEnd,
) -> Result<(), RunEnd>
    requires { AllFitting schedule.topology schedule.lines.items }
    ensures runs { Runs (O.seen sink.old) (O.seen sink.new)
        (text gao_rexford schedule.topology [] schedule.lines.items)
        (stop gao_rexford schedule.topology [] schedule.lines.items) result }
    ensures in_turn { WritesInTurn (O.seen sink.old) (O.seen sink.new)
        (texts gao_rexford schedule.topology [] schedule.lines.items) }
{
    let Schedule { topology, lines } = schedule;
    let Ok(world) = first_world(alloc, topology) else {
        return Err(RunEnd::NoMemory);
    };
    run_lines(alloc, world, &lines, sink, at_end)
}

// Does what `replay` does, and ends the world so.
fn replay_ending<I: Source, O: Sink>(
    alloc: Global,
    source: &mut I,
    sink: &mut O,
    at_end: AtEnd,
) -> Status
    ensures { Replayed (I.seen source.old) (I.seen source.new) (O.seen sink.old) (O.seen sink.new) result }
{
    let bytes = match read_all(alloc, source, MOST_BYTES as usize) {
        Ok(bytes) => bytes,
        Err(ReadEnd::NoMemory) => return Status::NoMemory,
        Err(ReadEnd::Fault) => return Status::ReadFault,
        Err(ReadEnd::TooLong) => return Status::Limit(LimitKind::Bytes, MOST_BYTES),
    };
    let schedule = match parse(alloc, &bytes) {
        Ok(schedule) => schedule,
        Err(ParseEnd::NoMemory) => return Status::NoMemory,
        Err(ParseEnd::Bad { line, kind }) => return Status::BadSchedule(line, kind),
    };
    world_core::laws::a_run_holds_throughout();
    delivery_laws::laws::a_walk_over_it_delivers();
    // that a network is valid is said where its nodes are read
    let _nodes = schedule.topology.nodes();
    match run_schedule(alloc, schedule, sink, at_end) {
        Ok(()) => Status::Done,
        Err(RunEnd::NoMemory) => Status::NoMemory,
        Err(RunEnd::WriteFault) => Status::WriteFault,
        Err(RunEnd::Limit(kind, number)) => Status::Limit(kind, number),
    }
}

/// Reads a schedule from the source, runs it, and writes its text to the sink. What a user may
/// rely on stands in `specs/Replayed.antt`.
pub fn replay<I: Source, O: Sink>(alloc: Global, source: &mut I, sink: &mut O) -> Status
    ensures { Replayed (I.seen source.old) (I.seen source.new) (O.seen sink.old) (O.seen sink.new) result }
{
    replay_ending(alloc, source, sink, AtEnd::Free)
}

/// As [`replay`], for a process that ends behind it: a world that ran to its end does not give back its memory. The system takes
/// it back with the process. Giving it back block by block costs seven of a hundred instructions of a cold start.
pub fn replay_at_exit<I: Source, O: Sink>(alloc: Global, source: &mut I, sink: &mut O) -> Status
    ensures { Replayed (I.seen source.old) (I.seen source.new) (O.seen sink.old) (O.seen sink.new) result }
{
    replay_ending(alloc, source, sink, AtEnd::Leave)
}
