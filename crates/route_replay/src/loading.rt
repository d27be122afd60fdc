//! Makes a load, runs it, and writes its counts.
ghost use Rattle.std.specs.Prelude.{[], IfOk, IfErr};
ghost use Rattle.path_vector.specs.GaoRexford.{gao_rexford};
ghost use Rattle.route_replay.specs.Loaded.{Loaded};
ghost use Rattle.load_plan.specs.LoadSchedule.{unnumbered};
ghost use Rattle.route_replay.specs.LoadText.{counted};
ghost use Rattle.route_replay.specs.Performing.{AllFit, Performs, StopsLoad};
ghost use Rattle.route_replay.specs.Running.{Advances, Fitting, Runs, StopsIn};
ghost use Rattle.route_replay.specs.Text.{course, stop, task_of};

use crate::directives::{control_all, drain, hop};
use crate::ends::RunEnd;
use crate::runner::{AtEnd, end, first_world};
use crate::summary::write_summary;
use crate::tasks::{Task, task_of};
use load_plan::{Load, load_of};
use path_vector::Policy;
use route_io::Sink;
use schedule_file::Directive;
use std::alloc::Global;
use topology::Status;
use world_core::{Stop, World};

// The world after a task, of which nothing is shown.
fn perform<P: Policy + Copy>(world: World<P>, task: &Task) -> Result<World<P>, Stop>
    requires { Fitting world.net task.now }
    ensures world { IfOk result (λ next. Advances world next
        (course (P.rules world.policy) world.net world.events task.now)) }
    ensures stopped { IfErr result (StopsIn
        (course (P.rules world.policy) world.net world.events task.now)) }
{
    match task {
        Task::Event(event) => {
            let (next, _outcome) = world.step(*event)?;
            Ok(next)
        }
        Task::Deliveries(times) => drain(world, *times),
        Task::ControlMessages(times) => control_all(world, *times),
        Task::Hops { packet, times } => hop(world, *packet, *times),
        Task::Show(_) => Ok(world),
    }
}

// The world after the directives, one after the other.
fn perform_all<P: Policy + Copy>(
    world: World<P>,
    directives: &[Directive],
) -> Result<World<P>, Stop>
    requires { AllFit world.net directives.now }
    ensures world { IfOk result (λ next. Performs (P.rules world.policy) world next (unnumbered directives.now)) }
    ensures stopped { IfErr result (StopsLoad (P.rules world.policy) world (unnumbered directives.now)) }
{
    let mut world = world;
    for directive in directives {
        world = perform(world, &task_of(directive))?;
    }
    Ok(world)
}

// Runs the directives, writes the counts of the run, and ends the world.
fn run_and_count<P: Policy + Copy, O: Sink>(
    alloc: Global,
    world: World<P>,
    directives: &[Directive],
    sink: &mut O,
    at_end: AtEnd,
) -> Result<(), RunEnd>
    requires { AllFit world.net directives.now }
    ensures { Runs (O.seen sink.old) (O.seen sink.new)
        (counted (P.rules world.policy) world.net world.events (unnumbered directives.now))
        (stop (P.rules world.policy) world.net world.events (unnumbered directives.now)) result }
{
    let world = perform_all(world, directives)?;
    let written = write_summary(alloc, &world, sink);
    end(world, at_end);
    written
}

// Runs a load in a new world.
fn run_load<O: Sink>(alloc: Global, load: Load, sink: &mut O, at_end: AtEnd) -> Result<(), RunEnd>
    requires { AllFit load.topology load.directives.items }
    ensures { Runs (O.seen sink.old) (O.seen sink.new)
        (counted gao_rexford load.topology [] (unnumbered load.directives.items))
        (stop gao_rexford load.topology [] (unnumbered load.directives.items)) result }
{
    let Load {
        topology,
        directives,
    } = load;
    let Ok(world) = first_world(alloc, topology) else {
        return Err(RunEnd::NoMemory);
    };
    run_and_count(alloc, world, &directives, sink, at_end)
}

// Does what `load` does, and ends the world so.
fn load_ending<O: Sink>(alloc: Global, number: u32, sink: &mut O, at_end: AtEnd) -> Status
    ensures { Loaded number (O.seen sink.old) (O.seen sink.new) result }
{
    let Ok(made) = load_of(alloc, number) else {
        return Status::NoMemory;
    };
    world_core::laws::a_run_holds_throughout();
    // that a network is valid is said where its nodes are read
    let _nodes = made.topology.nodes();
    match run_load(alloc, made, sink, at_end) {
        Ok(()) => Status::Done,
        Err(RunEnd::NoMemory) => Status::NoMemory,
        Err(RunEnd::WriteFault) => Status::WriteFault,
        Err(RunEnd::Limit(kind, most)) => Status::Limit(kind, most),
    }
}

/// Makes the network of this number and what happens in it, runs that, and writes counts of the run
/// to the sink. What a user may rely on stands in `specs/Loaded.antt`.
pub fn load<O: Sink>(alloc: Global, number: u32, sink: &mut O) -> Status
    ensures { Loaded number (O.seen sink.old) (O.seen sink.new) result }
{
    load_ending(alloc, number, sink, AtEnd::Free)
}

/// As [`load`], for a process that ends behind it: a world that ran to its end does not give back its memory.
pub fn load_at_exit<O: Sink>(alloc: Global, number: u32, sink: &mut O) -> Status
    ensures { Loaded number (O.seen sink.old) (O.seen sink.new) result }
{
    load_ending(alloc, number, sink, AtEnd::Leave)
}
