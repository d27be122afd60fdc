//! What each directive does and writes.
ghost use Rattle.std.specs.Prelude.{◌≡◌, ◌++◌, None, is_some, IsTrue, IfOk, IfErr, OnOk};
ghost use Rattle.std.specs.String.{string_bytes};
ghost use Rattle.chronicle.specs.declared.events.Event.TheVariants as Happens;
ghost use Rattle.chronicle.specs.Facts.{Chronicle};
ghost use Rattle.chronicle.specs.Walks.{ending};
ghost use Rattle.chronicle.specs.Run.{run, step};
ghost use Rattle.chronicle.specs.Steps.{Step};
ghost use Rattle.run_record.specs.Effects.{Tells};
ghost use Rattle.world_core.specs.Fits.{fits};
ghost use Rattle.route_replay.specs.Text.{idle_line, task_of, said, step_text, course, controlled, drained, hopped, is_idle, with_event};
ghost use Rattle.route_replay.specs.Past.{past_of};
ghost use Rattle.route_replay.specs.Running.{Fitting, Advances, StopsIn, lines_by, limit_by, Runs};
ghost use Rattle.route_replay.specs.ShownClosure.{IsCurrent};

use crate::ends::RunEnd;
use crate::page::Page;
use crate::shown_closure::{ShownClosure, keep_through};
use crate::tasks::{Task, task_of};
use crate::views::show;
use path_vector::Policy;
use route_io::Sink;
use schedule_file::Numbered;
use std::alloc::{AllocError, Global};
use topology::Reason;
use view_words::numbers::push_number;
use view_words::reasons::reason_words;
use world_core::{Event, Outcome, Stop, World};

// Adds the line of an event that did nothing.
fn idle_line(out: &mut String, line: u32, reason: Reason) -> Result<(), AllocError>
    ensures { OnOk result (string_bytes out.new ≡ string_bytes out.old ++ idle_line line reason) }
{
    push_number(out, line)?;
    out.push_str(": idle ")?;
    reason_words(out, reason)?;
    out.push('\n')
}

// Adds what is shown of an event: a line, where it did nothing.
fn event_line<O: Sink>(
    page: &mut Page<'_, String, O>,
    line: u32,
    outcome: &Outcome,
) -> Result<(), AllocError>
    ensures text { (past : Chronicle) (step : Step) → Tells past step outcome.now →
        OnOk result (string_bytes page.new.text ≡ string_bytes page.old.text ++ step_text line step) }
    ensures sink { page.new.sink.now ≡ page.old.sink.now }
    ensures same_sink { page.new.sink.ghost_name ≡ page.old.sink.ghost_name }
{
    match outcome {
        Outcome::Did(_) => Ok(()),
        Outcome::Idle(reason) => idle_line(&mut page.text, line, *reason),
    }
}

// Writes what is shown of an event.
fn tell<O: Sink>(alloc: Global, line: u32, outcome: &Outcome, sink: &mut O) -> Result<(), RunEnd>
    ensures { (past : Chronicle) (step : Step) → Tells past step outcome.now →
        Runs (O.seen sink.old) (O.seen sink.new) (step_text line step) None result }
{
    let mut page = Page::new(alloc, sink);
    event_line(&mut page, line, outcome)?;
    page.flush()?;
    Ok(())
}

// The world after an event, whose line is written where it did nothing.
fn act<P: Policy + Copy, O: Sink>(
    alloc: Global,
    world: World<P>,
    line: u32,
    event: Event,
    sink: &mut O,
) -> Result<World<P>, RunEnd>
    requires { IsTrue (fits world.net event) }
    ensures world { IfOk result (λ next. Advances world next
        (with_event (P.rules world.policy) world.net world.events event)) }
    ensures runs { let rules = P.rules world.policy in
        let words = step_text line (step rules world.net (past_of rules world) event) in
        let led = with_event rules world.net world.events event in
        Runs (O.seen sink.old) (O.seen sink.new) (lines_by words led) (limit_by led) result }
{
    let (world, outcome) = world.step(event)?;
    tell(alloc, line, &outcome, sink)?;
    Ok(world)
}

// The world after at most so many deliveries, each the next one when its turn comes.
pub(crate) fn drain<P: Policy + Copy>(world: World<P>, times: u32) -> Result<World<P>, Stop>
    ensures world { IfOk result (λ next. Advances world next
        (drained (P.rules world.policy) world.net times world.events)) }
    ensures stopped { IfErr result (StopsIn
        (drained (P.rules world.policy) world.net times world.events)) }
{
    let mut world = world;
    for _ in 0..times {
        let (next, way) = world.deliver_next()?;
        world = next;
        if way.is_none() {
            return Ok(world);
        }
    }
    Ok(world)
}

// The world after at most so many control messages, each the next one when its turn comes.
pub(crate) fn control_all<P: Policy + Copy>(world: World<P>, times: u32) -> Result<World<P>, Stop>
    ensures world { IfOk result (λ next. Advances world next
        (controlled (P.rules world.policy) world.net times world.events)) }
    ensures stopped { IfErr result (StopsIn
        (controlled (P.rules world.policy) world.net times world.events)) }
{
    let mut world = world;
    for _ in 0..times {
        let Some(number) = world.next_mail() else {
            return Ok(world);
        };
        let (next, _outcome) = world.step(Event::Control { number })?;
        world = next;
    }
    Ok(world)
}

// Whether the event did nothing.
fn is_idle(outcome: &Outcome) -> bool
    ensures { (past : Chronicle) (step : Step) → Tells past step outcome.now → result ≡ is_idle step }
{
    match outcome {
        Outcome::Did(_) => false,
        Outcome::Idle(_) => true,
    }
}

// Whether the walk of the packet has ended.
fn has_ended<P: Policy + Copy>(world: &World<P>, packet: u32) -> bool
    ensures { result ≡ is_some (ending packet (past_of (P.rules world.now.policy) world.now)) }
{
    match world.walk(packet) {
        Some((_, end)) => end.is_some(),
        None => false,
    }
}

// The world after at most so many hops of the packet: up to one that ends its walk, or that does nothing.
pub(crate) fn hop<P: Policy + Copy>(
    world: World<P>,
    packet: u32,
    times: u32,
) -> Result<World<P>, Stop>
    requires { IsTrue (fits world.net (Happens.Hop packet)) }
    ensures world { IfOk result (λ next. Advances world next
        (hopped (P.rules world.policy) world.net packet times world.events)) }
    ensures stopped { IfErr result (StopsIn
        (hopped (P.rules world.policy) world.net packet times world.events)) }
{
    let mut world = world;
    for _ in 0..times {
        if has_ended(&world, packet) {
            return Ok(world);
        }
        let (next, outcome) = world.step(Event::Hop { packet })?;
        world = next;
        if is_idle(&outcome) {
            return Ok(world);
        }
    }
    Ok(world)
}

/// The world after a directive, whose lines are written. The line of a closure is kept until the next directive that may
/// change the world.
pub(crate) fn advance<P: Policy + Copy, O: Sink>(
    alloc: Global,
    world: World<P>,
    kept: &mut Option<ShownClosure>,
    numbered: &Numbered,
    sink: &mut O,
) -> Result<World<P>, RunEnd>
    requires fits { Fitting world.net (task_of numbered.now.directive) }
    requires kept { IsCurrent (P.rules world.policy) world.net world.events kept.old }
    ensures kept { IfOk result (λ next. IsCurrent (P.rules world.policy) next.net next.events kept.new) }
    ensures world { IfOk result (λ next. Advances world next
        (course (P.rules world.policy) world.net world.events (task_of numbered.now.directive))) }
    ensures runs { let rules = P.rules world.policy in
        let led = course rules world.net world.events (task_of numbered.now.directive) in
        Runs (O.seen sink.old) (O.seen sink.new)
        (lines_by (said rules world.net world.events numbered.now) led) (limit_by led) result }
{
    let task = task_of(&numbered.directive);
    keep_through(kept, &task);
    match task {
        Task::Event(event) => act(alloc, world, numbered.line, event, sink),
        Task::Deliveries(times) => Ok(drain(world, times)?),
        Task::ControlMessages(times) => Ok(control_all(world, times)?),
        Task::Hops { packet, times } => Ok(hop(world, packet, times)?),
        Task::Show(view) => {
            show(alloc, &world, kept, view, sink)?;
            Ok(world)
        }
    }
}
