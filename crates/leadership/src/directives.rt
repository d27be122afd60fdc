//! What each directive does and writes.
ghost use Rattle.std.specs.Prelude.{◌≡◌, ◌++◌, IsTrue, IfOk, IfErr, OnOk};
ghost use Rattle.std.specs.String.{string_bytes};
ghost use Rattle.leadership.specs.Fits.{fits};
ghost use Rattle.leadership.specs.Run.{run, step};
ghost use Rattle.leadership.specs.Running.{Advances, StopsIn, Runs, lines_by, limit_by};
ghost use Rattle.leadership.specs.Scripts.{is_known};
ghost use Rattle.leadership.specs.Text.{controlled, course, said, step_text, with_event};

use crate::ends::RunEnd;
use crate::events::LeadEvent;
use crate::scripts::{Directive, Numbered};
use crate::stops::LeadStop;
use crate::text::{chosen_lines, event_line};
use crate::world::LeadWorld;
use route_io::{Sink, write_all};
use std::alloc::Global;

// The world after an event. If the event did nothing, its line is added.
fn act(
    world: LeadWorld,
    line: u32,
    event: LeadEvent,
    out: &mut String,
) -> Result<LeadWorld, LeadStop>
    requires { IsTrue (fits world.members event) }
    ensures world { IfOk result (λ next. Advances world next (with_event world.members world.events event)) }
    ensures text { let words = step_text line (step world.members (run world.members world.events) event) in
        OnOk result (string_bytes out.new ≡ string_bytes out.old ++ words) }
    ensures stopped { IfErr result (StopsIn (with_event world.members world.events event)) }
{
    let (world, reason) = world.step(event)?;
    let Ok(()) = event_line(out, line, &reason) else {
        return Err(LeadStop::NoMemory);
    };
    Ok(world)
}

// The world after at most this many deliveries, each of the message that is then the next one.
fn deliver_all(world: LeadWorld, times: u32) -> Result<LeadWorld, LeadStop>
    ensures world { IfOk result (λ next. Advances world next (controlled world.members times world.events)) }
    ensures stopped { IfErr result (StopsIn (controlled world.members times world.events)) }
{
    let mut world = world;
    for _ in 0..times {
        let Some(number) = world.next_mail() else {
            return Ok(world);
        };
        let (next, _reason) = world.step(LeadEvent::Control { number })?;
        world = next;
    }
    Ok(world)
}

// The world after the directive, with the directive's lines added.
fn perform(world: LeadWorld, numbered: &Numbered, out: &mut String) -> Result<LeadWorld, LeadStop>
    requires { IsTrue (is_known world.members numbered.now.directive) }
    ensures world { IfOk result (λ next. Advances world next (course world.members world.events numbered.now.directive)) }
    ensures text { OnOk result (string_bytes out.new ≡ string_bytes out.old ++ said world.members world.events numbered.now) }
    ensures stopped { IfErr result (StopsIn (course world.members world.events numbered.now.directive)) }
{
    match &numbered.directive {
        Directive::Event(event) => act(world, numbered.line, *event, out),
        Directive::Deliveries(times) => deliver_all(world, *times),
        Directive::ShowChosen => {
            let Ok(()) = chosen_lines(out, &world) else {
                return Err(LeadStop::NoMemory);
            };
            Ok(world)
        }
    }
}

/// The world after the directive, with the directive's lines written.
pub(crate) fn advance<O: Sink>(
    alloc: Global,
    world: LeadWorld,
    numbered: &Numbered,
    sink: &mut O,
) -> Result<LeadWorld, RunEnd>
    requires { IsTrue (is_known world.members numbered.now.directive) }
    ensures world { IfOk result (λ next. Advances world next (course world.members world.events numbered.now.directive)) }
    ensures runs { let led = course world.members world.events numbered.now.directive in
        let words = said world.members world.events numbered.now in
        Runs (O.seen sink.old) (O.seen sink.new) (lines_by words led) (limit_by led) result }
{
    let mut out = String::new(alloc);
    let world = perform(world, numbered, &mut out)?;
    if write_all(sink, out.as_bytes()).is_err() {
        return Err(RunEnd::WriteFault);
    }
    Ok(world)
}
