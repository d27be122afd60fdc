//! The text of control messages.
ghost use Rattle.std.specs.Prelude.{◌≡◌, ◌<◌, ◌++◌, IfErr, OnOk};
ghost use Rattle.std.specs.String.{string_bytes};
ghost use Rattle.route_replay.specs.ControlText.{control_text, mail_lines};
ghost use Rattle.route_replay.specs.Gathering.{AddsLine, Gathers, Breaks, page_view};

use crate::ends::RunEnd;
use crate::page::Page;
use path_vector::Policy;
use route_io::Sink;
use std::alloc::AllocError;
use view_words::mails::mail_words;
use world_core::World;

// Adds the line of the message with this number, where there is one.
#[tactic(auto, unfolding(crate::specs::ControlText::mail_lines))]
fn add_mail<P: Policy + Copy>(
    out: &mut String,
    world: &World<P>,
    number: u32,
) -> Result<(), AllocError>
    requires { 0 < number }
    ensures { let rules = P.rules world.now.policy in
        OnOk result (AddsLine (mail_lines rules world.now.net world.now.events) number out.old out.new) }
{
    let Some(kept) = world.mail(number) else {
        return Ok(());
    };
    let (from, mail, deliveries) = kept;
    mail_words(out, number, from, mail, deliveries)
}

/// Adds the lines of all control messages, by their numbers.
#[tactic(auto, unfolding(crate::specs::ControlText::control_text))]
pub fn all_mails<P: Policy + Copy, O: Sink>(
    page: &mut Page<'_, String, O>,
    world: &World<P>,
) -> Result<(), RunEnd>
    ensures gathers { let rules = P.rules world.now.policy in
        OnOk result (Gathers (page_view O.seen page.old) (page_view O.seen page.new)
        (control_text rules world.now.net world.now.events)) }
    ensures breaks { let rules = P.rules world.now.policy in
        IfErr result (Breaks (O.seen page.old.sink.now) (O.seen page.new.sink.now)
        (string_bytes page.old.text ++ control_text rules world.now.net world.now.events)) }
    ensures same_sink { page.new.sink.ghost_name ≡ page.old.sink.ghost_name }
{
    for place in 0..world.mail_count() {
        add_mail(&mut page.text, world, place + 1)?;
        page.spill()?;
    }
    Ok(())
}
