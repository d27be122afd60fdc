//! The text of walks.
ghost use Rattle.std.specs.Prelude.{◌≡◌, ◌++◌, Some, IfErr, OnOk};
ghost use Rattle.std.specs.List.{flat_map};
ghost use Rattle.std.specs.String.{string_bytes};
ghost use Rattle.route_replay.specs.Gathering.{Gathers, Breaks, page_view};
ghost use Rattle.route_replay.specs.Past.{past_of};
ghost use Rattle.view_words.specs.Lines.{ended};
ghost use Rattle.view_words.specs.Walks.{visit_text, walk_line};
ghost use Rattle.route_replay.specs.WalkText.{walk_text};

use crate::ends::RunEnd;
use crate::page::Page;
use epoch_packet::{End, Visit};
use path_vector::Policy;
use route_io::Sink;
use view_words::walks::{end_words, head_words, unknown_words, visit_words};
use world_core::World;

// Adds the visits of a walk, the oldest first.
fn add_visits<O: Sink>(page: &mut Page<'_, String, O>, visits: &[Visit]) -> Result<(), RunEnd>
    ensures gathers { OnOk result (Gathers (page_view O.seen page.old) (page_view O.seen page.new)
        (flat_map visit_text visits.now)) }
    ensures breaks { IfErr result (Breaks (O.seen page.old.sink.now) (O.seen page.new.sink.now)
        (string_bytes page.old.text ++ flat_map visit_text visits.now)) }
    ensures same_sink { page.new.sink.ghost_name ≡ page.old.sink.ghost_name }
{
    for visit in visits {
        visit_words(&mut page.text, visit)?;
        page.spill()?;
    }
    Ok(())
}

// Adds the line of a walk.
fn add_walk<O: Sink>(
    page: &mut Page<'_, String, O>,
    packet: u32,
    visits: &[Visit],
    end: Option<End>,
) -> Result<(), RunEnd>
    ensures gathers { OnOk result (Gathers (page_view O.seen page.old) (page_view O.seen page.new)
        (walk_line packet (Some (visits.now, end)))) }
    ensures breaks { IfErr result (Breaks (O.seen page.old.sink.now) (O.seen page.new.sink.now)
        (string_bytes page.old.text ++ walk_line packet (Some (visits.now, end)))) }
    ensures same_sink { page.new.sink.ghost_name ≡ page.old.sink.ghost_name }
{
    head_words(&mut page.text, packet)?;
    add_visits(page, visits)?;
    end_words(&mut page.text, end)?;
    Ok(())
}

/// Adds the line of a packet: its visits, the oldest first, and how its walk ended.
#[tactic(auto, unfolding(crate::specs::WalkText::walk_text))]
pub fn walk_words<P: Policy + Copy, O: Sink>(
    page: &mut Page<'_, String, O>,
    world: &World<P>,
    packet: u32,
) -> Result<(), RunEnd>
    ensures gathers { OnOk result (Gathers (page_view O.seen page.old) (page_view O.seen page.new)
        (walk_text packet (past_of (P.rules world.now.policy) world.now))) }
    ensures breaks { IfErr result (Breaks (O.seen page.old.sink.now) (O.seen page.new.sink.now)
        (string_bytes page.old.text ++ walk_text packet (past_of (P.rules world.now.policy) world.now))) }
    ensures same_sink { page.new.sink.ghost_name ≡ page.old.sink.ghost_name }
{
    let Some(walk) = world.walk(packet) else {
        unknown_words(&mut page.text, packet)?;
        return Ok(());
    };
    let (visits, end) = walk;
    add_walk(page, packet, visits, end)
}
