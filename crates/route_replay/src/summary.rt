//! The counts of a run.
ghost use Rattle.std.specs.Prelude.{◌≡◌, ◌+◌, ◌<◌, ◌^◌, ◌++◌, None, true, length, OnOk, if◌then◌else◌};
ghost use Rattle.std.specs.String.{string_bytes};
ghost use Rattle.topology.specs.Lists.{has};
ghost use Rattle.chronicle.specs.Logs.{log_of};
ghost use Rattle.run_record.specs.Walks.{walk_of};
ghost use Rattle.route_replay.specs.LoadText.{count_line, entries_of, same_end, size_lines, standing_so, stands_at, summary, walk_lines, walk_stands};
ghost use Rattle.route_replay.specs.Running.{Runs};
ghost use Rattle.route_replay.specs.Past.{past_of};

use crate::ends::RunEnd;
use crate::node_views::node_of;
use crate::page::Page;
use epoch_packet::End;
use load_plan::PACKETS;
use path_vector::Policy;
use route_io::Sink;
use std::alloc::{AllocError, Global};
use topology::limits::MOST_LINKS;
use topology::{NodeId, Topology};
use view_words::numbers::push_wide;
use world_core::World;

// The most links of a network, as a place among them.
const LINK_PLACES: u16 = MOST_LINKS as u16;

// How many nodes the network has.
fn node_count(topology: &Topology) -> u64
    ensures { result ≡ length topology.now.nodes }
{
    topology.nodes().len() as u64
}

// How many links the network has.
fn link_count(topology: &Topology) -> u16
    ensures { result ≡ length topology.now.links }
{
    // that a network is valid, and has few links, is said where its nodes are read
    let _nodes = topology.nodes();
    for place in 0..LINK_PLACES {
        let Some(_) = topology.link_at(place) else {
            return place;
        };
    }
    LINK_PLACES
}

// The entries of a node's log.
fn log_length<P: Policy + Copy>(world: &World<P>, id: NodeId) -> u32
    requires { has world.now.net.nodes id ≡ true }
    ensures length { result ≡ length (log_of id (past_of (P.rules world.now.policy) world.now)) }
    ensures small { result < 2 ^ 32 }
{
    node_of(world, id).log().len()
}

// The entries of all logs.
fn entry_count<P: Policy + Copy>(world: &World<P>) -> u64
    ensures { result ≡ entries_of world.now.net (past_of (P.rules world.now.policy) world.now) }
{
    let mut count: u64 = 0;
    for id in world.topology().nodes() {
        count += u64::from(log_length(world, *id));
    }
    count
}

fn is_same_end(one: End, other: End) -> bool
    ensures { result ≡ same_end one other }
{
    match one {
        End::Delivered => match other {
            End::Delivered => true,
            End::Expired => false,
            End::Stuck => false,
        },
        End::Expired => match other {
            End::Delivered => false,
            End::Expired => true,
            End::Stuck => false,
        },
        End::Stuck => match other {
            End::Delivered => false,
            End::Expired => false,
            End::Stuck => true,
        },
    }
}

// Whether a walk that stands like the other one stands so.
fn stands_at(end: Option<End>, other: Option<End>) -> bool
    ensures { result ≡ stands_at end other }
{
    match end {
        None => match other {
            None => true,
            Some(_) => false,
        },
        Some(end) => match other {
            None => false,
            Some(other) => is_same_end(end, other),
        },
    }
}

// Whether the packet entered the network, and its walk stands so.
fn walk_stands<P: Policy + Copy>(world: &World<P>, packet: u32, end: Option<End>) -> bool
    ensures { result ≡ walk_stands end (walk_of packet (past_of (P.rules world.now.policy) world.now)) }
{
    match world.walk(packet) {
        Some((_, other)) => stands_at(end, other),
        None => false,
    }
}

// One more, where it counts.
fn count_if(count: u64, counts: bool) -> u64
    requires { count < 1000 }
    ensures { result ≡ (if counts then count + 1 else count) }
{
    if counts { count + 1 } else { count }
}

// How many packets stand so.
fn packet_count<P: Policy + Copy>(world: &World<P>, end: Option<End>) -> u64
    ensures { result ≡ standing_so end (past_of (P.rules world.now.policy) world.now) }
{
    let mut count = 0;
    for before in 0..PACKETS {
        count = count_if(count, walk_stands(world, before + 1, end));
    }
    count
}

// A word, and how many there are.
fn count_line(out: &mut String, word: &str, count: u64) -> Result<(), AllocError>
    ensures { OnOk result (string_bytes out.new ≡ string_bytes out.old ++ count_line word.now count) }
{
    out.push_str(word)?;
    out.push(' ')?;
    push_wide(out, count)?;
    out.push('\n')
}

// The sizes of the network and of the run.
#[tactic(auto, unfolding(crate::specs::LoadText::size_lines))]
fn size_lines<P: Policy + Copy>(out: &mut String, world: &World<P>) -> Result<(), AllocError>
    ensures { OnOk result (string_bytes out.new ≡ string_bytes out.old
        ++ size_lines world.now.net world.now.events (past_of (P.rules world.now.policy) world.now)) }
{
    let topology = world.topology();
    count_line(out, "nodes", node_count(topology))?;
    count_line(out, "links", u64::from(link_count(topology)))?;
    count_line(out, "events", world.events().len() as u64)?;
    count_line(out, "entries", entry_count(world))?;
    count_line(out, "control", u64::from(world.mail_count()))?;
    count_line(out, "publications", world.publications().len() as u64)
}

// The packets by how their walks stand.
#[tactic(auto, unfolding(crate::specs::LoadText::walk_lines))]
fn walk_lines<P: Policy + Copy>(out: &mut String, world: &World<P>) -> Result<(), AllocError>
    ensures { OnOk result (string_bytes out.new ≡ string_bytes out.old
        ++ walk_lines (past_of (P.rules world.now.policy) world.now)) }
{
    count_line(out, "delivered", packet_count(world, Some(End::Delivered)))?;
    count_line(out, "expired", packet_count(world, Some(End::Expired)))?;
    count_line(out, "stuck", packet_count(world, Some(End::Stuck)))?;
    count_line(out, "moving", packet_count(world, None))
}

// Adds the counts of the run.
#[tactic(auto, unfolding(crate::specs::LoadText::summary))]
fn add_summary<P: Policy + Copy, O: Sink>(
    page: &mut Page<'_, String, O>,
    world: &World<P>,
) -> Result<(), AllocError>
    ensures text { OnOk result (string_bytes page.new.text ≡ string_bytes page.old.text
        ++ summary (P.rules world.now.policy) world.now.net world.now.events) }
    ensures sink { page.new.sink.now ≡ page.old.sink.now }
    ensures same_sink { page.new.sink.ghost_name ≡ page.old.sink.ghost_name }
{
    size_lines(&mut page.text, world)?;
    walk_lines(&mut page.text, world)
}

/// Writes the counts of the run.
pub fn write_summary<P: Policy + Copy, O: Sink>(
    alloc: Global,
    world: &World<P>,
    sink: &mut O,
) -> Result<(), RunEnd>
    ensures { Runs (O.seen sink.old) (O.seen sink.new)
        (summary (P.rules world.now.policy) world.now.net world.now.events) None result }
{
    let mut page = Page::new(alloc, sink);
    add_summary(&mut page, world)?;
    page.flush()?;
    Ok(())
}
