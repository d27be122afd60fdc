//! The text of probes.
ghost use Rattle.std.specs.Prelude.{◌≡◌, ◌++◌, ◌&&◌, nat_lt, length, IsTrue, IfErr, OnOk};
ghost use Rattle.std.specs.String.{string_bytes};
ghost use Rattle.topology.specs.Lists.{has};
ghost use Rattle.route_replay.specs.Gathering.{Breaks, Gathers, page_view};
ghost use Rattle.route_replay.specs.ProbeText.{probe_text};
ghost use Rattle.route_replay.specs.Past.{past_of};

use crate::ends::RunEnd;
use crate::page::Page;
use path_vector::Policy;
use route_io::Sink;
use std::alloc::Global;
use topology::{NodeId, PrefixId};
use view_words::probes::line_words;
use world_core::World;

/// Adds the line of a probe: the visits, the oldest first, and how the walk ended.
pub fn probe_words<P: Policy + Copy, O: Sink>(
    page: &mut Page<'_, String, O>,
    alloc: Global,
    world: &World<P>,
    node: NodeId,
    prefix: PrefixId,
) -> Result<(), RunEnd>
    requires { IsTrue (has world.now.net.nodes node && nat_lt prefix (length world.now.net.prefixes)) }
    ensures gathers { OnOk result (Gathers (page_view O.seen page.old) (page_view O.seen page.new)
        (probe_text (P.rules world.now.policy) world.now.net (past_of (P.rules world.now.policy) world.now) node prefix)) }
    ensures breaks { IfErr result (Breaks (O.seen page.old.sink.now) (O.seen page.new.sink.now) (string_bytes page.old.text
        ++ probe_text (P.rules world.now.policy) world.now.net (past_of (P.rules world.now.policy) world.now) node prefix)) }
    ensures same_sink { page.new.sink.ghost_name ≡ page.old.sink.ghost_name }
{
    let walk = world.probe(alloc, node, prefix)?;
    line_words(&mut page.text, world.topology(), node, prefix, &walk)?;
    Ok(())
}
