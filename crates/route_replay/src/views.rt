//! Views: what the lines `show` and `probe` write.
ghost use Rattle.std.specs.Prelude.{◌≡◌, ◌++◌, None, IfErr, OnOk};
ghost use Rattle.std.specs.String.{string_bytes};
ghost use Rattle.route_replay.specs.Gathering.{Gathers, Breaks, page_view};
ghost use Rattle.route_replay.specs.Running.{Runs};
ghost use Rattle.route_replay.specs.ShownClosure.{IsCurrent};
ghost use Rattle.route_replay.specs.Views.{FittingView, view_text};

use crate::closure_text::add_closure;
use crate::control_text::all_mails;
use crate::ends::RunEnd;
use crate::node_views::{NodeView, all_nodes};
use crate::page::Page;
use crate::probe_text::probe_words;
use crate::shown_closure::ShownClosure;
use crate::tables_text::add_tables;
use crate::walk_text::walk_words;
use path_vector::Policy;
use route_io::Sink;
use std::alloc::Global;
use topology::{Epoch, NodeId, PrefixId};
use world_core::World;

/// What is shown of a world.
#[derive(Clone, Copy, Debug, PartialEq, Eq)]
pub enum View {
    /// The lines of each node.
    Nodes(NodeView),
    /// The control messages.
    Control,
    /// The value of the reports of an epoch.
    Closure(Epoch),
    /// The tables of an epoch.
    Tables(Epoch),
    /// The walk of a packet.
    Walk(u32),
    /// The walk that a packet of the prefix has from the node, if nothing happens any more.
    Probe { node: NodeId, prefix: PrefixId },
}

// Adds the text of a view.
fn add_view<P: Policy + Copy, O: Sink>(
    page: &mut Page<'_, String, O>,
    alloc: Global,
    world: &World<P>,
    kept: &mut Option<ShownClosure>,
    view: &View,
) -> Result<(), RunEnd>
    requires fits { FittingView world.now.net view.now }
    requires kept { IsCurrent (P.rules world.now.policy) world.now.net world.now.events kept.old }
    ensures kept { IsCurrent (P.rules world.now.policy) world.now.net world.now.events kept.new }
    ensures gathers { OnOk result (Gathers (page_view O.seen page.old) (page_view O.seen page.new)
        (view_text (P.rules world.now.policy) world.now.net world.now.events view.now)) }
    ensures breaks { IfErr result (Breaks (O.seen page.old.sink.now) (O.seen page.new.sink.now)
        (string_bytes page.old.text ++ view_text (P.rules world.now.policy) world.now.net world.now.events view.now)) }
    ensures same_sink { page.new.sink.ghost_name ≡ page.old.sink.ghost_name }
{
    match view {
        View::Nodes(nodes) => all_nodes(page, world, nodes),
        View::Control => all_mails(page, world),
        View::Closure(epoch) => add_closure(page, alloc, world, kept, *epoch),
        View::Tables(epoch) => add_tables(page, alloc, world, *epoch),
        View::Walk(packet) => walk_words(page, world, *packet),
        View::Probe { node, prefix } => probe_words(page, alloc, world, *node, *prefix),
    }
}

/// Writes a view. The line of a closure is kept.
pub(crate) fn show<P: Policy + Copy, O: Sink>(
    alloc: Global,
    world: &World<P>,
    kept: &mut Option<ShownClosure>,
    view: View,
    sink: &mut O,
) -> Result<(), RunEnd>
    requires fits { FittingView world.now.net view }
    requires kept { IsCurrent (P.rules world.now.policy) world.now.net world.now.events kept.old }
    ensures kept { IsCurrent (P.rules world.now.policy) world.now.net world.now.events kept.new }
    ensures runs { Runs (O.seen sink.old) (O.seen sink.new)
        (view_text (P.rules world.now.policy) world.now.net world.now.events view) None result }
{
    let mut page = Page::new(alloc, sink);
    add_view(&mut page, alloc, world, kept, &view)?;
    page.flush()?;
    Ok(())
}
