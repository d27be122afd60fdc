//! Views: what is shown of each node of a world, line by line.
ghost use Rattle.std.specs.Prelude.{◌≡◌, ◌<◌, ◌≤◌, ◌++◌, true, length, IfErr, OnOk};
ghost use Rattle.std.specs.String.{string_bytes};
ghost use Rattle.topology.specs.Lists.{has};
ghost use Rattle.route_replay.specs.Gathering.{AddsLine, Gathers, Breaks, page_view};
ghost use Rattle.route_replay.specs.NodeViews.{pieces_in, node_text, all_nodes_text, IsNodeOf};
ghost use Rattle.route_replay.specs.Past.{past_of};

use crate::cut_text::cut_words;
use crate::ends::RunEnd;
use crate::log_text::{kept_count, log_words};
use crate::page::Page;
use crate::rib_text::rib_words;
use node_core::Node;
use path_vector::Policy;
use route_io::Sink;
use std::alloc::AllocError;
use topology::{Epoch, NodeId};
use world_core::World;

/// What is shown of each node.
#[derive(Clone, Copy, Debug, PartialEq, Eq)]
pub enum NodeView {
    /// Its routes to all prefixes, in the order of the file.
    Rib,
    /// The entries that its log keeps, the oldest first.
    Log,
    /// Its cut of an epoch, and what it recorded after it of each neighbour, ascending.
    Cut(Epoch),
}

/// Adds the lines of all nodes, ascending.
#[tactic(auto, unfolding(crate::specs::NodeViews::all_nodes_text))]
pub fn all_nodes<P: Policy + Copy, O: Sink>(
    page: &mut Page<'_, String, O>,
    world: &World<P>,
    view: &NodeView,
) -> Result<(), RunEnd>
    ensures gathers { let rules = P.rules world.now.policy in
        OnOk result (Gathers (page_view O.seen page.old) (page_view O.seen page.new)
        (all_nodes_text rules world.now.net (past_of rules world.now) view.now)) }
    ensures breaks { let rules = P.rules world.now.policy in
        IfErr result (Breaks (O.seen page.old.sink.now) (O.seen page.new.sink.now)
        (string_bytes page.old.text ++ all_nodes_text rules world.now.net (past_of rules world.now) view.now)) }
    ensures same_sink { page.new.sink.ghost_name ≡ page.old.sink.ghost_name }
{
    for id in world.topology().nodes() {
        one_node(page, world, view, *id)?;
    }
    Ok(())
}

// Adds the lines of a node.
#[tactic(auto, unfolding(crate::specs::NodeViews::node_text))]
fn one_node<P: Policy + Copy, O: Sink>(
    page: &mut Page<'_, String, O>,
    world: &World<P>,
    view: &NodeView,
    id: NodeId,
) -> Result<(), RunEnd>
    requires { has world.now.net.nodes id ≡ true }
    ensures gathers { let rules = P.rules world.now.policy in
        OnOk result (Gathers (page_view O.seen page.old) (page_view O.seen page.new)
        (node_text rules world.now.net (past_of rules world.now) view.now id)) }
    ensures breaks { let rules = P.rules world.now.policy in
        IfErr result (Breaks (O.seen page.old.sink.now) (O.seen page.new.sink.now)
        (string_bytes page.old.text ++ node_text rules world.now.net (past_of rules world.now) view.now id)) }
    ensures same_sink { page.new.sink.ghost_name ≡ page.old.sink.ghost_name }
{
    let node = node_of(world, id);
    for place in 0..piece_count(world, view, id, node) {
        add_piece(&mut page.text, world, view, id, node, place + 1)?;
        page.spill()?;
    }
    Ok(())
}

// A node of the network.
pub(crate) fn node_of<P: Policy + Copy>(world: &World<P>, id: NodeId) -> &Node<P>
    requires { has world.now.net.nodes id ≡ true }
    ensures { IsNodeOf (P.rules world.now.policy) world.now id result.now }
{
    world.node(id).unwrap()
}

// How many pieces the text of a node has.
fn piece_count<P: Policy + Copy>(
    world: &World<P>,
    view: &NodeView,
    id: NodeId,
    node: &Node<P>,
) -> u32
    requires { IsNodeOf (P.rules world.now.policy) world.now id node.now }
    ensures { result ≡ length (pieces_in (P.rules world.now.policy) world.now view.now id) }
{
    match view {
        NodeView::Rib => u32::from(world.topology().prefix_count()),
        NodeView::Log => kept_count(node),
        NodeView::Cut(_) => world.topology().neighbours(id).len() as u32 + 1,
    }
}

// Adds the piece with this number, from 1, of the text of a node.
fn add_piece<P: Policy + Copy>(
    out: &mut String,
    world: &World<P>,
    view: &NodeView,
    id: NodeId,
    node: &Node<P>,
    number: u32,
) -> Result<(), AllocError>
    requires node { IsNodeOf (P.rules world.now.policy) world.now id node.now }
    requires from_one { 0 < number }
    requires inside { number ≤ length (pieces_in (P.rules world.now.policy) world.now view.now id) }
    ensures { OnOk result
        (AddsLine (pieces_in (P.rules world.now.policy) world.now view.now id) number out.old out.new) }
{
    match view {
        NodeView::Rib => rib_words(out, world, id, node, number),
        NodeView::Log => log_words(out, world, id, node, number),
        NodeView::Cut(epoch) => cut_words(out, world, id, node, *epoch, number),
    }
}
