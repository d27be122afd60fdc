//! The text of cuts and recordings.
ghost use Rattle.std.specs.Prelude.{◌<◌, ◌≤◌, length, OnOk};
ghost use Rattle.route_replay.specs.Gathering.{AddsLine};
ghost use Rattle.route_replay.specs.NodeViews.{pieces_in, IsNodeOf};
ghost use Rattle.view_words.specs.Cuts.{cut_line, recording_line};

use crate::node_views::NodeView;
use node_core::Node;
use path_vector::Policy;
use std::alloc::AllocError;
use topology::{Epoch, NodeId};
use view_words::cuts::{cut_line, recording_line};
use world_core::World;

/// Adds the piece with this number, from 1, of the cut of an epoch at a node: the line of the cut is
/// the first, and then each neighbour, ascending, has that of its recording, where there is one.
#[tactic(auto, unfolding(crate::specs::CutText::cut_lines))]
pub fn cut_words<P: Policy + Copy>(
    out: &mut String,
    world: &World<P>,
    id: NodeId,
    node: &Node<P>,
    epoch: Epoch,
    number: u32,
) -> Result<(), AllocError>
    requires node { IsNodeOf (P.rules world.now.policy) world.now id node.now }
    requires from_one { 0 < number }
    requires inside { number ≤ length (pieces_in (P.rules world.now.policy) world.now (NodeView.Cut epoch) id) }
    ensures { OnOk result
        (AddsLine (pieces_in (P.rules world.now.policy) world.now (NodeView.Cut epoch) id) number out.old out.new) }
{
    let snapshots = node.snapshots();
    if number == 1 {
        return cut_line(out, id, epoch, snapshots.cut_of(epoch));
    }
    let nbr = world.topology().neighbours(id)[(number - 2) as usize];
    let Some(recording) = snapshots.recorded(epoch, nbr) else {
        return Ok(());
    };
    recording_line(out, id, epoch, nbr, &recording)
}
