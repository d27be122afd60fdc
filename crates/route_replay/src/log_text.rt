//! The text of logs.
ghost use Rattle.std.specs.Prelude.{ℕ, ◌≡◌, ◌<◌, ◌≤◌, ◌-◌, length, OnOk};
ghost use Rattle.topology.specs.Net.{Net};
ghost use Rattle.chronicle.specs.Drops.{dropped};
ghost use Rattle.chronicle.specs.Facts.{Chronicle};
ghost use Rattle.chronicle.specs.Logs.{log_of};
ghost use Rattle.node_core.specs.Standing.{StandsFor};
ghost use Rattle.route_replay.specs.Gathering.{AddsLine};
ghost use Rattle.route_replay.specs.NodeViews.{pieces_in, IsNodeOf};

use crate::node_views::NodeView;
use node_core::Node;
use path_vector::Policy;
use std::alloc::AllocError;
use topology::NodeId;
use view_words::entries::entry_line;
use world_core::World;

/// How many entries a node keeps.
pub(crate) fn kept_count<P: Policy + Copy>(node: &Node<P>) -> u32
    ensures { (policy : P) (net : Net) (u : ℕ) (past : Chronicle) →
        StandsFor policy (P.rules policy) net u node.now past →
        result ≡ length (log_of u past) - dropped net u past }
{
    let log = node.log();
    let dropped = log.kept_from().saturating_sub(1);
    log.len().saturating_sub(dropped)
}

/// Adds the line of the entry with this number, from 1, of those that a node keeps. It names the place of the entry in the whole log.
#[tactic(auto, unfolding(crate::specs::LogText::log_lines))]
pub fn log_words<P: Policy + Copy>(
    out: &mut String,
    world: &World<P>,
    id: NodeId,
    node: &Node<P>,
    number: u32,
) -> Result<(), AllocError>
    requires node { IsNodeOf (P.rules world.now.policy) world.now id node.now }
    requires from_one { 0 < number }
    requires inside { number ≤ length (pieces_in (P.rules world.now.policy) world.now NodeView.Log id) }
    ensures { OnOk result
        (AddsLine (pieces_in (P.rules world.now.policy) world.now NodeView.Log id) number out.old out.new) }
{
    let log = node.log();
    let dropped = log.kept_from().saturating_sub(1);
    let place = dropped.saturating_add(number);
    let entry = log.entry(place).unwrap();
    entry_line(out, world.topology(), id, place, entry)
}
