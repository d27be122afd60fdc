//! The text of routes.
ghost use Rattle.std.specs.Prelude.{◌<◌, ◌≤◌, length, OnOk};
ghost use Rattle.route_replay.specs.Gathering.{AddsLine};
ghost use Rattle.route_replay.specs.NodeViews.{pieces_in, IsNodeOf};

use crate::node_views::NodeView;
use node_core::Node;
use path_vector::Policy;
use std::alloc::AllocError;
use topology::{NodeId, PrefixId};
use view_words::routes::route_line;
use world_core::World;

/// Adds the line of the prefix with this number, from 1, at a node.
#[tactic(auto, unfolding(crate::specs::RibText::rib_lines))]
pub fn rib_words<P: Policy + Copy>(
    out: &mut String,
    world: &World<P>,
    id: NodeId,
    node: &Node<P>,
    number: u32,
) -> Result<(), AllocError>
    requires node { IsNodeOf (P.rules world.now.policy) world.now id node.now }
    requires from_one { 0 < number }
    requires inside { number ≤ length (pieces_in (P.rules world.now.policy) world.now NodeView.Rib id) }
    ensures { OnOk result
        (AddsLine (pieces_in (P.rules world.now.policy) world.now NodeView.Rib id) number out.old out.new) }
{
    let topology = world.topology();
    // There are at most 256.
    let _count = topology.prefix_count();
    let place = PrefixId::new((number - 1) as u16);
    let prefix = topology.prefix(place).unwrap();
    route_line(out, id, &prefix, &node.log().live().best(place))
}
