//! What the nodes of a network that does not change know of it.
ghost use Rattle.std.specs.Prelude.{◌≡◌, IfOk};
ghost use Rattle.topology.specs.LinkStates.{are_ends};
ghost use Rattle.topology.specs.Lists.{has};
ghost use Rattle.deflect_delivery.specs.Stills.{joins, order_of, sight, up_near};

use crate::Still;
use std::alloc::Global;
use topology::{NoMemory, NodeId, Topology};
use transient_mode::View;

// Whether c and d are the nodes a and b, in either order.
fn are_ends(a: NodeId, b: NodeId, c: NodeId, d: NodeId) -> bool
    ensures { result ≡ are_ends a b c d }
{
    (c == a && d == b) || (c == b && d == a)
}

impl Still {
    /// Whether a link between the two is up.
    pub fn joins(&self, a: NodeId, b: NodeId) -> bool
        ensures { result ≡ joins self.now a b }
    {
        self.up
            .as_slice()
            .iter()
            .any(|link| are_ends(a, b, link.0, link.1))
    }

    /// Whether the node owns the prefix.
    pub fn owns(&self, node: NodeId) -> bool
        ensures { result ≡ has self.now.owners node }
    {
        self.owners.as_slice().contains(&node)
    }

    // The order in which the node tries its neighbours.
    pub(crate) fn order(&self, topology: &Topology, node: NodeId) -> &[NodeId]
        ensures { result.now ≡ order_of topology.now self.now node }
    {
        // brings in the invariant of the topology: its nodes differ
        let _nodes = topology.nodes();
        let Some(place) = topology.rank_of(node) else {
            return &[];
        };
        match self.orders.as_slice().get(place) {
            Some(order) => order.as_slice(),
            None => &[],
        }
    }

    // The neighbours of the node whose link is up, ascending.
    pub(crate) fn up_near(
        &self,
        alloc: Global,
        topology: &Topology,
        node: NodeId,
    ) -> Result<Vec<NodeId>, NoMemory>
        ensures { IfOk result (λ up. up.items ≡ up_near topology.now self.now node) }
    {
        let mut up = Vec::new(alloc);
        for nbr in topology.neighbours(node) {
            if self.joins(node, *nbr) {
                up.push(*nbr)?;
            }
        }
        Ok(up)
    }

    // What the node knows when a deflected packet is there.
    pub(crate) fn view<'a>(
        &'a self,
        topology: &Topology,
        node: NodeId,
        up: &'a [NodeId],
    ) -> View<'a>
        ensures { up.now ≡ up_near topology.now self.now node →
            result ≡ sight topology.now self.now node }
    {
        View {
            at: node,
            owns: self.owns(node),
            order: self.order(topology, node),
            up,
            stable: None,
            backups: &[],
        }
    }
}
