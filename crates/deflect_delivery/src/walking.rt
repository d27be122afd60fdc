//! The walk of a packet over a network that does not change.
ghost use Rattle.std.specs.Prelude.{◌≡◌, ◌<◌, ◌++◌, ◌∷◌, [], None, true, IfOk};
ghost use Rattle.topology.specs.Lists.{has};
ghost use Rattle.topology.specs.declared.names.Scheme.TheVariants as scheme;
ghost use Rattle.transient_mode.specs.TransientHops.{answered, hop_under};
ghost use Rattle.deflect_delivery.specs.Stills.{sight, IsStill};
ghost use Rattle.deflect_delivery.specs.Progress.{whole_walk, one_more, set_out, so_far, IsOver};
ghost use Rattle.deflect_delivery.specs.Delivering.{Delivers};

use crate::Still;
use epoch_packet::{End, NodeList, Packet, stamp};
use std::alloc::Global;
use topology::{NoMemory, NodeId, PrefixId, Topology};
use transient_mode::{Move, deflect};

/// A walk that is over.
#[derive(Debug, Drop)]
pub struct StillWalk {
    /// The nodes where the packet was, the first one in front.
    pub visits: NodeList,
    pub end: End,
}

// A packet off the tables at the node, with one move more than a walk can use.
fn set_out(alloc: Global, topology: &Topology, prefix: PrefixId, from: NodeId) -> Packet
    requires { has topology.now.nodes from ≡ true }
    ensures { result ≡ set_out topology.now prefix from }
{
    let count = topology.nodes().len() as u16;
    let packet = stamp(alloc, topology, 0, prefix, from, None);
    Packet {
        budget: 2 * count - 1,
        ..packet
    }
}

// One hop of a packet at a node.
fn hop(
    alloc: Global,
    topology: &Topology,
    still: &Still,
    at: NodeId,
    packet: Packet,
) -> Result<(Packet, Move), NoMemory>
    ensures { IfOk result (λ pair. pair
        ≡ answered packet (hop_under scheme.Deflect topology.now packet (sight topology.now still.now at))) }
{
    let up = still.up_near(alloc, topology, at)?;
    let view = still.view(topology, at, &up);
    let (moved, to) = deflect(topology, packet, view)?;
    Ok((moved, to))
}

// A walk that has not ended.
#[derive(Drop)]
struct Walk {
    /// The earlier nodes of the walk, the first one in front.
    visits: Vec<NodeId>,
    at: NodeId,
    packet: Packet,
}

impl Walk {
    // The walk after one more hop, and how it ended, if it did.
    fn go_on(
        self,
        alloc: Global,
        topology: &Topology,
        still: &Still,
    ) -> Result<(Walk, Option<End>), NoMemory>
        ensures hop { IfOk result (λ next. so_far next.0.visits.items next.0.at next.0.packet next.1
            ≡ one_more topology.now still.now (so_far self.visits.items self.at self.packet None)) }
        ensures longer { IfOk result (λ next. next.0.visits.items ≡ self.visits.items ++ self.at ∷ []) }
        ensures spends { IfOk result (λ next. next.1 ≡ None → next.0.packet.budget < self.packet.budget) }
    {
        let Walk {
            mut visits,
            at,
            packet,
        } = self;
        visits.push(at)?;
        let (packet, to) = hop(alloc, topology, still, at, packet)?;
        match to {
            Move::Next(node) => Ok((
                Walk {
                    visits,
                    at: node,
                    packet,
                },
                None,
            )),
            Move::Ended(end) => Ok((Walk { visits, at, packet }, Some(end))),
        }
    }
}

/// The walk of a packet that leaves the tables at a node and is deflected over a network that does not change. It has
/// one move more than two for each other node. The walk is delivered exactly if links that are up connect its first
/// node to an owner; otherwise it is stuck. The links, the owners and the first node have to be in the network
/// ([`Still::fits`] tests this for links, owners and orders). The only error is `NoMemory`.
pub fn still_walk(
    alloc: Global,
    topology: &Topology,
    still: &Still,
    prefix: PrefixId,
    from: NodeId,
) -> Result<StillWalk, NoMemory>
    requires still { IsStill topology.now still.now }
    requires from { has topology.now.nodes from ≡ true }
    ensures walk { IfOk result (λ walk.
        IsOver (whole_walk topology.now still.now prefix from) walk.visits walk.end) }
    ensures delivers { IfOk result (λ walk.
        Delivers topology.now still.now from walk.visits walk.end) }
{
    // brings in the invariant of the topology
    let _nodes = topology.nodes();
    let mut walk = Walk {
        visits: Vec::new(alloc),
        at: from,
        packet: set_out(alloc, topology, prefix, from),
    };
    loop {
        let (next, end) = walk.go_on(alloc, topology, still)?;
        if let Some(end) = end {
            return Ok(StillWalk {
                visits: NodeList::new(next.visits),
                end,
            });
        }
        walk = next;
    }
}
