//! Packets enter the network, and go on.
ghost use Rattle.std.specs.Prelude.{◌≡◌, true, is_some, None, Some, ◌<◌, length, IfOk, if◌then◌else◌};
ghost use Rattle.topology.specs.LinkStates.{is_up};
ghost use Rattle.topology.specs.Lists.{has};
ghost use Rattle.chronicle.specs.Facts.{Chronicle};
ghost use Rattle.chronicle.specs.Run.{stands_at, up_links};
ghost use Rattle.chronicle.specs.Walks.{ending, standing};
ghost use Rattle.world_core.specs.Happening.{HappensWhere, InAny};
ghost use Rattle.world_core.specs.Matching.{AreLinks};
ghost use Rattle.world_core.specs.Places.{HasPlaces};
ghost use Rattle.run_record.specs.Walks.{AreWalks, HasWalks};

use crate::network::Network;
use chronicle::Event;
use node_core::{Input, Stop};
use path_vector::Policy;
use run_record::{Outcome, Wanted};
use topology::{LinkState, NoMemory, NodeId, PrefixId, Reason};

/// Whether a link in this state is up.
pub(crate) fn is_up(state: LinkState) -> bool
    ensures { result ≡ is_up state }
{
    matches!(state, LinkState::Up(_))
}

impl<P: Policy + Copy> Network<P> {
    /// The node where the packet enters the network. None where a packet with its number has entered before.
    pub fn entrance(&self, packet: u32, node: NodeId) -> Option<NodeId>
        ensures { (past : Chronicle) → AreWalks self.now.topology.value past self.now.walks →
            result ≡ (if is_some (standing packet past) then None else Some node) }
    {
        if self.walks.of(packet).is_some() {
            return None;
        }
        Some(node)
    }

    /// The node where the packet stands. None before the packet enters, and after its walk has ended.
    pub fn stand(&self, packet: u32) -> Option<NodeId>
        ensures { (past : Chronicle) → AreWalks self.now.topology.value past self.now.walks →
            result ≡ stands_at (standing packet past) (ending packet past) }
    {
        let journey = self.walks.of(packet)?;
        if journey.end().is_some() {
            return None;
        }
        Some(journey.node())
    }

    // The neighbours of the node whose link is up.
    fn up_links(&self, node: NodeId) -> Result<Vec<NodeId>, NoMemory>
        ensures { IfOk result (λ up. (past : Chronicle) → AreLinks self.now.topology.value past self.now.links →
            up.items ≡ up_links self.now.topology.value node past) }
    {
        let neighbours = self.topology.neighbours(node);
        let mut up = Vec::with_capacity(self.alloc, neighbours.len())?;
        let mut guess = 0;
        for nbr in neighbours {
            if is_up(self.links.state_near(node, *nbr, &mut guess)) {
                up.push(*nbr)?;
            }
        }
        Ok(up)
    }

    /// The packet enters the network at the node, unless a packet with its number has entered before.
    pub fn inject(&mut self, packet: u32, node: NodeId, prefix: PrefixId) -> Result<Outcome, Stop>
        requires node { has self.old.topology.value.nodes node ≡ true }
        requires prefix { prefix < length self.old.topology.value.prefixes }
        requires places { HasPlaces self.old.topology.value (length self.old.nodes.items) }
        ensures { HappensWhere InAny (P.rules self.old.policy) self.old (Event.Inject packet node prefix) self.new result }
    {
        if self.walks.of(packet).is_some() {
            return Ok(Outcome::Idle(Reason::PacketKnown));
        }
        self.give(node, Input::Inject { id: packet, prefix }, Wanted::Effects)
    }

    /// The packet goes on from the node where it stands, unless its walk has ended. The node gets the packet itself, so
    /// after an `Err` the packet is gone and the network is of no use.
    pub fn hop(&mut self, packet: u32) -> Result<Outcome, Stop>
        requires places { HasPlaces self.old.topology.value (length self.old.nodes.items) }
        requires walks { HasWalks self.old.topology.value self.old.walks }
        ensures { HappensWhere InAny (P.rules self.old.policy) self.old (Event.Hop packet) self.new result }
    {
        let taken = match self.walks.take(packet) {
            Ok(taken) => taken,
            Err(reason) => return Ok(Outcome::Idle(reason)),
        };
        let (node, packet) = taken;
        let up = self.up_links(node)?;
        self.give(node, Input::Hop { packet, up }, Wanted::Effects)
    }
}
