//! Packets, and how a move or a turn changes them.
ghost use Rattle.std.specs.Prelude.{◌≡◌};

use crate::visited::only_visited;
use crate::{Mode, NodeList, with_visited};
use std::alloc::Global;
use topology::{Epoch, NodeId, PrefixId, Scheme, Topology};

/// A packet on its way to a prefix.
#[derive(Debug, Drop)]
pub struct Packet {
    pub id: u32,
    pub prefix: PrefixId,
    /// The epoch whose tables the packet follows or has left; 0 for none.
    pub epoch: Epoch,
    pub mode: Mode,
    /// How many moves it may still make off the tables.
    pub budget: u16,
    /// Whether it has been at the node of the detour since it left the tables.
    pub reached: bool,
    /// The nodes that count as visited: bit i is set for the i-th node in ascending order, counted from 0.
    pub visited: u64,
    /// The way back; the last node is the next one to go back to.
    pub trail: NodeList,
    /// The nodes still ahead on the route that it took.
    pub route: NodeList,
}

impl Packet {
    ghost use Rattle.epoch_packet.specs.Packets.{moved_to, turned};

    /// The packet moves to a node along the stable tables. Takes no memory.
    pub fn move_to(&mut self, topology: &Topology, node: NodeId)
        ensures { self.new ≡ moved_to topology.now node self.old }
    {
        self.visited = with_visited(topology, self.visited, node);
    }

    /// The packet leaves the stable tables at a node. Takes no memory.
    #[tactic(auto, unfolding(crate::specs::Packets::turned))]
    pub fn turn(&mut self, topology: &Topology, at: NodeId)
        ensures { self.new ≡ turned topology.now at self.old }
    {
        self.mode = Mode::Transient;
        self.budget = topology.hops();
        self.reached = false;
        self.visited = match topology.scheme() {
            Scheme::Deflect | Scheme::Detour(_) => only_visited(topology, at),
            Scheme::Backup => self.visited,
        };
        self.trail.clear();
        self.route.clear();
    }
}

ghost use Rattle.epoch_packet.specs.Packets.{stamped};

/// A packet that enters the network at a node, stamped with the newest epoch that the node published. If the node
/// published none, the stamp is 0, and the packet is off the tables from the start. Takes no memory.
#[tactic(auto, unfolding(crate::specs::Packets::stamped))]
pub fn stamp(
    alloc: Global,
    topology: &Topology,
    id: u32,
    prefix: PrefixId,
    at: NodeId,
    epoch: Option<Epoch>,
) -> Packet
    ensures { result ≡ stamped topology.now id prefix at epoch }
{
    let (epoch, mode) = match epoch {
        Some(newest) => (newest, Mode::Stable),
        None => (Epoch::new(0), Mode::Transient),
    };
    Packet {
        id,
        prefix,
        epoch,
        mode,
        budget: topology.hops(),
        reached: false,
        visited: only_visited(topology, at),
        trail: NodeList::new(Vec::new(alloc)),
        route: NodeList::new(Vec::new(alloc)),
    }
}
