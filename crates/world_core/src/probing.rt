//! The network as it stands now, and the walk of a packet over it if nothing more happens.
ghost use Rattle.std.specs.Prelude.{◌≡◌, ◌<◌, true, length, map, slice_get, IfOk};
ghost use Rattle.topology.specs.Lists.{has};
ghost use Rattle.path_vector.specs.History.{owns};
ghost use Rattle.path_vector.specs.Ranking.{order};
ghost use Rattle.trigger_log.specs.Entries.{reads};
ghost use Rattle.chronicle.specs.Facts.{Chronicle};
ghost use Rattle.chronicle.specs.Logs.{log_of};
ghost use Rattle.chronicle.specs.Run.{run};
ghost use Rattle.deflect_delivery.specs.Progress.{whole_walk, IsOver};
ghost use Rattle.deflect_delivery.specs.Delivering.{Delivers};
ghost use Rattle.delivery_laws.specs.Now.{links_up, orders_of, owners_of, still_now};
ghost use Rattle.world_core.specs.Matching.{AreLinks};
ghost use Rattle.world_core.specs.StillLinks.{up_among};

use crate::network::packets::is_up;
use crate::world::World;
use deflect_delivery::{Orders, Still, StillWalk, UpLinks, still_walk};
use epoch_packet::NodeList;
use link_model::Links;
use path_vector::Policy;
use std::alloc::Global;
use topology::limits::MOST_LINKS;
use topology::{NoMemory, NodeId, PrefixId, Topology};

// The most links that a network has.
const LINK_PLACES: u16 = MOST_LINKS as u16;

// The ends of the link at this place in file order. None where no link has the place, and where the link is down.
fn up_at(topology: &Topology, links: &Links, place: u16) -> Option<(NodeId, NodeId)>
    ensures { (past : Chronicle) → AreLinks topology.now past links.now →
        result ≡ up_among past (slice_get topology.now.links place) }
{
    let link = topology.link_at(place)?;
    if is_up(links.state(link.0, link.1)) {
        Some((link.0, link.1))
    } else {
        None
    }
}

// The links that are up, in file order.
fn links_up(
    alloc: Global,
    topology: &Topology,
    links: &Links,
) -> Result<Vec<(NodeId, NodeId)>, NoMemory>
    ensures { IfOk result (λ up. (past : Chronicle) → AreLinks topology.now past links.now →
        up.items ≡ links_up topology.now past) }
{
    // the network is valid: it has few links
    let _nodes = topology.nodes();
    let mut up = Vec::new(alloc);
    for place in 0..LINK_PLACES {
        if let Some(ends) = up_at(topology, links, place) {
            up.push(ends)?;
        }
    }
    Ok(up)
}

impl<P: Policy + Copy> World<P> {
    // Whether the node owns the prefix.
    fn owns(&self, id: NodeId, prefix: PrefixId) -> bool
        requires { prefix < length self.now.net.prefixes }
        ensures { has self.now.net.nodes id ≡ true → result
            ≡ owns (reads (log_of id (run (P.rules self.now.policy) self.now.net self.now.events))) prefix }
    {
        match self.node(id) {
            Some(node) => node.log().live().owns(prefix),
            None => false,
        }
    }

    // The order in which the node tries its neighbours for the prefix.
    fn order(&self, alloc: Global, id: NodeId, prefix: PrefixId) -> Result<Vec<NodeId>, NoMemory>
        requires { prefix < length self.now.net.prefixes }
        ensures { IfOk result (λ list. has self.now.net.nodes id ≡ true → list.items
            ≡ order (P.rules self.now.policy) self.now.net id (reads (log_of id (run (P.rules self.now.policy) self.now.net self.now.events))) prefix) }
    {
        match self.node(id) {
            Some(node) => node.log().live().order(prefix),
            None => Ok(Vec::new(alloc)),
        }
    }

    // The nodes that own the prefix, ascending.
    fn owners(&self, alloc: Global, prefix: PrefixId) -> Result<Vec<NodeId>, NoMemory>
        requires { prefix < length self.now.net.prefixes }
        ensures { IfOk result (λ owners. owners.items
            ≡ owners_of self.now.net (run (P.rules self.now.policy) self.now.net self.now.events) prefix) }
    {
        let mut owners = Vec::new(alloc);
        for id in self.topology().nodes() {
            if self.owns(*id, prefix) {
                owners.push(*id)?;
            }
        }
        Ok(owners)
    }

    // For each node, ascending, the order in which it tries its neighbours.
    fn orders(&self, alloc: Global, prefix: PrefixId) -> Result<Vec<NodeList>, NoMemory>
        requires { prefix < length self.now.net.prefixes }
        ensures { IfOk result (λ orders. orders.items
            ≡ orders_of (P.rules self.now.policy) self.now.net (run (P.rules self.now.policy) self.now.net self.now.events) prefix) }
    {
        let mut orders = Vec::new(alloc);
        for id in self.topology().nodes() {
            let tried = self.order(alloc, *id, prefix)?;
            let order = NodeList::new(tried);
            orders.push(order)?;
        }
        Ok(orders)
    }

    /// The network as it stands now, for a prefix: the links that are up, the nodes that own the prefix, and the order
    /// of each node. Crashed nodes are included.
    pub fn still(&self, alloc: Global, prefix: PrefixId) -> Result<Still, NoMemory>
        requires { prefix < length self.now.net.prefixes }
        ensures { IfOk result (λ still. still ≡ still_now (P.rules self.now.policy) self.now.net (run (P.rules self.now.policy) self.now.net self.now.events) prefix) }
    {
        let ends = links_up(alloc, self.topology(), self.links())?;
        let owning = self.owners(alloc, prefix)?;
        let tried = self.orders(alloc, prefix)?;
        let up = UpLinks::new(ends);
        let owners = NodeList::new(owning);
        let orders = Orders::new(tried);
        Ok(Still { up, owners, orders })
    }

    /// The walk of a packet of the prefix from the node, over the network as it stands now, if nothing more happens.
    /// The packet is delivered exactly where links that are up connect the node with an owner. Otherwise it is stuck.
    pub fn probe(
        &self,
        alloc: Global,
        node: NodeId,
        prefix: PrefixId,
    ) -> Result<StillWalk, NoMemory>
        requires node { has self.now.net.nodes node ≡ true }
        requires prefix { prefix < length self.now.net.prefixes }
        ensures walk { IfOk result (λ walk.
            let now = still_now (P.rules self.now.policy) self.now.net (run (P.rules self.now.policy) self.now.net self.now.events) prefix in
            IsOver (whole_walk self.now.net now prefix node) walk.visits walk.end) }
        ensures delivers { IfOk result (λ walk.
            let now = still_now (P.rules self.now.policy) self.now.net (run (P.rules self.now.policy) self.now.net self.now.events) prefix in
            Delivers self.now.net now node walk.visits walk.end) }
    {
        delivery_laws::laws::a_run_as_it_is_now_is_still();
        // the network is valid
        let _nodes = self.topology().nodes();
        let still = self.still(alloc, prefix)?;
        let walk = still_walk(alloc, self.topology(), &still, prefix, node)?;
        Ok(walk)
    }
}
