//! A world: a network and the events so far.
ghost use Rattle.std.specs.Prelude.{ℕ, ◌≡◌, ◌⊎◌, ◌≤◌, [], ◌∷◌, ◌++◌, ◌&&◌, false, nat_lt, nat_le, length, Some, None, IsTrue, IsNone, IfOk, IfErr, OnOk, IfSome, option_map, ◌↔◌};
ghost use Rattle.topology.specs.Lists.{has};
ghost use Rattle.topology.specs.Net.{linked};
ghost use Rattle.consolidator.specs.Seen.{message_seen};
ghost use Rattle.topology.specs.declared.limits.TheConstants.{MOST_CONTROL, MOST_EPOCHS};
ghost use Rattle.topology.specs.declared.ways.Way.{Way};
ghost use Rattle.chronicle.specs.Crashes.{crashed};
ghost use Rattle.chronicle.specs.Control.{mail_with, mailed};
ghost use Rattle.chronicle.specs.Deliveries.{deliveries, next_delivery, next_mail};
ghost use Rattle.chronicle.specs.Publications.{publications};
ghost use Rattle.chronicle.specs.Run.{run, step};
ghost use Rattle.agreement_laws.specs.Published.{Completes, PublishesLast};
ghost use Rattle.node_core.specs.Standing.{StandsFor};
ghost use Rattle.world_core.specs.Fits.{fits};
ghost use Rattle.run_record.specs.Effects.{Tells};
ghost use Rattle.node_core.specs.NodeLimits.{StopsAt};
ghost use Rattle.world_core.specs.Limits.{limit_of};
ghost use Rattle.world_core.specs.Matching.{AreLinks};
ghost use Rattle.run_record.specs.Publications.{all_published};
ghost use Rattle.world_core.specs.Restarts.{LosesTalliesAlone};
ghost use Rattle.world_core.specs.Sound.{IsNoStray, IsSound};
ghost use Rattle.world_core.specs.Stepping.{IsStep};
ghost use Rattle.world_core.specs.View.{delivered};
ghost use Rattle.run_record.specs.Walks.{walk_of};

use crate::laws::every_run_is_sound;
use crate::network::Network;
use crate::world_state::WorldState;
use chronicle::Event;
use consolidator::Mail;
use epoch_packet::{End, Visit};
use link_model::Links;
use node_core::{Node, Stop};
use path_vector::Policy;
use run_record::{Outcome, Publication};
use std::alloc::Global;
use std::marker::Model;
use std::rc::Rc;
use topology::limits::{HIGHEST_MESSAGE, HIGHEST_PREFERENCE, MOST_EPOCHS};
use topology::{Epoch, NoMemory, NodeId, PrefixId, Topology};

/// All nodes and links of a network, its control messages, what was published, and the events so far.
#[derive(Drop)]
pub struct World<P: Policy + Copy> {
    // A box, so that a world moves as one word, and its state changes in place.
    state: Box<WorldState<P>>,
}

impl<P: Policy + Copy> Model for World<P> {
    ghost use Rattle.world_core.specs.View.{WorldView};
    ghost use Rattle.world_core.specs.Holding.{Holds};

    ghost Value = { WorldView P };

    ghost view = { λ w. record { policy = w.state.value.network.policy; net = w.state.value.network.topology.value; events = w.state.value.events.items } };

    ghost invariant = { λ w. Holds P.rules w.state.value };
}

// Whether there is such a node and such a prefix.
fn names(topology: &Topology, node: NodeId, prefix: PrefixId) -> bool
    ensures { result ≡ (has topology.now.nodes node && nat_lt prefix (length topology.now.prefixes)) }
{
    topology.rank_of(node).is_some() && prefix.place() < topology.prefix_count()
}

// Whether the two have a link.
fn joined(topology: &Topology, a: NodeId, b: NodeId) -> bool
    ensures { result ≡ linked topology.now a b }
{
    topology.relation(a, b).is_some()
}

// Whether there is such a node, and the epoch is in its range.
fn proposes(topology: &Topology, node: NodeId, epoch: Epoch) -> bool
    ensures { result ≡ (has topology.now.nodes node && (nat_le 1 epoch && nat_le epoch MOST_EPOCHS)) }
{
    let epoch = epoch.number();
    topology.rank_of(node).is_some() && epoch >= 1 && epoch <= MOST_EPOCHS
}

impl<P: Policy + Copy> World<P> {
    /// The world before its first event.
    pub fn new(alloc: Global, topology: Rc<Topology>, policy: P) -> Result<World<P>, NoMemory>
        ensures world { IfOk result (λ world. world ≡ record { policy = policy; net = topology.value; events = [] }) }
        ensures run { OnOk result (IsSound (P.rules policy) topology.value (run (P.rules policy) topology.value [])) }
    {
        every_run_is_sound();
        // that a network is valid is said where its nodes are read
        let _nodes = topology.nodes();
        let network = Network::new(alloc, topology, policy)?;
        let open_ways = network.links.all(alloc)?;
        let state = WorldState {
            network,
            open_ways,
            events: Vec::new(alloc),
        };
        Ok(World {
            state: Box::new(alloc, state)?,
        })
    }

    /// The events so far, the oldest first.
    pub fn events(&self) -> &[Event]
        ensures { result.now ≡ self.now.events }
    {
        &self.state.events
    }

    /// The topology of the network.
    pub fn topology(&self) -> &Topology
        ensures { result.now ≡ self.now.net }
    {
        &self.state.network.topology
    }

    /// Whether the names of the event are in the network and its numbers in their ranges: a preference at most a
    /// million, an epoch from 1 to 32, the number of a control message from 1 to a million, the number of a packet from
    /// 1.
    pub fn fits(&self, event: &Event) -> bool
        ensures { result ≡ fits self.now.net event.now }
    {
        let topology = &self.state.network.topology;
        match event {
            Event::Originate { node, prefix } => names(topology, *node, *prefix),
            Event::Withdraw { node, prefix } => names(topology, *node, *prefix),
            Event::Prefer { node, nbr, value } => {
                joined(topology, *node, *nbr) && *value <= HIGHEST_PREFERENCE
            }
            Event::Deliver { from, to } => joined(topology, *from, *to),
            Event::Fail { a, b } => joined(topology, *a, *b),
            Event::Restore { a, b } => joined(topology, *a, *b),
            Event::Notice { node, nbr } => joined(topology, *node, *nbr),
            Event::OpenSession { node, nbr } => joined(topology, *node, *nbr),
            Event::Flush { node, nbr } => joined(topology, *node, *nbr),
            Event::Snap { node } => topology.rank_of(*node).is_some(),
            Event::Propose { node, epoch } => proposes(topology, *node, *epoch),
            Event::Control { number } => *number >= 1 && *number <= HIGHEST_MESSAGE,
            Event::Crash { node } => topology.rank_of(*node).is_some(),
            Event::Restart { node } => topology.rank_of(*node).is_some(),
            Event::Inject {
                packet,
                node,
                prefix,
            } => *packet >= 1 && names(topology, *node, *prefix),
            Event::Hop { packet } => *packet >= 1,
        }
    }

    /// A node. None exactly where there is no such node.
    pub fn node(&self, id: NodeId) -> Option<&Node<P>>
        ensures some { IfSome result (λ node. StandsFor self.now.policy (P.rules self.now.policy) self.now.net id node.now
            (run (P.rules self.now.policy) self.now.net self.now.events)) }
        ensures none { IsNone result ↔ (has self.now.net.nodes id ≡ false) }
    {
        let rank = self.state.network.topology.rank_of(id)?;
        Some(&self.state.network.nodes[rank])
    }

    /// Whether the node is crashed. False where there is no such node. Takes no memory.
    pub fn crashed(&self, id: NodeId) -> bool
        ensures { result ≡ (has self.now.net.nodes id && crashed id (run (P.rules self.now.policy) self.now.net self.now.events)) }
    {
        self.state.network.topology.rank_of(id).is_some() && self.state.network.is_crashed(id)
    }

    /// The links, and the items on them.
    pub fn links(&self) -> &Links
        ensures { AreLinks self.now.net (run (P.rules self.now.policy) self.now.net self.now.events) result.now }
    {
        &self.state.network.links
    }

    /// The first way, by sender, then receiver, over which a delivery would not be idle. Takes no memory, and reads no
    /// channel.
    pub fn next_delivery(&self) -> Option<(NodeId, NodeId)>
        ensures { result ≡ option_map (λ (way : Way). (way.from, way.to))
            (next_delivery self.now.net (run (P.rules self.now.policy) self.now.net self.now.events)) }
    {
        let number = self.state.next()?;
        let way = self.state.network.links.way(number)?;
        Some((way.from, way.to))
    }

    /// The control message with this number: its sender, the message with its addressee, and the count of its
    /// deliveries. None exactly where no message has the number. Takes no memory.
    pub fn mail(&self, number: u32) -> Option<(NodeId, &Mail, u32)>
        ensures some { IfSome result (λ mail. let past = run (P.rules self.now.policy) self.now.net self.now.events in
            (mail_with number past ≡ Some (record { from = mail.0; to = mail.1.now.to; message = message_seen mail.1.now.message }))
            × (mail.2 ≡ deliveries (P.rules self.now.policy) self.now.net self.now.events number)) }
        ensures none { IsNone result ↔ (mail_with number (run (P.rules self.now.policy) self.now.net self.now.events) ≡ None) }
    {
        let kept = self.state.network.mails.kept(number)?;
        Some((kept.from, &kept.mail, kept.deliveries))
    }

    /// The count of control messages, which is the number of the last one. Takes no memory.
    pub fn mail_count(&self) -> u32
        ensures { result ≡ length (mailed (run (P.rules self.now.policy) self.now.net self.now.events)) }
    {
        self.state.network.mails.count()
    }

    /// The number of the next control message: the lowest that was never delivered and whose addressee runs. It is
    /// 16,384 at most. Goes once over the nodes, and takes no memory.
    pub fn next_mail(&self) -> Option<u32>
        ensures next { result ≡ next_mail (P.rules self.now.policy) self.now.net self.now.events }
        ensures bound { IfSome result (λ number. number ≤ MOST_CONTROL) }
    {
        self.state.network.mails.next()
    }

    /// All tables that were published, the oldest first.
    pub fn publications(&self) -> &[Publication]
        ensures { result.now ≡ all_published (run (P.rules self.now.policy) self.now.net self.now.events) }
    {
        &self.state.network.publications
    }

    /// The walk of a packet: its visits, the oldest first, and its end. None exactly where no packet with this number
    /// entered the network. The end is None while the walk goes on. Takes no memory.
    pub fn walk(&self, packet: u32) -> Option<(&[Visit], Option<End>)>
        ensures { option_map (λ walk. (walk.0.now, walk.1)) result
            ≡ walk_of packet (run (P.rules self.now.policy) self.now.net self.now.events) }
    {
        let journey = self.state.network.walks.of(packet)?;
        Some((journey.visits(), journey.end()))
    }

    /// Does one more event, and returns the world and the outcome, which lists the effects. Stops at a limit exactly
    /// where the event would take a count above its number, unless memory runs out first. A node that published only
    /// tables of lower epochs publishes the table of an epoch in the step that completes its cut and the decision, as
    /// the last fact of that step. It publishes in no other step. A crash stops a node, and loses the reports that it
    /// collected and the ballots that it has open. A restart brings the node back. Neither changes anything else. The
    /// cost is that of what the event touches: the node's neighbours, and the prefix.
    pub fn step(self, event: Event) -> Result<(World<P>, Outcome), Stop>
        requires { IsTrue (fits self.net event) }
        ensures world { IfOk result (λ r. r.0 ≡ record self { events = self.events ++ event ∷ [] }) }
        ensures outcome { IfOk result (λ r.
            let past = run (P.rules self.policy) self.net self.events in
            Tells past (step (P.rules self.policy) self.net past event) r.1) }
        ensures reasons { IfOk result (λ r. IsNoStray r.1) }
        ensures run { IfOk result (λ r. IsSound (P.rules self.policy) self.net
            (run (P.rules self.policy) self.net (self.events ++ event ∷ []))) }
        ensures at_once { IfOk result (λ r.
            let past = run (P.rules self.policy) self.net self.events in
            let now = run (P.rules self.policy) self.net (self.events ++ event ∷ []) in
            (u e : ℕ) → Completes past now u e → PublishesLast (P.rules self.policy) self.net past now u e) }
        ensures only_then { IfOk result (λ r.
            let past = run (P.rules self.policy) self.net self.events in
            let now = run (P.rules self.policy) self.net (self.events ++ event ∷ []) in
            (u : ℕ) → (publications u now ≡ publications u past)
            ⊎ ((e : ℕ) × Completes past now u e × PublishesLast (P.rules self.policy) self.net past now u e)) }
        ensures restarts { IfOk result (λ r. LosesTalliesAlone (P.rules self.policy) self.net self.events event) }
        ensures within { IfOk result (λ r. limit_of (P.rules self.policy) self.net self.events event ≡ None) }
        ensures stopped { IfErr result (StopsAt (limit_of (P.rules self.policy) self.net self.events event)) }
    {
        let World { mut state } = self;
        let outcome = state.happen(event)?;
        Ok((World { state }, outcome))
    }

    /// Does the next delivery without effects, and returns the world and the way of the delivery. Where there is no
    /// delivery, returns the same world and None. A drain wants no effects, and this call makes no list of them.
    pub fn deliver_next(self) -> Result<(World<P>, Option<(NodeId, NodeId)>), Stop>
        ensures way { IfOk result (λ r. r.1 ≡ option_map (λ (way : Way). (way.from, way.to))
            (next_delivery self.net (run (P.rules self.policy) self.net self.events))) }
        ensures world { IfOk result (λ r. r.0 ≡ delivered self r.1) }
        ensures step { IfOk result (λ r. IfSome r.1 (λ ends.
            IsStep (P.rules self.policy) self.net self.events (Event.Deliver ends.0 ends.1))) }
        ensures stopped { IfErr result (λ stop. (way : Way)
            × (next_delivery self.net (run (P.rules self.policy) self.net self.events) ≡ Some way)
            × StopsAt (limit_of (P.rules self.policy) self.net self.events (Event.Deliver way.from way.to)) stop) }
    {
        let World { mut state } = self;
        let way = state.deliver_next()?;
        Ok((World { state }, way))
    }
}
