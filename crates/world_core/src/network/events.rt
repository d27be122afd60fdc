//! What each event does to the network.
ghost use Rattle.std.specs.Prelude.{◌≡◌, ◌∷◌, false, true, Some, None, length, IsTrue, IfOk, IfErr, if◌then◌else◌};
ghost use Rattle.topology.specs.Net.{linked};
ghost use Rattle.chronicle.specs.Facts.{Chronicle, Crash};
ghost use Rattle.trigger_log.specs.Entries.{is_session};
ghost use Rattle.topology.specs.Lists.{has};
ghost use Rattle.chronicle.specs.Crashes.{crashed};
ghost use Rattle.chronicle.specs.Run.{actor, addressee, does, held_with, is_carried, is_stopped};
ghost use Rattle.chronicle.specs.Steps.{Idle};
ghost use Rattle.world_core.specs.Counting.{AreFew, HasMails, MayDeliver, counts_after};
ghost use Rattle.world_core.specs.Fits.{fits};
ghost use Rattle.chronicle.specs.Channels.{channel};
ghost use Rattle.chronicle.specs.Deliveries.{may_arrive};
ghost use Rattle.chronicle.specs.Links.{link};
ghost use Rattle.world_core.specs.Happening.{IsAfterStep, Does, Happens, HappensNext, InAny, IsAsWas, InEachRun, KeepsAllButFlags, KeepsAllButMails, KeepsAllButNodes, MayArrive, Turns};
ghost use Rattle.world_core.specs.Matching.{AreCrashed, AreMails, AreNodes, Counts, Stands};
ghost use Rattle.world_core.specs.Places.{HasPlaces};
ghost use Rattle.run_record.specs.Walks.{HasWalks};

use crate::network::Network;
use chronicle::Event;
use node_core::{Input, Stop};
use path_vector::Policy;
use run_record::{Effects, Outcome, Wanted};
use topology::{LinkState, NodeId, Reason, Session};

/// Whether a link in this state carries the session that is held, where one is.
pub fn is_carried(link: &LinkState, held: Option<Session>) -> bool
    ensures { result ≡ is_carried link.now held }
{
    match link {
        LinkState::Up(number) => is_session(held, *number),
        LinkState::Down(_) => false,
    }
}

// Whether this session is held.
fn is_session(held: Option<Session>, session: Session) -> bool
    ensures { result ≡ is_session held session }
{
    match held {
        Some(number) => number == session,
        None => false,
    }
}

impl<P: Policy + Copy> Network<P> {
    /// Does the event, and returns its outcome. Does not update the open ways. After an `Err` the network is of no use.
    pub fn happen(&mut self, event: &Event) -> Result<Outcome, Stop>
        requires fits { IsTrue (fits self.old.topology.value event.now) }
        requires places { HasPlaces self.old.topology.value (length self.old.nodes.items) }
        requires flags { HasPlaces self.old.topology.value (length self.old.crashed.items) }
        requires mails { MayDeliver self.old.topology.value self.old.mails }
        requires walks { HasWalks self.old.topology.value self.old.walks }
        ensures { HappensNext InAny (P.rules self.old.policy) self.old event.now self.new result }
    {
        self.count(event);
        if self.is_stopped(event) {
            return Ok(Outcome::Idle(Reason::Crashed));
        }
        self.act(event)
    }

    // Counts the delivery of a control message, also where it is idle.
    fn count(&mut self, event: &Event)
        ensures others { IsAsWas self.old self.new }
        ensures kept { KeepsAllButMails self.old self.new }
        ensures counted { (past : Chronicle) (counts : Counts) →
            AreMails self.old.topology.value past counts self.old.mails → AreFew counts →
            AreMails self.old.topology.value past (counts_after past event.now counts) self.new.mails }
    {
        if let Event::Control { number } = event {
            self.mails.deliver(*number);
        }
    }

    // The node, where it is a consolidator. No other node proposes a value.
    fn proposer(&self, node: NodeId) -> Option<NodeId>
        ensures { result ≡ (if has self.now.topology.value.consolidators node then Some node else None) }
    {
        if self.topology.consolidators().contains(&node) {
            return Some(node);
        }
        None
    }

    // The addressee of the control message with this number. None where no message has the number.
    fn addressee(&self, number: u32) -> Option<NodeId>
        ensures { InEachRun (P.rules self.now.policy) self.now (λ past. result ≡ addressee number past) }
    {
        Some(self.mails.kept(number)?.mail.to)
    }

    // The node that must run for the event. None where no node must run.
    fn actor(&self, event: &Event) -> Option<NodeId>
        ensures { InEachRun (P.rules self.now.policy) self.now (λ past.
            result ≡ actor self.now.topology.value past event.now) }
    {
        match event {
            Event::Originate { node, .. } => Some(*node),
            Event::Withdraw { node, .. } => Some(*node),
            Event::Prefer { node, .. } => Some(*node),
            Event::Deliver { to, .. } => Some(*to),
            Event::Notice { node, .. } => Some(*node),
            Event::OpenSession { node, .. } => Some(*node),
            Event::Flush { node, .. } => Some(*node),
            Event::Snap { node } => Some(*node),
            Event::Propose { node, .. } => self.proposer(*node),
            Event::Control { number } => self.addressee(*number),
            Event::Crash { node } => Some(*node),
            Event::Inject { packet, node, .. } => self.entrance(*packet, *node),
            Event::Hop { packet } => self.stand(*packet),
            Event::Fail { .. } | Event::Restore { .. } | Event::Restart { .. } => None,
        }
    }

    // Whether the node that must run for the event is crashed.
    fn is_stopped(&self, event: &Event) -> bool
        ensures { InEachRun (P.rules self.now.policy) self.now (λ past.
            IsTrue (fits self.now.topology.value event.now) →
            result ≡ is_stopped past (actor self.now.topology.value past event.now)) }
    {
        match self.actor(event) {
            Some(node) => self.is_crashed(node),
            None => false,
        }
    }

    /// Whether the node is crashed.
    pub fn is_crashed(&self, node: NodeId) -> bool
        ensures { InEachRun (P.rules self.now.policy) self.now (λ past.
            has self.now.topology.value.nodes node ≡ true → result ≡ crashed node past) }
    {
        let Some(rank) = self.topology.rank_of(node) else {
            return false;
        };
        match self.crashed.get(rank) {
            Some(flag) => *flag,
            None => false,
        }
    }

    // Does the event. Its node runs.
    fn act(&mut self, event: &Event) -> Result<Outcome, Stop>
        requires fits { IsTrue (fits self.old.topology.value event.now) }
        requires places { HasPlaces self.old.topology.value (length self.old.nodes.items) }
        requires flags { HasPlaces self.old.topology.value (length self.old.crashed.items) }
        requires mails { HasMails self.old.topology.value self.old.mails }
        requires walks { HasWalks self.old.topology.value self.old.walks }
        ensures { Happens (P.rules self.old.policy) self.old event.now self.new result }
    {
        match event {
            Event::Originate { node, prefix } => self.give(
                *node,
                Input::Originate(*prefix),
                Wanted::Effects,
            ),
            Event::Withdraw { node, prefix } => self.give(
                *node,
                Input::Withdraw(*prefix),
                Wanted::Effects,
            ),
            Event::Prefer { node, nbr, value } => self.prefer(*node, *nbr, *value),
            Event::Deliver { from, to } => self.deliver(*from, *to),
            Event::Fail { a, b } => Ok(self.fail(*a, *b)),
            Event::Restore { a, b } => Ok(self.restore(*a, *b)),
            Event::Notice { node, nbr } => self.notice(*node, *nbr),
            Event::OpenSession { node, nbr } => self.open_session(*node, *nbr),
            Event::Flush { node, nbr } => self.flush(*node, *nbr),
            Event::Snap { node } => self.give(*node, Input::Snap, Wanted::Effects),
            Event::Propose { node, epoch } => self.give(
                *node,
                Input::Propose(*epoch),
                Wanted::Effects,
            ),
            Event::Control { number } => self.control(*number),
            Event::Crash { node } => Ok(self.crash(*node)),
            Event::Restart { node } => Ok(self.restart(*node)),
            Event::Inject {
                packet,
                node,
                prefix,
            } => self.inject(*packet, *node, *prefix),
            Event::Hop { packet } => self.hop(*packet),
        }
    }

    /// The session that a node holds with a neighbour.
    pub fn held(&self, node: NodeId, nbr: NodeId) -> Option<Session>
        ensures { InEachRun (P.rules self.now.policy) self.now (λ past.
            linked self.now.topology.value node nbr ≡ true → result ≡ held_with node nbr past) }
    {
        let rank = self.topology.rank_of(node)?;
        self.nodes.get(rank)?.log().held(nbr)
    }

    /// The session in which the oldest item on the way would arrive, or the reason for which a delivery is idle.
    pub fn arrival(&self, from: NodeId, to: NodeId) -> Result<Session, Reason>
        ensures session { IfOk result (λ s. InEachRun (P.rules self.now.policy) self.now (λ past.
            linked self.now.topology.value from to ≡ true → MayArrive past from to s)) }
        ensures reason { IfErr result (λ reason. InEachRun (P.rules self.now.policy) self.now (λ past.
            linked self.now.topology.value from to ≡ true →
            (does (P.rules self.now.policy) self.now.topology.value past (Event.Deliver from to) ≡ Idle reason)
            × (may_arrive (link from to past) (channel from to past) (held_with to from past) ≡ false))) }
    {
        let Some(channel) = self.links.channel(from, to) else {
            return Err(Reason::LinkDown);
        };
        let LinkState::Up(session) = channel.state() else {
            return Err(Reason::LinkDown);
        };
        let Some(_) = channel.front() else {
            return Err(Reason::EmptyChannel);
        };
        if !is_session(self.held(to, from), session) {
            return Err(Reason::WrongSession);
        }
        Ok(session)
    }

    // Delivers the oldest item on the way from the one node to the other.
    fn deliver(&mut self, from: NodeId, to: NodeId) -> Result<Outcome, Stop>
        requires near { linked self.old.topology.value from to ≡ true }
        requires places { HasPlaces self.old.topology.value (length self.old.nodes.items) }
        ensures { Happens (P.rules self.old.policy) self.old (Event.Deliver from to) self.new result }
    {
        let session = match self.arrival(from, to) {
            Ok(session) => session,
            Err(reason) => return Ok(Outcome::Idle(reason)),
        };
        let Some(item) = self.links.pop_front(from, to) else {
            return Ok(Outcome::Idle(Reason::EmptyChannel));
        };
        self.give(
            to,
            Input::Arrive {
                from,
                session,
                item,
            },
            Wanted::Effects,
        )
    }

    // The node sets its preference for the candidates of the neighbour.
    fn prefer(&mut self, node: NodeId, nbr: NodeId, value: u32) -> Result<Outcome, Stop>
        requires near { linked self.old.topology.value node nbr ≡ true }
        requires places { HasPlaces self.old.topology.value (length self.old.nodes.items) }
        ensures { Happens (P.rules self.old.policy) self.old (Event.Prefer node nbr value) self.new result }
    {
        self.give(node, Input::Prefer { nbr, value }, Wanted::Effects)
    }

    // The node notices that the link does not carry the session that it holds, and closes the session.
    fn notice(&mut self, node: NodeId, nbr: NodeId) -> Result<Outcome, Stop>
        requires near { linked self.old.topology.value node nbr ≡ true }
        requires places { HasPlaces self.old.topology.value (length self.old.nodes.items) }
        ensures { Happens (P.rules self.old.policy) self.old (Event.Notice node nbr) self.new result }
    {
        if is_carried(&self.links.state(node, nbr), self.held(node, nbr)) {
            return Ok(Outcome::Idle(Reason::StillUp));
        }
        self.give(node, Input::Notice(nbr), Wanted::Effects)
    }

    // The node sends the updates that it holds back from the neighbour.
    fn flush(&mut self, node: NodeId, nbr: NodeId) -> Result<Outcome, Stop>
        requires near { linked self.old.topology.value node nbr ≡ true }
        requires places { HasPlaces self.old.topology.value (length self.old.nodes.items) }
        ensures { Happens (P.rules self.old.policy) self.old (Event.Flush node nbr) self.new result }
    {
        self.give(node, Input::Flush(nbr), Wanted::Effects)
    }

    // Delivers a copy of the control message to its addressee.
    fn control(&mut self, number: u32) -> Result<Outcome, Stop>
        requires places { HasPlaces self.old.topology.value (length self.old.nodes.items) }
        requires mails { HasMails self.old.topology.value self.old.mails }
        ensures { Happens (P.rules self.old.policy) self.old (Event.Control number) self.new result }
    {
        let Some(kept) = self.mails.kept(number) else {
            return Ok(Outcome::Idle(Reason::NoSuchMessage));
        };
        let (from, to) = (kept.from, kept.mail.to);
        let message = kept.mail.message.copy()?;
        self.give(to, Input::Control { from, message }, Wanted::Effects)
    }

    // The node opens the session that the link carries, and greets its neighbour in it.
    fn open_session(&mut self, node: NodeId, nbr: NodeId) -> Result<Outcome, Stop>
        requires near { linked self.old.topology.value node nbr ≡ true }
        requires places { HasPlaces self.old.topology.value (length self.old.nodes.items) }
        ensures { Happens (P.rules self.old.policy) self.old (Event.OpenSession node nbr) self.new result }
    {
        if self.held(node, nbr).is_some() {
            return Ok(Outcome::Idle(Reason::AlreadyOpen));
        }
        let LinkState::Up(session) = self.links.state(node, nbr) else {
            return Ok(Outcome::Idle(Reason::LinkDown));
        };
        self.give(node, Input::OpenSession { nbr, session }, Wanted::Effects)
    }

    // The link fails, and loses the items on it.
    fn fail(&mut self, a: NodeId, b: NodeId) -> Outcome
        requires { linked self.old.topology.value a b ≡ true }
        ensures others { IsAsWas self.old self.new }
        ensures comes { (past : Chronicle) (counts : Counts) → Stands (P.rules self.old.policy) past counts self.old →
            IsAfterStep (P.rules self.old.policy) past counts (does (P.rules self.old.policy) self.old.topology.value past (Event.Fail a b)) self.new result }
    {
        node_core::laws::others_change_nothing_of_what_a_node_stands_for::<P>();
        if !self.links.fail(a, b) {
            return Outcome::Idle(Reason::AlreadyDown);
        }
        Outcome::Did(Effects::none())
    }

    // The link comes up again, with the next session.
    fn restore(&mut self, a: NodeId, b: NodeId) -> Outcome
        requires { linked self.old.topology.value a b ≡ true }
        ensures others { IsAsWas self.old self.new }
        ensures comes { Does (P.rules self.old.policy) self.old (Event.Restore a b) self.new result }
    {
        node_core::laws::others_change_nothing_of_what_a_node_stands_for::<P>();
        if !self.links.restore(a, b) {
            return Outcome::Idle(Reason::AlreadyUp);
        }
        Outcome::Did(Effects::none())
    }

    // Sets whether the node is crashed.
    fn set_crashed(&mut self, node: NodeId, is: bool)
        requires node { has self.old.topology.value.nodes node ≡ true }
        requires flags { HasPlaces self.old.topology.value (length self.old.crashed.items) }
        ensures others { IsAsWas self.old self.new }
        ensures kept { KeepsAllButFlags self.old self.new }
        ensures flags { (past now : Chronicle) → AreCrashed self.old.topology.value past self.old.crashed.items →
            Turns node is past now → AreCrashed self.old.topology.value now self.new.crashed.items }
    {
        let rank = self.topology.rank_of(node).unwrap();
        self.crashed[rank] = is;
    }

    // The node loses the reports and ballots that a crash loses.
    fn forget(&mut self, node: NodeId)
        requires node { has self.old.topology.value.nodes node ≡ true }
        requires places { HasPlaces self.old.topology.value (length self.old.nodes.items) }
        ensures others { IsAsWas self.old self.new }
        ensures kept { KeepsAllButNodes self.old self.new }
        ensures nodes { (past : Chronicle) →
            AreNodes self.old.policy (P.rules self.old.policy) self.old.topology.value past self.old.nodes.items →
            AreNodes self.old.policy (P.rules self.old.policy) self.old.topology.value (Crash node ∷ past) self.new.nodes.items }
    {
        node_core::laws::others_change_nothing_of_what_a_node_stands_for::<P>();
        let rank = self.topology.rank_of(node).unwrap();
        self.nodes[rank].lose_tallies();
    }

    // The node crashes.
    fn crash(&mut self, node: NodeId) -> Outcome
        requires node { has self.old.topology.value.nodes node ≡ true }
        requires places { HasPlaces self.old.topology.value (length self.old.nodes.items) }
        requires flags { HasPlaces self.old.topology.value (length self.old.crashed.items) }
        ensures others { IsAsWas self.old self.new }
        ensures comes { (past : Chronicle) (counts : Counts) → Stands (P.rules self.old.policy) past counts self.old →
            IsAfterStep (P.rules self.old.policy) past counts (does (P.rules self.old.policy) self.old.topology.value past (Event.Crash node)) self.new result }
    {
        self.set_crashed(node, true);
        self.forget(node);
        self.mails.crash(node);
        Outcome::Did(Effects::none())
    }

    // The node restarts.
    fn restart(&mut self, node: NodeId) -> Outcome
        requires node { has self.old.topology.value.nodes node ≡ true }
        requires flags { HasPlaces self.old.topology.value (length self.old.crashed.items) }
        ensures others { IsAsWas self.old self.new }
        ensures comes { (past : Chronicle) (counts : Counts) → Stands (P.rules self.old.policy) past counts self.old →
            IsAfterStep (P.rules self.old.policy) past counts (does (P.rules self.old.policy) self.old.topology.value past (Event.Restart node)) self.new result }
    {
        node_core::laws::others_change_nothing_of_what_a_node_stands_for::<P>();
        if !self.is_crashed(node) {
            return Outcome::Idle(Reason::NotCrashed);
        }
        self.set_crashed(node, false);
        self.mails.restart(node);
        Outcome::Did(Effects::none())
    }
}
