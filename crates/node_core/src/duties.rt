//! The acts that an input asks of a node.
ghost use Rattle.std.specs.Prelude.{◌≡◌, ℕ, suc, Ok, IfSome, IfNone};
ghost use Rattle.topology.specs.Net.{Net};
ghost use Rattle.trigger_log.specs.Going.{item_of};
ghost use Rattle.chronicle.specs.Epochs.{epoch};
ghost use Rattle.chronicle.specs.Facts.{Chronicle};
ghost use Rattle.chronicle.specs.Giving.{answer};
ghost use Rattle.chronicle.specs.Inputs.{Arrive, Flush, Notice, OpenSession, Originate, Withdraw};
ghost use Rattle.chronicle.specs.Steps.{Carried, Idle};
ghost use Rattle.node_core.specs.declared.duties.Duty.TheVariants.{Take};
ghost use Rattle.node_core.specs.Coming.{MayCome};
ghost use Rattle.node_core.specs.Deciding.{IsDecided};
ghost use Rattle.node_core.specs.Standing.{StandsFor};

use crate::node::Node;
use consolidator::Message;
use epoch_packet::Packet;
use path_vector::{Cause, Policy};
use topology::{Epoch, Item, NodeId, PrefixId, Reason, Scope, Session};

/// An act of a node.
#[derive(Drop)]
pub enum Duty {
    /// To make an entry with the node's next trigger.
    Enter {
        scope: Scope,
        cause: Cause,
    },
    /// To open a session, and to greet the neighbour in it.
    Open {
        nbr: NodeId,
        session: Session,
    },
    /// To take an item of a neighbour, in the session that the node holds with it.
    Take {
        from: NodeId,
        session: Session,
        item: Item,
    },
    /// To send the updates that the node holds back from the neighbour.
    Flush {
        nbr: NodeId,
    },
    /// To raise the epoch to this one.
    Rise {
        epoch: Epoch,
    },
}

/// An input to the node's part in the agreements.
#[derive(Drop)]
pub enum Asked {
    /// To start a ballot for the value of the epoch.
    Propose(Epoch),
    /// To hear a control message.
    Hear { from: NodeId, message: Message },
}

/// An act on a packet.
#[derive(Drop)]
pub enum Passing {
    /// The packet enters the network here.
    Enter {
        id: u32,
        prefix: PrefixId,
    },
    /// The packet goes on from here. The links to these neighbours are up.
    GoOn {
        packet: Box<Packet>,
        up: Vec<NodeId>,
    },
}

impl<P: Policy + Copy> Node<P> {
    /// The act of an `Originate`: the node becomes an origin of the prefix. A reason where it is one already.
    pub(crate) fn decide_originating(&self, prefix: PrefixId) -> Result<Duty, Reason>
        ensures { (policy : P) (net : Net) (u : ℕ) (past : Chronicle) →
            StandsFor policy (P.rules policy) net u self.now past → MayCome net u (Originate prefix) →
            IsDecided (P.rules policy) net u past (Originate prefix) result }
    {
        if self.log.live().owns(prefix) {
            return Err(Reason::AlreadyOrigin);
        }
        let scope = Scope::One(prefix);
        let cause = Cause::Originate;
        Ok(Duty::Enter { scope, cause })
    }

    /// The act of a `Withdraw`: the node is an origin of the prefix no longer. A reason where it is none.
    pub(crate) fn decide_withdrawing(&self, prefix: PrefixId) -> Result<Duty, Reason>
        ensures { (policy : P) (net : Net) (u : ℕ) (past : Chronicle) →
            StandsFor policy (P.rules policy) net u self.now past → MayCome net u (Withdraw prefix) →
            IsDecided (P.rules policy) net u past (Withdraw prefix) result }
    {
        if !self.log.live().owns(prefix) {
            return Err(Reason::NotOrigin);
        }
        let scope = Scope::One(prefix);
        let cause = Cause::Withdraw;
        Ok(Duty::Enter { scope, cause })
    }

    /// The reason for which the node does not take an item: it does not hold the session, or the item is an update that
    /// is not the next one. None where it takes the item. No log is so long that an update has no next number.
    #[inline(always)]
    pub(crate) fn declines(&self, from: NodeId, session: Session, item: &Item) -> Option<Reason>
        ensures some { IfSome result (λ reason. (policy : P) (net : Net) (u : ℕ) (carried : Carried) (past : Chronicle) →
            StandsFor policy (P.rules policy) net u self.now past → MayCome net u (Arrive from session (item_of item.now)) →
            answer (P.rules policy) net carried u past (Arrive from session (item_of item.now)) ≡ Idle reason) }
        ensures none { IfNone result ((policy : P) (net : Net) (u : ℕ) (past : Chronicle) →
            StandsFor policy (P.rules policy) net u self.now past → MayCome net u (Arrive from session (item_of item.now)) →
            IsDecided (P.rules policy) net u past (Arrive from session (item_of item.now)) (Ok (Take from session item.now))) }
    {
        let Some(count) = self.log.received_in_held(from, session) else {
            return Some(Reason::WrongSession);
        };
        let Item::Update { seq, .. } = item else {
            return None;
        };
        let got = *seq;
        let expected = count.saturating_add(1);
        if got == expected {
            return None;
        }
        Some(Reason::WrongSeq { expected, got })
    }

    /// The act of a `Notice`: the node closes the session with the neighbour. A reason where it holds none.
    pub(crate) fn decide_closing(&self, nbr: NodeId) -> Result<Duty, Reason>
        ensures { (policy : P) (net : Net) (u : ℕ) (past : Chronicle) →
            StandsFor policy (P.rules policy) net u self.now past → MayCome net u (Notice nbr) →
            IsDecided (P.rules policy) net u past (Notice nbr) result }
    {
        let Some(session) = self.log.held(nbr) else {
            return Err(Reason::NotOpen);
        };
        let scope = Scope::All;
        let cause = Cause::Down { nbr, session };
        Ok(Duty::Enter { scope, cause })
    }

    /// The act of an `OpenSession`: the node opens the session. A reason where it holds one, or where the number is not
    /// above those of the earlier sessions.
    pub(crate) fn decide_opening(&self, nbr: NodeId, session: Session) -> Result<Duty, Reason>
        ensures { (policy : P) (net : Net) (u : ℕ) (past : Chronicle) →
            StandsFor policy (P.rules policy) net u self.now past → MayCome net u (OpenSession nbr session) →
            IsDecided (P.rules policy) net u past (OpenSession nbr session) result }
    {
        if self.log.held(nbr).is_some() {
            return Err(Reason::AlreadyOpen);
        }
        let opening = Cause::Up { nbr, session };
        if !self.log.fits(Scope::All, &opening) {
            return Err(Reason::OldSession);
        }
        Ok(Duty::Open { nbr, session })
    }

    /// The act of a `Flush`: the node sends the updates that it holds back from the neighbour. A reason where it holds
    /// no session with it, or holds nothing back.
    pub(crate) fn decide_flushing(&self, nbr: NodeId) -> Result<Duty, Reason>
        ensures { (policy : P) (net : Net) (u : ℕ) (past : Chronicle) →
            StandsFor policy (P.rules policy) net u self.now past → MayCome net u (Flush nbr) →
            IsDecided (P.rules policy) net u past (Flush nbr) result }
    {
        if self.log.held(nbr).is_none() {
            return Err(Reason::NotOpen);
        }
        let flush = Cause::Flush { nbr };
        if !self.log.fits(Scope::Nothing, &flush) {
            return Err(Reason::NothingPending);
        }
        Ok(Duty::Flush { nbr })
    }

    /// The epoch after the node's own. No epoch is so high that it has no next one.
    pub(crate) fn next_epoch(&self) -> Epoch
        ensures { (policy : P) (net : Net) (u : ℕ) (past : Chronicle) →
            StandsFor policy (P.rules policy) net u self.now past → result ≡ suc (epoch u past) }
    {
        Epoch::new(self.parts.snapshots.epoch().number().saturating_add(1))
    }
}
