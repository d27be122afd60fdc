//! The members, and the messages between them.
ghost use Rattle.std.specs.Prelude.{ℕ, ◌≡◌, ◌<◌, ◌≤◌, ◌+◌, true, false, [], map, length, List, Some, None, IfSome, IfNone, IfOk, IfErr, OnOk, nat_lt};
ghost use Rattle.topology.specs.Lists.{has};
ghost use Rattle.topology.specs.Paths.{differ};
ghost use Rattle.leadership.specs.declared.sites.Site.{Site};
ghost use Rattle.leadership.specs.declared.events.LeadEvent.TheVariants as event;
ghost use Rattle.leadership.specs.Facts.{Chronicle};
ghost use Rattle.leadership.specs.Sites.{IsAt, nodes_of};
ghost use Rattle.topology.specs.declared.limits.TheConstants.{MOST_CONTROL};
ghost use Rattle.leadership.specs.Fits.{fits};
ghost use Rattle.leadership.specs.Network.{AreToMembers, HaveRounds, Stands, HappensIn, StopsBy, Hears, HearStops};

use crate::events::LeadEvent;
use crate::mail_list::MailList;
use crate::mails::{carry, letter_at, post, post_each};
use crate::messages::Message;
use crate::reasons::LeadReason;
use crate::sites::Site;
use crate::stops::LeadStop;
use std::alloc::Global;
use topology::{Ballot, Epoch, NoMemory, NodeId};

/// The members with the state of each, and all messages that were sent, the oldest first.
#[derive(Drop)]
pub struct Network {
    pub members: Vec<NodeId>,
    pub sites: Vec<Site>,
    pub mails: MailList,
}

// The place of a member.
pub(crate) fn place_of(sites: &[Site], node: NodeId) -> usize
    requires { has (nodes_of sites.now) node ≡ true }
    ensures { IsAt sites.now node result }
{
    for i in 0..sites.len() {
        if sites[i].node == node {
            return i;
        }
    }
    unreachable!()
}

fn is_below(epoch: Epoch, other: Epoch) -> bool
    ensures { result ≡ nat_lt epoch other }
{
    epoch < other
}

// How many nodes there are.
fn count(nodes: &[NodeId]) -> usize
    ensures { result ≡ length nodes.now }
{
    nodes.len()
}

impl Network {
    /// These members before any event.
    pub(crate) fn new(alloc: Global, members: &[NodeId]) -> Result<Network, NoMemory>
        requires { differ members.now ≡ true }
        ensures members { IfOk result (λ net. net.members.items ≡ members.now) }
        ensures stands { IfOk result (Stands []) }
        ensures empty { IfOk result (λ net. net.mails ≡ []) }
    {
        let mut net = Network {
            members: Vec::new(alloc),
            sites: Vec::new(alloc),
            mails: MailList::new(alloc),
        };
        for node in members {
            net.members.push(*node)?;
            net.sites.push(Site::new(alloc, *node))?;
        }
        Ok(net)
    }

    /// How many messages were sent.
    pub(crate) fn mail_count(&self) -> usize
        ensures { result ≡ length self.now.mails }
    {
        self.mails.len()
    }

    /// A member starts a ballot for every epoch from this one on. After an `Err` the network must not be used again.
    pub(crate) fn lead(
        &mut self,
        node: NodeId,
        epoch: Epoch,
    ) -> Result<Option<LeadReason>, LeadStop>
        requires member { has (nodes_of self.old.sites.items) node ≡ true }
        requires rounds { HaveRounds self.old }
        ensures members { OnOk result (self.new.members.items ≡ self.old.members.items) }
        ensures goes_on { IfOk result (HappensIn (event.Lead node epoch) self.old self.new) }
        ensures few { OnOk result (length self.old.mails ≤ MOST_CONTROL → length self.new.mails ≤ MOST_CONTROL) }
        ensures stopped { IfErr result (StopsBy (event.Lead node epoch) self.old) }
    {
        let place = place_of(&self.sites, node);
        if self.sites[place].crashed {
            return Ok(Some(LeadReason::Crashed));
        }
        let site = &mut self.sites[place];
        let round = site.next_round();
        site.start(epoch, round);
        let message = Message::PrepareFrom {
            epoch,
            ballot: Ballot { round, node },
        };
        match post_each(&mut self.mails, node, &self.members, &message) {
            Ok(()) => Ok(None),
            Err(stop) => Err(stop),
        }
    }

    /// A member that leads gives the epoch this value. After an `Err` the network must not be used again.
    pub(crate) fn offer(
        &mut self,
        node: NodeId,
        epoch: Epoch,
        value: u32,
    ) -> Result<Option<LeadReason>, LeadStop>
        requires member { has (nodes_of self.old.sites.items) node ≡ true }
        ensures members { OnOk result (self.new.members.items ≡ self.old.members.items) }
        ensures goes_on { IfOk result (HappensIn (event.Offer node epoch value) self.old self.new) }
        ensures few { OnOk result (length self.old.mails ≤ MOST_CONTROL → length self.new.mails ≤ MOST_CONTROL) }
        ensures stopped { IfErr result (StopsBy (event.Offer node epoch value) self.old) }
    {
        let place = place_of(&self.sites, node);
        if self.sites[place].crashed {
            return Ok(Some(LeadReason::Crashed));
        }
        let Some(lead) = self.sites[place].leading(count(&self.members)) else {
            return Ok(Some(LeadReason::NotLeader));
        };
        if is_below(epoch, lead.epoch) {
            return Ok(Some(LeadReason::Below));
        }
        if self.mails.is_offered(node, epoch, &lead.ballot) {
            return Ok(Some(LeadReason::Offered));
        }
        let message = Message::Accept {
            epoch,
            ballot: lead.ballot,
            value,
        };
        match post_each(&mut self.mails, node, &self.members, &message) {
            Ok(()) => Ok(None),
            Err(stop) => Err(stop),
        }
    }

    /// A member crashes.
    pub(crate) fn crash(&mut self, node: NodeId) -> Result<Option<LeadReason>, LeadStop>
        requires member { has (nodes_of self.old.sites.items) node ≡ true }
        ensures members { OnOk result (self.new.members.items ≡ self.old.members.items) }
        ensures goes_on { IfOk result (HappensIn (event.Crash node) self.old self.new) }
        ensures few { OnOk result (length self.old.mails ≤ MOST_CONTROL → length self.new.mails ≤ MOST_CONTROL) }
        ensures stopped { IfErr result (StopsBy (event.Crash node) self.old) }
    {
        let place = place_of(&self.sites, node);
        if self.sites[place].crashed {
            return Ok(Some(LeadReason::Crashed));
        }
        self.sites[place].crash();
        Ok(None)
    }

    /// A member comes back.
    pub(crate) fn restart(&mut self, node: NodeId) -> Result<Option<LeadReason>, LeadStop>
        requires member { has (nodes_of self.old.sites.items) node ≡ true }
        ensures members { OnOk result (self.new.members.items ≡ self.old.members.items) }
        ensures goes_on { IfOk result (HappensIn (event.Restart node) self.old self.new) }
        ensures few { OnOk result (length self.old.mails ≤ MOST_CONTROL → length self.new.mails ≤ MOST_CONTROL) }
        ensures stopped { IfErr result (StopsBy (event.Restart node) self.old) }
    {
        let place = place_of(&self.sites, node);
        if !self.sites[place].crashed {
            return Ok(Some(LeadReason::NotCrashed));
        }
        self.sites[place].restart();
        Ok(None)
    }

    /// Delivers the message with this number to its addressee. After an `Err` the network must not be used again.
    pub(crate) fn deliver(&mut self, number: u32) -> Result<Option<LeadReason>, LeadStop>
        requires addressees { AreToMembers self.old }
        ensures members { OnOk result (self.new.members.items ≡ self.old.members.items) }
        ensures goes_on { IfOk result (HappensIn (event.Control number) self.old self.new) }
        ensures few { OnOk result (length self.old.mails ≤ MOST_CONTROL → length self.new.mails ≤ MOST_CONTROL) }
        ensures stopped { IfErr result (StopsBy (event.Control number) self.old) }
    {
        let Some(letter) = letter_at(self.mails.as_slice(), number) else {
            return Ok(Some(LeadReason::NoSuchMessage));
        };
        let (from, to) = (letter.from, letter.to);
        let Ok(message) = letter.message.copy() else {
            return Err(LeadStop::NoMemory);
        };
        let place = place_of(&self.sites, to);
        if self.sites[place].crashed {
            return Ok(Some(LeadReason::Crashed));
        }
        let refusal = self.sites[place].refusal(count(&self.members), from, &message);
        if let Some(why) = refusal {
            return Ok(Some(why));
        }
        match self.hear(place, to, from, message) {
            Ok(()) => Ok(None),
            Err(stop) => Err(stop),
        }
    }

    /// Runs one more event, and returns why it does nothing, if it does nothing. After an `Err` the network must not be
    /// used again.
    pub(crate) fn happen(&mut self, event: &LeadEvent) -> Result<Option<LeadReason>, LeadStop>
        requires member { fits (nodes_of self.old.sites.items) event.now ≡ true }
        requires addressees { AreToMembers self.old }
        requires rounds { HaveRounds self.old }
        ensures members { OnOk result (self.new.members.items ≡ self.old.members.items) }
        ensures goes_on { IfOk result (HappensIn event.now self.old self.new) }
        ensures few { OnOk result (length self.old.mails ≤ MOST_CONTROL → length self.new.mails ≤ MOST_CONTROL) }
        ensures stopped { IfErr result (StopsBy event.now self.old) }
    {
        match event {
            LeadEvent::Lead { node, epoch } => self.lead(*node, *epoch),
            LeadEvent::Offer { node, epoch, value } => self.offer(*node, *epoch, *value),
            LeadEvent::Control { number } => self.deliver(*number),
            LeadEvent::Crash { node } => self.crash(*node),
            LeadEvent::Restart { node } => self.restart(*node),
        }
    }

    // The member at this place hears the message, and answers it.
    fn hear(
        &mut self,
        place: usize,
        node: NodeId,
        from: NodeId,
        message: Message,
    ) -> Result<(), LeadStop>
        requires { IsAt self.old.sites.items node place }
        ensures members { OnOk result (self.new.members.items ≡ self.old.members.items) }
        ensures hears { OnOk result (Hears node from message self.old self.new) }
        ensures few { OnOk result (length self.old.mails ≤ MOST_CONTROL → length self.new.mails ≤ MOST_CONTROL) }
        ensures stopped { IfErr result (HearStops node from message self.old) }
    {
        let alloc = self.mails.allocator();
        let Ok(reply) = self.sites[place].reply(alloc, &message) else {
            return Err(LeadStop::NoMemory);
        };
        let counted = message.promised();
        let Ok(()) = self.sites[place].hear(from, message) else {
            return Err(LeadStop::NoMemory);
        };
        if let Some(reply) = reply {
            return match post(&mut self.mails, node, from, reply) {
                Ok(()) => Ok(()),
                Err(stop) => Err(stop),
            };
        }
        let Some(ballot) = counted else {
            return Ok(());
        };
        if !self.sites[place].has_majority(count(&self.members), &ballot) {
            return Ok(());
        }
        match carry(
            alloc,
            &mut self.mails,
            node,
            &self.members,
            &ballot,
            self.sites[place].heard.as_slice(),
        ) {
            Ok(()) => Ok(()),
            Err(stop) => Err(stop),
        }
    }
}
