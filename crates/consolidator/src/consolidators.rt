//! A node's part in the agreements of all epochs.
ghost use Rattle.std.specs.Prelude.{ℕ, ◌≡◌, ◌||◌, ◌<◌, ◌≤◌, ◌∷◌, [], true, map, option_copied, length, IfOk, OnOk};
ghost use Rattle.topology.specs.Lists.{has};
ghost use Rattle.topology.specs.Net.{Net};
ghost use Rattle.paxos_core.specs.Facts.{delivery};
ghost use Rattle.consolidator.specs.Answers.{is_for_all};
ghost use Rattle.consolidator.specs.Facts.{Chronicle, Crash};
ghost use Rattle.consolidator.specs.Keeping.{part_in, place_in};
ghost use Rattle.consolidator.specs.Messages.{epoch_of};
ghost use Rattle.consolidator.specs.Parts.{gone};
ghost use Rattle.consolidator.specs.Readings.{known};
ghost use Rattle.consolidator.specs.Seen.{message_seen};
ghost use Rattle.consolidator.specs.Standing.{StandsFor, AreParts, Handles, Proposes, HearsAll, ProposesAll};

use crate::parts::Part;
use crate::{Message, Reply};
use incomplete_closure::Value;
use std::alloc::Global;
use std::marker::Model;
use topology::{Epoch, NoMemory, NodeId, Reason, Topology};

/// A node's part in the agreement on the value of each epoch. It collects reports, proposes a value, promises and
/// accepts ballots, and learns the decision. A node that is no consolidator only learns decisions. Promises,
/// acceptances, rounds and decisions outlive a crash; collected reports and tallies do not.
#[derive(Drop)]
pub struct Consolidator {
    alloc: Global,
    node: NodeId,
    parts: Vec<Part>,
}

impl Model for Consolidator {
    ghost use Rattle.consolidator.specs.Keeping.{Kept};

    ghost Value = { Kept };

    ghost view = { λ c. record { node = c.node; parts = c.parts.items } };
}

// The place of the epoch's part, or the length of the list.
fn place_of(parts: &[Part], epoch: Epoch) -> usize
    ensures place { result ≡ place_in epoch parts.now }
    ensures within { result ≤ length parts.now }
{
    let mut place = 0;
    for part in parts {
        if part.reports.epoch() == epoch {
            return place;
        }
        place += 1;
    }
    place
}

// The place of the epoch's part. A part is made if there is none.
fn place_for(
    alloc: Global,
    parts: &mut Vec<Part>,
    node: NodeId,
    epoch: Epoch,
) -> Result<usize, NoMemory>
    ensures place { IfOk result (λ place. place ≡ place_in epoch parts.new.items) }
    ensures within { IfOk result (λ place. place < length parts.new.items) }
    ensures same { OnOk result ((e : ℕ) → part_in node e parts.new.items ≡ part_in node e parts.old.items) }
{
    let place = place_of(parts, epoch);
    if place < parts.len() {
        return Ok(place);
    }
    parts.push(Part::new(alloc, epoch, node))?;
    Ok(place)
}

// Hands the message to the part of its epoch.
fn hear_in(
    alloc: Global,
    parts: &mut Vec<Part>,
    node: NodeId,
    topology: &Topology,
    from: NodeId,
    message: Message,
) -> Result<Reply, NoMemory>
    ensures { IfOk result (λ reply. (past : Chronicle) →
        (has topology.now.consolidators node || is_for_all (message_seen message)) ≡ true →
        AreParts topology.now parts.old.items past node →
        HearsAll topology.now reply parts.new.items past (delivery node from (message_seen message))) }
{
    let epoch = message.epoch();
    let place = place_for(alloc, parts, node, epoch)?;
    parts[place].hear(alloc, topology, from, message)
}

// Has a consolidator propose a value for the epoch.
fn propose_in(
    alloc: Global,
    parts: &mut Vec<Part>,
    node: NodeId,
    topology: &Topology,
    epoch: Epoch,
) -> Result<Reply, NoMemory>
    ensures { IfOk result (λ reply. (past : Chronicle) → has topology.now.consolidators node ≡ true →
        AreParts topology.now parts.old.items past node →
        ProposesAll topology.now reply parts.new.items past node epoch) }
{
    let place = place_for(alloc, parts, node, epoch)?;
    let members = topology.consolidators();
    parts[place].propose(alloc, members, node)
}

fn is_consolidator(topology: &Topology, node: NodeId) -> bool
    ensures { result ≡ has topology.now.consolidators node }
{
    topology.consolidators().contains(&node)
}

// Whether the message is for the node.
fn is_for(topology: &Topology, node: NodeId, message: &Message) -> bool
    ensures { result ≡ (has topology.now.consolidators node || is_for_all (message_seen message.now)) }
{
    is_consolidator(topology, node) || message.is_for_all()
}

// Drops what each part collected.
fn forget_each(parts: &mut [Part])
    ensures { parts.new ≡ map gone parts.old }
{
    for place in 0..parts.len() {
        parts[place].forget();
    }
}

// The decision of the epoch.
fn decision_in(parts: &[Part], epoch: Epoch) -> Option<&Value>
    ensures { (node : ℕ) → option_copied result ≡ (part_in node epoch parts.now).decision }
{
    for kept in parts {
        if kept.reports.epoch() == epoch {
            return kept.decision.as_ref();
        }
    }
    None
}

impl Consolidator {
    /// The state of a node before its first message.
    pub fn new(alloc: Global, _topology: &Topology, node: NodeId) -> Result<Consolidator, NoMemory>
        ensures { IfOk result (λ consolidator. (net : Net) → StandsFor net consolidator [] node) }
    {
        Ok(Consolidator {
            alloc,
            node,
            parts: Vec::new(alloc),
        })
    }

    /// Has the node propose a value for the epoch.
    pub fn propose(
        self,
        topology: &Topology,
        epoch: Epoch,
    ) -> Result<(Consolidator, Reply), NoMemory>
        ensures { IfOk result (λ done. (past : Chronicle) (u : ℕ) → StandsFor topology.now self past u →
            Proposes topology.now done.1 done.0 past u epoch) }
    {
        let mut consolidator = self;
        let (alloc, node) = (consolidator.alloc, consolidator.node);
        if !is_consolidator(topology, node) {
            return Ok((consolidator, Reply::Idle(Reason::NotConsolidator)));
        }
        let reply = propose_in(alloc, &mut consolidator.parts, node, topology, epoch)?;
        Ok((consolidator, reply))
    }

    /// Handles a message that arrived at the node.
    pub fn handle(
        self,
        topology: &Topology,
        from: NodeId,
        message: Message,
    ) -> Result<(Consolidator, Reply), NoMemory>
        ensures { IfOk result (λ done. (past : Chronicle) (u : ℕ) → StandsFor topology.now self past u →
            Handles topology.now done.1 done.0 past (delivery u from (message_seen message))) }
    {
        let mut consolidator = self;
        let (alloc, node) = (consolidator.alloc, consolidator.node);
        if !is_for(topology, node, &message) {
            return Ok((consolidator, Reply::Idle(Reason::NotConsolidator)));
        }
        let parts = &mut consolidator.parts;
        let reply = hear_in(alloc, parts, node, topology, from, message)?;
        Ok((consolidator, reply))
    }

    /// Handles a crash of the node: its reports and tallies are lost. Takes no memory.
    pub fn forget(&mut self)
        ensures { (net : Net) (past : Chronicle) (u : ℕ) → StandsFor net self.old past u →
            StandsFor net self.new (Crash u ∷ past) u }
    {
        forget_each(&mut self.parts);
    }

    /// The decision of the epoch, if the node knows it. Takes no memory.
    pub fn decision(&self, epoch: Epoch) -> Option<&Value>
        ensures { (net : Net) (past : Chronicle) (u : ℕ) → StandsFor net self.now past u →
            option_copied result ≡ known u epoch past }
    {
        decision_in(&self.parts, epoch)
    }
}
