//! A node's part in the agreement on the value of one epoch.
ghost use Rattle.std.specs.Prelude.{ℕ, ◌≡◌, ◌||◌, ◌<◌, true, [], List, length, Some, None, option_copied, IfOk, OnOk, IsNone};
ghost use Rattle.topology.specs.Lists.{has, ascending};
ghost use Rattle.paxos_core.specs.Facts as paxos;
ghost use Rattle.paxos_core.specs.declared.proposer.Phase.TheVariants.{Preparing};
ghost use Rattle.paxos_core.specs.Answers.{or_fresh, to_each, announce, posted, opened, next_ballot};
ghost use Rattle.paxos_core.specs.Decisions.{decision};
ghost use Rattle.paxos_core.specs.ProposerCalls.{IsPreparing};
ghost use Rattle.paxos_core.specs.Rules.{round_of};
ghost use Rattle.incomplete_closure.specs.Seen.{report_seen};
ghost use Rattle.incomplete_closure.specs.Reports.{Report as AnyReport};
ghost use Rattle.incomplete_closure.specs.declared.values.Value.{Value as AnyValue};
ghost use Rattle.incomplete_closure.specs.Collecting.{value_of};
ghost use Rattle.consolidator.specs.Answers.{of_epoch, is_for_all, no_round, not_proposing};
ghost use Rattle.consolidator.specs.Facts.{Chronicle};
ghost use Rattle.consolidator.specs.Messages.{epoch_of};
ghost use Rattle.consolidator.specs.Parts.{no_part, gone, StandsFor, addressees, epoch_past, Hears, Keeps, Proposes};
ghost use Rattle.consolidator.specs.Seen.{message_seen, mails_seen};
ghost use Rattle.consolidator.specs.Standing.{IsPart, Hears as HearsMessage};

use crate::messages::{one, to_each};
use crate::{HeldReports, Message, Outbox, Reply};
use incomplete_closure::{Report, Value};
use paxos_core::{Acceptor, Prepared, Proposer, Tally, Took};
use std::alloc::Global;
use std::rc::Rc;
use topology::{Ballot, Epoch, NoMemory, NodeId, Reason, Topology};

/// What a node promised, counted, holds and knows in one epoch. After an `Err` it must not be used again.
#[derive(Drop)]
pub struct Part {
    pub(crate) acceptor: Acceptor<Value>,
    pub(crate) proposer: Proposer<Value>,
    /// The value that was sent with the ballot whose acceptances are counted.
    pub(crate) proposed: Option<Value>,
    pub(crate) reports: HeldReports,
    pub(crate) decision: Option<Value>,
}

// What the acceptor accepted last.
fn accepted_pair(acceptor: &Acceptor<Value>) -> Result<Option<(Ballot, Value)>, NoMemory>
    ensures { IfOk result (λ pair. pair ≡ acceptor.now.accepted) }
{
    match acceptor.accepted() {
        Some((ballot, value)) => Ok(Some((ballot, value.copy()?))),
        None => Ok(None),
    }
}

// The round of a ballot; 0 without one.
fn round_of(ballot: Option<Ballot>) -> u32
    ensures { result ≡ round_of ballot }
{
    match ballot {
        Some(ballot) => ballot.round,
        None => 0,
    }
}

// The reason `NoRound` with the ballot that has the highest round already: the promised one, or else the own one.
// `None` if both can be exceeded.
fn no_round(promised: Option<Ballot>, own: Ballot) -> Option<Reason>
    ensures reason { result ≡ no_round promised (Some own) }
    ensures promised { IsNone result → round_of promised < 4294967295 }
    ensures own { IsNone result → own.round < 4294967295 }
{
    if let Some(ballot) = promised {
        if ballot.round == u32::MAX {
            return Some(Reason::NoRound(ballot));
        }
    }
    if own.round == u32::MAX {
        return Some(Reason::NoRound(own));
    }
    None
}

// The value for the Accept: the one that a promise named, or else the value of the held reports.
fn value_to_propose(
    alloc: Global,
    reports: &mut HeldReports,
    named: Option<Value>,
) -> Result<Value, NoMemory>
    ensures value { IfOk result (λ value. value ≡ or_fresh named (value_of reports.old.reports)) }
    ensures same { reports.new ≡ reports.old }
{
    match named {
        Some(value) => Ok(value),
        None => reports.value(alloc),
    }
}

// The request to accept the value, for each consolidator.
fn accept_mails(
    alloc: Global,
    members: &[NodeId],
    epoch: Epoch,
    ballot: Ballot,
    value: &Value,
) -> Result<Outbox, NoMemory>
    ensures { IfOk result (λ mails. mails_seen mails ≡
        of_epoch epoch (to_each members.now (paxos.Accept ballot value.now))) }
{
    let copy = value.copy()?;
    let message = Message::Accept {
        epoch,
        ballot,
        value: copy,
    };
    to_each(alloc, members, &message)
}

// The decision, for each node.
fn decision_mails(
    alloc: Global,
    nodes: &[NodeId],
    epoch: Epoch,
    value: &Value,
) -> Result<Outbox, NoMemory>
    ensures { IfOk result (λ mails. mails_seen mails ≡
        of_epoch epoch (announce nodes.now (Some value.now))) }
{
    let copy = value.copy()?;
    let message = Message::Decision { epoch, value: copy };
    to_each(alloc, nodes, &message)
}

impl Part {
    /// The part of a node before it has seen anything of the epoch. Takes no memory.
    pub fn new(alloc: Global, epoch: Epoch, node: NodeId) -> Part
        ensures { result ≡ no_part node epoch }
    {
        Part {
            acceptor: Acceptor::new(),
            proposer: Proposer::new(alloc, node),
            proposed: None,
            reports: HeldReports::new(alloc, epoch),
            decision: None,
        }
    }

    /// Handles a report of the epoch.
    pub fn on_report(&mut self, alloc: Global, report: Rc<Report>) -> Result<Reply, NoMemory>
        requires { report.value.epoch ≡ self.old.reports.epoch }
        ensures epoch { OnOk result (self.new.reports.epoch ≡ self.old.reports.epoch) }
        ensures kept { IfOk result (λ reply. (n : ℕ) (past : paxos.Chronicle AnyValue) (reports : List AnyReport)
            (u : ℕ) → StandsFor n self.old past reports u →
            Keeps n reply self.new (epoch_past past reports) u (report_seen report.value)) }
    {
        if self.decision.is_some() {
            return Ok(Reply::Idle(Reason::Decided));
        }
        if self.reports.has(report.node) {
            return Ok(Reply::Idle(Reason::Duplicate));
        }
        self.reports.keep(report)?;
        Ok(Reply::Sent(Outbox::new(Vec::new(alloc))))
    }

    /// Handles a request for a promise, from another consolidator or this one.
    pub fn on_prepare(
        &mut self,
        alloc: Global,
        from: NodeId,
        ballot: Ballot,
    ) -> Result<Reply, NoMemory>
        ensures epoch { OnOk result (self.new.reports.epoch ≡ self.old.reports.epoch) }
        ensures heard { IfOk result (λ reply. (members nodes : List ℕ) (past : paxos.Chronicle AnyValue)
            (reports : List AnyReport) (u : ℕ) → StandsFor (length members) self.old past reports u →
            Hears (addressees members nodes) reply self.old self.new (epoch_past past reports)
            (paxos.delivery u from (paxos.Prepare ballot))) }
    {
        match self.acceptor.on_prepare(ballot) {
            Prepared::Refused(promised) => Ok(Reply::Idle(Reason::Promised(promised))),
            Prepared::Promise => {
                let epoch = self.reports.epoch();
                let named = accepted_pair(&self.acceptor)?;
                let message = Message::Promise {
                    epoch,
                    ballot,
                    named,
                };
                Ok(Reply::Sent(one(alloc, from, message)?))
            }
        }
    }

    /// Handles a request to accept a value.
    pub fn on_accept(
        &mut self,
        alloc: Global,
        from: NodeId,
        ballot: Ballot,
        value: Value,
    ) -> Result<Reply, NoMemory>
        ensures epoch { OnOk result (self.new.reports.epoch ≡ self.old.reports.epoch) }
        ensures heard { IfOk result (λ reply. (members nodes : List ℕ) (past : paxos.Chronicle AnyValue)
            (reports : List AnyReport) (u : ℕ) → StandsFor (length members) self.old past reports u →
            Hears (addressees members nodes) reply self.old self.new (epoch_past past reports)
            (paxos.delivery u from (paxos.Accept ballot value))) }
    {
        match self.acceptor.on_accept(ballot, value) {
            Took::Refused(promised) => Ok(Reply::Idle(Reason::Promised(promised))),
            Took::Again => Ok(Reply::Idle(Reason::Duplicate)),
            Took::Accepted => {
                let epoch = self.reports.epoch();
                let message = Message::Accepted { epoch, ballot };
                Ok(Reply::Sent(one(alloc, from, message)?))
            }
        }
    }

    // Proposes the value to all consolidators, now that a majority promised the ballot.
    fn accept_all(
        &mut self,
        alloc: Global,
        members: &[NodeId],
        ballot: Ballot,
        value: Value,
    ) -> Result<Outbox, NoMemory>
        requires preparing { IsPreparing self.old.proposer.phase }
        requires majority { self.old.proposer.won ≡ true }
        ensures epoch { OnOk result (self.new.reports.epoch ≡ self.old.reports.epoch) }
        ensures sent { IfOk result (λ mails. mails_seen mails ≡
            of_epoch self.old.reports.epoch (to_each members.now (paxos.Accept ballot value))) }
        ensures stands { OnOk result ((n : ℕ) (past : paxos.Chronicle AnyValue) (reports : List AnyReport)
            (u : ℕ) → has members.now u ≡ true → self.old.proposer.phase ≡ Preparing ballot →
            decision past u ≡ None → StandsFor n self.old past reports u →
            StandsFor n self.new (posted u (to_each members.now (paxos.Accept ballot value)) past) reports u) }
    {
        let mails = accept_mails(alloc, members, self.reports.epoch(), ballot, &value)?;
        self.proposer.propose();
        self.proposed = Some(value);
        Ok(mails)
    }

    /// Handles the promise of a ballot by a consolidator.
    pub fn on_promise(
        &mut self,
        alloc: Global,
        members: &[NodeId],
        from: NodeId,
        ballot: Ballot,
        named: Option<(Ballot, Value)>,
    ) -> Result<Reply, NoMemory>
        requires { length members.now < 4294967296 }
        ensures epoch { OnOk result (self.new.reports.epoch ≡ self.old.reports.epoch) }
        ensures heard { IfOk result (λ reply. (nodes : List ℕ) (past : paxos.Chronicle AnyValue)
            (reports : List AnyReport) (u : ℕ) → has members.now u ≡ true →
            StandsFor (length members.now) self.old past reports u →
            Hears (addressees members.now nodes) reply self.old self.new (epoch_past past reports)
            (paxos.delivery u from (paxos.Promise ballot named))) }
    {
        match self
            .proposer
            .on_promise(from, ballot, named, members.len() as u32)?
        {
            Tally::Stale => Ok(Reply::Idle(Reason::StaleBallot)),
            Tally::Duplicate => Ok(Reply::Idle(Reason::Duplicate)),
            Tally::Counted => Ok(Reply::Sent(Outbox::new(Vec::new(alloc)))),
            Tally::Majority(named) => {
                let value = value_to_propose(alloc, &mut self.reports, named)?;
                Ok(Reply::Sent(self.accept_all(alloc, members, ballot, value)?))
            }
        }
    }

    // Tells all nodes the value, if one is chosen.
    fn announce(
        &self,
        alloc: Global,
        nodes: &[NodeId],
        chosen: Option<&Value>,
    ) -> Result<Outbox, NoMemory>
        ensures { IfOk result (λ mails. mails_seen mails ≡
            of_epoch self.now.reports.epoch (announce nodes.now (option_copied chosen.entry))) }
    {
        match chosen {
            None => Ok(Outbox::new(Vec::new(alloc))),
            Some(value) => decision_mails(alloc, nodes, self.reports.epoch(), value),
        }
    }

    /// Handles the acceptance of a ballot's value by a consolidator. `members` is the number of consolidators.
    pub fn on_accepted(
        &mut self,
        alloc: Global,
        members: u32,
        nodes: &[NodeId],
        from: NodeId,
        ballot: Ballot,
    ) -> Result<Reply, NoMemory>
        ensures epoch { OnOk result (self.new.reports.epoch ≡ self.old.reports.epoch) }
        ensures heard { IfOk result (λ reply. (all : List ℕ) (past : paxos.Chronicle AnyValue)
            (reports : List AnyReport) (u : ℕ) → length all ≡ members →
            StandsFor (length all) self.old past reports u →
            Hears (addressees all nodes.now) reply self.old self.new (epoch_past past reports)
            (paxos.delivery u from (paxos.Accepted ballot))) }
    {
        match self.proposer.on_accepted(from, ballot, members)? {
            Tally::Stale => Ok(Reply::Idle(Reason::StaleBallot)),
            Tally::Duplicate => Ok(Reply::Idle(Reason::Duplicate)),
            Tally::Counted => Ok(Reply::Sent(self.announce(alloc, nodes, None)?)),
            Tally::Majority(_) => {
                let chosen = self.proposed.as_ref();
                Ok(Reply::Sent(self.announce(alloc, nodes, chosen)?))
            }
        }
    }

    /// Handles a decision. Reports and tally are dropped, as they are no longer needed. Takes no memory.
    pub fn on_decision(&mut self, alloc: Global, value: Value) -> Reply
        ensures epoch { self.new.reports.epoch ≡ self.old.reports.epoch }
        ensures heard { (members nodes : List ℕ) (past : paxos.Chronicle AnyValue) (reports : List AnyReport)
            (u from : ℕ) → StandsFor (length members) self.old past reports u →
            Hears (addressees members nodes) result self.old self.new (epoch_past past reports)
            (paxos.delivery u from (paxos.Decision value)) }
    {
        if self.decision.is_some() {
            return Reply::Idle(Reason::Decided);
        }
        self.decision = Some(value);
        self.forget();
        Reply::Sent(Outbox::new(Vec::new(alloc)))
    }

    // The reason why no ballot can be started, if there is one.
    fn reason_not_to_propose(&self, node: NodeId) -> Option<Reason>
        ensures reason { (n : ℕ) (past : paxos.Chronicle AnyValue) (reports : List AnyReport) →
            StandsFor n self.now past reports node → result ≡ not_proposing past reports node }
        ensures promised { IsNone result → round_of self.now.acceptor.promised < 4294967295 }
        ensures own { IsNone result → self.now.proposer.last_round < 4294967295 }
    {
        if self.decision.is_some() {
            return Some(Reason::Decided);
        }
        if self.reports.is_empty() {
            return Some(Reason::NoReport);
        }
        let round = self.proposer.last_round();
        no_round(self.acceptor.promised(), Ballot { round, node })
    }

    // Starts the next ballot.
    fn ask_all(&mut self, alloc: Global, members: &[NodeId]) -> Result<Outbox, NoMemory>
        requires promised { round_of self.old.acceptor.promised < 4294967295 }
        requires own { self.old.proposer.last_round < 4294967295 }
        ensures epoch { OnOk result (self.new.reports.epoch ≡ self.old.reports.epoch) }
        ensures sent { IfOk result (λ mails. (n : ℕ) (past : paxos.Chronicle AnyValue)
            (reports : List AnyReport) (u : ℕ) → StandsFor n self.old past reports u → mails_seen mails ≡
            of_epoch self.old.reports.epoch (to_each members.now (paxos.Prepare (next_ballot past u)))) }
        ensures stands { OnOk result ((n : ℕ) (past : paxos.Chronicle AnyValue) (reports : List AnyReport)
            (u : ℕ) → decision past u ≡ None → StandsFor n self.old past reports u →
            StandsFor n self.new (opened members.now past u) reports u) }
    {
        let ballot = self.proposer.start(round_of(self.acceptor.promised()));
        let epoch = self.reports.epoch();
        let message = Message::Prepare { epoch, ballot };
        to_each(alloc, members, &message)
    }

    /// Has the node propose a value.
    pub fn propose(
        &mut self,
        alloc: Global,
        members: &[NodeId],
        node: NodeId,
    ) -> Result<Reply, NoMemory>
        ensures epoch { OnOk result (self.new.reports.epoch ≡ self.old.reports.epoch) }
        ensures proposes { IfOk result (λ reply. (past : paxos.Chronicle AnyValue) (reports : List AnyReport) →
            StandsFor (length members.now) self.old past reports node →
            Proposes members.now reply self.old self.new (epoch_past past reports) node) }
    {
        match self.reason_not_to_propose(node) {
            Some(reason) => Ok(Reply::Idle(reason)),
            None => Ok(Reply::Sent(self.ask_all(alloc, members)?)),
        }
    }

    /// Handles a crash of the node: what it collected is lost. Takes no memory.
    pub fn forget(&mut self)
        ensures { self.new ≡ gone self.old }
    {
        self.proposer.forget();
        self.proposed = None;
        self.reports.clear();
    }

    /// Handles a message of the epoch that is for the node.
    pub fn hear(
        &mut self,
        alloc: Global,
        topology: &Topology,
        from: NodeId,
        message: Message,
    ) -> Result<Reply, NoMemory>
        requires { epoch_of (message_seen message) ≡ self.old.reports.epoch }
        ensures epoch { OnOk result (self.new.reports.epoch ≡ self.old.reports.epoch) }
        ensures heard { IfOk result (λ reply. (past : Chronicle) (u : ℕ) →
            (has topology.now.consolidators u || is_for_all (message_seen message)) ≡ true →
            IsPart topology.now self.old past u (epoch_of (message_seen message)) →
            HearsMessage topology.now reply self.new past (paxos.delivery u from (message_seen message))) }
    {
        let members = topology.consolidators();
        let nodes = topology.nodes();
        match message {
            Message::Report(report) => self.on_report(alloc, report),
            Message::Prepare { ballot, .. } => self.on_prepare(alloc, from, ballot),
            Message::Promise { ballot, named, .. } => {
                self.on_promise(alloc, members, from, ballot, named)
            }
            Message::Accept { ballot, value, .. } => self.on_accept(alloc, from, ballot, value),
            Message::Accepted { ballot, .. } => {
                self.on_accepted(alloc, members.len() as u32, nodes, from, ballot)
            }
            Message::Decision { value, .. } => Ok(self.on_decision(alloc, value)),
        }
    }
}
