//! Proposers: how a node counts the answers to its ballot.
ghost use Rattle.std.specs.Prelude.{ℕ, suc, length, List, [], ◌∷◌, ◌+◌, ◌<◌, ◌≡◌, Some, None, true, false, Option, IfOk, OnErr, max, if◌then◌else◌, option_map};
ghost use Rattle.topology.specs.Lists.{has};
ghost use Rattle.paxos_core.specs.declared.proposer.Phase.{Phase};
ghost use Rattle.paxos_core.specs.declared.proposer.Phase.TheVariants.{Preparing};
ghost use Rattle.paxos_core.specs.Facts.{Chronicle, Heard, Accept, Start, Crash, Decision};
ghost use Rattle.paxos_core.specs.Readings.{promised};
ghost use Rattle.paxos_core.specs.Rules.{round_of, higher, MayFollow};
ghost use Rattle.paxos_core.specs.Answers.{next_ballot, just_majority, to_each, posted};
ghost use Rattle.paxos_core.specs.Tallying.{StandsFor};
ghost use Rattle.paxos_core.specs.ProposerCalls.{opened, forgotten, gathered, IsPreparing, prepares, gathers, promise_tally, vote_tally, after_promise, after_vote, promise_delivery, vote_delivery, SaysPromise, SaysVote};

use std::alloc::Global;
use std::marker::Model;
use topology::{Ballot, NoMemory, NodeId};

/// What the proposer is doing with its latest ballot.
#[derive(Clone, Copy, Debug)]
pub enum Phase {
    /// Nothing: it started none, or dropped its tally.
    Idle,
    /// It counts the members that promise the ballot.
    Preparing(Ballot),
    /// It counts the members that accepted the ballot's value.
    Gathering(Ballot),
}

/// A node's part in getting a value chosen: its latest ballot, and the tally of the answers. The round outlives a crash
/// of the node; the tally does not. Only `on_promise` and `on_accepted` take memory.
#[derive(Drop)]
pub struct Proposer<V> {
    node: NodeId,
    last_round: u32,
    phase: Phase,
    counted: Vec<NodeId>,
    best: Option<(Ballot, V)>,
    won: bool,
}

impl<V> Model for Proposer<V> {
    ghost use Rattle.paxos_core.specs.Tallying.{Tallying};

    ghost Value = { Tallying V };

    ghost view = { λ p. record {
      node = p.node;
      last_round = p.last_round;
      phase = p.phase;
      counted = p.counted.items;
      best = p.best;
      won = p.won;
    } };
}

/// The answer to a Promise or an Accepted.
#[derive(Debug, Drop)]
pub enum Tally<V> {
    /// The sender is counted.
    Counted,
    /// The sender is counted, and makes the counted members a majority. After a Promise this has the value of the
    /// highest ballot that was named; if two pairs name the same ballot, the one counted first; `None` if no promise
    /// named any. After an Accepted it has `None`.
    Majority(Option<V>),
    /// The ballot is not the one that is being prepared or gathered.
    Stale,
    /// The sender was counted before.
    Duplicate,
}

impl<V: Drop> Proposer<V> {
    /// A proposer that has started no ballot. Takes no memory.
    pub fn new(alloc: Global, node: NodeId) -> Proposer<V>
        ensures node { result.node ≡ node }
        ensures nothing { (result.last_round ≡ 0) × (result ≡ forgotten result) }
        ensures stands { (members : ℕ) → StandsFor {V = V} members result [] node }
    {
        Proposer {
            node,
            last_round: 0,
            phase: Phase::Idle,
            counted: Vec::new(alloc),
            best: None,
            won: false,
        }
    }

    /// The round of the latest ballot; 0 before the first.
    pub fn last_round(&self) -> u32
        ensures { result ≡ self.now.last_round }
    {
        self.last_round
    }

    /// Starts a ballot. Its round is one above the greater of the last round and `floor`. `floor` is the round of the
    /// ballot that the node's own acceptor promised, or 0 if it promised none. No round is above 4,294,967,295.
    pub fn start(&mut self, floor: u32) -> Ballot
        requires floor { floor < 4294967295 }
        requires last { self.old.last_round < 4294967295 }
        ensures round { result.round ≡ 1 + max self.old.last_round floor }
        ensures node { result.node ≡ self.old.node }
        ensures kept { self.new ≡ opened self.old result }
        ensures next { (n : ℕ) (past : Chronicle V) (u : ℕ) → StandsFor n self.old past u →
            floor ≡ round_of (promised past u) → result ≡ next_ballot past u }
        ensures follows { (n : ℕ) (past : Chronicle V) (u : ℕ) → StandsFor n self.old past u →
            floor ≡ round_of (promised past u) →
            (members : List ℕ) → MayFollow members past (Start u result) }
        ensures stands { (n : ℕ) (past : Chronicle V) (u : ℕ) → StandsFor n self.old past u →
            StandsFor n self.new (Start u result ∷ past) u }
    {
        let greater = if self.last_round < floor {
            floor
        } else {
            self.last_round
        };
        let round = greater + 1;
        let node = self.node;
        self.last_round = round;
        self.clear(Phase::Preparing(Ballot { round, node }));
        Ballot { round, node }
    }

    /// Drops the tally and keeps the round. It is called when the node crashed, or learnt a decision.
    pub fn forget(&mut self)
        ensures kept { self.new ≡ forgotten self.old }
        ensures crash { (n : ℕ) (past : Chronicle V) (u : ℕ) → StandsFor n self.old past u →
            StandsFor n self.new (Crash u ∷ past) u }
        ensures decided { (n : ℕ) (past : Chronicle V) (u from : ℕ) (v : V) →
            StandsFor n self.old past u →
            StandsFor n self.new (Heard u from (Decision v) ∷ past) u }
    {
        self.clear(Phase::Idle);
    }

    /// Counts the sender of a Promise. When a majority is reached, the answer has the value that the Accept must carry.
    /// `members` is the number of all members, the same in all calls.
    pub fn on_promise(
        &mut self,
        from: NodeId,
        ballot: Ballot,
        named: Option<(Ballot, V)>,
        members: u32,
    ) -> Result<Tally<V>, NoMemory>
        ensures answer { IfOk result (λ tally.
            tally ≡ promise_tally self.old from ballot named members) }
        ensures kept { IfOk result (λ tally. self.new ≡ after_promise tally self.old from named) }
        ensures stands { IfOk result (λ tally. (past : Chronicle V) (u : ℕ) →
            StandsFor members self.old past u →
            SaysPromise tally members self.old self.new past (promise_delivery u from ballot named)) }
        ensures err { OnErr result (self.new ≡ self.old) }
    {
        if !prepares(&self.phase, ballot) {
            return Ok(Tally::Stale);
        }
        if self.has_counted(from) {
            return Ok(Tally::Duplicate);
        }
        let majority = self.makes_majority(members);
        self.counted.push(from)?;
        let best = higher_of(named, self.best.take());
        if majority {
            self.won = true;
            Ok(Tally::Majority(value_of(best)))
        } else {
            self.best = best;
            Ok(Tally::Counted)
        }
    }

    /// Goes from preparing to gathering, once an Accept of the ballot was sent to the members.
    pub fn propose(&mut self)
        requires preparing { IsPreparing self.old.phase }
        requires majority { self.old.won ≡ true }
        ensures kept { self.new ≡ record self.old {
          phase = gathered self.old.phase;
          counted = [];
          best = None;
        } }
        ensures stands { (n : ℕ) (past : Chronicle V) (u to : ℕ) (tos : List ℕ) (b : Ballot)
            (v : V) → StandsFor n self.old past u → self.old.phase ≡ Preparing b →
            StandsFor n self.new (posted u (to_each (to ∷ tos) (Accept b v)) past) u }
    {
        self.phase = gathering(self.phase);
        self.counted.clear();
        self.best = None;
    }

    /// Counts the sender of an Accepted. When a majority is reached, the value is chosen.
    pub fn on_accepted(
        &mut self,
        from: NodeId,
        ballot: Ballot,
        members: u32,
    ) -> Result<Tally<()>, NoMemory>
        ensures answer { IfOk result (λ tally. tally ≡ vote_tally self.old from ballot members) }
        ensures kept { IfOk result (λ tally. self.new ≡ after_vote tally self.old from) }
        ensures stands { IfOk result (λ tally. (past : Chronicle V) (u : ℕ) →
            StandsFor members self.old past u →
            SaysVote tally members self.old self.new past (vote_delivery u from ballot)) }
        ensures err { OnErr result (self.new ≡ self.old) }
    {
        if !gathers(&self.phase, ballot) {
            return Ok(Tally::Stale);
        }
        if self.has_counted(from) {
            return Ok(Tally::Duplicate);
        }
        let majority = self.makes_majority(members);
        self.counted.push(from)?;
        if majority {
            return Ok(Tally::Majority(None));
        }
        Ok(Tally::Counted)
    }

    /// Whether the sender was counted for the present ballot.
    fn has_counted(&self, from: NodeId) -> bool
        ensures { result ≡ has self.now.counted from }
    {
        self.counted.contains(&from)
    }

    /// Whether one more sender makes a majority that was not one before.
    fn makes_majority(&self, members: u32) -> bool
        ensures { result ≡ just_majority members (suc (length self.now.counted)) }
    {
        self.counted.len() == members as usize / 2
    }

    /// Drops the tally, and sets the phase.
    fn clear(&mut self, phase: Phase)
        ensures { self.new ≡ record self.old {
          phase = phase;
          counted = [];
          best = None;
          won = false;
        } }
    {
        self.phase = phase;
        self.counted.clear();
        self.best = None;
        self.won = false;
    }
}

/// The pair with the higher ballot; the second pair if the ballots are equal.
fn higher_of<V: Drop>(
    first: Option<(Ballot, V)>,
    second: Option<(Ballot, V)>,
) -> Option<(Ballot, V)>
    ensures { result ≡ higher first second }
{
    match first {
        None => second,
        Some(p) => match second {
            None => Some(p),
            Some(q) => { if q.0.is_below(p.0) { Some(p) } else { Some(q) } }
        },
    }
}

fn value_of<V: Drop>(pair: Option<(Ballot, V)>) -> Option<V>
    ensures { result ≡ option_map (λ p. p.1) pair }
{
    match pair {
        None => None,
        Some((_, value)) => Some(value),
    }
}

fn prepares(phase: &Phase, ballot: Ballot) -> bool
    ensures { result ≡ prepares phase.now ballot }
{
    match phase {
        Phase::Preparing(open) => *open == ballot,
        _ => false,
    }
}

fn gathers(phase: &Phase, ballot: Ballot) -> bool
    ensures { result ≡ gathers phase.now ballot }
{
    match phase {
        Phase::Gathering(open) => *open == ballot,
        _ => false,
    }
}

fn gathering(phase: Phase) -> Phase
    ensures { result ≡ gathered phase }
{
    match phase {
        Phase::Preparing(ballot) => Phase::Gathering(ballot),
        other => other,
    }
}
