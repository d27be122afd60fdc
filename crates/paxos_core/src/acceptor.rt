//! Acceptors: what a member promises and accepts.
ghost use Rattle.std.specs.Prelude.{ℕ, [], ◌≡◌, Some, None, Option, option_map};
ghost use Rattle.paxos_core.specs.Facts.{Chronicle, Prepare, Accept, delivery};
ghost use Rattle.paxos_core.specs.Readings.{greater};
ghost use Rattle.paxos_core.specs.Answers.{refuses_prepare, refuses_accept};
ghost use Rattle.paxos_core.specs.Accepting.{StandsFor};
ghost use Rattle.paxos_core.specs.AcceptorCalls.{SaysPrepared, SaysTook, AnswersPrepare, AnswersAccept, unless_refused, accepting};

use std::marker::Model;
use topology::Ballot;

/// A member's part in the choice of a value: the ballot that it promised, below which it accepts nothing, and what it
/// accepted last. Both outlive a crash of its node. No call takes memory.
#[derive(Drop)]
pub struct Acceptor<V> {
    promised: Option<Ballot>,
    accepted: Option<(Ballot, V)>,
}

impl<V> Model for Acceptor<V> {
    ghost use Rattle.paxos_core.specs.Accepting.{Accepting};

    ghost Value = { Accepting V };

    ghost view = { λ a. record { promised = a.promised; accepted = a.accepted } };
}

/// The answer to a Prepare.
#[derive(Clone, Copy, Debug, PartialEq, Eq)]
pub enum Prepared {
    /// The ballot is now promised.
    Promise,
    /// This ballot is promised already, and the new one is not above it.
    Refused(Ballot),
}

/// The answer to an Accept.
#[derive(Clone, Copy, Debug, PartialEq, Eq)]
pub enum Took {
    /// The ballot is now promised, and its value accepted.
    Accepted,
    /// This ballot is promised, and the new one is below it.
    Refused(Ballot),
    /// The value of this ballot was accepted before.
    Again,
}

impl<V: Drop> Acceptor<V> {
    /// An acceptor that has promised nothing.
    pub fn new() -> Acceptor<V>
        ensures nothing { (result.promised ≡ None) × (result.accepted ≡ None) }
        ensures stands { (u : ℕ) → StandsFor result [] u }
    {
        Acceptor {
            promised: None,
            accepted: None,
        }
    }

    /// The promised ballot.
    pub fn promised(&self) -> Option<Ballot>
        ensures { result ≡ self.now.promised }
    {
        self.promised
    }

    /// The ballot that was accepted last, and its value.
    pub fn accepted(&self) -> Option<(Ballot, &V)>
        ensures { option_map (λ p. (p.0, p.1.now)) result ≡ self.now.accepted }
    {
        match &self.accepted {
            Some((ballot, value)) => Some((*ballot, value)),
            None => None,
        }
    }

    /// Promises the ballot, if it is above the promised one. The Promise that is sent back should name what was
    /// accepted (`accepted`).
    #[tactic(auto, unfolding(crate::specs::Answers::refusal))]
    pub fn on_prepare(&mut self, ballot: Ballot) -> Prepared
        ensures answer { SaysPrepared result (refuses_prepare self.old.promised ballot) }
        ensures promised { self.new.promised ≡ greater ballot self.old.promised }
        ensures accepted { self.new.accepted ≡ self.old.accepted }
        ensures stands { (past : Chronicle V) (u from : ℕ) → StandsFor self.old past u →
            AnswersPrepare result self.old self.new past (delivery u from (Prepare ballot)) }
    {
        let before = self.promised;
        match before {
            Some(promised) if !(promised < ballot) => Prepared::Refused(promised),
            _ => {
                self.promised = Some(ballot);
                Prepared::Promise
            }
        }
    }

    /// Promises the ballot and accepts its value, unless a higher ballot is promised or this one was accepted before.
    #[tactic(auto, unfolding(crate::specs::Answers::refusal))]
    pub fn on_accept(&mut self, ballot: Ballot, value: V) -> Took
        ensures answer { SaysTook result
            (refuses_accept self.old.promised self.old.accepted ballot) }
        ensures kept { self.new ≡ unless_refused
            (refuses_accept self.old.promised self.old.accepted ballot)
            self.old (accepting ballot value) }
        ensures stands { (past : Chronicle V) (u from : ℕ) → StandsFor self.old past u →
            AnswersAccept result self.old self.new past (delivery u from (Accept ballot value)) }
    {
        let before = self.promised;
        match before {
            Some(promised) if ballot < promised => Took::Refused(promised),
            _ => {
                let again = match &self.accepted {
                    Some((accepted, _)) => *accepted == ballot,
                    None => false,
                };
                if again {
                    return Took::Again;
                }
                self.promised = Some(ballot);
                self.accepted = Some((ballot, value));
                Took::Accepted
            }
        }
    }
}
