//! Laws of every chronicle in which nodes follow the rules. A law takes nothing and does nothing; a call of it gives
//! the caller's proof what the law says.
ghost use Rattle.std.specs.Prelude.{ℕ, length, List, [], ◌∷◌, ◌≡◌, ◌≢◌, ◌↔◌, Some, None};
ghost use Rattle.std.specs.List.{AllByRecursion};
ghost use Rattle.topology.specs.declared.ballots.Ballot.{Ballot};
ghost use Rattle.paxos_core.specs.Facts.{Chronicle, Fact, Message, Heard, Mail, Decision, Accept};
ghost use Rattle.paxos_core.specs.Readings.{Has};
ghost use Rattle.paxos_core.specs.Rules.{MayHear, Obeys};
ghost use Rattle.paxos_core.specs.Chosen.{Chosen};
ghost use Rattle.paxos_core.specs.Answers.{refusal, ballot_setup, received, opened, proposed, posted, to_each};
ghost use Rattle.paxos_core.specs.Accepting.{Accepting, StandsFor, Unread};
ghost use Rattle.paxos_core.specs.Tallying.{Tallying};
ghost use Rattle.paxos_core.specs.Tallying.{Leaves, StandsFor as StandsTally, Unread as UnreadTally};

/// At most one value is chosen, where values are numbers.
pub fn agreement()
    ensures { (members : List ℕ) (chronicle : Chronicle ℕ) (v w : ℕ) → Obeys members chronicle →
        Chosen members chronicle v → Chosen members chronicle w → v ≡ w }
{}

/// At most one value is chosen, for any type of values.
pub fn agreement_of<V>()
    ensures { (members : List ℕ) (chronicle : Chronicle V) (v w : V) → Obeys members chronicle →
        Chosen members chronicle v → Chosen members chronicle w → v ≡ w }
{}

/// If a node heard a decision, its value is chosen.
pub fn decision_is_chosen<V>()
    ensures { (members : List ℕ) (chronicle : Chronicle V) (u from : ℕ) (v : V) →
        Obeys members chronicle → Has chronicle (Heard u from (Decision v)) → Chosen members chronicle v }
{}

/// A node refuses a message exactly where the rules do not let the node hear it.
pub fn refusals<V>()
    ensures { (past : Chronicle V) (u from : ℕ) (m : Message V) →
        (refusal past u from m ≡ None) ↔ MayHear past u from m }
{}

/// A ballot that a node starts, and the Prepare that it sends to each member, follow the rules.
pub fn starts_follow<V>()
    ensures { (members : List ℕ) (past : Chronicle V) (u : ℕ) →
        Obeys members past → Obeys members (opened members past u) }
{}

/// What a node does with a message that was sent to it, and everything that it answers, follow the rules.
pub fn answers_follow<V>()
    ensures { (members nodes : List ℕ) (fresh : V) (past : Chronicle V) (u from : ℕ)
        (m : Message V) → Obeys members past → Has past (Mail from u m) →
        Obeys members (received (ballot_setup members nodes fresh) past u from m) }
{}

/// A fact that an acceptor does not read leaves the acceptor as it is. An acceptor reads nothing that is sent.
pub fn acceptor_unread<V>()
    ensures fact { (kept : Accepting V) (past : Chronicle V) (u : ℕ) (f : Fact V) →
        Unread u f → StandsFor kept past u → StandsFor kept (f ∷ past) u }
    ensures sent { (kept : Accepting V) (past : Chronicle V) (u w : ℕ) (ms : List (ℕ × Message V)) →
        StandsFor kept past u → StandsFor kept (posted w ms past) u }
{}

/// A fact that a proposer does not read leaves the proposer as it is. Of what is sent, a proposer reads only its own
/// Accepts.
pub fn proposer_unread<V>()
    ensures fact { (n : ℕ) (kept : Tallying V) (past : Chronicle V) (u : ℕ) (f : Fact V) →
        UnreadTally u f → StandsTally n kept past u → StandsTally n kept (f ∷ past) u }
    ensures sent { (n : ℕ) (kept : Tallying V) (past : Chronicle V) (u w : ℕ)
        (ms : List (ℕ × Message V)) → AllByRecursion (λ m. Leaves u w m.1) ms →
        StandsTally n kept past u → StandsTally n kept (posted w ms past) u }
{}

/// For each chronicle that obeys the rules, each node has an acceptor and a proposer that stand for it. So the
/// contracts of the calls are not empty.
pub fn each_is_stood_for<V>()
    ensures acceptor { (past : Chronicle V) (u : ℕ) → (kept : Accepting V) × StandsFor kept past u }
    ensures proposer { (members : List ℕ) (past : Chronicle V) (u : ℕ) → Obeys members past →
        (kept : Tallying V) × StandsTally (length members) kept past u }
{}

/// Once a node has sent an Accept to somebody, the value of that Accept is its proposed value.
pub fn proposal<V>()
    ensures { (past : Chronicle V) (u to : ℕ) (tos : List ℕ) (b : Ballot) (v : V) →
        proposed (posted u (to_each (to ∷ tos) (Accept b v)) past) u b ≡ Some v }
{}

/// Each value is chosen in some chronicle of three members that obeys the rules.
pub fn some_choice()
    ensures { (v : ℕ) → (chronicle : Chronicle ℕ)
        × Obeys (1 ∷ 2 ∷ 3 ∷ []) chronicle × Chosen (1 ∷ 2 ∷ 3 ∷ []) chronicle v }
{}
