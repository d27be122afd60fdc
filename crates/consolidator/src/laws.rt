//! Laws of what a node stores. A call of a law gives the caller's proof what the law says.
ghost use Rattle.std.specs.Prelude.{ℕ, ◌≡◌, ◌∷◌};
ghost use Rattle.topology.specs.Net.{Net};
ghost use Rattle.incomplete_closure.specs.Reports.{Report as AnyReport};
ghost use Rattle.consolidator.specs.Messages.{Reports};
ghost use Rattle.consolidator.specs.Facts.{Fact, Chronicle, Mail as Mailed};
ghost use Rattle.consolidator.specs.Readings.{known};
ghost use Rattle.consolidator.specs.Beside.{IsBeside};
ghost use Rattle.consolidator.specs.Keeping.{Kept};
ghost use Rattle.consolidator.specs.Standing.{StandsFor};

/// What other nodes do, facts outside the agreements, and the reports that a node mails leave all that the node stores,
/// and each decision that it knows, as they are.
#[tactic(auto, using(crate::proofs::Beside::known_beside))]
pub fn others_change_nothing_of_what_a_node_keeps()
    ensures beside { (net : Net) (kept : Kept) (past : Chronicle) (u : ℕ) (f : Fact) → IsBeside u f →
        StandsFor net kept past u → StandsFor net kept (f ∷ past) u }
    ensures reported { (net : Net) (kept : Kept) (past : Chronicle) (u to : ℕ) (report : AnyReport) →
        StandsFor net kept past u → StandsFor net kept (Mailed u to (Reports report) ∷ past) u }
    ensures known_beside { (past : Chronicle) (u e : ℕ) (f : Fact) → IsBeside u f →
        known u e (f ∷ past) ≡ known u e past }
    ensures known_reported { (past : Chronicle) (u e to : ℕ) (report : AnyReport) →
        known u e (Mailed u to (Reports report) ∷ past) ≡ known u e past }
{}
