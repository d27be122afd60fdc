//! Laws of nodes. A call of a law brings its statement into the caller's proof.
ghost use Rattle.std.specs.Prelude.{◌≡◌, ◌==◌, ◌∷◌, ℕ, true, false};
ghost use Rattle.topology.specs.Net.{Net};
ghost use Rattle.chronicle.specs.Facts.{Fact, Chronicle};
ghost use Rattle.chronicle.specs.Giving.{give};
ghost use Rattle.chronicle.specs.Inputs.{Input};
ghost use Rattle.chronicle.specs.Run.{chronicle_of};
ghost use Rattle.chronicle.specs.Steps.{Carried};
ghost use Rattle.node_core.specs.declared.node.Node.{Node};
ghost use Rattle.node_core.specs.Beside.{IsBeside};
ghost use Rattle.node_core.specs.Coming.{MayCome};
ghost use Rattle.node_core.specs.Fits.{fits};
ghost use Rattle.node_core.specs.Standing.{StandsFor};

use path_vector::Policy;

/// An act of another node, a change of a link and a restart leave a node standing for the same facts.
pub fn others_change_nothing_of_what_a_node_stands_for<P: Policy + Copy>()
    ensures beside { (policy : P) (net : Net) (u : ℕ) (node : Node P) (past : Chronicle) (f : Fact) → IsBeside u f →
        StandsFor policy (P.rules policy) net u node past → StandsFor policy (P.rules policy) net u node (f ∷ past) }
    ensures given { (policy : P) (net : Net) (u v : ℕ) (node : Node P) (carried : Carried) (past : Chronicle) (input : Input) →
        (v == u) ≡ false → StandsFor policy (P.rules policy) net u node past →
        StandsFor policy (P.rules policy) net u node (chronicle_of past (give (P.rules policy) net carried v past input)) }
{}

/// An input that a node admits meets the premise of the node's promises (`MayCome`).
#[tactic(auto, using(crate::proofs::Admitting::may_come))]
pub fn what_fits_may_come()
    ensures { (net : Net) (u : ℕ) (input : Input) → fits net u input ≡ true → MayCome net u input }
{}
