//! Laws of one node's run. A call of a law gives the caller's proof what the law says.
ghost use Rattle.std.specs.Prelude.{ℕ, ◌≡◌, true, List, []};
ghost use Rattle.std.specs.List.{list_all};
ghost use Rattle.topology.specs.Lists.{has};
ghost use Rattle.topology.specs.Net.{Net, IsValid};
ghost use Rattle.path_vector.specs.Rules.{Rules};
ghost use Rattle.chronicle.specs.Inputs.{Input};
ghost use Rattle.node_core.specs.Outputs.{outputs};
ghost use Rattle.admission_laws.specs.NodeRuns.{alone, going_on, restarted, AllAdmitted};
ghost use Rattle.admission_laws.specs.Handing.{output_fits};

/// If a node admitted each of its inputs, its addressees admit all that it sends out: the names are in the network,
/// each number is in its range, and each list is in order.
#[tactic(auto, using(crate::proofs::Handed::all_fit))]
pub fn what_is_handed_out_is_admitted()
    ensures { (rules : Rules) (net : Net) (u : ℕ) (inputs : List Input) → IsValid net → has net.nodes u ≡ true →
        AllAdmitted rules net u [] inputs → list_all (output_fits net u) (outputs (alone rules net u inputs)) ≡ true }
{}

/// The same holds of a node that was restarted after such inputs, and admitted each input since.
#[tactic(auto, using(crate::proofs::Handed::all_fit_again))]
pub fn what_a_restarted_node_hands_out_is_admitted()
    ensures { (rules : Rules) (net : Net) (u : ℕ) (kept inputs : List Input) → IsValid net → has net.nodes u ≡ true →
        AllAdmitted rules net u [] kept → AllAdmitted rules net u (restarted rules net u kept) inputs →
        list_all (output_fits net u) (outputs (going_on rules net u (restarted rules net u kept) inputs)) ≡ true }
{}
