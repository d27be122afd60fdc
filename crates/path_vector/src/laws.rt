//! Laws of what the definitions read from the entries of a node.
ghost use Rattle.std.specs.Prelude.{ℕ, Bool, List, ◌<◌, ◌≡◌, ◌≢◌, [], ◌∷◌, ◌++◌, Some, None, true, false, IfSome, slice_get};
ghost use Rattle.topology.specs.declared.names.Scope.TheVariants.{All};
ghost use Rattle.topology.specs.Lists.{has, Among};
ghost use Rattle.topology.specs.Net.{Net, IsValid};
ghost use Rattle.path_vector.specs.declared.causes.Cause.TheVariants.{Up, Down};
ghost use Rattle.path_vector.specs.Rules.{Rules, IsRanking};
ghost use Rattle.path_vector.specs.History.{Change, History, Scoped, change, concerns, concerning, held, highest, opened, owns, ready};
ghost use Rattle.path_vector.specs.Parts.{Accepted, IsPart};
ghost use Rattle.path_vector.specs.Selection.{Choice, Home, candidate, choices, best, best_by, path_of};
ghost use Rattle.path_vector.specs.declared.policy.Ranked.{Ranked};
ghost use Rattle.path_vector.specs.Offers.{offer, changed};
ghost use Rattle.path_vector.specs.Order.{IsOrder};
ghost use Rattle.path_vector.specs.Ranking.{by_rank, order};
ghost use Rattle.path_vector.specs.Simple.{AreIn, BringsPaths, BringsPathsIn, IsPathFrom};

/// What is read for a prefix depends only on the entries that concern it.
#[tactic(auto, using(crate::proofs::Local::candidate_local, crate::proofs::Local::best_local, crate::proofs::Local::offer_local, crate::proofs::Local::ready_local))]
pub fn prefixes_are_apart()
    ensures candidate { (u p v : ℕ) (h : History) → Scoped h →
        candidate u (concerning p h) p v ≡ candidate u h p v }
    ensures best { (rules : Rules) (net : Net) (u p : ℕ) (h : History) → Scoped h →
        best rules net u (concerning p h) p ≡ best rules net u h p }
    ensures offer { (rules : Rules) (net : Net) (u p w : ℕ) (h : History) → Scoped h →
        offer rules net u (concerning p h) p w ≡ offer rules net u h p w }
    ensures ready { (p w : ℕ) (h : History) → Scoped h → ready (concerning p h) w ≡ ready h w }
{}

/// An entry that does not concern a prefix changes no offer for it.
#[tactic(auto, using(crate::proofs::Changes::other_prefix))]
pub fn other_prefixes_change_nothing()
    ensures { (rules : Rules) (net : Net) (u : ℕ) (h : History) (k : Change) (w p : ℕ) →
        Scoped (k ∷ h) →
        concerns p k.scope ≡ false → changed rules net u (k ∷ h) w p ≡ false }
{}

/// Opening a session changes no offer, where no session is held and the new one is above all that were named.
#[tactic(auto, using(crate::proofs::Opening::opening_changes_nothing))]
pub fn opening_changes_nothing()
    ensures { (rules : Rules) (net : Net) (u : ℕ) (h : History) (w s x p : ℕ) → held h w ≡ None →
        highest h w < s →
        changed rules net u (change All (Up w s) ∷ h) x p ≡ false }
{}

/// A node offers nothing at the start.
#[tactic(auto, using(crate::proofs::Changes::offer_start))]
pub fn nothing_is_offered_at_the_start()
    ensures { (rules : Rules) (net : Net) (u p w : ℕ) → offer rules net u [] p w ≡ None }
{}

/// The paths of best routes and of offers begin with the own node, and repeat no node.
#[tactic(auto, using(crate::proofs::Simple::best_path, crate::proofs::Simple::offer_path))]
pub fn paths_begin_with_the_own_node()
    ensures best { (rules : Rules) (net : Net) (u : ℕ) (h : History) (p : ℕ) → BringsPaths h →
        IfSome (path_of u (best rules net u h p)) (IsPathFrom u) }
    ensures offer { (rules : Rules) (net : Net) (u : ℕ) (h : History) (p w : ℕ) → BringsPaths h →
        IfSome (offer rules net u h p w) (IsPathFrom u) }
{}

/// A part of a possible log, in the same order, is a possible log too.
#[tactic(auto, using(crate::proofs::Parts::part_accepted))]
pub fn a_part_of_a_log_is_accepted()
    ensures { (part whole : History) → IsPart part whole → Accepted whole → Accepted part }
{}

/// A session that was closed is never held again.
#[tactic(auto, using(crate::proofs::Parts::stays_closed))]
pub fn a_closed_session_stays_closed()
    ensures { (newer past : History) (w s : ℕ) → Accepted (newer ++ change All (Down w s) ∷ past) →
        held (newer ++ change All (Down w s) ∷ past) w ≢ Some s }
{}

/// A node is ready to send only in the held session, and is ready there once the other end has opened it.
#[tactic(auto, using(crate::proofs::Readiness::ready_is_held, crate::proofs::Readiness::opened_is_ready))]
pub fn readiness_needs_the_held_session()
    ensures held { (h : History) (w s : ℕ) → ready h w ≡ Some s → held h w ≡ Some s }
    ensures opened { (h : History) (w s : ℕ) → held h w ≡ Some s → opened h w s ≡ true →
        ready h w ≡ Some s }
{}

/// If all nodes of the received paths are in the network, so are those of best routes and offers.
#[tactic(auto, using(crate::proofs::Simple::best_in, crate::proofs::Simple::offer_in))]
pub fn paths_stay_in_the_network()
    ensures best { (rules : Rules) (net : Net) (u : ℕ) (h : History) (p : ℕ) →
        has net.nodes u ≡ true → BringsPathsIn net h →
        IfSome (path_of u (best rules net u h p)) (AreIn net) }
    ensures offer { (rules : Rules) (net : Net) (u : ℕ) (h : History) (p w : ℕ) →
        has net.nodes u ≡ true → BringsPathsIn net h →
        IfSome (offer rules net u h p w) (AreIn net) }
{}

/// The order in which neighbours are tried exists as a list, and only one list is that order.
#[tactic(auto, using(crate::proofs::InOrder::ranking_is))]
pub fn the_order_of_neighbours_is_one_list()
    ensures order { (rules : Rules) (net : Net) (u : ℕ) (h : History) (p : ℕ) → IsRanking rules.before →
        IsValid net → IsOrder rules.before net u h p (order rules net u h p) }
    ensures one { (before : Ranked → Ranked → Bool) (net : Net) (u : ℕ) (h : History) (p : ℕ)
        (xs ys : List ℕ) → IsRanking before → IsOrder before net u h p xs → IsOrder before net u h p ys → xs ≡ ys }
{}

/// The best route is the own one where the node owns the prefix, else that by the first candidate by rank.
#[tactic(auto, using(crate::proofs::Answering::own_best, crate::proofs::First::best_by_rank))]
pub fn the_best_route_goes_by_the_first_candidate()
    ensures own { (rules : Rules) (net : Net) (u : ℕ) (h : History) (p : ℕ) → owns h p ≡ true →
        best rules net u h p ≡ Home }
    ensures first { (rules : Rules) (net : Net) (u : ℕ) (h : History) (p : ℕ) → owns h p ≡ false →
        best rules net u h p ≡ best_by false (slice_get (by_rank rules net u h p) 0) }
{}

/// Each candidate in the list by rank is a candidate.
#[tactic(auto, using(crate::proofs::Ranking::by_rank_is))]
pub fn candidates_by_rank_are_candidates()
    ensures { (rules : Rules) (net : Net) (u : ℕ) (h : History) (p : ℕ) (c : Choice) →
        Among c (by_rank rules net u h p) → Among c (choices net u h p) }
{}
