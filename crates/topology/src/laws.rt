//! Laws of every network, and of lists of triggers. A call of a law gives the caller's proof what the law says.
ghost use Rattle.std.specs.Prelude.{◌≡◌, ◌≢◌, ◌||◌, ◌⊎◌, ℕ, Bool, List, false, length, option_map, is_some, IsTrue};
ghost use Rattle.std.specs.List.{list_any};
ghost use Rattle.std.specs.List.Sorted.{IsStrictlyIncreasing};
ghost use Rattle.topology.specs.declared.names.Trigger.{Trigger};
ghost use Rattle.topology.specs.Limits.{CountsEndAt, NumbersEndAt};
ghost use Rattle.topology.specs.Lists.{Among, ascending, has};
ghost use Rattle.topology.specs.Paths.{differ};
ghost use Rattle.topology.specs.Triggers.{Ascend, union};
ghost use Rattle.topology.specs.Net.{Net, IsValid, linked, neighbours, relation, converse};

/// `ascending` keeps the numbers of a list; where they differ, each is above the one before.
#[tactic(auto, using(crate::proofs::Ascending::increasing_ascending, crate::proofs::Ascending::kept_ascending))]
pub fn ascending_is_sorted()
    ensures rises { (numbers : List ℕ) → IsTrue (differ numbers) → IsStrictlyIncreasing (ascending numbers) }
    ensures same { (numbers : List ℕ) (n : ℕ) → has (ascending numbers) n ≡ has numbers n }
    ensures length { (numbers : List ℕ) → length (ascending numbers) ≡ length numbers }
{}

/// The neighbours of a node are the nodes that it has a link with, in ascending order. Being a neighbour is mutual, and
/// no node is its own neighbour.
#[tactic(auto, using(crate::proofs::Neighbours::neighbours_linked, crate::proofs::Neighbours::increasing_neighbours, crate::proofs::Neighbours::neighbours_mutual, crate::proofs::Neighbours::no_neighbour_of_itself))]
pub fn neighbours_are_linked()
    ensures linked { (net : Net) (u v : ℕ) → IsValid net → has (neighbours net u) v ≡ linked net u v }
    ensures rises { (net : Net) (u : ℕ) → IsValid net → IsStrictlyIncreasing (neighbours net u) }
    ensures mutual { (net : Net) (u v : ℕ) → IsValid net
        → has (neighbours net u) v ≡ has (neighbours net v) u }
    ensures not_own { (net : Net) (u : ℕ) → IsValid net → has (neighbours net u) u ≡ false }
{}

/// Two nodes have a relation exactly where they have a link. The other end has the converse relation.
#[tactic(auto, using(crate::proofs::Relations::relation_linked, crate::proofs::Relations::relation_converse))]
pub fn relations_are_converse()
    ensures linked { (net : Net) (u v : ℕ) → is_some (relation net u v) ≡ linked net u v }
    ensures converse { (net : Net) (u v : ℕ) → u ≢ v
        → relation net v u ≡ option_map converse (relation net u v) }
{}

/// A union has the members of both lists, and ascends where the second list does. It is the only such list, however it
/// was made.
#[tactic(auto, using(crate::proofs::Unions::in_union, crate::proofs::Unions::of_union, crate::proofs::Unions::any_union, crate::proofs::Unions::union_ascends))]
pub fn a_union_has_the_triggers_of_both()
    ensures into { (t : Trigger) (ts us : List Trigger) → Among t ts ⊎ Among t us → Among t (union ts us) }
    ensures out_of { (t : Trigger) (ts us : List Trigger) → Among t (union ts us) → Among t ts ⊎ Among t us }
    ensures passes { (test : Trigger → Bool) (ts us : List Trigger) →
        list_any test (union ts us) ≡ (list_any test ts || list_any test us) }
    ensures ascends { (ts us : List Trigger) → Ascend us → Ascend (union ts us) }
    ensures only { (ts us xs : List Trigger) → Ascend us → Ascend xs →
        ((x : Trigger) → Among x xs → Among x ts ⊎ Among x us) →
        ((x : Trigger) → Among x ts ⊎ Among x us → Among x xs) → xs ≡ union ts us }
{}

/// Each limit and each range ends at the number that `specs/Limits.antt` writes out.
#[tactic(auto, using(crate::proofs::Numbers::counts_end, crate::proofs::Numbers::numbers_end))]
pub fn limits_end_there()
    ensures counts { CountsEndAt }
    ensures numbers { NumbersEndAt }
{}
