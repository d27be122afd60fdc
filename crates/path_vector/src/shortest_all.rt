//! Shortest paths, without regard to relations.
use crate::{Learned, Policy, Ranked};
use topology::Relation;

/// Fewer nodes first, then the lower neighbour; preferences do not count. Every route is offered to everybody.
#[derive(Clone, Copy, Debug, PartialEq, Eq)]
pub struct ShortestAll;

impl Policy for ShortestAll {
    ghost use Rattle.path_vector.specs.ShortestAll.{shortest_all, shortest_all_ranking};

    ghost rules = { λ _. shortest_all };

    ghost ranking = { λ _. shortest_all_ranking };

    fn before(&self, a: Ranked, b: Ranked) -> bool {
        if a.length != b.length {
            return a.length < b.length;
        }
        a.nbr < b.nbr
    }

    fn allows(&self, _learned: Learned, _to: Relation) -> bool {
        true
    }
}
