//! Candidates by rank.
ghost use Rattle.std.specs.Prelude.{◌≡◌, ◌≤◌, ◌∷◌, IfOk, OnOk, length};
ghost use Rattle.std.specs.List.{insert};
ghost use Rattle.path_vector.specs.Selection.{ranked};
ghost use Rattle.path_vector.specs.Kept.{kept_choice};
ghost use Rattle.path_vector.specs.Ranking.{put_choice, kept_by_rank};

use crate::neighbours::Neighbour;
use crate::{Candidate, Policy, Ranked};
use std::marker::Model;
use topology::{NoMemory, NodeId, Path, PrefixId};

/// The candidate of a neighbour, with its rank.
#[derive(Drop)]
pub struct RankedCandidate<'a> {
    rank: Ranked,
    candidate: &'a Candidate,
}

impl<'a> Model for RankedCandidate<'a> {
    ghost use Rattle.std.specs.Prelude.{◌≡◌, length};
    ghost use Rattle.path_vector.specs.Selection.{Choice};

    ghost Value = { Choice };

    ghost view = { λ c. record { nbr = c.rank.nbr; preference = c.rank.preference; path = c.candidate.now } };

    ghost invariant = { λ c. c.rank.length ≡ length c.candidate.now };
}

impl<'a> RankedCandidate<'a> {
    // The candidate of the neighbour for a prefix.
    fn of(neighbour: &'a Neighbour, prefix: PrefixId) -> Option<RankedCandidate<'a>>
        ensures { result ≡ kept_choice prefix neighbour.now }
    {
        let candidate = neighbour.candidate(prefix)?;
        Some(RankedCandidate {
            rank: neighbour.rank_of(candidate),
            candidate,
        })
    }

    // Whether the policy takes it before the other one.
    fn is_before<P: Policy>(&self, other: &RankedCandidate<'_>, policy: &P) -> bool
        ensures { result ≡ (P.rules policy.now).before (ranked self.now) (ranked other.now) }
    {
        policy.before(self.rank, other.rank)
    }

    /// The neighbour that told it.
    pub fn nbr(&self) -> NodeId
        ensures { result ≡ self.now.nbr }
    {
        self.rank.nbr
    }

    /// The own node, and the nodes after it, which are those that the neighbour told.
    pub fn nodes(&self) -> (NodeId, &'a [NodeId])
        ensures { self.now.path ≡ result.0 ∷ result.1.now }
    {
        (self.candidate.own(), self.candidate.rest())
    }

    /// The path with the own node in front. It is a copy of the known path where that has the same nodes.
    pub fn path(&self, known: Option<&Path>) -> Result<Path, NoMemory>
        ensures { IfOk result (λ path. path ≡ self.now.path) }
    {
        self.candidate.path(known)
    }
}

// Where a candidate goes among candidates by rank: in front of the first that it is before.
fn place_for<P: Policy>(
    policy: &P,
    sorted: &[RankedCandidate<'_>],
    one: &RankedCandidate<'_>,
) -> usize
    ensures within { result ≤ length sorted.now }
    ensures put { insert sorted.now result one.now
        ≡ put_choice (P.rules policy.now).before one.now sorted.now }
{
    for place in 0..sorted.len() {
        if one.is_before(&sorted[place], policy) {
            return place;
        }
    }
    sorted.len()
}

// Inserts the candidate at this place. Most go to the end, where none has to move.
#[inline(always)]
fn put_at<'a>(
    sorted: &mut Vec<RankedCandidate<'a>>,
    place: usize,
    one: RankedCandidate<'a>,
) -> Result<(), NoMemory>
    requires { place ≤ length sorted.old.items }
    ensures { OnOk result (sorted.new.items ≡ insert sorted.old.items place one.entry) }
{
    if place == sorted.len() {
        sorted.push(one)?;
        return Ok(());
    }
    sorted.insert(place, one)?;
    Ok(())
}

/// Puts the candidates of these neighbours for a prefix into the list, by rank, in the place of what it had.
pub(crate) fn put_by_rank<'a, P: Policy>(
    policy: &P,
    neighbours: &'a [Neighbour],
    prefix: PrefixId,
    sorted: &mut Vec<RankedCandidate<'a>>,
) -> Result<(), NoMemory>
    ensures { OnOk result (sorted.new.items ≡ kept_by_rank (P.rules policy.now).before prefix neighbours.now) }
{
    sorted.clear();
    sorted.reserve(neighbours.len())?;
    for neighbour in neighbours {
        if let Some(one) = RankedCandidate::of(neighbour, prefix) {
            let place = place_for(policy, sorted, &one);
            put_at(sorted, place, one)?;
        }
    }
    Ok(())
}
