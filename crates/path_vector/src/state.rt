//! The routing state of one node.
ghost use Rattle.std.specs.Prelude.{◌≡◌, ◌↔◌, ◌<◌, ◌≤◌, ℕ, [], ◌∷◌, Some, true, IsTrue, IfOk, OnOk, OnErr, length, slice_get, option_map};
ghost use Rattle.topology.specs.Lists.{has};
ghost use Rattle.topology.specs.declared.names.Scope.TheVariants.{One};
ghost use Rattle.path_vector.specs.declared.causes.Cause.TheVariants.{Recv};
ghost use Rattle.topology.specs.Net.{Net, neighbours, relation};
ghost use Rattle.path_vector.specs.History.{History, HasScope, Accepts, change, held, owns};
ghost use Rattle.path_vector.specs.Selection.{Route, candidate, best, choices, path_of};
ghost use Rattle.path_vector.specs.Offers.{offered_route, exported, may_tell};
ghost use Rattle.path_vector.specs.Standing.{StandsFor};
ghost use Rattle.path_vector.specs.Kept.{IsOfNeighbour};
ghost use Rattle.path_vector.specs.Order.{IsOrder};
ghost use Rattle.path_vector.specs.Ranking.{by_rank};
ghost use Rattle.path_vector.specs.Taken.{IsTaken, learned_so};
ghost use Rattle.path_vector.specs.Answers.{Shows, GoesFirst, Copies, behind};

use crate::candidates::Candidate;
use crate::neighbours::{self, Neighbour};
use crate::{Cause, Learned, LikelyPlaces, Policy, RankedCandidate, order, ranked_candidates};
use std::alloc::Global;
use topology::{NoMemory, NodeId, Path, PrefixId, Relation, Scope, Session, Topology};

/// The best route of a node to a prefix.
#[derive(Clone, Copy, Debug)]
pub enum Best<'a> {
    /// There is none.
    None,
    /// The node originates the prefix.
    Own,
    /// The neighbour, and the path after the own node.
    Via(NodeId, &'a [NodeId]),
}

/// A copy of a best route, to be compared with a later one: its path, which begins with the own node, and where the
/// route was learnt. The path is `None` where there was no route.
#[derive(Drop)]
pub struct Chosen {
    pub path: Option<Path>,
    pub learned: Option<Learned>,
}

impl Chosen {
    /// An equal copy, which shares the nodes of the path.
    pub fn copy(&self) -> Result<Chosen, NoMemory>
        ensures { IfOk result (λ copy. copy ≡ self.now) }
    {
        let path = match &self.path {
            None => None,
            Some(path) => Some(path.copy()?),
        };
        Ok(Chosen {
            path,
            learned: self.learned,
        })
    }
}

// A route: the own one, or the candidate of a neighbour that has this relation.
#[derive(Clone, Copy)]
enum Taken<'a> {
    Own,
    By(NodeId, Relation, &'a Candidate),
}

/// What selection needs to know after the entries of a log; it is less than the log. Prefixes are found by place,
/// neighbours by number.
#[derive(Drop)]
pub struct RouteState<P: Policy + Copy> {
    alloc: Global,
    policy: P,
    alone: Path,
    owned: Vec<bool>,
    neighbours: Vec<Neighbour>,
    likely: LikelyPlaces,
}

impl<P: Policy + Copy> RouteState<P> {
    /// The state of a node without entries.
    pub fn new(
        alloc: Global,
        topology: &Topology,
        node: NodeId,
        policy: P,
    ) -> Result<RouteState<P>, NoMemory>
        ensures { IfOk result (λ state. StandsFor policy topology.now node state []) }
    {
        // brings in the invariant of the topology, which is about its nodes
        let _nodes = topology.nodes();
        Ok(RouteState {
            alloc,
            policy,
            alone: Path::single(alloc, node)?,
            owned: vec![in alloc; false; topology.prefix_count() as usize]?,
            neighbours: neighbours::neighbours_of(alloc, topology, node)?,
            likely: LikelyPlaces::of(topology.neighbours(node)),
        })
    }

    /// The policy that the state was made with.
    pub fn policy(&self) -> P
        ensures { (policy : P) (net : Net) (u : ℕ) (h : History) →
            StandsFor policy net u self.now h → result ≡ policy }
    {
        self.policy
    }

    /// The session that the node holds with a neighbour.
    pub fn held(&self, nbr: NodeId) -> Option<Session>
        ensures { (policy : P) (net : Net) (u : ℕ) (h : History) →
            StandsFor policy net u self.now h →
            has (neighbours net u) nbr ≡ true → result ≡ held h nbr }
    {
        neighbours::find(&self.neighbours, &self.likely, nbr)?.held
    }

    /// Whether an entry may follow the entries so far: it has the scope that its cause requires, and an `Up` opens a
    /// session above all that were named before. If the entry names a node, that must be a neighbour.
    pub fn accepts(&self, scope: Scope, cause: &Cause) -> bool
        ensures { (policy : P) (net : Net) (u : ℕ) (past : History) →
            StandsFor policy net u self.now past →
            IsOfNeighbour net u cause.now → IsTrue result ↔ Accepts past scope cause.now }
    {
        if !has_scope(scope, cause) {
            return false;
        }
        match cause {
            Cause::Up { nbr, session } => match neighbours::find(
                &self.neighbours,
                &self.likely,
                *nbr,
            ) {
                None => false,
                Some(neighbour) => neighbour.highest < *session,
            },
            _ => true,
        }
    }

    /// Takes one more entry of the log. If the entry may not follow those before it, nothing is promised of the state.
    #[inline(always)]
    pub fn apply(&mut self, scope: Scope, cause: &Cause) -> Result<(), NoMemory>
        ensures ok { OnOk result ((policy : P) (net : Net) (u : ℕ) (past : History) →
            StandsFor policy net u self.old past → Accepts past scope cause.now →
            StandsFor policy net u self.new (change scope cause.now ∷ past)) }
        ensures err { OnErr result (self.new ≡ self.old) }
    {
        let node = self.node();
        neighbours::heed(&mut self.neighbours, &self.likely, &scope, cause, node)?;
        mark(&mut self.owned, &scope, cause);
        Ok(())
    }

    /// An equal copy.
    pub fn copy(&self) -> Result<RouteState<P>, NoMemory>
        ensures { IfOk result (λ copy. (policy : P) (net : Net) (u : ℕ) (h : History) →
            StandsFor policy net u self.now h → StandsFor policy net u copy h) }
    {
        Ok(RouteState {
            alloc: self.alloc,
            policy: self.policy,
            alone: self.alone.copy()?,
            owned: Vec::from_slice(self.alloc, &self.owned)?,
            neighbours: neighbours::copy_of(&self.neighbours)?,
            likely: self.likely,
        })
    }

    /// Whether the node originates a prefix.
    pub fn owns(&self, prefix: PrefixId) -> bool
        ensures { (policy : P) (net : Net) (u : ℕ) (h : History) →
            StandsFor policy net u self.now h →
            prefix < length net.prefixes → result ≡ owns h prefix }
    {
        self.owned.get(prefix.place() as usize) == Some(&true)
    }

    // The candidate of a neighbour.
    fn candidate_of(&self, prefix: PrefixId, nbr: NodeId) -> Option<&Candidate>
        ensures { (policy : P) (net : Net) (u : ℕ) (h : History) →
            StandsFor policy net u self.now h →
            prefix < length net.prefixes → has (neighbours net u) nbr ≡ true →
            option_map (λ one. one.now) result ≡ candidate u h prefix nbr }
    {
        neighbours::find(&self.neighbours, &self.likely, nbr)?.candidate(prefix)
    }

    /// Puts the candidates for a prefix into the list, by rank, in the place of what it had. So one list serves for many
    /// prefixes.
    pub fn put_by_rank<'a>(
        &'a self,
        prefix: PrefixId,
        sorted: &mut Vec<RankedCandidate<'a>>,
    ) -> Result<(), NoMemory>
        ensures { OnOk result ((policy : P) (net : Net) (u : ℕ) (h : History) →
            StandsFor policy net u self.now h → prefix < length net.prefixes →
            sorted.new.items ≡ by_rank (P.rules policy) net u h prefix) }
    {
        ranked_candidates::put_by_rank(&self.policy, &self.neighbours, prefix, sorted)
    }

    /// The candidate of a neighbour, without the own node.
    pub fn candidate(&self, prefix: PrefixId, nbr: NodeId) -> Option<&[NodeId]>
        ensures { (policy : P) (net : Net) (u : ℕ) (h : History) →
            StandsFor policy net u self.now h →
            prefix < length net.prefixes → has (neighbours net u) nbr ≡ true →
            behind u (option_map (λ nodes. nodes.now) result) ≡ candidate u h prefix nbr }
    {
        Some(self.candidate_of(prefix, nbr)?.rest())
    }

    /// The best route for a prefix: the own one, otherwise the candidate that ranks first.
    pub fn best(&self, prefix: PrefixId) -> Best<'_>
        ensures best { (policy : P) (net : Net) (u : ℕ) (h : History) →
            StandsFor policy net u self.now h →
            prefix < length net.prefixes → Shows u result (best (P.rules policy) net u h prefix) }
        ensures first { (policy : P) (net : Net) (u : ℕ) (h : History) →
            StandsFor policy net u self.now h →
            GoesFirst (P.rules policy).before (choices net u h prefix)
            (best (P.rules policy) net u h prefix) }
    {
        let Some(taken) = self.taken(prefix) else {
            return Best::None;
        };
        taken.shown()
    }

    /// The neighbours: first those with a candidate for the prefix, by rank, then the others, ascending.
    pub fn order(&self, prefix: PrefixId) -> Result<Vec<NodeId>, NoMemory>
        ensures { IfOk result (λ order. (policy : P) (net : Net) (u : ℕ) (h : History) →
            StandsFor policy net u self.now h → prefix < length net.prefixes →
            IsOrder (P.rules policy).before net u h prefix order.items) }
    {
        Ok(order::order(self.alloc, &self.policy, &self.neighbours, prefix)?)
    }

    /// The path of the own node alone.
    pub fn own_path(&self) -> Result<Path, NoMemory>
        ensures { IfOk result (λ path. (policy : P) (net : Net) (u : ℕ) (h : History) →
            StandsFor policy net u self.now h → path ≡ u ∷ []) }
    {
        Ok(self.alone.copy()?)
    }

    /// A copy of the best route, to be compared with a later one. Where the route goes by a candidate, its path is a copy of
    /// the one that was made last if that has the same nodes; else the path is made, and takes its place.
    #[inline(always)]
    pub fn chosen(&self, prefix: PrefixId, made: &mut Option<Path>) -> Result<Chosen, NoMemory>
        ensures { IfOk result (λ chosen. (policy : P) (net : Net) (u : ℕ) (h : History) →
            StandsFor policy net u self.now h → prefix < length net.prefixes →
            Copies net u chosen (best (P.rules policy) net u h prefix)) }
    {
        match self.taken(prefix) {
            None => Ok(Chosen {
                path: None,
                learned: None,
            }),
            Some(Taken::Own) => Ok(Chosen {
                path: Some(self.alone.copy()?),
                learned: Some(Learned::Own),
            }),
            Some(Taken::By(_, relation, candidate)) => Ok(Chosen {
                path: Some(candidate.path_again(made)?),
                learned: Some(Learned::From(relation)),
            }),
        }
    }

    /// Whether an update is sure to leave the best route of its prefix as it is. It is where the node originates the
    /// prefix, where the neighbour withdraws without having a candidate, and where another neighbour's candidate ranks
    /// before both the old and the new one. After the answer no, the route may change or not.
    pub fn stays(&self, prefix: PrefixId, from: NodeId, path: &Option<Path>) -> bool
        ensures { (policy : P) (net : Net) (u session seq : ℕ) (h : History) → StandsFor policy net u self.now h →
            prefix < length net.prefixes → IsTrue result →
            best (P.rules policy) net u (change (One prefix) (Recv from session seq path.now) ∷ h) prefix
            ≡ best (P.rules policy) net u h prefix }
    {
        let is_own = self.owns(prefix);
        if is_own {
            return true;
        }
        let is_nothing = neighbours::withdraws_nothing(
            &self.neighbours,
            &self.likely,
            prefix,
            from,
            path,
        );
        if is_nothing {
            return true;
        }
        neighbours::is_outranked(
            &self.policy,
            &self.neighbours,
            &self.likely,
            prefix,
            from,
            path,
        )
    }

    /// What the node offers a neighbour: its best route if export allows it, otherwise none.
    pub fn offer_to(&self, topology: &Topology, prefix: PrefixId, nbr: NodeId) -> Best<'_>
        ensures { (policy : P) (u : ℕ) (h : History) → StandsFor policy topology.now u self.now h →
            prefix < length topology.now.prefixes →
            Shows u result (offered_route (P.rules policy) topology.now u h prefix nbr) }
    {
        let Some(taken) = self.taken(prefix) else {
            return Best::None;
        };
        if !self.tells(taken.learned(), topology.relation(self.node(), nbr)) {
            return Best::None;
        }
        taken.shown()
    }

    /// The path that the node offered a neighbour while `chosen` was its best route.
    pub fn offered_path<'a>(&self, chosen: &'a Chosen, nbr: NodeId) -> Option<&'a Path>
        ensures { (policy : P) (net : Net) (u : ℕ) (h : History) (route : Route) →
            StandsFor policy net u self.now h →
            Copies net u chosen.now route → has (neighbours net u) nbr ≡ true →
            option_map (λ path. path.now) result
            ≡ path_of u (exported (P.rules policy) net u nbr route) }
    {
        self.path_for(chosen, self.relation_to(nbr))
    }

    /// The path that the node offered neighbours with this relation while `chosen` was its best route.
    #[inline(always)]
    pub fn path_for<'a>(&self, chosen: &'a Chosen, to: Option<Relation>) -> Option<&'a Path>
        ensures { (policy : P) (net : Net) (u nbr : ℕ) (h : History) (route : Route) →
            StandsFor policy net u self.now h →
            Copies net u chosen.now route → to ≡ relation net u nbr →
            option_map (λ path. path.now) result
            ≡ path_of u (exported (P.rules policy) net u nbr route) }
    {
        if !self.tells(chosen.learned?, to) {
            return None;
        }
        chosen.path.as_ref()
    }

    /// The own node.
    pub fn node(&self) -> NodeId
        ensures { (policy : P) (net : Net) (u : ℕ) (h : History) →
            StandsFor policy net u self.now h → result ≡ u }
    {
        self.alone.nodes()[0]
    }

    /// What a neighbour is to the node.
    #[inline(always)]
    pub fn relation_to(&self, nbr: NodeId) -> Option<Relation>
        ensures { (policy : P) (net : Net) (u : ℕ) (h : History) →
            StandsFor policy net u self.now h →
            has (neighbours net u) nbr ≡ true → result ≡ relation net u nbr }
    {
        Some(neighbours::find(&self.neighbours, &self.likely, nbr)?.relation)
    }

    // The best route for a prefix.
    #[inline(always)]
    fn taken(&self, prefix: PrefixId) -> Option<Taken<'_>>
        ensures { (policy : P) (net : Net) (u : ℕ) (h : History) →
            StandsFor policy net u self.now h →
            prefix < length net.prefixes →
            IsTaken net u result (best (P.rules policy) net u h prefix) }
    {
        if self.owns(prefix) {
            return Some(Taken::Own);
        }
        let neighbour = neighbours::first(&self.policy, &self.neighbours, prefix)?;
        let candidate = neighbour.candidate(prefix)?;
        Some(Taken::By(neighbour.id, neighbour.relation, candidate))
    }

    // Whether a route learnt like this is offered to a neighbour with this relation.
    #[inline(always)]
    fn tells(&self, learned: Learned, to: Option<Relation>) -> bool
        ensures { result ≡ may_tell (P.rules self.now.policy) (Some learned) to }
    {
        match to {
            None => false,
            Some(to) => self.policy.allows(learned, to),
        }
    }
}

impl<'a> Taken<'a> {
    // The route as callers see it.
    fn shown(&self) -> Best<'a>
        ensures { (net : Net) (u : ℕ) (route : Route) → IsTaken net u (Some self.now) route → Shows u result route }
    {
        match self {
            Taken::Own => Best::Own,
            Taken::By(nbr, _, candidate) => Best::Via(*nbr, candidate.rest()),
        }
    }

    // Where the route was learnt.
    fn learned(&self) -> Learned
        ensures { result ≡ learned_so self.now }
    {
        match self {
            Taken::Own => Learned::Own,
            Taken::By(_, relation, _) => Learned::From(*relation),
        }
    }
}

// Whether an entry has the scope that its cause requires.
fn has_scope(scope: Scope, cause: &Cause) -> bool
    ensures { IsTrue result ↔ HasScope scope cause.now }
{
    match scope {
        Scope::One(_) => match cause {
            Cause::Originate => true,
            Cause::Withdraw => true,
            Cause::Recv { .. } => true,
            _ => false,
        },
        Scope::All => match cause {
            Cause::Down { .. } => true,
            Cause::Up { .. } => true,
            Cause::Ready { .. } => true,
            Cause::Prefer { .. } => true,
            _ => false,
        },
        Scope::Nothing => match cause {
            Cause::Flush { .. } => true,
            _ => false,
        },
    }
}

// Sets whether the node originates a prefix, if the cause is `Originate` or `Withdraw` and the network has the prefix.
fn mark(owned: &mut Vec<bool>, scope: &Scope, cause: &Cause)
    ensures places { length owned.new.items ≡ length owned.old.items }
    ensures owns { (past : History) (p : ℕ) → Accepts past scope.now cause.now →
        p < length owned.old.items →
        slice_get owned.old.items p ≡ Some (owns past p) →
        slice_get owned.new.items p ≡ Some (owns (change scope.now cause.now ∷ past) p) }
{
    let Scope::One(prefix) = *scope else {
        return;
    };
    let place = prefix.place() as usize;
    if place >= owned.len() {
        return;
    }
    match cause {
        Cause::Originate => owned[place] = true,
        Cause::Withdraw => owned[place] = false,
        _ => {}
    }
}
