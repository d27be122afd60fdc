//! What a node remembers of its neighbours.
ghost use Rattle.std.specs.Prelude.{◌≡◌, ℕ, [], ◌∷◌, Some, None, IfOk, OnOk, OnErr, IfSome, IfNone, IsTrue, true, false, if◌then◌else◌, length, replicate, slice_get, option_map, option_and_then};
ghost use Rattle.std.specs.List.{AllZip};
ghost use Rattle.topology.specs.Lists.{Among, has};
ghost use Rattle.topology.specs.Net.{Net, neighbours};
ghost use Rattle.path_vector.specs.History.{History, HasScope, Accepts, change};
ghost use Rattle.path_vector.specs.Selection.{ranked};
ghost use Rattle.topology.specs.declared.names.Scope.TheVariants.{All};
ghost use Rattle.path_vector.specs.Standing.{Remembers};
ghost use Rattle.path_vector.specs.Kept.{IsCopy, Hears, Turns, Keeps, Rises, ids, names, led_by, kept_path, kept_choice, first_kept, is_sooner, told_rank, IsAhead, Outranks, IsOutranked, WithdrawsNothing};

use crate::candidates::{Candidate, candidate_by};
use crate::{Cause, LikelyPlaces, Policy, Ranked};
use std::alloc::Global;
use topology::{NoMemory, NodeId, Path, PrefixId, Relation, Scope, Session, Topology};

/// What a node remembers of one neighbour. `told` has the neighbour's candidate for each prefix, at the prefix's place.
#[derive(Drop)]
pub struct Neighbour {
    pub id: NodeId,
    pub relation: Relation,
    pub held: Option<Session>,
    pub highest: Session,
    pub preference: u32,
    pub told: Vec<Option<Candidate>>,
}

// A candidate: the place of its neighbour in the list, and its rank.
#[derive(Clone, Copy)]
struct Found {
    place: usize,
    rank: Ranked,
}

// A neighbour that sends an update: the rank of its candidate before and after.
#[derive(Clone, Copy)]
struct Rival {
    nbr: NodeId,
    old: Option<Ranked>,
    new: Option<Ranked>,
}

impl Neighbour {
    // The neighbour's candidate for a prefix.
    pub(crate) fn candidate(&self, prefix: PrefixId) -> Option<&Candidate>
        ensures { option_map (λ candidate. candidate.now) result ≡ kept_path prefix self.now }
    {
        match self.told.get(prefix.place() as usize) {
            None => None,
            Some(candidate) => candidate.as_ref(),
        }
    }

    // The rank of the neighbour's candidate.
    pub(crate) fn rank(&self, prefix: PrefixId) -> Option<Ranked>
        ensures { result ≡ option_map ranked (kept_choice prefix self.now) }
    {
        let candidate = self.candidate(prefix)?;
        Some(self.rank_of(candidate))
    }

    // The rank of this candidate as the neighbour's.
    pub(crate) fn rank_of(&self, candidate: &Candidate) -> Ranked
        ensures { result ≡ record { nbr = self.now.id; preference = self.now.preference; length = length candidate.now } }
    {
        Ranked {
            nbr: self.id,
            preference: self.preference,
            length: candidate.len() as u32,
        }
    }

    // The ranks of the neighbour's candidate before and after an update with this path.
    fn as_rival(&self, prefix: PrefixId, path: &Option<Path>) -> Rival
        ensures nbr { result.nbr ≡ self.now.id }
        ensures old { result.old ≡ option_map ranked (kept_choice prefix self.now) }
        ensures new { result.new ≡ option_map (told_rank self.now.id self.now.preference) path.now }
    {
        Rival {
            nbr: self.id,
            old: self.rank(prefix),
            new: self.rank_by(path),
        }
    }

    // The rank of a candidate with this path.
    fn rank_by(&self, path: &Option<Path>) -> Option<Ranked>
        ensures { result ≡ option_map (told_rank self.now.id self.now.preference) path.now }
    {
        match path {
            None => None,
            Some(path) => Some(Ranked {
                nbr: self.id,
                preference: self.preference,
                length: path.nodes().len() as u32 + 1,
            }),
        }
    }

    // An equal copy.
    fn copy(&self) -> Result<Neighbour, NoMemory>
        ensures { IfOk result (λ copy. IsCopy self.now copy) }
    {
        Ok(Neighbour {
            id: self.id,
            relation: self.relation,
            held: self.held,
            highest: self.highest,
            preference: self.preference,
            told: copy_row(&self.told)?,
        })
    }

    // Takes an entry of this node that names this neighbour.
    #[inline(always)]
    fn take(&mut self, scope: Scope, cause: &Cause, node: NodeId) -> Result<(), NoMemory>
        ensures remembers { OnOk result ((net : Net) (past : History) → Remembers net node past self.old →
            Accepts past scope cause.now → names cause.now ≡ Some self.old.id →
            Remembers net node (change scope cause.now ∷ past) self.new) }
        ensures id { OnOk result (self.new.id ≡ self.old.id) }
        ensures err { OnErr result (self.new ≡ self.old) }
    {
        let led = candidate_by(cause, node)?;
        self.heed(scope, cause, led);
        Ok(())
    }

    // Takes an entry that names this neighbour. `led` is the candidate that an update brings; it is `None` for a
    // withdrawal, and where the own node is on the path.
    #[inline(always)]
    fn heed(&mut self, scope: Scope, cause: &Cause, led: Option<Candidate>)
        ensures remembers { (net : Net) (u : ℕ) (past : History) → Remembers net u past self.old →
            Accepts past scope cause.now → names cause.now ≡ Some self.old.id →
            led ≡ led_by u cause.now →
            Remembers net u (change scope cause.now ∷ past) self.new }
        ensures id { self.new.id ≡ self.old.id }
    {
        match scope {
            Scope::One(prefix) => {
                if let Cause::Recv { session, .. } = cause {
                    self.hear(prefix, *session, led);
                }
            }
            Scope::All => self.turn(cause),
            Scope::Nothing => {}
        }
    }

    // Takes an update. Its path counts only if its session is held.
    fn hear(&mut self, prefix: PrefixId, session: Session, led: Option<Candidate>)
        ensures { Hears prefix session led self.old self.new }
    {
        self.highest = self.highest.max(session);
        let place = prefix.place() as usize;
        if self.held == Some(session) && place < self.told.len() {
            self.told[place] = led;
        }
    }

    // Takes an entry that concerns all prefixes.
    fn turn(&mut self, cause: &Cause)
        ensures turns { HasScope All cause.now → names cause.now ≡ Some self.old.id →
            Turns cause.now self.old self.new }
        ensures id { self.new.id ≡ self.old.id }
    {
        match cause {
            Cause::Down { session, .. } => {
                self.highest = self.highest.max(*session);
                self.held = None;
                forget(&mut self.told);
            }
            Cause::Up { session, .. } => {
                self.highest = self.highest.max(*session);
                self.held = Some(*session);
                forget(&mut self.told);
            }
            Cause::Ready { session, .. } => self.highest = self.highest.max(*session),
            Cause::Prefer { value, .. } => self.preference = *value,
            _ => {}
        }
    }
}

// Empties a row of candidates.
fn forget(told: &mut Vec<Option<Candidate>>)
    ensures { told.new.items ≡ replicate (length told.old.items) None }
{
    for place in 0..told.len() {
        told[place] = None;
    }
}

// The row of candidates of a neighbour that has told nothing.
fn nothing_told(alloc: Global, prefixes: u16) -> Result<Vec<Option<Candidate>>, NoMemory>
    ensures { IfOk result (λ told. told.items ≡ replicate prefixes None) }
{
    let mut told = Vec::with_capacity(alloc, prefixes as usize)?;
    for _prefix in 0..prefixes {
        told.push_reserved(None);
    }
    Ok(told)
}

fn copy_row(told: &Vec<Option<Candidate>>) -> Result<Vec<Option<Candidate>>, NoMemory>
    ensures { IfOk result (λ copy. copy.items ≡ told.now.items) }
{
    let mut copy = Vec::with_capacity(*told.allocator(), told.len())?;
    for candidate in told {
        copy.push_reserved(copy_candidate(candidate)?);
    }
    Ok(copy)
}

fn copy_candidate(candidate: &Option<Candidate>) -> Result<Option<Candidate>, NoMemory>
    ensures { IfOk result (λ copy. copy ≡ candidate.now) }
{
    match candidate {
        None => Ok(None),
        Some(candidate) => Ok(Some(candidate.copy()?)),
    }
}

// An equal copy of all neighbours.
pub(crate) fn copy_of(neighbours: &Vec<Neighbour>) -> Result<Vec<Neighbour>, NoMemory>
    ensures { IfOk result (λ copies. AllZip IsCopy neighbours.now.items copies.items) }
{
    let mut copies = Vec::with_capacity(*neighbours.allocator(), neighbours.len())?;
    for neighbour in neighbours {
        copies.push(neighbour.copy()?)?;
    }
    Ok(copies)
}

// A neighbour before the first entry: its first session is held.
fn neighbour_of(
    alloc: Global,
    topology: &Topology,
    node: NodeId,
    id: NodeId,
) -> Result<Neighbour, NoMemory>
    requires { has (neighbours topology.now node) id ≡ true }
    ensures id { IfOk result (λ neighbour. neighbour.id ≡ id) }
    ensures remembers { IfOk result (λ neighbour. Remembers topology.now node [] neighbour) }
{
    let Some(relation) = topology.relation(node, id) else {
        unreachable!();
    };
    Ok(Neighbour {
        id,
        relation,
        held: Some(Session::new(1)),
        highest: Session::new(1),
        preference: topology.pref(node, id),
        told: nothing_told(alloc, topology.prefix_count())?,
    })
}

// The neighbours of a node before its first entry.
pub(crate) fn neighbours_of(
    alloc: Global,
    topology: &Topology,
    node: NodeId,
) -> Result<Vec<Neighbour>, NoMemory>
    ensures { IfOk result (λ neighbours. Keeps topology.now node [] neighbours.items) }
{
    // brings in the invariant of the topology, which is about its nodes
    let _nodes = topology.nodes();
    let others = topology.neighbours(node);
    let mut neighbours = Vec::with_capacity(alloc, others.len())?;
    for id in others {
        neighbours.push(neighbour_of(alloc, topology, node, *id)?)?;
    }
    Ok(neighbours)
}

// The neighbour that an entry names.
fn named(cause: &Cause) -> Option<NodeId>
    ensures { result ≡ names cause.now }
{
    match cause {
        Cause::Originate => None,
        Cause::Withdraw => None,
        Cause::Recv { from, .. } => Some(*from),
        Cause::Down { nbr, .. } => Some(*nbr),
        Cause::Up { nbr, .. } => Some(*nbr),
        Cause::Ready { nbr, .. } => Some(*nbr),
        Cause::Prefer { nbr, .. } => Some(*nbr),
        Cause::Flush { nbr } => Some(*nbr),
    }
}

// Whether the neighbour with this number is at this place.
fn is_at(neighbours: &[Neighbour], place: usize, id: NodeId) -> bool
    ensures { IsTrue result → slice_get (ids neighbours.now) place ≡ Some id }
{
    match neighbours.get(place) {
        None => false,
        Some(neighbour) => neighbour.id == id,
    }
}

// The place of a neighbour. The guess is tried first, and is mostly right.
pub(crate) fn place_of(neighbours: &[Neighbour], likely: &LikelyPlaces, id: NodeId) -> Option<usize>
    ensures some { IfSome result (λ place. slice_get (ids neighbours.now) place ≡ Some id) }
    ensures none { Rises (ids neighbours.now) →
        IfNone result (has (ids neighbours.now) id ≡ false) }
{
    let guess = likely.guess(id);
    if is_at(neighbours, guess, id) {
        return Some(guess);
    }
    neighbours
        .binary_search_by_key(&id, |neighbour| neighbour.id)
        .ok()
}

// The neighbour with this number.
pub(crate) fn find<'a>(
    neighbours: &'a [Neighbour],
    likely: &LikelyPlaces,
    id: NodeId,
) -> Option<&'a Neighbour>
    ensures some { IfSome result (λ neighbour.
        (neighbour.now.id ≡ id) × Among neighbour.now neighbours.now) }
    ensures none { Rises (ids neighbours.now) →
        IfNone result (has (ids neighbours.now) id ≡ false) }
{
    match place_of(neighbours, likely, id) {
        None => None,
        Some(place) => Some(&neighbours[place]),
    }
}

// Takes an entry of this node.
#[inline(always)]
pub(crate) fn heed(
    neighbours: &mut Vec<Neighbour>,
    likely: &LikelyPlaces,
    scope: &Scope,
    cause: &Cause,
    node: NodeId,
) -> Result<(), NoMemory>
    ensures ok { OnOk result ((net : Net) (past : History) → Keeps net node past neighbours.old.items →
        Accepts past scope.now cause.now →
        Keeps net node (change scope.now cause.now ∷ past) neighbours.new.items) }
    ensures err { OnErr result (neighbours.new ≡ neighbours.old) }
{
    let Some(id) = named(cause) else {
        return Ok(());
    };
    let Some(place) = place_of(neighbours, likely, id) else {
        return Ok(());
    };
    neighbours[place].take(*scope, cause, node)?;
    Ok(())
}

// Whether nothing was found so far, or this rank is before what was found.
fn goes_first<P: Policy>(policy: &P, found: &Option<Found>, rank: &Ranked) -> bool
    ensures { result ≡ is_sooner (P.rules policy.now).before found.now rank.now }
{
    match found {
        None => true,
        Some(other) => policy.before(*rank, other.rank),
    }
}

// The neighbour whose candidate ranks first.
#[inline(always)]
pub(crate) fn first<'a, P: Policy>(
    policy: &P,
    neighbours: &'a [Neighbour],
    prefix: PrefixId,
) -> Option<&'a Neighbour>
    ensures first { option_and_then (λ neighbour. kept_choice prefix neighbour.now) result
        ≡ first_kept (P.rules policy.now).before prefix neighbours.now }
    ensures among { IfSome result (λ neighbour. Among neighbour.now neighbours.now) }
{
    let mut found: Option<Found> = None;
    for place in 0..neighbours.len() {
        if let Some(rank) = neighbours[place].rank(prefix) {
            if goes_first(policy, &found, &rank) {
                found = Some(Found { place, rank });
            }
        }
    }
    match found {
        None => None,
        Some(found) => neighbours.get(found.place),
    }
}

// Whether an update is a withdrawal from a neighbour that has no candidate.
pub(crate) fn withdraws_nothing(
    neighbours: &[Neighbour],
    likely: &LikelyPlaces,
    prefix: PrefixId,
    from: NodeId,
    path: &Option<Path>,
) -> bool
    ensures { IsTrue result → WithdrawsNothing prefix from path.now neighbours.now }
{
    if path.is_some() {
        return false;
    }
    let Some(teller) = find(neighbours, likely, from) else {
        return false;
    };
    teller.candidate(prefix).is_none()
}

// Whether the rank is before the other one. It is, where there is no other.
fn is_ahead<P: Policy>(policy: &P, rank: &Ranked, other: &Option<Ranked>) -> bool
    ensures { IsTrue result → IsAhead (P.rules policy.now).before rank.now other.now }
{
    match other {
        None => true,
        Some(other) => policy.before(*rank, *other),
    }
}

// Whether the other neighbour has a candidate that ranks before both the old and the new one of the rival.
fn outranks<P: Policy>(policy: &P, other: &Neighbour, prefix: PrefixId, rival: &Rival) -> bool
    ensures { IsTrue result → Outranks (P.rules policy.now).before prefix rival.now other.now }
{
    if other.id == rival.nbr {
        return false;
    }
    match other.rank(prefix) {
        None => false,
        Some(rank) => is_ahead(policy, &rank, &rival.old) && is_ahead(policy, &rank, &rival.new),
    }
}

// Whether one of these neighbours outranks the rival.
fn some_outranks<P: Policy>(
    policy: &P,
    neighbours: &[Neighbour],
    prefix: PrefixId,
    rival: &Rival,
) -> bool
    ensures { IsTrue result → (other : Neighbour) × Among other neighbours.now
        × Outranks (P.rules policy.now).before prefix rival.now other }
{
    for other in neighbours {
        if outranks(policy, other, prefix, rival) {
            return true;
        }
    }
    false
}

// Whether some other neighbour has a candidate that ranks before this neighbour's candidate, and before the one that it
// would have by this path. Then the first candidate is another neighbour's, and stays the first. Mostly one of the
// first few neighbours decides it.
pub(crate) fn is_outranked<P: Policy>(
    policy: &P,
    neighbours: &[Neighbour],
    likely: &LikelyPlaces,
    prefix: PrefixId,
    from: NodeId,
    path: &Option<Path>,
) -> bool
    ensures { IsTrue result → IsOutranked (P.rules policy.now).before prefix from path.now neighbours.now }
{
    let Some(teller) = find(neighbours, likely, from) else {
        return false;
    };
    let rival = teller.as_rival(prefix, path);
    some_outranks(policy, neighbours, prefix, &rival)
}
