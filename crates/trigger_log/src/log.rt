//! The log of a node.
ghost use Rattle.std.specs.Prelude.{ℕ, suc, ◌≡◌, ◌<◌, ◌≤◌, ◌⊎◌, ◌↔◌, ◌-◌, ◌^◌, [], ◌∷◌, ◌++◌, true, List, drop, length, map, slice_get, is_some, Some, None, false, IsTrue, IsNone, IfOk, IfSome, IfNone, OnOk, OnErr, if◌then◌else◌};
ghost use Rattle.std.specs.List.{AllZip};
ghost use Rattle.topology.specs.Lists.{has};
ghost use Rattle.topology.specs.Net.{Net, neighbours};
ghost use Rattle.path_vector.specs.History.{held, last, ready};
ghost use Rattle.topology.specs.declared.names.Scope.TheVariants.{One, All, Nothing};
ghost use Rattle.path_vector.specs.declared.causes.Cause.TheVariants.{Down, Ready};
ghost use Rattle.path_vector.specs.Kept.{IsOfNeighbour};
ghost use Rattle.path_vector.specs.Standing.{StandsFor as RoutesStandFor};
ghost use Rattle.trigger_log.specs.Entries.{Entry as Logged, entry, reads, inbox, is_local, is_session, next_trigger};
ghost use Rattle.trigger_log.specs.Sending.{sent_count};
ghost use Rattle.trigger_log.specs.Going.{going_of, going_by};
ghost use Rattle.trigger_log.specs.Fits.{CauseFits, ListsFor, MayFollow};
ghost use Rattle.trigger_log.specs.Pending.{pending_rows};
ghost use Rattle.trigger_log.specs.Due.{SendsWhatIsDue};
ghost use Rattle.trigger_log.specs.Sessions.{ever, Says, AreAllMarks};
ghost use Rattle.trigger_log.specs.Offered.{AreSame, IsPlaced, prefixes_of};
ghost use Rattle.trigger_log.specs.Quiet.{Stays};
ghost use Rattle.trigger_log.specs.Entered.{Entered, all_entered, Shows};
ghost use Rattle.trigger_log.specs.Dropping.{trimmed, base_of};
ghost use Rattle.trigger_log.specs.KeptEntries.{KeepsEntries};
ghost use Rattle.trigger_log.specs.Standing.{StandsFor, dropped_of};
ghost use Rattle.trigger_log.specs.Making.{making};
ghost use Rattle.trigger_log.specs.Midway.{AreOffers, IsMade, IsMidway};

use crate::best_routes::BestRoutes;
use crate::entries::Entry;
use crate::held_back::HeldBack;
use crate::kept_entries::KeptEntries;
use crate::listeners::Said;
use crate::outgoing::Outgoing;
use crate::sessions::{SessionMark, Sessions};
use path_vector::{Cause, Policy, RouteState};
use std::alloc::Global;
use topology::{
    NoMemory, NodeId, Path, Pending, PrefixId, Scope, Session, Topology, Trigger, Triggers,
};

mod entering;

/// The entries of a node, the oldest first, and what the node needs to make the next one: its routes, the best of them
/// for each prefix, its sessions, what it holds back, the number of its entries and the counter of its next trigger. A
/// log may drop its first entries. It still counts them, the other entries keep their places, and the routes after the
/// dropped entries are kept.
#[derive(Drop)]
pub struct NodeLog<P: Policy + Copy> {
    alloc: Global,
    node: NodeId,
    routes: RouteState<P>,
    sessions: Sessions,
    held_back: HeldBack,
    kept: KeptEntries<P>,
    next_count: u32,
    // The lists of what an entry tells, used again for each entry. Between two entries their contents mean nothing.
    said: Said,
    best: BestRoutes,
}

impl<P: Policy + Copy> NodeLog<P> {
    /// The log of a node without entries.
    pub fn new(
        alloc: Global,
        topology: &Topology,
        node: NodeId,
        policy: P,
    ) -> Result<NodeLog<P>, NoMemory>
        ensures stands { IfOk result (λ log. StandsFor policy (P.rules policy) topology.now node log []) }
        ensures dropped { IfOk result (λ log. dropped_of log ≡ 0) }
    {
        let routes = RouteState::new(alloc, topology, node, policy)?;
        let mut said = Said::new(alloc);
        let best = BestRoutes::of(alloc, &routes, &mut said.made, topology)?;
        Ok(NodeLog {
            alloc,
            node,
            routes,
            sessions: Sessions::new(alloc, topology.neighbours(node))?,
            held_back: HeldBack::new(alloc, topology, node)?,
            kept: KeptEntries::new(alloc)?,
            next_count: 1,
            said,
            best,
        })
    }

    /// Whether an entry may follow the entries so far: an update is the next one of the held session, a `Down` ends the
    /// held session, an `Up` opens a higher session where none is held, a `Ready` is the first of the held session, an
    /// `Originate` or `Withdraw` changes the origin, and a `Flush` finds something held back. The scope must be that of
    /// the cause.
    pub fn fits(&self, scope: Scope, cause: &Cause) -> bool
        ensures { (policy : P) (net : Net) (u : ℕ) (h : List Logged) →
            StandsFor policy (P.rules policy) net u self.now h → IsOfNeighbour net u cause.now →
            IsPlaced net scope → IsTrue result ↔ MayFollow (P.rules policy) net u h scope cause.now }
    {
        match scope {
            Scope::One(prefix) => self.fits_one(prefix, cause),
            Scope::All => self.fits_all(cause),
            Scope::Nothing => self.fits_nothing(cause),
        }
    }

    /// Adds one entry to the log, and returns the log and the messages that go out. The entry has to fit the entries
    /// before it. It lists at least one trigger, or none if its scope is `Nothing`. After any other entry nothing is
    /// promised of the log.
    pub fn append(
        self,
        topology: &Topology,
        triggers: Triggers,
        scope: Scope,
        cause: Cause,
    ) -> Result<(NodeLog<P>, Vec<Outgoing>), NoMemory>
        ensures log { IfOk result (λ r. (policy : P) (u : ℕ) (h : List Logged) →
            StandsFor policy (P.rules policy) topology.now u self h → IsOfNeighbour topology.now u cause →
            IsPlaced topology.now scope → CauseFits h scope cause → ListsFor scope triggers →
            StandsFor policy (P.rules policy) topology.now u r.0 (entry triggers scope cause ∷ h)) }
        ensures outgoing { IfOk result (λ r. (policy : P) (u : ℕ) (h : List Logged) →
            StandsFor policy (P.rules policy) topology.now u self h → IsOfNeighbour topology.now u cause →
            IsPlaced topology.now scope → CauseFits h scope cause → ListsFor scope triggers →
            map going_of r.1.items ≡ going_by (P.rules policy) topology.now u h (entry triggers scope cause)) }
        ensures due { IfOk result (λ r. (policy : P) (u : ℕ) (h : List Logged) →
            StandsFor policy (P.rules policy) topology.now u self h → IsOfNeighbour topology.now u cause →
            IsPlaced topology.now scope → CauseFits h scope cause → ListsFor scope triggers →
            SendsWhatIsDue (P.rules policy) topology.now u h (entry triggers scope cause) (map going_of r.1.items)) }
        ensures dropped { IfOk result (λ r. dropped_of r.0 ≡ dropped_of self) }
    {
        let mut log = self;
        let mut outgoing = Vec::new(log.alloc);
        log.enter(topology, triggers, scope, cause, &mut outgoing)?;
        Ok((log, outgoing))
    }

    /// As `append`, for a log in a box: the log stays in its place, and nothing of it is copied. The messages that go
    /// out replace the contents of `outgoing`. The conditions on the entry are those of `append`.
    pub fn append_boxed(
        log: Box<NodeLog<P>>,
        topology: &Topology,
        triggers: Triggers,
        scope: Scope,
        cause: Cause,
        outgoing: &mut Vec<Outgoing>,
    ) -> Result<Box<NodeLog<P>>, NoMemory>
        ensures log { IfOk result (λ longer. (policy : P) (u : ℕ) (h : List Logged) →
            StandsFor policy (P.rules policy) topology.now u log.value h → IsOfNeighbour topology.now u cause →
            IsPlaced topology.now scope → CauseFits h scope cause → ListsFor scope triggers →
            StandsFor policy (P.rules policy) topology.now u longer.value (entry triggers scope cause ∷ h)) }
        ensures outgoing { OnOk result ((policy : P) (u : ℕ) (h : List Logged) →
            StandsFor policy (P.rules policy) topology.now u log.value h → IsOfNeighbour topology.now u cause →
            IsPlaced topology.now scope → CauseFits h scope cause → ListsFor scope triggers →
            map going_of outgoing.new.items ≡ going_by (P.rules policy) topology.now u h (entry triggers scope cause)) }
        ensures due { OnOk result ((policy : P) (u : ℕ) (h : List Logged) →
            StandsFor policy (P.rules policy) topology.now u log.value h → IsOfNeighbour topology.now u cause →
            IsPlaced topology.now scope → CauseFits h scope cause → ListsFor scope triggers →
            SendsWhatIsDue (P.rules policy) topology.now u h (entry triggers scope cause) (map going_of outgoing.new.items)) }
        ensures dropped { IfOk result (λ longer. dropped_of longer.value ≡ dropped_of log.value) }
        ensures err { OnErr result (outgoing.new ≡ outgoing.old) }
    {
        let mut longer = log;
        longer.enter(topology, triggers, scope, cause, outgoing)?;
        Ok(longer)
    }

    /// The trigger that the next local entry gets.
    pub fn next_trigger(&self) -> Trigger
        ensures { (policy : P) (net : Net) (u : ℕ) (h : List Logged) →
            StandsFor policy (P.rules policy) net u self.now h → result ≡ next_trigger u h }
    {
        Trigger {
            node: self.node,
            count: self.next_count,
        }
    }

    /// Drops the entries before `place`. The place must lie between that of the first kept entry and one past the last
    /// entry; else nothing is promised. The base routes take the dropped entries, whose memory is freed. All readings
    /// of the log stay as they were, except that dropped entries are no longer shown. Takes time in proportion to the
    /// number of kept entries.
    pub fn drop_before(self, topology: &Topology, place: u32) -> Result<NodeLog<P>, NoMemory>
        ensures log { IfOk result (λ log. (policy : P) (u : ℕ) (h : List Logged) →
            StandsFor policy (P.rules policy) topology.now u self h →
            dropped_of self < place → place ≤ suc (length h) →
            StandsFor policy (P.rules policy) topology.now u log h) }
        ensures dropped { IfOk result (λ log. dropped_of log ≡ place - 1) }
    {
        let mut log = self;
        log.shorten(place)?;
        Ok(log)
    }

    /// As `drop_before`, for a log in a box, which stays in its place.
    pub fn drop_before_boxed(log: Box<NodeLog<P>>, place: u32) -> Result<Box<NodeLog<P>>, NoMemory>
        ensures log { IfOk result (λ shorter. (policy : P) (net : Net) (u : ℕ) (h : List Logged) →
            StandsFor policy (P.rules policy) net u log.value h →
            dropped_of log.value < place → place ≤ suc (length h) →
            StandsFor policy (P.rules policy) net u shorter.value h) }
        ensures dropped { IfOk result (λ shorter. dropped_of shorter.value ≡ place - 1) }
    {
        let mut shorter = log;
        shorter.shorten(place)?;
        Ok(shorter)
    }

    // Drops the entries before the place.
    fn shorten(&mut self, place: u32) -> Result<(), NoMemory>
        ensures log { OnOk result ((policy : P) (net : Net) (u : ℕ) (h : List Logged) →
            StandsFor policy (P.rules policy) net u self.old h →
            dropped_of self.old < place → place ≤ suc (length h) →
            StandsFor policy (P.rules policy) net u self.new h) }
        ensures dropped { OnOk result (dropped_of self.new ≡ place - 1) }
    {
        if place == self.kept.from() {
            return Ok(());
        }
        if place == self.kept.next() {
            self.kept.drop_all();
            return Ok(());
        }
        self.kept.drop_before(place)
    }

    /// The path of the best route of a prefix after all entries, with the own node in front: a path to compare with, for
    /// a caller that makes paths from the routes of this log. No contract mentions it.
    pub fn best_path(&self, prefix: PrefixId) -> Option<&Path> {
        self.best.path(prefix)
    }

    /// The number of entries ever made, dropped entries included.
    pub fn len(&self) -> u32
        ensures { (policy : P) (net : Net) (u : ℕ) (h : List Logged) →
            StandsFor policy (P.rules policy) net u self.now h → result ≡ length h }
    {
        self.kept.count()
    }

    /// The place of the first entry that is kept, from 1; one past the last place if all were dropped. A log is never
    /// so long that its next entry would have no place.
    pub fn kept_from(&self) -> u32
        ensures place { (policy : P) (net : Net) (u : ℕ) (h : List Logged) →
            StandsFor policy (P.rules policy) net u self.now h → result ≡ suc (dropped_of self.now) }
        ensures few { (policy : P) (net : Net) (u : ℕ) (h : List Logged) →
            StandsFor policy (P.rules policy) net u self.now h → suc (length h) < 2 ^ 32 }
    {
        // the next entry has a place, a number of four bytes
        let _next = self.kept.next();
        self.kept.from()
    }

    /// The routes after the entries that were dropped.
    pub fn base(&self) -> &RouteState<P>
        ensures { (policy : P) (net : Net) (u : ℕ) (h : List Logged) →
            StandsFor policy (P.rules policy) net u self.now h →
            RoutesStandFor policy net u result.now (reads (base_of (trimmed (dropped_of self.now) h))) }
    {
        match self.kept.base() {
            Some(base) => base,
            None => &self.routes,
        }
    }

    /// The entry at an index, from 1. The answer is `None` exactly where there is no such entry, or it was dropped.
    pub fn entry(&self, index: u32) -> Option<&Entry>
        ensures some { IfSome result (λ shown. (policy : P) (net : Net) (u : ℕ) (h : List Logged) →
            StandsFor policy (P.rules policy) net u self.now h →
            (one : Entered) × (slice_get (all_entered h) (index - 1) ≡ Some one) × Shows (P.rules policy) net u one shown.now) }
        ensures none { (policy : P) (net : Net) (u : ℕ) (h : List Logged) →
            StandsFor policy (P.rules policy) net u self.now h →
            IsNone result ↔ ((index ≤ dropped_of self.now) ⊎ (length h < index)) }
    {
        let place = index.checked_sub(self.kept.from())?;
        self.kept.as_slice().get(place as usize)
    }

    /// All kept entries, the oldest first.
    pub fn entries(&self) -> &[Entry]
        ensures { (policy : P) (net : Net) (u : ℕ) (h : List Logged) →
            StandsFor policy (P.rules policy) net u self.now h →
            AllZip (Shows (P.rules policy) net u) (drop (dropped_of self.now) (all_entered h)) result.now }
    {
        self.kept.as_slice()
    }

    /// How many items the entries list for a neighbour in a session, the `close` included.
    pub fn sent_count(&self, nbr: NodeId, session: Session) -> u32
        ensures { (policy : P) (net : Net) (u : ℕ) (h : List Logged) →
            StandsFor policy (P.rules policy) net u self.now h → has (neighbours net u) nbr ≡ true →
            result ≡ sent_count (P.rules policy) net u h nbr session }
    {
        match self.mark_of(nbr, session) {
            None => 0,
            Some(mark) => mark.sent,
        }
    }

    /// How many updates were received from a neighbour in a session.
    pub fn received(&self, nbr: NodeId, session: Session) -> u32
        ensures { (policy : P) (net : Net) (u : ℕ) (h : List Logged) →
            StandsFor policy (P.rules policy) net u self.now h → has (neighbours net u) nbr ≡ true →
            result ≡ length (inbox h nbr session) }
    {
        match self.mark_of(nbr, session) {
            None => 0,
            Some(mark) => mark.received,
        }
    }

    /// How many updates were received from a neighbour in a session; `None` unless that session is held with it.
    #[inline(always)]
    pub fn received_in_held(&self, nbr: NodeId, session: Session) -> Option<u32>
        ensures { (policy : P) (net : Net) (u : ℕ) (h : List Logged) →
            StandsFor policy (P.rules policy) net u self.now h → has (neighbours net u) nbr ≡ true →
            result ≡ (if is_session (held (reads h) nbr) session then Some (length (inbox h nbr session)) else None) }
    {
        let mark = self.newest(nbr)?;
        let held = mark.held()?;
        if held == session {
            return Some(mark.received);
        }
        None
    }

    /// The session that is held with a neighbour.
    pub fn held(&self, nbr: NodeId) -> Option<Session>
        ensures { (policy : P) (net : Net) (u : ℕ) (h : List Logged) →
            StandsFor policy (P.rules policy) net u self.now h → has (neighbours net u) nbr ≡ true →
            result ≡ held (reads h) nbr }
    {
        self.newest(nbr)?.held()
    }

    /// Whether the other end has opened the held session too.
    pub fn ready(&self, nbr: NodeId) -> bool
        ensures { (policy : P) (net : Net) (u : ℕ) (h : List Logged) →
            StandsFor policy (P.rules policy) net u self.now h → has (neighbours net u) nbr ≡ true →
            result ≡ is_some (ready (reads h) nbr) }
    {
        match self.newest(nbr) {
            None => false,
            Some(mark) => mark.is_ready(),
        }
    }

    /// The routes after all entries.
    pub fn live(&self) -> &RouteState<P>
        ensures { (policy : P) (net : Net) (u : ℕ) (h : List Logged) →
            StandsFor policy (P.rules policy) net u self.now h →
            RoutesStandFor policy net u result.now (reads h) }
    {
        &self.routes
    }

    /// One mark for each session that was ever held, by neighbour, then by session. Session 1 with each neighbour
    /// counts as held from the start.
    pub fn sessions(&self) -> &[SessionMark]
        ensures { (policy : P) (net : Net) (u : ℕ) (h : List Logged) →
            StandsFor policy (P.rules policy) net u self.now h →
            AreAllMarks (P.rules policy) net u h result.now }
    {
        self.sessions.marks()
    }

    /// What is held back: a row for each neighbour and prefix of which an update is held back, by ascending neighbour,
    /// then by prefix in file order. A row lists the triggers of the entries whose updates it holds, including entries
    /// that were dropped.
    pub fn pending(&self) -> &[Pending]
        ensures { (policy : P) (net : Net) (u : ℕ) (h : List Logged) →
            StandsFor policy (P.rules policy) net u self.now h →
            result.now ≡ pending_rows (P.rules policy) net u h }
    {
        self.held_back.rows()
    }

    // Whether an entry of one prefix may follow.
    fn fits_one(&self, prefix: PrefixId, cause: &Cause) -> bool
        ensures { (policy : P) (net : Net) (u : ℕ) (h : List Logged) →
            StandsFor policy (P.rules policy) net u self.now h → IsOfNeighbour net u cause.now →
            prefix < length net.prefixes → IsTrue result ↔ CauseFits h (One prefix) cause.now }
    {
        match cause {
            Cause::Originate => !self.routes.owns(prefix),
            Cause::Withdraw => self.routes.owns(prefix),
            Cause::Recv {
                from,
                session,
                seq,
                ..
            } => self.holds(*from, *session) && self.is_next(*from, *session, *seq),
            _ => false,
        }
    }

    // Whether an entry of all prefixes may follow.
    fn fits_all(&self, cause: &Cause) -> bool
        ensures { (policy : P) (net : Net) (u : ℕ) (h : List Logged) →
            StandsFor policy (P.rules policy) net u self.now h → IsOfNeighbour net u cause.now →
            IsTrue result ↔ CauseFits h All cause.now }
    {
        match cause {
            Cause::Down { nbr, session } => self.holds(*nbr, *session),
            Cause::Up { nbr, session } => self.may_open(*nbr, *session),
            Cause::Ready { nbr, session } => self.holds(*nbr, *session) && !self.ready(*nbr),
            Cause::Prefer { .. } => true,
            _ => false,
        }
    }

    // Whether an entry of no prefix may follow: something is held back from its neighbour.
    fn fits_nothing(&self, cause: &Cause) -> bool
        ensures { (policy : P) (net : Net) (u : ℕ) (h : List Logged) →
            StandsFor policy (P.rules policy) net u self.now h → IsOfNeighbour net u cause.now →
            IsTrue result ↔ MayFollow (P.rules policy) net u h Nothing cause.now }
    {
        match cause {
            Cause::Flush { nbr } => self.held_back.has_some(*nbr),
            _ => false,
        }
    }

    // The mark of the newest session with a neighbour.
    #[inline(always)]
    fn newest(&self, nbr: NodeId) -> Option<&SessionMark>
        ensures some { IfSome result (λ mark. (policy : P) (net : Net) (u : ℕ) (h : List Logged) →
            StandsFor policy (P.rules policy) net u self.now h →
            Says h nbr (last (reads h) nbr) (sent_count (P.rules policy) net u h nbr (last (reads h) nbr)) mark.now) }
        ensures none { IfNone result ((policy : P) (net : Net) (u : ℕ) (h : List Logged) →
            StandsFor policy (P.rules policy) net u self.now h → has (neighbours net u) nbr ≡ false) }
    {
        let place = self.sessions.place_of(nbr)?;
        Some(self.sessions.newest(place))
    }

    // The mark of a session with a neighbour. It mostly is that of the newest session, which is looked at first.
    fn mark_of(&self, nbr: NodeId, session: Session) -> Option<&SessionMark>
        ensures some { IfSome result (λ mark. (policy : P) (net : Net) (u : ℕ) (h : List Logged) →
            StandsFor policy (P.rules policy) net u self.now h → has (neighbours net u) nbr ≡ true →
            Says h nbr session (sent_count (P.rules policy) net u h nbr session) mark.now) }
        ensures none { IfNone result ((policy : P) (net : Net) (u : ℕ) (h : List Logged) →
            StandsFor policy (P.rules policy) net u self.now h → has (neighbours net u) nbr ≡ true →
            has (ever h nbr) session ≡ false) }
    {
        let newest = self.newest(nbr)?;
        if newest.session == session {
            return Some(newest);
        }
        self.sessions.find(nbr, session)
    }

    // Whether this session is held with the neighbour.
    fn holds(&self, nbr: NodeId, session: Session) -> bool
        ensures { (policy : P) (net : Net) (u : ℕ) (h : List Logged) →
            StandsFor policy (P.rules policy) net u self.now h → has (neighbours net u) nbr ≡ true →
            IsTrue result ↔ (held (reads h) nbr ≡ Some session) }
    {
        match self.held(nbr) {
            None => false,
            Some(held) => held == session,
        }
    }

    // Whether the next update of the neighbour in the session has this number.
    fn is_next(&self, nbr: NodeId, session: Session, seq: u32) -> bool
        ensures { (policy : P) (net : Net) (u : ℕ) (h : List Logged) →
            StandsFor policy (P.rules policy) net u self.now h → has (neighbours net u) nbr ≡ true →
            IsTrue result ↔ (seq ≡ suc (length (inbox h nbr session))) }
    {
        match self.received(nbr, session).checked_add(1) {
            None => false,
            Some(next) => next == seq,
        }
    }

    // Whether no session is held with the neighbour, and this one is above all so far.
    fn may_open(&self, nbr: NodeId, session: Session) -> bool
        ensures { (policy : P) (net : Net) (u : ℕ) (h : List Logged) →
            StandsFor policy (P.rules policy) net u self.now h → has (neighbours net u) nbr ≡ true →
            IsTrue result ↔ ((held (reads h) nbr ≡ None) × (last (reads h) nbr < session)) }
    {
        match self.newest(nbr) {
            None => false,
            Some(mark) => mark.down.is_some() && mark.session < session,
        }
    }
}
