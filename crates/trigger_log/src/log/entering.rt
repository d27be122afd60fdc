//! What a log does with a new entry.
ghost use Rattle.std.specs.Prelude.{ℕ, suc, ◌≡◌, ◌<◌, ◌∷◌, List, length, map, true, OnOk, OnErr, IfOk, IsSome, if◌then◌else◌};
ghost use Rattle.topology.specs.Net.{Net};
ghost use Rattle.topology.specs.declared.names.Scope.TheVariants.{One, All, Nothing};
ghost use Rattle.path_vector.specs.declared.causes.Cause.TheVariants.{Down, Ready};
ghost use Rattle.path_vector.specs.Kept.{IsOfNeighbour};
ghost use Rattle.trigger_log.specs.Entries.{Entry as Logged, entry, is_local};
ghost use Rattle.trigger_log.specs.Going.{going_of, going_by};
ghost use Rattle.trigger_log.specs.Fits.{CauseFits, ListsFor};
ghost use Rattle.trigger_log.specs.Offered.{AreSame, IsPlaced, prefixes_of};
ghost use Rattle.trigger_log.specs.Quiet.{Stays};
ghost use Rattle.trigger_log.specs.Entered.{Shows};
ghost use Rattle.trigger_log.specs.KeptEntries.{KeepsEntries};
ghost use Rattle.trigger_log.specs.Standing.{StandsFor, dropped_of};
ghost use Rattle.trigger_log.specs.Making.{making};
ghost use Rattle.trigger_log.specs.Midway.{AreOffers, IsMade, IsMidway};

use crate::announcements::tell_all;
use crate::best_routes::BestRoutes;
use crate::counters::next_number;
use crate::entries::Entry;
use crate::held_changes::hold_back;
use crate::listeners::Turn;
use crate::log::NodeLog;
use crate::offers::{Offers, offer_of, offers_again, offers_by, offers_for};
use crate::outgoing::{Outgoing, forget};
use crate::quiet_entries::{same_offer, same_offers, stays};
use crate::session_changes::mark;
use path_vector::{Cause, Policy, RouteState};
use std::{mem, slice};
use topology::{NoMemory, NodeId, PrefixId, Scope, SentItems, Session, Topology, Triggers};

// An equal scope.
fn copied(scope: &Scope) -> Scope
    ensures { result ≡ scope.now }
{
    *scope
}

// The counter of the next trigger after an entry. A local entry uses up one number.
fn counted(count: u32, cause: &Cause) -> Result<u32, NoMemory>
    ensures { IfOk result (λ counted. counted ≡ (if is_local cause.now then suc count else count)) }
{
    match cause {
        Cause::Recv { .. } => Ok(count),
        Cause::Flush { .. } => Ok(count),
        _ => Ok(next_number(count)?),
    }
}

impl<P: Policy + Copy> NodeLog<P> {
    // Adds one entry in place. After `NoMemory` the log may have taken only a part of the entry.
    #[inline(always)]
    pub(super) fn enter(
        &mut self,
        topology: &Topology,
        triggers: Triggers,
        scope: Scope,
        cause: Cause,
        outgoing: &mut Vec<Outgoing>,
    ) -> Result<(), NoMemory>
        ensures log { OnOk result ((policy : P) (u : ℕ) (h : List Logged) →
            StandsFor policy (P.rules policy) topology.now u self.old h → IsOfNeighbour topology.now u cause →
            IsPlaced topology.now scope → CauseFits h scope cause → ListsFor scope triggers →
            StandsFor policy (P.rules policy) topology.now u self.new (entry triggers scope cause ∷ h)) }
        ensures outgoing { OnOk result ((policy : P) (u : ℕ) (h : List Logged) →
            StandsFor policy (P.rules policy) topology.now u self.old h → IsOfNeighbour topology.now u cause →
            IsPlaced topology.now scope → CauseFits h scope cause → ListsFor scope triggers →
            map going_of outgoing.new.items ≡ going_by (P.rules policy) topology.now u h (entry triggers scope cause)) }
        ensures err { OnErr result (outgoing.new ≡ outgoing.old) }
        ensures dropped { OnOk result (dropped_of self.new ≡ dropped_of self.old) }
    {
        self.kept.keep_base(&self.routes)?;
        if stays(&self.routes, &scope, &cause) {
            self.enter_quietly(triggers, scope, cause)?;
            forget(outgoing);
            return Ok(());
        }
        self.enter_aloud(topology, triggers, scope, cause)?;
        mem::swap(&mut self.said.outgoing, outgoing);
        Ok(())
    }

    // Adds an entry that tells nobody anything.
    #[inline(always)]
    fn enter_quietly(
        &mut self,
        triggers: Triggers,
        scope: Scope,
        cause: Cause,
    ) -> Result<(), NoMemory>
        requires based { IsSome self.old.kept.base }
        ensures log { OnOk result ((policy : P) (net : Net) (u : ℕ) (h : List Logged) →
            StandsFor policy (P.rules policy) net u self.old h → IsOfNeighbour net u cause →
            IsPlaced net scope → CauseFits h scope cause → ListsFor scope triggers →
            Stays (P.rules policy) net u h (entry triggers scope cause) →
            StandsFor policy (P.rules policy) net u self.new (entry triggers scope cause ∷ h)) }
        ensures dropped { OnOk result (dropped_of self.new ≡ dropped_of self.old) }
    {
        self.routes.apply(copied(&scope), &cause)?;
        mark(&mut self.sessions, &triggers, &cause)?;
        let sent = SentItems::none();
        self.keep(Entry {
            triggers,
            scope,
            cause,
            sent,
        })
    }

    // Adds an entry, and tells each neighbour what changes for it.
    #[inline(always)]
    fn enter_aloud(
        &mut self,
        topology: &Topology,
        triggers: Triggers,
        scope: Scope,
        cause: Cause,
    ) -> Result<(), NoMemory>
        requires based { IsSome self.old.kept.base }
        ensures made { OnOk result ((policy : P) (u : ℕ) (h : List Logged) →
            StandsFor policy (P.rules policy) topology.now u self.old h → IsOfNeighbour topology.now u cause →
            IsPlaced topology.now scope → CauseFits h scope cause → ListsFor scope triggers →
            IsMade policy (making (P.rules policy) topology.now u h (entry triggers scope cause)) self.new) }
        ensures dropped { OnOk result (dropped_of self.new ≡ dropped_of self.old) }
    {
        match scope {
            Scope::One(prefix) => self.enter_one(prefix, triggers, cause),
            Scope::All => self.enter_all(topology, triggers, cause),
            Scope::Nothing => self.enter_nothing(triggers, cause),
        }
    }

    // Adds an entry of one prefix, and tells each neighbour what changes for it.
    #[inline(always)]
    fn enter_one(
        &mut self,
        prefix: PrefixId,
        triggers: Triggers,
        cause: Cause,
    ) -> Result<(), NoMemory>
        requires based { IsSome self.old.kept.base }
        ensures made { OnOk result ((policy : P) (net : Net) (u : ℕ) (h : List Logged) →
            StandsFor policy (P.rules policy) net u self.old h → IsOfNeighbour net u cause →
            prefix < length net.prefixes → CauseFits h (One prefix) cause → ListsFor (One prefix) triggers →
            IsMade policy (making (P.rules policy) net u h (entry triggers (One prefix) cause)) self.new) }
        ensures dropped { OnOk result (dropped_of self.new ≡ dropped_of self.old) }
    {
        self.routes.apply(Scope::One(prefix), &cause)?;
        let after = offer_of(&self.routes, &mut self.said.made, prefix)?;
        let before = self.best.put(&after)?;
        let same = same_offer(&before, &after);
        let offers = Offers {
            before: slice::from_ref(&before),
            after: slice::from_ref(&after),
            same: slice::from_ref(&same),
        };
        self.finish(triggers, Scope::One(prefix), cause, offers)
    }

    // Adds an entry of all prefixes, and tells each neighbour what changes for it.
    fn enter_all(
        &mut self,
        topology: &Topology,
        triggers: Triggers,
        cause: Cause,
    ) -> Result<(), NoMemory>
        requires based { IsSome self.old.kept.base }
        ensures made { OnOk result ((policy : P) (u : ℕ) (h : List Logged) →
            StandsFor policy (P.rules policy) topology.now u self.old h → IsOfNeighbour topology.now u cause →
            CauseFits h All cause → ListsFor All triggers →
            IsMade policy (making (P.rules policy) topology.now u h (entry triggers All cause)) self.new) }
        ensures dropped { OnOk result (dropped_of self.new ≡ dropped_of self.old) }
    {
        if let Cause::Ready { nbr, session } = cause {
            return self.enter_ready(triggers, nbr, session);
        }
        if let Cause::Down { nbr, session } = cause {
            return self.enter_down(topology, triggers, nbr, session);
        }
        self.enter_compared(topology, triggers, cause)
    }

    // Adds an entry of all prefixes, and compares all offers before and after it.
    fn enter_compared(
        &mut self,
        topology: &Topology,
        triggers: Triggers,
        cause: Cause,
    ) -> Result<(), NoMemory>
        requires based { IsSome self.old.kept.base }
        ensures made { OnOk result ((policy : P) (u : ℕ) (h : List Logged) →
            StandsFor policy (P.rules policy) topology.now u self.old h → IsOfNeighbour topology.now u cause →
            CauseFits h All cause → ListsFor All triggers →
            IsMade policy (making (P.rules policy) topology.now u h (entry triggers All cause)) self.new) }
        ensures dropped { OnOk result (dropped_of self.new ≡ dropped_of self.old) }
    {
        let made = &mut self.said.made;
        let before = offers_for(self.alloc, &self.routes, made, topology, &cause)?;
        self.routes.apply(Scope::All, &cause)?;
        let made = &mut self.said.made;
        let after = offers_for(self.alloc, &self.routes, made, topology, &cause)?;
        self.best.put_all(&after)?;
        let same = same_offers(self.alloc, &before, &after)?;
        let offers = Offers {
            before: &before,
            after: &after,
            same: &same,
        };
        self.finish(triggers, Scope::All, cause, offers)
    }

    // Makes a session ready. This changes no best route, so the routes after the entry are also those before it.
    fn enter_ready(
        &mut self,
        triggers: Triggers,
        nbr: NodeId,
        session: Session,
    ) -> Result<(), NoMemory>
        requires based { IsSome self.old.kept.base }
        ensures made { OnOk result ((policy : P) (net : Net) (u : ℕ) (h : List Logged) →
            StandsFor policy (P.rules policy) net u self.old h → IsOfNeighbour net u (Ready nbr session) →
            CauseFits h All (Ready nbr session) → ListsFor All triggers →
            IsMade policy (making (P.rules policy) net u h (entry triggers All (Ready nbr session))) self.new) }
        ensures dropped { OnOk result (dropped_of self.new ≡ dropped_of self.old) }
    {
        let cause = Cause::Ready { nbr, session };
        self.routes.apply(Scope::All, &cause)?;
        let offers = self.best.copies(self.alloc)?;
        let same = vec![in self.alloc; true; offers.len()]?;
        let offers = Offers {
            before: &offers,
            after: &offers,
            same: &same,
        };
        self.finish(triggers, Scope::All, cause, offers)
    }

    // Ends a session. This can change only the best routes that went by its neighbour, so only those are compared.
    fn enter_down(
        &mut self,
        topology: &Topology,
        triggers: Triggers,
        nbr: NodeId,
        session: Session,
    ) -> Result<(), NoMemory>
        requires based { IsSome self.old.kept.base }
        ensures made { OnOk result ((policy : P) (u : ℕ) (h : List Logged) →
            StandsFor policy (P.rules policy) topology.now u self.old h → IsOfNeighbour topology.now u (Down nbr session) →
            CauseFits h All (Down nbr session) → ListsFor All triggers →
            IsMade policy (making (P.rules policy) topology.now u h (entry triggers All (Down nbr session))) self.new) }
        ensures dropped { OnOk result (dropped_of self.new ≡ dropped_of self.old) }
    {
        let cause = Cause::Down { nbr, session };
        let made = &mut self.said.made;
        let before = offers_by(self.alloc, &self.routes, made, topology, nbr)?;
        self.routes.apply(Scope::All, &cause)?;
        let after = offers_again(self.alloc, &self.routes, &mut self.said.made, &before)?;
        self.best.put_all(&after)?;
        let same = same_offers(self.alloc, &before, &after)?;
        let offers = Offers {
            before: &before,
            after: &after,
            same: &same,
        };
        self.finish(triggers, Scope::All, cause, offers)
    }

    // Adds an entry that concerns no prefix. It changes no route.
    fn enter_nothing(&mut self, triggers: Triggers, cause: Cause) -> Result<(), NoMemory>
        requires based { IsSome self.old.kept.base }
        ensures made { OnOk result ((policy : P) (net : Net) (u : ℕ) (h : List Logged) →
            StandsFor policy (P.rules policy) net u self.old h → IsOfNeighbour net u cause →
            CauseFits h Nothing cause → ListsFor Nothing triggers →
            IsMade policy (making (P.rules policy) net u h (entry triggers Nothing cause)) self.new) }
        ensures dropped { OnOk result (dropped_of self.new ≡ dropped_of self.old) }
    {
        self.routes.apply(Scope::Nothing, &cause)?;
        let offers = Offers {
            before: &[],
            after: &[],
            same: &[],
        };
        self.finish(triggers, Scope::Nothing, cause, offers)
    }

    // Does the rest of an entry that the routes took already: marks sessions, tells each neighbour, keeps the entry.
    #[inline(always)]
    fn finish(
        &mut self,
        triggers: Triggers,
        scope: Scope,
        cause: Cause,
        offers: Offers<'_>,
    ) -> Result<(), NoMemory>
        requires based { IsSome self.old.kept.base }
        requires same_prefixes { prefixes_of offers.before.now ≡ prefixes_of offers.after.now }
        requires same { AreSame offers.before.now offers.after.now offers.same.now }
        ensures made { OnOk result ((policy : P) (net : Net) (u : ℕ) (h : List Logged) (routes : RouteState P) (kept : BestRoutes) →
            IsMidway policy (making (P.rules policy) net u h (entry triggers scope cause)) routes kept self.old →
            AreOffers (making (P.rules policy) net u h (entry triggers scope cause)) offers.entry.before.now offers.entry.after.now →
            IsMade policy (making (P.rules policy) net u h (entry triggers scope cause)) self.new) }
        ensures dropped { OnOk result (dropped_of self.new ≡ dropped_of self.old) }
    {
        mark(&mut self.sessions, &triggers, &cause)?;
        let turn = Turn {
            triggers: &triggers,
            cause: &cause,
            before: offers.before,
            after: offers.after,
            same: offers.same,
            best: &self.best,
        };
        tell_all(
            &self.routes,
            &mut self.sessions,
            &self.held_back,
            &turn,
            &mut self.said,
        )?;
        hold_back(&self.routes, &self.sessions, &turn, &mut self.held_back)?;
        let sent = SentItems::of_list(self.alloc, &self.said.sent)?;
        self.keep(Entry {
            triggers,
            scope,
            cause,
            sent,
        })
    }

    // Keeps the entry, and counts it.
    #[inline(always)]
    fn keep(&mut self, entry: Entry) -> Result<(), NoMemory>
        requires based { IsSome self.old.kept.base }
        ensures node { OnOk result (self.new.node ≡ self.old.node) }
        ensures routes { OnOk result (self.new.routes ≡ self.old.routes) }
        ensures sessions { OnOk result (self.new.sessions ≡ self.old.sessions) }
        ensures held { OnOk result (self.new.held_back ≡ self.old.held_back) }
        ensures said { OnOk result (self.new.said ≡ self.old.said) }
        ensures best { OnOk result (self.new.best ≡ self.old.best) }
        ensures next { OnOk result (self.new.next_count
            ≡ (if is_local entry.cause then suc self.old.next_count else self.old.next_count)) }
        ensures kept { OnOk result ((policy : P) (net : Net) (u : ℕ) (h : List Logged) (k : Logged) →
            KeepsEntries policy (P.rules policy) net u self.old.kept h →
            Shows (P.rules policy) net u (record { before = h; entry = k }) entry →
            KeepsEntries policy (P.rules policy) net u self.new.kept (k ∷ h)) }
        ensures dropped { OnOk result (dropped_of self.new ≡ dropped_of self.old) }
    {
        self.next_count = counted(self.next_count, &entry.cause)?;
        self.kept.push(entry)
    }
}
