//! The entries that a log keeps, and the routes after the entries that it dropped.
ghost use Rattle.std.specs.Prelude.{ℕ, suc, ◌≡◌, ◌<◌, ◌≤◌, ◌-◌, [], ◌∷◌, ◌++◌, List, drop, fold, length, IfOk, OnOk, OnErr, IsSome, option_map, vec_len, vec_capacity};
ghost use Rattle.topology.specs.Net.{Net};
ghost use Rattle.path_vector.specs.History.{History, change};
ghost use Rattle.path_vector.specs.Parts.{Accepted};
ghost use Rattle.path_vector.specs.Standing.{StandsFor as RoutesStandFor};
ghost use Rattle.trigger_log.specs.Entries.{Entry as Logged, reads};
ghost use Rattle.trigger_log.specs.Fits.{Fits};
ghost use Rattle.trigger_log.specs.KeptEntries.{KeepsEntries, TakesAll, taken};
ghost use Rattle.trigger_log.specs.Entered.{Shows};

use crate::counters::next_number;
use crate::entries::Entry;
use path_vector::{Policy, RouteState};
use std::alloc::Global;
use topology::NoMemory;
use topology::limits::MOST_ENTRIES;

// The initial room of a log: as many entries as a node may make, so that a growing log is never copied. Memory that is
// not touched costs nothing.
const ROOM: usize = MOST_ENTRIES as usize;

/// The entries of a log from some place on, the oldest first, and the routes after the earlier entries, which the log
/// has dropped. Places count from 1.
#[derive(Drop)]
pub struct KeptEntries<P: Policy + Copy> {
    // None only while no entry is kept: then the live routes of the log are those after the dropped entries.
    base: Option<RouteState<P>>,
    // The place of the first entry that is kept, and that of the next entry.
    from: u32,
    next: u32,
    entries: Vec<Entry>,
}

// Makes room for one more entry. Mostly there is room already.
#[inline(always)]
fn make_room(entries: &mut Vec<Entry>) -> Result<(), NoMemory>
    ensures items { entries.new.items ≡ entries.old.items }
    ensures room { OnOk result (vec_len entries.new < vec_capacity entries.new) }
{
    if entries.len() < entries.capacity() {
        return Ok(());
    }
    entries.reserve(1)?;
    Ok(())
}

// Applies the entries to the routes.
fn take_all<P: Policy + Copy>(routes: &mut RouteState<P>, entries: &[Entry]) -> Result<(), NoMemory>
    ensures { OnOk result ((policy : P) (net : Net) (u : ℕ) (past : History) →
        RoutesStandFor policy net u routes.old past → Accepted (fold taken past entries.now) →
        RoutesStandFor policy net u routes.new (fold taken past entries.now)) }
{
    for entry in entries {
        routes.apply(entry.scope, &entry.cause)?;
    }
    Ok(())
}

// Applies the dropped entries to the base, if there is one.
fn take_dropped<P: Policy + Copy>(
    base: &mut Option<RouteState<P>>,
    entries: &[Entry],
) -> Result<(), NoMemory>
    ensures { OnOk result (TakesAll base.old base.new entries.now) }
{
    match base {
        None => Ok(()),
        Some(base) => take_all(base, entries),
    }
}

impl<P: Policy + Copy> KeptEntries<P> {
    /// The kept entries of an empty log.
    pub(crate) fn new(alloc: Global) -> Result<KeptEntries<P>, NoMemory>
        ensures stands { IfOk result (λ kept. (policy : P) (net : Net) (u : ℕ) →
            KeepsEntries policy (P.rules policy) net u kept []) }
        ensures from { IfOk result (λ kept. kept.from ≡ 1) }
    {
        Ok(KeptEntries {
            base: None,
            from: 1,
            next: 1,
            entries: Vec::with_capacity(alloc, ROOM)?,
        })
    }

    /// The routes after the entries that were dropped; `None` where these are the live routes of the log.
    pub(crate) fn base(&self) -> Option<&RouteState<P>>
        ensures { option_map (λ base. base.now) result ≡ self.now.base }
    {
        self.base.as_ref()
    }

    /// Keeps the routes after the dropped entries, if it does not yet; `live` are the live routes. This comes before the
    /// live routes take one more entry.
    #[inline(always)]
    pub(crate) fn keep_base(&mut self, live: &RouteState<P>) -> Result<(), NoMemory>
        ensures kept { OnOk result ((policy : P) (net : Net) (u : ℕ) (h : List Logged) →
            KeepsEntries policy (P.rules policy) net u self.old h → RoutesStandFor policy net u live.now (reads h) →
            KeepsEntries policy (P.rules policy) net u self.new h) }
        ensures based { OnOk result (IsSome self.new.base) }
        ensures from { self.new.from ≡ self.old.from }
    {
        if self.base.is_none() {
            let base = live.copy()?;
            self.base = Some(base);
        }
        Ok(())
    }

    /// The place of the first entry that is kept.
    pub(crate) fn from(&self) -> u32
        ensures { result ≡ self.now.from }
    {
        self.from
    }

    /// The place that the next entry gets.
    pub(crate) fn next(&self) -> u32
        ensures { result ≡ self.now.next }
    {
        self.next
    }

    /// The number of entries ever made, dropped entries included.
    #[inline(always)]
    pub(crate) fn count(&self) -> u32
        ensures { result ≡ self.now.next - 1 }
    {
        self.next.saturating_sub(1)
    }

    /// The entries, the oldest first.
    #[inline(always)]
    pub(crate) fn as_slice(&self) -> &[Entry]
        ensures { result.now ≡ self.now.entries.items }
    {
        &self.entries
    }

    /// Keeps one more entry.
    #[inline(always)]
    pub(crate) fn push(&mut self, entry: Entry) -> Result<(), NoMemory>
        requires based { IsSome self.old.base }
        ensures kept { OnOk result ((policy : P) (net : Net) (u : ℕ) (h : List Logged) (k : Logged) →
            KeepsEntries policy (P.rules policy) net u self.old h →
            Shows (P.rules policy) net u (record { before = h; entry = k }) entry →
            KeepsEntries policy (P.rules policy) net u self.new (k ∷ h)) }
        ensures from { self.new.from ≡ self.old.from }
    {
        let next = next_number(self.next)?;
        // Reserve first, so that nothing can fail later. A push that may fail would copy the entry to give it back.
        make_room(&mut self.entries)?;
        self.entries.push_reserved(entry);
        self.next = next;
        Ok(())
    }

    /// Drops the entries before the place, which is at most one past the last. After `NoMemory` the routes may have
    /// taken only some of them.
    pub(crate) fn drop_before(&mut self, place: u32) -> Result<(), NoMemory>
        ensures kept { OnOk result ((policy : P) (net : Net) (u : ℕ) (h : List Logged) →
            KeepsEntries policy (P.rules policy) net u self.old h → Fits h →
            self.old.from ≤ place → place ≤ suc (length h) →
            KeepsEntries policy (P.rules policy) net u self.new h) }
        ensures from { OnOk result (self.new.from ≡ place) }
    {
        let asked = place.saturating_sub(self.from) as usize;
        let dropped = asked.min(self.entries.len());
        let left = self.entries.len() - dropped;
        take_dropped(&mut self.base, &self.entries[..dropped])?;
        self.entries.rotate_left(dropped);
        self.entries.truncate(left);
        self.from = place;
        Ok(())
    }

    /// Drops all entries. Then the live routes of the log are those after the dropped entries, and no others are kept.
    pub(crate) fn drop_all(&mut self)
        ensures kept { (policy : P) (net : Net) (u : ℕ) (h : List Logged) →
            KeepsEntries policy (P.rules policy) net u self.old h →
            KeepsEntries policy (P.rules policy) net u self.new h }
        ensures from { self.new.from ≡ self.old.next }
    {
        self.base = None;
        self.entries.clear();
        self.from = self.next;
    }
}
