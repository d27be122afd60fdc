//! Counts of the items and triggers in the lists of a node.
ghost use Rattle.std.specs.Prelude.{ℕ, ◌+◌, ◌<◌, ◌≡◌, [], ◌∷◌, nat_lt, List, IfOk, OnOk};
ghost use Rattle.std.specs.List.{list_any};
ghost use Rattle.topology.specs.Net.{Net};
ghost use Rattle.path_vector.specs.Rules.{Rules};
ghost use Rattle.trigger_log.specs.Entries.{Entry as Logged};
ghost use Rattle.trigger_log.specs.Entered.{Shows};
ghost use Rattle.node_core.specs.Counted.{is_long, is_long_row};
ghost use Rattle.message_fitting.specs.Marks.{row_marks};
ghost use Rattle.node_core.specs.Counting.{Adds, AreCounts};

use message_fitting::marks::{less, less_pending};
use topology::limits::{MOST_MARKS, MOST_TRIGGERS};
use topology::{NoMemory, Pending, SentItems, Triggers};
use trigger_log::Entry;

/// The counts of all entries of a log.
#[derive(Clone, Copy, Debug, Drop)]
pub struct Counts {
    // The count of items that the entries list.
    pub(crate) updates: usize,
    // The count of triggers in the lists of the entries and of their items. A trigger counts once for each list that
    // has it.
    pub(crate) marks: usize,
    // Whether an item lists more triggers than a list may have.
    pub(crate) has_long: bool,
}

// Whether there are more triggers than a list may have.
fn is_long(triggers: &Triggers) -> bool
    ensures { result ≡ is_long triggers.now }
{
    triggers.len() > MOST_TRIGGERS as usize
}

/// Whether a row of updates that are held back lists more triggers than a list may have.
pub(crate) fn any_long(rows: &[Pending]) -> bool
    ensures { result ≡ list_any is_long_row rows.now }
{
    rows.iter().any(|row| is_long(&row.triggers))
}

/// Whether this many triggers, with those that the rows of updates held back list, are more than a node may have.
pub(crate) fn are_more(marks: usize, rows: &[Pending]) -> bool
    ensures { result ≡ nat_lt MOST_MARKS (marks + row_marks rows.now) }
{
    let Some(left) = less(MOST_MARKS as usize, marks) else {
        return true;
    };
    let Some(_) = less_pending(left, rows) else {
        return true;
    };
    false
}

// The sum. `NoMemory` where it would overflow.
fn sum(a: usize, b: usize) -> Result<usize, NoMemory>
    ensures { IfOk result (λ c. c ≡ a + b) }
{
    match a.checked_add(b) {
        None => Err(NoMemory),
        Some(c) => Ok(c),
    }
}

impl Counts {
    /// The counts of no entries.
    pub(crate) fn none() -> Counts
        ensures { (rules : Rules) (net : Net) (u : ℕ) → AreCounts rules net u [] result }
    {
        Counts {
            updates: 0,
            marks: 0,
            has_long: false,
        }
    }

    // Adds the items of an entry. After `NoMemory` the counts mean nothing.
    #[inline(always)]
    fn add_sent(&mut self, sent: &SentItems) -> Result<(), NoMemory>
        ensures { OnOk result (Adds sent.now self.old self.new) }
    {
        if sent.is_none() {
            return Ok(());
        }
        let Some(marks) = sent.marks() else {
            return Err(NoMemory);
        };
        self.updates = sum(self.updates, sent.len())?;
        self.marks = sum(self.marks, marks)?;
        self.has_long = self.has_long | sent.any_above(MOST_TRIGGERS as usize);
        Ok(())
    }

    /// Adds an entry. `NoMemory` where a count would overflow; the counts mean nothing then.
    #[inline(always)]
    pub(crate) fn add(&mut self, entry: &Entry) -> Result<(), NoMemory>
        ensures { OnOk result ((rules : Rules) (net : Net) (u : ℕ) (k : Logged) (h : List Logged) →
            AreCounts rules net u h self.old → Shows rules net u (record { before = h; entry = k }) entry.now →
            AreCounts rules net u (k ∷ h) self.new) }
    {
        self.add_sent(&entry.sent)?;
        self.marks = sum(self.marks, entry.triggers.len())?;
        Ok(())
    }
}
