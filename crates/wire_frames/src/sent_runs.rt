//! Sent items, one behind the other, as their list lends them.
ghost use Rattle.std.specs.Prelude.{◌≡◌, ◌≤◌, ◌+◌, ◌++◌, ◌-◌, ◌^◌, OnOk, IsTrue, length, min};
ghost use Rattle.std.specs.List.{flat_map};
ghost use Rattle.topology.specs.declared.items.Sent.{Sent as AnySent};
ghost use Rattle.topology.specs.declared.limits.TheConstants.{MOST_UPDATES};
ghost use Rattle.wire_frames.specs.Formats.{Series, reached, many_fit, listed};
ghost use Rattle.wire_frames.specs.Fields.{more_items};

use crate::counts::Count;
use crate::series::Run;
use topology::{NoMemory, SentItems, SentRef};

/// Sent items of one sort, as their list lends them.
pub(crate) trait SentRun: Run {
    ghost lent: { Series Self.State AnySent };

    /// Whether the item has a spelling behind those before it. Takes no memory.
    fn fits(state: &mut Self::State, item: &SentRef<'_>) -> bool
        ensures fits { result ≡ (lent.at state.old).fits item.now }
        ensures step { IsTrue result → state.new ≡ lent.step state.old item.now };

    /// Writes one item at the end.
    fn write(item: &SentRef<'_>, out: &mut Vec<u8>) -> Result<(), NoMemory>
        ensures { OnOk result (out.new.items ≡ out.old.items ++ lent.spells item.now) };

    /// How many bytes the item takes, up to the highest number.
    fn length(item: &SentRef<'_>) -> usize
        ensures { result ≡ min (length (lent.spells item.now)) (2 ^ 64 - 1) };
}

// Whether the items have a spelling, one behind the other. Takes no memory.
fn fit_each<R: SentRun>(state: &mut R::State, items: &SentItems) -> bool
    ensures fits { result ≡ many_fit R.lent state.old items.now }
    ensures reached { IsTrue result → state.new ≡ reached R.lent state.old items.now }
{
    for place in 0..items.len() {
        if !R::fits(state, &items.at(place).unwrap()) {
            return false;
        }
    }
    true
}

// Writes the items at the end, one behind the other.
fn write_each<R: SentRun>(items: &SentItems, out: &mut Vec<u8>) -> Result<(), NoMemory>
    ensures { OnOk result (out.new.items ≡ out.old.items ++ flat_map R.lent.spells items.now) }
{
    for place in 0..items.len() {
        R::write(&items.at(place).unwrap(), out)?;
    }
    Ok(())
}

/// Whether the items may stand in a row, after rows with `before` items in all. Takes no memory.
pub(crate) fn fit_items<R: SentRun>(state: &mut R::State, items: &SentItems, before: u32) -> bool
    ensures fits { result ≡ (listed (more_items before) R.lent state.old).fits items.now }
    ensures reached { IsTrue result → state.new ≡ reached R.lent state.old items.now }
    ensures few { IsTrue result → before + length items.now ≤ MOST_UPDATES }
{
    Count::Items(before).allows(items.len()) && fit_each::<R>(state, items)
}

/// Writes the number of the items and the items at the end.
pub(crate) fn put_items<R: SentRun>(items: &SentItems, out: &mut Vec<u8>) -> Result<(), NoMemory>
    ensures { OnOk result (out.new.items ≡ out.old.items
        ++ ((more_items 0).spells (length items.now) ++ flat_map R.lent.spells items.now)) }
{
    Count::Items(0).put(items.len(), out)?;
    write_each::<R>(items, out)
}

/// How many bytes the items take, up to the highest number.
#[tactic(auto, using(crate::proofs::Short::measured))]
pub(crate) fn length_items<R: SentRun>(items: &SentItems) -> usize
    ensures { result ≡ min (length (flat_map R.lent.spells items.now)) (2 ^ 64 - 1) }
{
    let mut total: usize = 0;
    for place in 0..items.len() {
        total = total.saturating_add(R::length(&items.at(place).unwrap()));
    }
    total
}
