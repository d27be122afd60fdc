//! Which lists and reports have a spelling in version 1. Nothing here takes memory.
ghost use Rattle.std.specs.Prelude.{◌≡◌, Some, List};
ghost use Rattle.std.specs.List.{list_all};
ghost use Rattle.topology.specs.declared.items.Sent.{Sent as AnySent};
ghost use Rattle.topology.specs.declared.names.Trigger.{Trigger as AnyTrigger};
ghost use Rattle.wire_frames.specs.Fields.{no_trigger, first_of, is_alone};
ghost use Rattle.wire_frames.specs.Listing.{only_of, has_alone, is_plain_row, is_plain};

use incomplete_closure::{Report, Row};
use topology::{NodeId, SentItems, Trigger, Triggers};

/// A value below all triggers.
pub(crate) fn no_trigger() -> Trigger
    ensures { result ≡ no_trigger }
{
    Trigger {
        node: NodeId::new(0),
        count: 0,
    }
}

/// The first trigger of the list.
pub(crate) fn first_of(triggers: &Triggers) -> Trigger
    ensures { result ≡ first_of triggers.now }
{
    match triggers.as_slice() {
        [first, ..] => *first,
        [] => no_trigger(),
    }
}

/// Whether the list has exactly this trigger.
pub(crate) fn is_alone(triggers: &[Trigger], trigger: Trigger) -> bool
    ensures { result ≡ is_alone trigger triggers.now }
{
    match triggers {
        [only] => *only == trigger,
        _ => false,
    }
}

/// The trigger of a list if it has just one.
pub(crate) fn only_of(triggers: &[Trigger]) -> Option<Trigger>
    ensures { result ≡ only_of triggers.now }
{
    match triggers {
        [] => None,
        [only] => Some(*only),
        [_, _, ..] => None,
    }
}

/// Whether the second list has exactly the named trigger; `only` is its trigger if it has just one.
pub(crate) fn stands_alone(named_trigger: Option<Trigger>, only: Option<Trigger>) -> bool
    ensures { (ts : List AnyTrigger) → only ≡ only_of ts → result ≡ has_alone named_trigger ts }
{
    match named_trigger {
        None => false,
        Some(named_trigger) => match only {
            None => false,
            Some(only) => only == named_trigger,
        },
    }
}

// Whether each item lists exactly this trigger.
fn are_alone(named_trigger: &Trigger, items: &SentItems) -> bool
    ensures { result ≡ list_all (λ (item : AnySent). has_alone (Some named_trigger.now) item.triggers) items.now }
{
    for place in 0..items.len() {
        let item = items.at(place).unwrap();
        if !stands_alone(Some(*named_trigger), only_of(item.triggers)) {
            return false;
        }
    }
    true
}

fn row_is_plain(row: &Row) -> bool
    ensures { result ≡ is_plain_row row.now }
{
    match row.triggers.as_slice() {
        [named_trigger] => are_alone(named_trigger, &row.sent),
        _ => false,
    }
}

fn rows_are_plain(rows: &[Row]) -> bool
    ensures { result ≡ list_all is_plain_row rows.now }
{
    rows.iter().all(|row| row_is_plain(row))
}

/// Whether each row and its items list the same one trigger, and nothing is pending.
pub(crate) fn is_plain(report: &Report) -> bool
    ensures { result ≡ is_plain report.now }
{
    rows_are_plain(report.rows.as_slice()) && report.pending.as_slice().is_empty()
}
