//! The routes of a node over the complete entries of a cut.
ghost use Rattle.std.specs.Prelude.{ℕ, ◌≡◌, OnOk, IfOk};
ghost use Rattle.std.specs.List.{list_any};
ghost use Rattle.topology.specs.Net.{Net};
ghost use Rattle.topology.specs.Triggers.{lists};
ghost use Rattle.path_vector.specs.History.{History};
ghost use Rattle.path_vector.specs.Parts.{Accepted};
ghost use Rattle.path_vector.specs.Standing.{StandsFor};
ghost use Rattle.trigger_log.specs.declared.entries.Entry.{Entry as Shown};
ghost use Rattle.stable_table.specs.Keeping.{kept_by, kept};

use crate::incomplete::Incomplete;
use path_vector::{Policy, RouteState};
use topology::NoMemory;
use trigger_log::Entry;

// Applies the entry, if none of its triggers is incomplete.
fn take<P: Policy + Copy>(
    state: &mut RouteState<P>,
    incomplete: &Incomplete,
    entry: &Entry,
) -> Result<(), NoMemory>
    ensures { OnOk result ((policy : P) (net : Net) (u : ℕ) (past : History) →
        Accepted (kept_by incomplete.now past entry.now) →
        StandsFor policy net u state.old past →
        StandsFor policy net u state.new (kept_by incomplete.now past entry.now)) }
{
    if !incomplete.has_any(&entry.triggers) {
        state.apply(entry.scope, &entry.cause)?;
    }
    Ok(())
}

/// The base routes after those entries that list no incomplete trigger.
pub(crate) fn routes_of<P: Policy + Copy>(
    base: &RouteState<P>,
    entries: &[Entry],
    incomplete: &Incomplete,
) -> Result<RouteState<P>, NoMemory>
    ensures { IfOk result (λ state. (policy : P) (net : Net) (u : ℕ) (past : History) →
        StandsFor policy net u base.now past → Accepted (kept incomplete.now past entries.now) →
        StandsFor policy net u state (kept incomplete.now past entries.now)) }
{
    let mut state = base.copy()?;
    for entry in entries {
        take(&mut state, incomplete, entry)?;
    }
    Ok(state)
}

/// Whether one of the entries lists an incomplete trigger.
pub(crate) fn has_incomplete(entries: &[Entry], incomplete: &Incomplete) -> bool
    ensures { result ≡ list_any (λ (e : Shown). list_any (lists incomplete.now) e.triggers) entries.now }
{
    for entry in entries {
        if incomplete.has_any(&entry.triggers) {
            return true;
        }
    }
    false
}
