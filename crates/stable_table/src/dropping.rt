//! How much of a log is no longer needed once the table of an epoch is published.
ghost use Rattle.std.specs.Prelude.{ℕ, suc, List, ◌≡◌, ◌≤◌, ◌++◌, length, IfOk, if◌then◌else◌};
ghost use Rattle.topology.specs.Triggers.{lists};
ghost use Rattle.trigger_log.specs.Dropping.{droppable};
ghost use Rattle.trigger_log.specs.Entries.{Entry as Logged};
ghost use Rattle.trigger_log.specs.Standing.{StandsFor, dropped_of};
ghost use Rattle.stable_table.specs.Keeping.{complete_first};
ghost use Rattle.stable_table.specs.Tables.{all_responded};

use crate::incomplete::Incomplete;
use crate::responders::Responders;
use crate::tables::first_of;
use incomplete_closure::Value;
use path_vector::Policy;
use std::alloc::Global;
use topology::{NoMemory, Topology};
use trigger_log::{Entry, NodeLog};

// How many of the first entries list no incomplete trigger.
fn complete_first(entries: &[Entry], incomplete: &Incomplete) -> usize
    ensures { result ≡ complete_first incomplete.now entries.now }
{
    let mut count = 0;
    for entry in entries {
        if incomplete.has_any(&entry.triggers) {
            return count;
        }
        count += 1;
    }
    count
}

// Whether all nodes of the network responded.
fn all_responded(alloc: Global, topology: &Topology, value: &Value) -> Result<bool, NoMemory>
    ensures { IfOk result (λ all. all ≡ all_responded value.now topology.now.nodes) }
{
    let responders = Responders::new(alloc, value)?;
    Ok(responders.all_responded(topology.nodes()))
}

/// The place before which a node may drop its entries, after it has published its table of an epoch by this value. The
/// first `cut` entries are its cut of the epoch. If all nodes responded, the entries that may go are the longest run
/// from the start of the cut in which each entry was dropped before or lists no incomplete trigger. If some node did
/// not respond, no further entry may go. If the cut is shorter than what was dropped, nothing is promised.
pub fn droppable_before<P: Policy + Copy>(
    alloc: Global,
    topology: &Topology,
    log: &NodeLog<P>,
    cut: u32,
    value: &Value,
) -> Result<u32, NoMemory>
    ensures { IfOk result (λ place. (policy : P) (u : ℕ) (newer entries : List Logged) →
        StandsFor policy (P.rules policy) topology.now u log.now (newer ++ entries) → cut ≡ length entries →
        dropped_of log.now ≤ cut →
        place ≡ suc (if all_responded value.now topology.now.nodes
        then droppable (lists value.now.incomplete) (dropped_of log.now) entries else dropped_of log.now)) }
{
    let from = log.kept_from();
    let all = all_responded(alloc, topology, value)?;
    if !all {
        return Ok(from);
    }
    let dropped = from.saturating_sub(1);
    let left = cut.saturating_sub(dropped);
    let incomplete = Incomplete::new(alloc, value.incomplete.as_slice())?;
    let complete = complete_first(first_of(log.entries(), left), &incomplete);
    Ok(from.saturating_add(complete.min(left as usize) as u32))
}
