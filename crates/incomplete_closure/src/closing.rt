//! The value of reports.
ghost use Rattle.std.specs.Prelude.{◌≡◌, ◌+◌, ◌*◌, ◌≤◌, ◌<◌, [], map, length, OnOk, IfOk};
ghost use Rattle.std.specs.List.{list_any};
ghost use Rattle.std.specs.Rc.{rc_value};
ghost use Rattle.incomplete_closure.specs.Seen.{reports_seen};
ghost use Rattle.incomplete_closure.specs.Values.{IsValue};
ghost use Rattle.incomplete_closure.specs.Collecting.{value_of};
ghost use Rattle.incomplete_closure.specs.Collection.{collect_names};
ghost use Rattle.incomplete_closure.specs.Graphs.{has_seen, IsReached};
ghost use Rattle.incomplete_closure.specs.Opening.{is_start, open_triggers};
ghost use Rattle.incomplete_closure.specs.Closed.{IsLeast};
ghost use Rattle.incomplete_closure.specs.Together.{OfOneEpoch, nodes_of};
ghost use Rattle.incomplete_closure.specs.Sizes.{rows_of, triggers_of, entries_of, size_of};
ghost use Rattle.incomplete_closure.specs.Wiring.{wire_open, roots_of, graph_of_rows};

use crate::collection::Collection;
use crate::names::Names;
use crate::opening::{OpenTrigger, open_triggers};
use crate::reached::Reached;
use crate::search::search;
use crate::steps::Steps;
use crate::wiring::{graph_of_rows, wire_open};
use crate::{Report, RespondingNodes, Value};
use std::alloc::Global;
use std::marker::Brand;
use std::rc::Rc;
use std::sync::ledger::{Blank, Ledger};
use topology::{NoMemory, NodeId, Triggers};

// The names of the vertices that were reached.
fn collect(alloc: Global, names: &Names, reached: &Reached) -> Result<Collection, NoMemory>
    ensures { IfOk result (λ collection. collection ≡ collect_names (has_seen reached.now) 0 names.now []) }
{
    let mut collection = Collection::new(alloc);
    for place in 0..names.len() {
        if let Some(trigger) = names.at(place) {
            collection.collect_if(reached.has(place), trigger)?;
        }
    }
    Ok(collection)
}

// Whether some trigger is open to a receiver that has not closed the session. Every chain of blocked triggers begins
// with such a trigger.
fn has_start(opened: &[OpenTrigger]) -> bool
    ensures { result ≡ list_any is_start opened.now }
{
    for open_trigger in opened {
        if open_trigger.down.is_none() {
            return true;
        }
    }
    false
}

// The triggers that the search finds from what is open, by their numbers.
fn reach<L: Ledger>(
    alloc: Global,
    names: &Names,
    reports: &[Rc<Report>],
    opened: &[OpenTrigger],
    steps: &mut Steps<L>,
) -> Result<Reached, NoMemory>
    ensures reached { IfOk result (IsReached
        (wire_open names.now (graph_of_rows names.now (map rc_value reports.now)) opened.now) (roots_of names.now opened.now)) }
    ensures most { steps.new ≤ steps.old + (rows_of (map rc_value reports.now)
        + 3 * triggers_of (map rc_value reports.now) + 2 * length opened.now) }
    ensures more { steps.old ≤ steps.new }
{
    let mut graph = graph_of_rows(alloc, names, reports, steps)?;
    let roots = wire_open(alloc, &mut graph, names, opened, steps)?;
    search(alloc, &mut graph, &roots, steps)
}

// The incomplete triggers, if these are open.
fn lead_on<L: Ledger>(
    alloc: Global,
    reports: &[Rc<Report>],
    opened: &[OpenTrigger],
    steps: &mut Steps<L>,
) -> Result<Collection, NoMemory>
    ensures least { IfOk result (IsLeast opened.now (map rc_value reports.now)) }
    ensures most { steps.new ≤ steps.old + (2 * rows_of (map rc_value reports.now)
        + 4 * triggers_of (map rc_value reports.now) + 3 * length opened.now) }
    ensures more { steps.old ≤ steps.new }
{
    let names = Names::of(alloc, reports, opened, steps)?;
    let reached = reach(alloc, &names, reports, opened, steps)?;
    collect(alloc, &names, &reached)
}

// The incomplete triggers. If no chain of blocked triggers can begin, there are none, and no graph is built.
fn incomplete<L: Ledger>(
    alloc: Global,
    reports: &[Rc<Report>],
    steps: &mut Steps<L>,
) -> Result<Collection, NoMemory>
    ensures least { IfOk result (λ collection.
        IsLeast (open_triggers (map rc_value reports.now)) (map rc_value reports.now) collection) }
    ensures most { steps.new ≤ steps.old + 6 * size_of (map rc_value reports.now) }
    ensures more { OnOk result (steps.old + entries_of (map rc_value reports.now) ≤ steps.new) }
{
    let opened = open_triggers(alloc, reports, steps)?;
    if !has_start(&opened) {
        return Ok(Collection::new(alloc));
    }
    lead_on(alloc, reports, &opened, steps)
}

fn responding(alloc: Global, reports: &[Rc<Report>]) -> Result<Vec<NodeId>, NoMemory>
    ensures { IfOk result (λ nodes. nodes.items ≡ nodes_of (map rc_value reports.now)) }
{
    let mut nodes = Vec::with_capacity(alloc, reports.len())?;
    for report in reports {
        nodes.push(report.node)?;
    }
    Ok(nodes)
}

/// The value of the reports of one epoch: their nodes, and the incomplete triggers. `steps` counts the work: each row,
/// item and pending row is taken at least once, and there are at most six steps for each element of the reports
/// (`size_of`).
pub fn closure<L: Ledger>(
    alloc: Global,
    reports: &[Rc<Report>],
    steps: &mut Steps<L>,
) -> Result<Value, NoMemory>
    requires { OfOneEpoch (map rc_value reports.now) }
    ensures told { IfOk result (λ value. IsValue (reports_seen (map rc_value reports.now)) value) }
    ensures named { IfOk result (λ value. value ≡ value_of (reports_seen (map rc_value reports.now))) }
    ensures most { steps.new ≤ steps.old + 6 * size_of (map rc_value reports.now) }
    ensures least { OnOk result (steps.old + entries_of (map rc_value reports.now) ≤ steps.new) }
{
    let nodes = responding(alloc, reports)?;
    let collection = incomplete(alloc, reports, steps)?;
    Ok(Value {
        responding: RespondingNodes::new(nodes),
        incomplete: Triggers::from_ascending(collection.list(alloc)?)?,
    })
}

// As `closure`, with a ledger of its own for the steps.
fn closure_by<L: Ledger>(
    alloc: Global,
    reports: &[Rc<Report>],
    blank: Blank,
) -> Result<Value, NoMemory>
    requires one { OfOneEpoch (map rc_value reports.now) }
    requires name { blank.name ≡ L.name }
    requires parts { blank.parts ≡ L.parts }
    requires some { 0 < blank.parts }
    ensures told { IfOk result (λ value. IsValue (reports_seen (map rc_value reports.now)) value) }
    ensures named { IfOk result (λ value. value ≡ value_of (reports_seen (map rc_value reports.now))) }
{
    let mut steps: Steps<L> = Steps::new(blank);
    let value = closure(alloc, reports, &mut steps)?;
    Ok(value)
}

/// As `closure`, for a caller that counts nothing.
pub fn uncounted_closure(alloc: Global, reports: &[Rc<Report>]) -> Result<Value, NoMemory>
    requires { OfOneEpoch (map rc_value reports.now) }
    ensures told { IfOk result (λ value. IsValue (reports_seen (map rc_value reports.now)) value) }
    ensures named { IfOk result (λ value. value ≡ value_of (reports_seen (map rc_value reports.now))) }
{
    closure_by::<Brand>(alloc, reports, Blank::new(1))
}
