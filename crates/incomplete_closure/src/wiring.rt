//! The graph of reports: if a trigger is blocked, so is each trigger that can be reached from it.
ghost use Rattle.std.specs.Prelude.{◌≡◌, ◌≤◌, ◌<◌, ◌+◌, ◌++◌, ◌∷◌, List, length, map, OnOk, IfOk};
ghost use Rattle.std.specs.Rc.{rc_value};
ghost use Rattle.incomplete_closure.specs.declared.cut_rows.Row.{Row as AnyRow};
ghost use Rattle.incomplete_closure.specs.Names.{number_of};
ghost use Rattle.incomplete_closure.specs.Wiring.{tied, wire_row, wire_rows, wire_reports, wire_down, wire_open, next_rows, root_of, roots_of, graph_of_rows};
ghost use Rattle.incomplete_closure.specs.Following.{IsBehind};
ghost use Rattle.incomplete_closure.specs.Sizes.{triggers_in, rows_of, triggers_of};

use crate::behind::Behind;
use crate::graph::Graph;
use crate::names::Names;
use crate::opening::OpenTrigger;
use crate::steps::Steps;
use crate::{Report, Row};
use std::alloc::Global;
use std::rc::Rc;
use std::sync::ledger::Ledger;
use topology::{NoMemory, Trigger};

// Adds edges both ways between the first trigger of a row and each of the others.
fn tie<L: Ledger>(
    graph: &mut Graph,
    names: &Names,
    first: usize,
    others: &[Trigger],
    steps: &mut Steps<L>,
) -> Result<(), NoMemory>
    requires names { length names.now < length graph.old }
    requires first { first < length graph.old }
    ensures graph { OnOk result (graph.new ≡ tied names.now graph.old first others.now) }
    ensures len { OnOk result (length graph.new ≡ length graph.old) }
    ensures most { steps.new ≤ steps.old + length others.now }
    ensures least { steps.old ≤ steps.new }
{
    for other in others {
        steps.take();
        let number = names.number(other);
        graph.link(first, number)?;
        graph.link(number, first)?;
    }
    Ok(())
}

// Adds edges from a row to its triggers and to later rows.
fn wire_row<L: Ledger>(
    graph: &mut Graph,
    names: &Names,
    behind: &mut Behind,
    row: &Row,
    steps: &mut Steps<L>,
) -> Result<(), NoMemory>
    requires { length names.now < length graph.old }
    ensures graph { OnOk result ((later : List AnyRow) → IsBehind names.now later behind.old →
        graph.new ≡ wire_row names.now graph.old row.now.triggers (next_rows names.now row.now.scope later)) }
    ensures len { OnOk result (length graph.new ≡ length graph.old) }
    ensures behind { OnOk result ((later : List AnyRow) → IsBehind names.now later behind.old →
        IsBehind names.now (row.now ∷ later) behind.new) }
    ensures most { steps.new ≤ steps.old + length row.now.triggers }
    ensures least { steps.old ≤ steps.new }
{
    let Some((first, others)) = row.triggers.as_slice().split_first() else {
        return Ok(());
    };
    steps.take();
    let number = names.number(first);
    tie(graph, names, number, others, steps)?;
    behind.lead(graph, number, &row.scope)?;
    behind.put(number, &row.scope)
}

// Adds the edges of all rows of a report, the last row first. Like `gather_rows`, it is compiled by itself.
#[inline(never)]
fn wire_rows<L: Ledger>(
    alloc: Global,
    graph: &mut Graph,
    names: &Names,
    rows: &[Row],
    steps: &mut Steps<L>,
) -> Result<(), NoMemory>
    requires { length names.now < length graph.old }
    ensures graph { OnOk result (graph.new ≡ wire_rows names.now graph.old rows.now) }
    ensures len { OnOk result (length graph.new ≡ length graph.old) }
    ensures most { steps.new ≤ steps.old + (length rows.now + triggers_in rows.now) }
    ensures least { steps.old ≤ steps.new }
{
    let mut behind = Behind::new(alloc);
    for place in (0..rows.len()).rev() {
        steps.take();
        wire_row(graph, names, &mut behind, &rows[place], steps)?;
    }
    Ok(())
}

// Adds the edges of all reports.
fn wire_reports<L: Ledger>(
    alloc: Global,
    graph: &mut Graph,
    names: &Names,
    reports: &[Rc<Report>],
    steps: &mut Steps<L>,
) -> Result<(), NoMemory>
    requires { length names.now < length graph.old }
    ensures graph { OnOk result (graph.new ≡ wire_reports names.now graph.old (map rc_value reports.now)) }
    ensures len { OnOk result (length graph.new ≡ length graph.old) }
    ensures most { steps.new ≤ steps.old
        + (rows_of (map rc_value reports.now) + triggers_of (map rc_value reports.now)) }
    ensures least { steps.old ≤ steps.new }
{
    for report in reports {
        wire_rows(alloc, graph, names, report.rows.as_slice(), steps)?;
    }
    Ok(())
}

// Adds an edge from the trigger of the `Down` to the open trigger. If there is no `Down`, the open trigger is a root.
fn wire_one(
    graph: &mut Graph,
    roots: &mut Vec<usize>,
    names: &Names,
    open_trigger: &OpenTrigger,
) -> Result<(), NoMemory>
    requires { length names.now < length graph.old }
    ensures graph { OnOk result (graph.new ≡ wire_down names.now graph.old open_trigger.now.down open_trigger.now.trigger) }
    ensures roots { OnOk result (roots.new.items ≡
        roots.old.items ++ root_of names.now open_trigger.now.down open_trigger.now.trigger) }
    ensures len { OnOk result (length graph.new ≡ length graph.old) }
{
    let number = names.number(&open_trigger.trigger);
    match &open_trigger.down {
        Some(down) => graph.link(names.number(down), number),
        None => Ok(roots.push(number)?),
    }
}

/// Adds the edges of all that is open, and returns the roots of the search.
pub(crate) fn wire_open<L: Ledger>(
    alloc: Global,
    graph: &mut Graph,
    names: &Names,
    opened: &[OpenTrigger],
    steps: &mut Steps<L>,
) -> Result<Vec<usize>, NoMemory>
    requires { length names.now < length graph.old }
    ensures graph { OnOk result (graph.new ≡ wire_open names.now graph.old opened.now) }
    ensures roots { IfOk result (λ roots. roots.items ≡ roots_of names.now opened.now) }
    ensures most { steps.new ≤ steps.old + length opened.now }
    ensures least { steps.old ≤ steps.new }
{
    let mut roots = Vec::new(alloc);
    for open_trigger in opened {
        steps.take();
        wire_one(graph, &mut roots, names, open_trigger)?;
    }
    Ok(roots)
}

/// The graph of the rows of reports, over the numbered triggers.
#[tactic(auto, unfolding(crate::specs::Wiring::graph_of_rows))]
pub(crate) fn graph_of_rows<L: Ledger>(
    alloc: Global,
    names: &Names,
    reports: &[Rc<Report>],
    steps: &mut Steps<L>,
) -> Result<Graph, NoMemory>
    ensures graph { IfOk result (λ graph. graph ≡ graph_of_rows names.now (map rc_value reports.now)) }
    ensures len { IfOk result (λ graph. length graph ≡ length names.now + 1) }
    ensures most { steps.new ≤ steps.old
        + (rows_of (map rc_value reports.now) + triggers_of (map rc_value reports.now)) }
    ensures least { steps.old ≤ steps.new }
{
    let mut graph = Graph::new(alloc, names.len())?;
    wire_reports(alloc, &mut graph, names, reports, steps)?;
    Ok(graph)
}
