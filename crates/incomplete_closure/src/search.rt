//! A search of a graph from its roots.
ghost use Rattle.std.specs.Prelude.{◌≡◌, ◌≤◌, ◌+◌, length, IfOk};
ghost use Rattle.incomplete_closure.specs.Graphs.{edges, IsReached};

use crate::graph::Graph;
use crate::reached::Reached;
use crate::steps::Steps;
use std::alloc::Global;
use std::sync::ledger::Ledger;
use topology::NoMemory;

/// The roots and all vertices that can be reached from them. A vertex enters the list once; at its turn its edges are
/// removed from the graph, and their targets enter the list.
pub(crate) fn search<L: Ledger>(
    alloc: Global,
    graph: &mut Graph,
    roots: &[usize],
    steps: &mut Steps<L>,
) -> Result<Reached, NoMemory>
    ensures reached { IfOk result (IsReached graph.old roots.now) }
    ensures most { steps.new ≤ steps.old + (length roots.now + edges graph.old) }
    ensures least { steps.old ≤ steps.new }
{
    let mut reached = Reached::new(alloc, graph.len())?;
    reached.enter_all(roots, steps)?;
    let mut turn = 0;
    while let Some(vertex) = reached.at(turn) {
        graph.follow(vertex, &mut reached, steps)?;
        turn += 1;
    }
    Ok(reached)
}
