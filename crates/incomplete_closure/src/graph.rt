//! Graphs: vertices are numbers from 0, with edges to other vertices.
ghost use Rattle.std.specs.Prelude.{◌≡◌, ◌≤◌, ◌<◌, ◌+◌, [], OnOk, IfOk, length, replicate, set};
ghost use Rattle.incomplete_closure.specs.Chains.{chained, GoDown};
ghost use Rattle.incomplete_closure.specs.Graphs.{led_from, linked, enter_all};

use crate::reached::Reached;
use crate::steps::Steps;
use std::alloc::Global;
use std::marker::Model;
use std::sync::ledger::Ledger;
use topology::NoMemory;

/// An edge of the graph. The edges from a vertex form a chain: each has the place of an older one.
#[derive(Clone, Copy, Debug)]
pub(crate) struct Edge {
    to: usize,
    // One more than the place of the next edge in the chain; 0 in the last edge.
    next: usize,
}

/// The edges of each vertex. All edges stand in one list, in the order in which they were added.
#[derive(Drop)]
pub(crate) struct Graph {
    // One more than the place of the newest edge of each vertex; 0 if it has none.
    newest: Vec<usize>,
    edges: Vec<Edge>,
}

impl Model for Graph {
    ghost use Rattle.std.specs.Prelude.{ℕ, List, map};
    ghost use Rattle.incomplete_closure.specs.Chains.{chained, AreChained};

    ghost Value = { List (List ℕ) };

    ghost view = { λ g. map (chained g.edges.items) g.newest.items };

    ghost invariant = { λ g. AreChained g.newest.items g.edges.items };
}

// Enters all targets of the edges in a chain.
fn enter_chain<L: Ledger>(
    edges: &[Edge],
    newest: usize,
    reached: &mut Reached,
    steps: &mut Steps<L>,
) -> Result<(), NoMemory>
    requires older { GoDown edges.now }
    requires within { newest ≤ length edges.now }
    ensures reached { OnOk result (reached.new ≡ enter_all reached.old (chained edges.now newest)) }
    ensures most { steps.new ≤ steps.old + length (chained edges.now newest) }
    ensures least { steps.old ≤ steps.new }
{
    let mut at = newest;
    while at > 0 {
        let edge = edges[at - 1];
        steps.take();
        reached.enter(edge.to)?;
        at = edge.next;
    }
    Ok(())
}

impl Graph {
    /// A graph of `vertices + 1` vertices, without edges.
    pub(crate) fn new(alloc: Global, vertices: usize) -> Result<Graph, NoMemory>
        ensures { IfOk result (λ graph. graph ≡ replicate (vertices + 1) []) }
    {
        let mut newest = vec![in alloc; 0; vertices]?;
        newest.push(0)?;
        Ok(Graph {
            newest,
            edges: Vec::new(alloc),
        })
    }

    /// How many vertices there are.
    pub(crate) fn len(&self) -> usize
        ensures { result ≡ length self.now }
    {
        self.newest.len()
    }

    /// Adds an edge.
    pub(crate) fn link(&mut self, from: usize, to: usize) -> Result<(), NoMemory>
        requires { from < length self.old }
        ensures graph { OnOk result (self.new ≡ linked self.old from to) }
        ensures len { OnOk result (length self.new ≡ length self.old) }
    {
        let next = self.newest[from];
        self.edges.push(Edge { to, next })?;
        self.newest[from] = self.edges.len();
        Ok(())
    }

    /// Enters all targets of a vertex, and removes its edges.
    pub(crate) fn follow<L: Ledger>(
        &mut self,
        vertex: usize,
        reached: &mut Reached,
        steps: &mut Steps<L>,
    ) -> Result<(), NoMemory>
        requires { vertex < length self.old }
        ensures reached { OnOk result (reached.new ≡ enter_all reached.old (led_from self.old vertex)) }
        ensures rest { self.new ≡ set self.old vertex [] }
        ensures most { steps.new ≤ steps.old + length (led_from self.old vertex) }
        ensures least { steps.old ≤ steps.new }
    {
        let newest = self.newest[vertex];
        self.newest[vertex] = 0;
        enter_chain(&self.edges, newest, reached, steps)
    }
}
