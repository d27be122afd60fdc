//! The vertices that a search has reached.
ghost use Rattle.std.specs.Prelude.{◌≡◌, ◌≤◌, ◌<◌, ◌+◌, [], length, replicate, slice_get, ◌^◌, false, IfSome, OnOk, IfOk};
ghost use Rattle.incomplete_closure.specs.Graphs.{has_seen, enter, enter_all};

use crate::steps::Steps;
use std::alloc::Global;
use std::marker::Model;
use std::sync::ledger::Ledger;
use topology::NoMemory;

/// The vertices that were reached so far, each once, in the order of their discovery.
#[derive(Drop)]
pub(crate) struct Reached {
    seen: Vec<bool>,
    order: Vec<usize>,
}

impl Model for Reached {
    ghost use Rattle.incomplete_closure.specs.Graphs.{Trail};

    ghost Value = { Trail };

    ghost view = { λ r. record { seen = r.seen.items; order = r.order.items } };
}

impl Reached {
    /// No vertex of so many is reached yet.
    pub(crate) fn new(alloc: Global, vertices: usize) -> Result<Reached, NoMemory>
        ensures { IfOk result (λ r. r ≡ record { seen = replicate vertices false; order = [] }) }
    {
        Ok(Reached {
            seen: vec![in alloc; false; vertices]?,
            order: Vec::new(alloc),
        })
    }

    /// Whether the vertex was reached.
    pub(crate) fn has(&self, vertex: usize) -> bool
        ensures { result ≡ has_seen self.now vertex }
    {
        match self.seen.get(vertex) {
            Some(seen) => *seen,
            None => false,
        }
    }

    /// The vertex that was reached at this turn.
    pub(crate) fn at(&self, turn: usize) -> Option<usize>
        ensures vertex { result ≡ slice_get self.now.order turn }
        ensures small { IfSome result (λ _. turn + 1 < 2 ^ 64) }
    {
        self.order.get(turn).copied()
    }

    /// Enters the vertex, unless it was reached before.
    pub(crate) fn enter(&mut self, vertex: usize) -> Result<(), NoMemory>
        ensures { OnOk result (self.new ≡ enter self.old vertex) }
    {
        let Some(seen) = self.seen.get(vertex) else {
            return Ok(());
        };
        if *seen {
            return Ok(());
        }
        self.order.push(vertex)?;
        self.seen[vertex] = true;
        Ok(())
    }

    /// Enters each vertex of the list.
    pub(crate) fn enter_all<L: Ledger>(
        &mut self,
        vertices: &[usize],
        steps: &mut Steps<L>,
    ) -> Result<(), NoMemory>
        ensures reached { OnOk result (self.new ≡ enter_all self.old vertices.now) }
        ensures most { steps.new ≤ steps.old + length vertices.now }
        ensures least { steps.old ≤ steps.new }
    {
        for vertex in vertices {
            steps.take();
            self.enter(*vertex)?;
        }
        Ok(())
    }
}
