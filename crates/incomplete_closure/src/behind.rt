//! The later rows of a report, and which of them a row leads to.
ghost use Rattle.std.specs.Prelude.{ℕ, ◌≡◌, ◌<◌, ◌==◌, ◌++◌, ◌∷◌, [], Some, None, length, OnOk, if◌then◌else◌};
ghost use Rattle.std.specs.Option.{option_to_list};
ghost use Rattle.incomplete_closure.specs.Wiring.{nearest_by, stretch_by, fanned};
ghost use Rattle.incomplete_closure.specs.Following.{next_of, led_by};

use crate::graph::Graph;
use std::alloc::Global;
use std::collections::BTreeMap;
use topology::{NoMemory, PrefixId, Scope};

/// The rows of a report from some row on, by number. Only those are kept to which an earlier row can lead.
#[derive(Drop)]
pub(crate) struct Behind {
    /// The first row of each prefix, if it comes before the first row of all prefixes.
    nearest: BTreeMap<PrefixId, usize>,
    /// The first row of all prefixes.
    all: Option<usize>,
    /// All rows up to the first row of all prefixes, and that row.
    stretch: Vec<usize>,
    alloc: Global,
}

// Adds an edge from the vertex to each target.
fn fan_out(graph: &mut Graph, from: usize, targets: &[usize]) -> Result<(), NoMemory>
    requires { from < length graph.old }
    ensures graph { OnOk result (graph.new ≡ fanned graph.old from targets.now) }
    ensures len { OnOk result (length graph.new ≡ length graph.old) }
{
    for target in targets {
        graph.link(from, *target)?;
    }
    Ok(())
}

impl Behind {
    /// No row. Takes no memory.
    pub(crate) fn new(alloc: Global) -> Behind
        ensures nearest { (p : ℕ) → next_of result p ≡ None }
        ensures stretch { result.stretch.items ≡ [] }
    {
        Behind {
            nearest: BTreeMap::new(alloc),
            all: None,
            stretch: Vec::new(alloc),
            alloc,
        }
    }

    // The first row of this prefix or of all prefixes.
    fn next(&self, prefix: PrefixId) -> Option<usize>
        ensures { result ≡ next_of self.now prefix }
    {
        self.nearest.get(&prefix).copied().or(self.all)
    }

    fn put_one(&mut self, number: usize, prefix: PrefixId) -> Result<(), NoMemory>
        ensures nearest { OnOk result ((p : ℕ) →
            next_of self.new p ≡ (if prefix == p then Some number else next_of self.old p)) }
        ensures stretch { OnOk result (self.new.stretch.items ≡ self.old.stretch.items ++ number ∷ []) }
    {
        let _ = self.nearest.insert(prefix, number)?;
        self.stretch.push(number)?;
        Ok(())
    }

    fn put_all(&mut self, number: usize) -> Result<(), NoMemory>
        ensures nearest { OnOk result ((p : ℕ) → next_of self.new p ≡ Some number) }
        ensures stretch { OnOk result (self.new.stretch.items ≡ number ∷ []) }
    {
        self.nearest = BTreeMap::new(self.alloc);
        self.all = Some(number);
        self.stretch.clear();
        self.stretch.push(number)?;
        Ok(())
    }

    /// Adds a row in front of the others.
    pub(crate) fn put(&mut self, number: usize, scope: &Scope) -> Result<(), NoMemory>
        ensures nearest { OnOk result ((p : ℕ) →
            next_of self.new p ≡ nearest_by scope.now number p (next_of self.old p)) }
        ensures stretch { OnOk result (self.new.stretch.items ≡ stretch_by scope.now number self.old.stretch.items) }
    {
        match scope {
            Scope::One(prefix) => self.put_one(number, *prefix),
            Scope::All => self.put_all(number),
            Scope::Nothing => Ok(()),
        }
    }

    fn lead_on(&self, graph: &mut Graph, number: usize, prefix: PrefixId) -> Result<(), NoMemory>
        requires { number < length graph.old }
        ensures graph { OnOk result (graph.new ≡ fanned graph.old number (option_to_list (next_of self.now prefix))) }
        ensures len { OnOk result (length graph.new ≡ length graph.old) }
    {
        match self.next(prefix) {
            Some(next) => graph.link(number, next),
            None => Ok(()),
        }
    }

    /// Adds the edges of an earlier row. A row of one prefix leads to the next row that shares the prefix; a row of all
    /// prefixes leads to every row up to the next row of all prefixes.
    pub(crate) fn lead(
        &self,
        graph: &mut Graph,
        number: usize,
        scope: &Scope,
    ) -> Result<(), NoMemory>
        requires { number < length graph.old }
        ensures graph { OnOk result (graph.new ≡ fanned graph.old number (led_by scope.now self.now)) }
        ensures len { OnOk result (length graph.new ≡ length graph.old) }
    {
        match scope {
            Scope::One(prefix) => self.lead_on(graph, number, *prefix),
            Scope::All => fan_out(graph, number, &self.stretch),
            Scope::Nothing => Ok(()),
        }
    }
}
