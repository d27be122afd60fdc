//! The links of a network, found by their two ends.
ghost use Rattle.std.specs.Prelude.{◌≡◌, [], ◌∷◌, ◌++◌, false, find, length, slice_get, OnOk, OnErr};
ghost use Rattle.std.specs.List.{list_any};
ghost use Rattle.topology.specs.Net.{joins};
ghost use Rattle.topology.specs.Tables.{ends};

use crate::{Link, NoMemory, NodeId};
use indexmap::IndexMap;
use std::alloc::Global;
use std::marker::Model;

/// The two ends of a link, the lower first.
#[derive(Clone, Copy, Debug, PartialEq, Eq, Hash)]
pub struct LinkKey {
    low: NodeId,
    high: NodeId,
}

impl LinkKey {
    fn of(a: NodeId, b: NodeId) -> LinkKey
        ensures { result ≡ ends a b }
    {
        if a < b {
            LinkKey { low: a, high: b }
        } else {
            LinkKey { low: b, high: a }
        }
    }
}

/// Links in the order in which they were added, at most one for each pair of nodes.
#[derive(Drop)]
pub struct LinkTable {
    links: IndexMap<LinkKey, Link>,
}

impl Model for LinkTable {
    ghost use Rattle.std.specs.Prelude.{List};
    ghost use Rattle.indexmap.specs.IndexMap.{values};
    ghost use Rattle.topology.specs.declared.links.Link.{Link};

    ghost Value = { List Link };

    ghost use Rattle.topology.specs.Tables.{UnderTheirEnds};

    ghost view = { λ t. values t.links };

    ghost invariant = { λ t. UnderTheirEnds t.links.entries };
}

impl LinkTable {
    pub fn empty(alloc: Global) -> LinkTable
        ensures { result ≡ [] }
    {
        LinkTable {
            links: IndexMap::new(alloc),
        }
    }

    pub fn len(&self) -> usize
        ensures { result ≡ length self.now }
    {
        self.links.len()
    }

    /// The link between two nodes.
    pub fn find(&self, a: NodeId, b: NodeId) -> Option<Link>
        ensures { result ≡ find (joins a b) self.now }
    {
        self.links.get(&LinkKey::of(a, b)).copied()
    }

    /// Whether two nodes have a link.
    #[tactic(auto, using(crate::proofs::Linked::any_found))]
    pub fn has(&self, a: NodeId, b: NodeId) -> bool
        ensures { result ≡ list_any (joins a b) self.now }
    {
        self.find(a, b).is_some()
    }

    /// The link at a place in the order in which they were added.
    pub fn at(&self, place: usize) -> Option<Link>
        ensures { result ≡ slice_get self.now place }
    {
        let (_, link) = self.links.get_index(place)?;
        Some(*link)
    }

    /// Adds a link between two nodes that have none.
    pub fn add(&mut self, link: Link) -> Result<(), NoMemory>
        requires { list_any (joins link.a link.b) self.old ≡ false }
        ensures ok { OnOk result (self.new ≡ self.old ++ link ∷ []) }
        ensures err { OnErr result (self.new ≡ self.old) }
    {
        self.links.insert(LinkKey::of(link.a, link.b), link)?;
        Ok(())
    }
}
