//! A network: its nodes, links and prefixes, in the order in which they were added.
ghost use Rattle.std.specs.Prelude.{◌≡◌, ◌^◌, ◌<◌, ◌≤◌, ◌↔◌, false, None, Some, IfErr, IfOk, OnOk, OnErr, IfSome, IsNone, find, length, slice_get, option_map};
ghost use Rattle.topology.specs.Lists.{ascending, has, put_ascending};
ghost use Rattle.topology.specs.Net.{neighbours, relation, file_preference, prefers, has_prefix, holds_back, IsValid, IsPrefix, Leads};
ghost use Rattle.topology.specs.Building.{nothing, with_node, with_link, with_pref, with_prefix, with_hold, with_hops, with_scheme, node_refusal, link_refusal, pref_refusal, prefix_refusal, scheme_refusal, AnswersBy};

use crate::limits::{MOST_CONSOLIDATORS, MOST_LINKS, MOST_NODES, MOST_PREFIXES};
use crate::node_set::insert_ascending;
use crate::{
    BuildError, Hold, HoldTable, Link, LinkTable, NoMemory, NodeId, NodeSet, Pref, PrefTable,
    Prefix, PrefixId, Relation, Scheme,
};
use indexmap::IndexSet;
use std::alloc::Global;
use std::marker::Model;

const DEFAULT_PREFERENCE: u32 = 100;

const DEFAULT_HOPS: u16 = 128;

/// A network. It starts empty, and nothing that was added can be removed.
#[derive(Drop)]
pub struct Topology {
    nodes: NodeSet,
    consolidators: NodeSet,
    /// The neighbours of each node, ascending, at the node's place in file order.
    neighbours: Vec<Vec<NodeId>>,
    links: LinkTable,
    preferences: PrefTable,
    prefixes: IndexSet<Prefix>,
    holds: HoldTable,
    hops: u16,
    scheme: Scheme,
    alloc: Global,
}

impl Model for Topology {
    ghost use Rattle.std.specs.Prelude.{map};
    ghost use Rattle.topology.specs.Net.{Net};

    ghost Value = { Net };

    ghost use Rattle.topology.specs.Tables.{Keeps};

    ghost view = { λ t. record { nodes = t.nodes.nodes; consolidators = t.consolidators.nodes; links = t.links; preferences = t.preferences; prefixes = t.prefixes.keys; holds = t.holds; hops = t.hops; scheme = t.scheme } };

    ghost invariant = { λ t. Keeps (record { nodes = t.nodes.nodes; consolidators = t.consolidators.nodes; links = t.links; preferences = t.preferences; prefixes = t.prefixes.keys; holds = t.holds; hops = t.hops; scheme = t.scheme }) (map (λ near. near.items) t.neighbours.items) };
}

// A copy of the list with one more node.
fn with_ascending(nodes: &[NodeId], id: NodeId, alloc: Global) -> Result<Vec<NodeId>, NoMemory>
    ensures { IfOk result (λ more. more.items ≡ put_ascending id nodes.now) }
{
    let mut more = Vec::from_slice(alloc, nodes)?;
    insert_ascending(&mut more, id)?;
    Ok(more)
}

impl Topology {
    /// A network without nodes, with at most 128 moves for a packet off the stable tables, and scheme `Deflect`. Takes
    /// no memory.
    pub fn empty(alloc: Global) -> Topology
        ensures { result ≡ nothing }
    {
        Topology {
            nodes: NodeSet::empty(alloc),
            consolidators: NodeSet::empty(alloc),
            neighbours: Vec::new(alloc),
            links: LinkTable::empty(alloc),
            preferences: PrefTable::empty(alloc),
            prefixes: IndexSet::new(alloc),
            holds: HoldTable::empty(alloc),
            hops: DEFAULT_HOPS,
            scheme: Scheme::Deflect,
            alloc,
        }
    }

    // Whether a node may be added.
    fn check_node(&self, id: NodeId, consolidator: bool) -> Result<(), BuildError>
        ensures ok { OnOk result (node_refusal self.now id consolidator ≡ None) }
        ensures fits { OnOk result (id < 2 ^ 16) }
        ensures err { IfErr result (λ e. node_refusal self.now id consolidator ≡ Some e) }
    {
        if self.nodes.contains(id) {
            return Err(BuildError::DuplicateNode);
        }
        if self.nodes.len() >= MOST_NODES {
            return Err(BuildError::TooMany);
        }
        if consolidator && self.consolidators.len() >= MOST_CONSOLIDATORS {
            return Err(BuildError::TooMany);
        }
        let _fits = id.number();
        Ok(())
    }

    // The places of the two ends, if a link between them may be added.
    fn check_link(&self, a: NodeId, b: NodeId) -> Result<(usize, usize), BuildError>
        ensures ok { OnOk result (link_refusal self.now a b ≡ None) }
        ensures from { IfOk result (λ places. slice_get self.now.nodes places.0 ≡ Some a) }
        ensures to { IfOk result (λ places. slice_get self.now.nodes places.1 ≡ Some b) }
        ensures err { IfErr result (λ e. link_refusal self.now a b ≡ Some e) }
    {
        let Some(from) = self.nodes.place(a) else {
            return Err(BuildError::UnknownNode(a));
        };
        let Some(to) = self.nodes.place(b) else {
            return Err(BuildError::UnknownNode(b));
        };
        if a == b {
            return Err(BuildError::SelfLink);
        }
        if self.links.has(a, b) {
            return Err(BuildError::DuplicateLink);
        }
        if self.links.len() >= MOST_LINKS {
            return Err(BuildError::TooMany);
        }
        Ok((from, to))
    }

    /// Adds a node, numbered from 1. There are at most 64 nodes, and at most 7 of them are consolidators.
    pub fn add_node(&mut self, id: NodeId, consolidator: bool) -> Result<(), BuildError>
        requires { 0 < id }
        ensures ok { OnOk result (self.new ≡ with_node self.old id consolidator) }
        ensures refused { AnswersBy result (node_refusal self.old id consolidator) }
        ensures err { OnErr result (self.new ≡ self.old) }
    {
        self.check_node(id, consolidator)?;
        self.nodes.reserve()?;
        self.consolidators.reserve()?;
        self.neighbours.push(Vec::new(self.alloc))?;
        self.nodes.add(id);
        if consolidator {
            self.consolidators.add(id);
        }
        Ok(())
    }

    /// Adds a link: `b` has this relation to `a`, and `a` has the converse relation to `b`. There are at most 512
    /// links, and at most one between two nodes.
    pub fn add_link(&mut self, a: NodeId, b: NodeId, relation: Relation) -> Result<(), BuildError>
        ensures ok { OnOk result (self.new ≡ with_link self.old (record { a = a; b = b; relation = relation })) }
        ensures refused { AnswersBy result (link_refusal self.old a b) }
        ensures err { OnErr result (self.new ≡ self.old) }
    {
        let (from, to) = self.check_link(a, b)?;
        let near_a = with_ascending(self.neighbours(a), b, self.alloc)?;
        let near_b = with_ascending(self.neighbours(b), a, self.alloc)?;
        self.links.add(Link { a, b, relation })?;
        self.neighbours[from] = near_a;
        self.neighbours[to] = near_b;
        Ok(())
    }

    // Whether a preference, or a hold, may be added.
    fn check_pref(&self, a: NodeId, b: NodeId) -> Result<(), BuildError>
        ensures ok { OnOk result (pref_refusal self.now a b ≡ None) }
        ensures err { IfErr result (λ e. pref_refusal self.now a b ≡ Some e) }
    {
        if !self.nodes.contains(a) {
            return Err(BuildError::UnknownNode(a));
        }
        if !self.nodes.contains(b) {
            return Err(BuildError::UnknownNode(b));
        }
        if a == b {
            return Err(BuildError::SelfLink);
        }
        if !self.links.has(a, b) {
            return Err(BuildError::NoLink);
        }
        Ok(())
    }

    /// Adds the preference of `a` for the candidates of its neighbour `b`. It replaces an earlier preference of the
    /// same two nodes.
    pub fn add_pref(&mut self, a: NodeId, b: NodeId, value: u32) -> Result<(), BuildError>
        requires { value ≤ 1000000 }
        ensures ok { OnOk result (self.new ≡ with_pref self.old (record { a = a; b = b; value = value })) }
        ensures refused { AnswersBy result (pref_refusal self.old a b) }
        ensures err { OnErr result (self.new ≡ self.old) }
    {
        self.check_pref(a, b)?;
        self.preferences.put(Pref { a, b, value })?;
        Ok(())
    }

    /// Adds a hold: `a` holds back its updates to its neighbour `b`. A hold that is there already changes nothing.
    pub fn add_hold(&mut self, a: NodeId, b: NodeId) -> Result<(), BuildError>
        ensures ok { OnOk result (self.new ≡ with_hold self.old (record { a = a; b = b })) }
        ensures refused { AnswersBy result (pref_refusal self.old a b) }
        ensures err { OnErr result (self.new ≡ self.old) }
    {
        self.check_pref(a, b)?;
        self.holds.put(Hold { a, b })?;
        Ok(())
    }

    /// Adds a prefix, and returns its place, from 0. There are at most 256.
    pub fn add_prefix(&mut self, prefix: Prefix) -> Result<PrefixId, BuildError>
        requires { IsPrefix prefix }
        ensures place { IfOk result (λ id. id ≡ length self.old.prefixes) }
        ensures ok { OnOk result (self.new ≡ with_prefix self.old prefix) }
        ensures refused { AnswersBy result (prefix_refusal self.old prefix) }
        ensures err { OnErr result (self.new ≡ self.old) }
    {
        if self.prefixes.contains(&prefix) {
            return Err(BuildError::DuplicatePrefix);
        }
        if self.prefixes.len() >= MOST_PREFIXES {
            return Err(BuildError::TooMany);
        }
        let (place, _) = self.prefixes.insert_full(prefix)?;
        Ok(PrefixId::new(place as u16))
    }

    /// Sets how many moves a packet may make off the stable tables.
    pub fn set_hops(&mut self, hops: u16)
        ensures { self.new ≡ with_hops self.old hops }
    {
        self.hops = hops;
    }

    // Whether the scheme may be set.
    fn check_scheme(&self, scheme: &Scheme) -> Result<(), BuildError>
        ensures ok { OnOk result (scheme_refusal self.now scheme.now ≡ None) }
        ensures err { IfErr result (λ e. scheme_refusal self.now scheme.now ≡ Some e) }
    {
        match scheme {
            Scheme::Detour(node) => {
                if self.nodes.contains(*node) {
                    Ok(())
                } else {
                    Err(BuildError::UnknownNode(*node))
                }
            }
            Scheme::Deflect | Scheme::Backup => Ok(()),
        }
    }

    /// Sets the scheme for packets off the stable tables. The node of a detour must be in the network.
    pub fn set_scheme(&mut self, scheme: Scheme) -> Result<(), BuildError>
        ensures ok { OnOk result (self.new ≡ with_scheme self.old scheme) }
        ensures refused { AnswersBy result (scheme_refusal self.old scheme) }
        ensures err { OnErr result (self.new ≡ self.old) }
    {
        self.check_scheme(&scheme)?;
        self.scheme = scheme;
        Ok(())
    }

    /// How many moves a packet may make off the stable tables.
    pub fn hops(&self) -> u16
        ensures { result ≡ self.now.hops }
    {
        self.hops
    }

    /// The scheme for packets off the stable tables.
    pub fn scheme(&self) -> Scheme
        ensures scheme { result ≡ self.now.scheme }
        ensures fits { Leads self.now.nodes result }
    {
        self.scheme
    }

    /// The nodes, ascending.
    #[tactic(auto, unfolding(crate::specs::Lists::ascending))]
    pub fn nodes(&self) -> &[NodeId]
        ensures nodes { result.now ≡ ascending self.now.nodes }
        ensures valid { IsValid self.now }
    {
        self.nodes.ascending()
    }

    /// The place of a node among the nodes, ascending, from 0.
    #[tactic(auto, unfolding(crate::specs::Lists::ascending))]
    pub fn rank_of(&self, id: NodeId) -> Option<usize>
        ensures some { IfSome result (λ rank. slice_get (ascending self.now.nodes) rank ≡ Some id) }
        ensures none { IsNone result ↔ (has self.now.nodes id ≡ false) }
    {
        self.nodes.rank(id)
    }

    /// The nodes that a node has a link with, ascending.
    #[tactic(auto, unfolding(crate::specs::Lists::ascending, crate::specs::Net::neighbours))]
    pub fn neighbours(&self, id: NodeId) -> &[NodeId]
        ensures neighbours { result.now ≡ neighbours self.now id }
        ensures few { length result.now ≤ 63 }
    {
        match self.nodes.place(id) {
            Some(place) => &self.neighbours[place],
            None => &[],
        }
    }

    /// What `b` is to `a`. The answer is `None` exactly where they have no link.
    #[tactic(auto, unfolding(crate::specs::Net::relation))]
    pub fn relation(&self, a: NodeId, b: NodeId) -> Option<Relation>
        ensures { result ≡ relation self.now a b }
    {
        let link = self.links.find(a, b)?;
        if link.a == a {
            Some(link.relation)
        } else {
            Some(link.relation.converse())
        }
    }

    /// The preference that was added for `a` and the candidates of `b`.
    pub fn added_pref(&self, a: NodeId, b: NodeId) -> Option<u32>
        ensures { result ≡ option_map (λ pref. pref.value) (find (prefers a b) self.now.preferences) }
    {
        let pref = self.preferences.find(a, b)?;
        Some(pref.value)
    }

    /// The preference that the file gives to the candidates of `b` at `a`; 100 where it gives none.
    #[tactic(auto, unfolding(crate::specs::Net::file_preference))]
    pub fn pref(&self, a: NodeId, b: NodeId) -> u32
        ensures value { result ≡ file_preference self.now a b }
        ensures small { result ≤ 1000000 }
    {
        match self.preferences.find(a, b) {
            Some(pref) => pref.value,
            None => DEFAULT_PREFERENCE,
        }
    }

    /// Whether `a` holds back its updates to `b`.
    #[tactic(auto, unfolding(crate::specs::Net::holds_back))]
    pub fn holds(&self, a: NodeId, b: NodeId) -> bool
        ensures { result ≡ holds_back self.now a b }
    {
        self.holds.has(a, b)
    }

    /// The consolidators, ascending.
    #[tactic(auto, unfolding(crate::specs::Lists::ascending))]
    pub fn consolidators(&self) -> &[NodeId]
        ensures { result.now ≡ ascending self.now.consolidators }
    {
        self.consolidators.ascending()
    }

    /// How many prefixes there are.
    pub fn prefix_count(&self) -> u16
        ensures count { result ≡ length self.now.prefixes }
        ensures few { result ≤ 256 }
    {
        self.prefixes.len() as u16
    }

    /// The prefix at a place. The answer is `None` exactly where there is none.
    pub fn prefix(&self, id: PrefixId) -> Option<Prefix>
        ensures { result ≡ slice_get self.now.prefixes id }
    {
        self.prefixes.get_index(usize::from(id.place())).copied()
    }

    /// The place of a prefix. The answer is `None` exactly where it was not added.
    pub fn find_prefix(&self, prefix: Prefix) -> Option<PrefixId>
        ensures some { IfSome result (λ id. slice_get self.now.prefixes id ≡ Some prefix) }
        ensures none { IsNone result ↔ (has_prefix self.now prefix ≡ false) }
    {
        let place = self.prefixes.get_index_of(&prefix)?;
        Some(PrefixId::new(place as u16))
    }

    /// The node at a place in file order, from 0, and whether it is a consolidator.
    pub fn node_at(&self, place: u16) -> Option<(NodeId, bool)>
        ensures { result ≡ option_map (λ id. (id, has self.now.consolidators id)) (slice_get self.now.nodes place) }
    {
        let id = self.nodes.at(usize::from(place))?;
        Some((id, self.consolidators.contains(id)))
    }

    /// The link at a place in file order, from 0, as it was added.
    pub fn link_at(&self, place: u16) -> Option<(NodeId, NodeId, Relation)>
        ensures { result ≡ option_map (λ link. (link.a, link.b, link.relation)) (slice_get self.now.links place) }
    {
        let link = self.links.at(usize::from(place))?;
        Some((link.a, link.b, link.relation))
    }
}
