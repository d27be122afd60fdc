//! The lists of nodes that a packet carries.
ghost use Rattle.std.specs.Prelude.{◌≡◌, [], ◌∷◌, ◌++◌, OnOk, OnErr};
ghost use Rattle.epoch_packet.specs.NodeLists.{after_first, last_of, but_last};

use std::marker::Model;
use topology::{NoMemory, NodeId};

/// A list of nodes, in any order.
#[derive(Debug, Drop)]
pub struct NodeList {
    list: Vec<NodeId>,
}

impl Model for NodeList {
    ghost use Rattle.std.specs.Prelude.{ℕ, List};

    ghost Value = { List ℕ };

    ghost view = { λ n. n.list.items };
}

impl NodeList {
    /// A node list from a list. Takes no memory.
    pub fn new(list: Vec<NodeId>) -> NodeList
        ensures { result ≡ list.items }
    {
        NodeList { list }
    }

    pub fn as_slice(&self) -> &[NodeId]
        ensures { result.now ≡ self.now }
    {
        &self.list
    }

    /// The nodes of the list. Takes no memory.
    pub fn into_vec(self) -> Vec<NodeId>
        ensures { result.items ≡ self }
    {
        self.list
    }

    /// The last node.
    pub fn last(&self) -> Option<NodeId>
        ensures { result ≡ last_of self.now }
    {
        self.list.last().copied()
    }

    /// Removes all nodes. Takes no memory.
    pub fn clear(&mut self)
        ensures { self.new ≡ [] }
    {
        self.list.clear();
    }

    /// Adds a node at the end.
    pub fn push(&mut self, node: NodeId) -> Result<(), NoMemory>
        ensures ok { OnOk result (self.new ≡ self.old ++ node ∷ []) }
        ensures err { OnErr result (self.new ≡ self.old) }
    {
        self.list.push(node)?;
        Ok(())
    }

    /// Removes the last node. Takes no memory.
    pub fn drop_last(&mut self)
        ensures { self.new ≡ but_last self.old }
    {
        let _ = self.list.pop();
    }

    /// Removes the first node. Takes no memory.
    pub fn drop_first(&mut self)
        ensures { self.new ≡ after_first self.old }
    {
        if !self.list.is_empty() {
            self.list.remove(0);
        }
    }

    /// Replaces all nodes by these.
    pub fn replace(&mut self, nodes: &[NodeId]) -> Result<(), NoMemory>
        ensures ok { OnOk result (self.new ≡ nodes.now) }
        ensures err { OnErr result (self.new ≡ self.old) }
    {
        self.list = Vec::from_slice(*self.list.allocator(), nodes)?;
        Ok(())
    }
}
