//! The messages that wait for one node.
ghost use Rattle.std.specs.Prelude.{ℕ, ◌≡◌, true, false, OnOk, OnErr};
ghost use Rattle.std.specs.Ordering.{nat_cmp};
ghost use Rattle.std.specs.BTreeSet.{IsEmpty, Updates};
ghost use Rattle.control_mail.specs.Keeping.{IsLowest, is_ready};

use std::alloc::Global;
use std::collections::BTreeSet;
use topology::{NoMemory, NodeId};

/// A node, whether it is crashed, and the numbers of the messages for it that were never delivered.
#[derive(Drop)]
pub struct Inbox {
    node: NodeId,
    crashed: bool,
    waiting: BTreeSet<u32>,
}

impl Inbox {
    /// The inbox of a running node for which nothing waits. Takes no memory.
    pub fn new(alloc: Global, node: NodeId) -> Inbox
        ensures node { result.node ≡ node }
        ensures runs { result.crashed ≡ false }
        ensures empty { IsEmpty result.waiting }
    {
        Inbox {
            node,
            crashed: false,
            waiting: BTreeSet::new(alloc),
        }
    }

    /// The node.
    pub fn node(&self) -> NodeId
        ensures { result ≡ self.now.node }
    {
        self.node
    }

    /// Whether the node is crashed.
    pub fn is_crashed(&self) -> bool
        ensures { result ≡ self.now.crashed }
    {
        self.crashed
    }

    /// Sets whether the node is crashed. The messages that wait for it keep waiting. Takes no memory.
    pub fn set_crashed(&mut self, crashed: bool)
        ensures { self.new ≡ record { node = self.old.node; crashed = crashed; waiting = self.old.waiting } }
    {
        self.crashed = crashed;
    }

    /// Adds a number that waits.
    pub fn add(&mut self, number: u32) -> Result<(), NoMemory>
        ensures node { self.new.node ≡ self.old.node }
        ensures crashed { self.new.crashed ≡ self.old.crashed }
        ensures added { OnOk result (Updates nat_cmp self.old.waiting self.new.waiting number true) }
        ensures err { OnErr result (self.new ≡ self.old) }
    {
        self.waiting.insert(number)?;
        Ok(())
    }

    /// Removes a number that waits. Takes no memory.
    pub fn remove(&mut self, number: u32)
        ensures node { self.new.node ≡ self.old.node }
        ensures crashed { self.new.crashed ≡ self.old.crashed }
        ensures removed { Updates nat_cmp self.old.waiting self.new.waiting number false }
    {
        self.waiting.remove(&number);
    }

    /// The lowest number that waits. The answer is `None` if nothing waits, or if the node is crashed. Takes no memory.
    pub fn next(&self) -> Option<u32>
        ensures { IsLowest (λ k. is_ready k self.now) result }
    {
        if self.crashed {
            return None;
        }
        self.waiting.first().copied()
    }
}
