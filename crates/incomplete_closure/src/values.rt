//! The value that is agreed on for an epoch.
ghost use Rattle.std.specs.Prelude.{◌≡◌, IfOk};

use std::marker::Model;
use topology::{NoMemory, NodeId, Triggers};

/// The nodes that responded. In a value they ascend.
#[derive(Debug, Drop)]
pub struct RespondingNodes {
    list: Vec<NodeId>,
}

impl Model for RespondingNodes {
    ghost use Rattle.std.specs.Prelude.{ℕ, List};

    ghost Value = { List ℕ };

    ghost view = { λ n. n.list.items };
}

impl RespondingNodes {
    /// The list as responding nodes. Takes no memory.
    pub fn new(list: Vec<NodeId>) -> RespondingNodes
        ensures { result ≡ list.items }
    {
        RespondingNodes { list }
    }

    pub fn as_slice(&self) -> &[NodeId]
        ensures { result.now ≡ self.now }
    {
        &self.list
    }

    fn copy(&self) -> Result<RespondingNodes, NoMemory>
        ensures { IfOk result (λ nodes. nodes ≡ self.now) }
    {
        Ok(RespondingNodes {
            list: self.list.clone()?,
        })
    }
}

/// The value of an epoch: the nodes that responded, ascending, and the incomplete triggers.
#[derive(Debug, Drop)]
pub struct Value {
    pub responding: RespondingNodes,
    pub incomplete: Triggers,
}

impl Value {
    /// An equal copy.
    pub fn copy(&self) -> Result<Value, NoMemory>
        ensures { IfOk result (λ value. value ≡ self.now) }
    {
        Ok(Value {
            responding: self.responding.copy()?,
            incomplete: self.incomplete.copy()?,
        })
    }
}
