//! The orders in which nodes try their neighbours.
ghost use Rattle.std.specs.Prelude.{◌≡◌};

use epoch_packet::NodeList;
use std::marker::Model;

/// For each node, in ascending order of the nodes, the order in which it tries its neighbours.
#[derive(Debug, Drop)]
pub struct Orders {
    list: Vec<NodeList>,
}

impl Model for Orders {
    ghost use Rattle.std.specs.Prelude.{ℕ, List};

    ghost Value = { List (List ℕ) };

    ghost view = { λ o. o.list.items };
}

impl Orders {
    /// Orders from a list. Takes no memory.
    pub fn new(list: Vec<NodeList>) -> Orders
        ensures { result ≡ list.items }
    {
        Orders { list }
    }

    pub fn as_slice(&self) -> &[NodeList]
        ensures { result.now ≡ self.now }
    {
        &self.list
    }
}
