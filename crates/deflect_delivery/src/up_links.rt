//! Links that are up.
ghost use Rattle.std.specs.Prelude.{◌≡◌};

use std::marker::Model;
use topology::NodeId;

/// Links that are up, each given by its ends, in either order.
#[derive(Debug, Drop)]
pub struct UpLinks {
    list: Vec<(NodeId, NodeId)>,
}

impl Model for UpLinks {
    ghost use Rattle.std.specs.Prelude.{ℕ, List};

    ghost Value = { List (ℕ × ℕ) };

    ghost view = { λ u. u.list.items };
}

impl UpLinks {
    /// Links from a list. Takes no memory.
    pub fn new(list: Vec<(NodeId, NodeId)>) -> UpLinks
        ensures { result ≡ list.items }
    {
        UpLinks { list }
    }

    pub fn as_slice(&self) -> &[(NodeId, NodeId)]
        ensures { result.now ≡ self.now }
    {
        &self.list
    }
}
