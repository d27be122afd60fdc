//! What a node holds back at the end of a cut, as rows of a report.
ghost use Rattle.std.specs.Prelude.{◌≡◌};

use std::marker::Model;
use topology::Pending;

/// The pending rows of a report: one for each neighbour and prefix of which an update is held back.
#[derive(Debug, Drop)]
pub struct PendingRows {
    list: Vec<Pending>,
}

impl Model for PendingRows {
    ghost use Rattle.std.specs.Prelude.{List};
    ghost use Rattle.topology.specs.declared.items.Pending.{Pending};

    ghost Value = { List Pending };

    ghost view = { λ r. r.list.items };
}

impl PendingRows {
    /// A report's pending rows from a list. Takes no memory.
    pub fn new(list: Vec<Pending>) -> PendingRows
        ensures { result ≡ list.items }
    {
        PendingRows { list }
    }

    pub fn as_slice(&self) -> &[Pending]
        ensures { result.now ≡ self.now }
    {
        &self.list
    }
}
