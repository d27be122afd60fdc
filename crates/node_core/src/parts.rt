//! The state of a node beside its log.
ghost use Rattle.std.specs.Prelude.{◌≡◌, IfOk};

use crate::agreement::Agreement;
use crate::counts::Counts;
use marker_snapshot::Snapshots;
use std::alloc::Global;
use std::rc::Rc;
use topology::{NoMemory, NodeId, Topology};

/// The state of a node beside its log.
#[derive(Drop)]
pub struct NodeParts {
    pub(crate) alloc: Global,
    pub(crate) topology: Rc<Topology>,
    pub(crate) id: NodeId,
    // The counts of the log's entries.
    pub(crate) counts: Counts,
    pub(crate) snapshots: Snapshots,
    pub(crate) agreement: Agreement,
}

impl NodeParts {
    /// Moves the parts into a box.
    pub(crate) fn boxed(self) -> Result<Box<NodeParts>, NoMemory>
        ensures { IfOk result (λ parts. parts.value ≡ self) }
    {
        let alloc = self.alloc;
        Ok(Box::new(alloc, self)?)
    }
}
