//! The events of a run.
use topology::{Epoch, NodeId};

/// An event: one atomic step of one member.
#[derive(Clone, Copy, Debug, PartialEq, Eq)]
pub enum LeadEvent {
    /// A member starts a ballot for every epoch from this one on.
    Lead {
        node: NodeId,
        epoch: Epoch,
    },
    /// A member that leads should get this value chosen for the epoch.
    Offer {
        node: NodeId,
        epoch: Epoch,
        value: u32,
    },
    /// The message with this number arrives at its addressee.
    Control {
        number: u32,
    },
    /// A member crashes.
    Crash {
        node: NodeId,
    },
    /// A crashed member comes back.
    Restart {
        node: NodeId,
    },
}
