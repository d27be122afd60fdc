//! Why a call does not add something to a topology.
ghost use Rattle.std.specs.Prelude.{◌≡◌};
ghost use Rattle.topology.specs.Building.{number_of};
ghost use Rattle.topology.specs.declared.building.BuildError.TheVariants.{NoMemory};

use crate::NodeId;
use crate::paths::NoMemory as NoMoreMemory;
use std::alloc::{AllocError, AllocFailed};
use thiserror::Error;

/// Why a call adds nothing to a topology. Where several reasons hold, the first in this order is given: an unknown
/// node, equal ends, no link, a duplicate, too many.
#[derive(Clone, Copy, Debug, PartialEq, Eq, Error)]
pub enum BuildError {
    #[error("the node is there already")]
    DuplicateNode,
    #[error("there is no such node")]
    UnknownNode(NodeId),
    #[error("the link is there already")]
    DuplicateLink,
    #[error("the two ends are one node")]
    SelfLink,
    #[error("the prefix is there already")]
    DuplicatePrefix,
    #[error("there are too many")]
    TooMany,
    #[error("out of memory")]
    NoMemory,
    #[error("the two nodes have no link")]
    NoLink,
}

impl From<NoMoreMemory> for BuildError {
    ghost from_gives = { λ _ e. e ≡ NoMemory };

    fn from(_: NoMoreMemory) -> BuildError {
        BuildError::NoMemory
    }
}

impl From<AllocError> for BuildError {
    ghost from_gives = { λ _ e. e ≡ NoMemory };

    fn from(_: AllocError) -> BuildError {
        BuildError::NoMemory
    }
}

impl<T: Drop> From<AllocFailed<T>> for BuildError {
    ghost from_gives = { λ _ e. e ≡ NoMemory };

    fn from(_: AllocFailed<T>) -> BuildError {
        BuildError::NoMemory
    }
}

impl BuildError {
    /// The number of the refusal, from 1 to 8.
    pub fn number(&self) -> u8
        ensures { result ≡ number_of self.now }
    {
        match self {
            BuildError::DuplicateNode => 1,
            BuildError::UnknownNode(_) => 2,
            BuildError::DuplicateLink => 3,
            BuildError::SelfLink => 4,
            BuildError::DuplicatePrefix => 5,
            BuildError::TooMany => 6,
            BuildError::NoMemory => 7,
            BuildError::NoLink => 8,
        }
    }
}
