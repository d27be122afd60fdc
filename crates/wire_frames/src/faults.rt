//! Why a part of a frame cannot be read.
use std::alloc::{AllocError, AllocFailed};
use topology::{FrameKind, NoMemory};

// Why a part of a frame cannot be read into memory.
#[derive(Clone, Copy, Debug, PartialEq, Eq)]
pub(crate) enum ReadError {
    NoMemory,
    // The part is not a spelling. Parts of decoded frames always are.
    Bad(FrameKind),
}

impl From<FrameKind> for ReadError {
    fn from(wrong: FrameKind) -> ReadError {
        ReadError::Bad(wrong)
    }
}

impl From<NoMemory> for ReadError {
    fn from(_: NoMemory) -> ReadError {
        ReadError::NoMemory
    }
}

impl From<AllocError> for ReadError {
    fn from(_: AllocError) -> ReadError {
        ReadError::NoMemory
    }
}

impl<T: Drop> From<AllocFailed<T>> for ReadError {
    fn from(_: AllocFailed<T>) -> ReadError {
        ReadError::NoMemory
    }
}
