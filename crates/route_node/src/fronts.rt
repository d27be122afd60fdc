//! What is at the front of the received bytes.
ghost use Rattle.route_node.specs.Fronts.{IsFront};

use route_io::Received;
use std::alloc::Global;
use topology::FrameKind;
use wire_frames::{Decoded, Frame, decode, to_owned};

/// What is at the front of some bytes, with a frame read into memory.
#[derive(Debug, Drop)]
pub enum Front {
    /// A frame, and its number of bytes.
    Frame(Frame, usize),
    /// The beginning of a possible frame: more bytes are needed.
    More,
    /// No frame, whatever bytes follow.
    Bad(FrameKind),
    /// A frame for which there was not enough memory.
    NoMemory,
}

/// What is at the front of these bytes.
pub(crate) fn front_in(alloc: Global, bytes: &[u8]) -> Front
    ensures { IsFront result bytes.now }
{
    match decode(bytes) {
        Decoded::More => Front::More,
        Decoded::Bad(kind) => Front::Bad(kind),
        Decoded::Frame(frame, size) => match to_owned(alloc, &frame) {
            Ok(frame) => Front::Frame(frame, size),
            Err(_) => Front::NoMemory,
        },
    }
}

/// What is at the front of the received bytes.
pub(crate) fn front_of(alloc: Global, received: &Received) -> Front
    ensures { IsFront result received.now }
{
    front_in(alloc, received.as_slice())
}
