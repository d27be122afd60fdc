//! What can be wrong with a frame.
ghost use Rattle.std.specs.Prelude.{◌≡◌};

/// What is wrong with bytes that should be a frame. The first fault from left to right is given.
#[derive(Clone, Copy, Debug, PartialEq, Eq)]
pub enum FrameKind {
    /// The first byte is not a version, 1 or 2.
    Version,
    /// The second byte is not a kind of frame of that version.
    Kind,
    /// The body is longer than its kind allows, a field runs past its end, or bytes are left over after the last field.
    Length,
    /// A field is out of its range.
    Value,
    /// A list is not in order, or repeats an element that may occur only once.
    Order,
}

/// Why a node refuses a frame that comes over its link. The first reason in this order is given.
#[derive(Clone, Copy, Debug, PartialEq, Eq)]
pub enum FrameFault {
    /// The first byte is not a version, 1 or 2.
    Version,
    /// The second byte is not a kind of frame of that version.
    Kind,
    /// The body is longer than its kind allows, a field runs past its end, or bytes are left over after the last field.
    Length,
    /// A field is out of its range.
    Value,
    /// A list is not in order, or repeats an element that may occur only once.
    Order,
    /// The link ended within the frame.
    Truncated,
    /// Only a node sends frames of this kind.
    Direction,
    /// A name is unknown to the network, or is not allowed at its place.
    Name,
    /// The update is not the next one of the held session.
    Sequence { expected: u32, got: u32 },
}

impl From<FrameKind> for FrameFault {
    ghost use Rattle.topology.specs.Words.{fault_of};

    ghost from_gives = { λ kind fault. fault ≡ fault_of kind };

    fn from(kind: FrameKind) -> FrameFault {
        match kind {
            FrameKind::Version => FrameFault::Version,
            FrameKind::Kind => FrameFault::Kind,
            FrameKind::Length => FrameFault::Length,
            FrameKind::Value => FrameFault::Value,
            FrameKind::Order => FrameFault::Order,
        }
    }
}

impl FrameFault {
    ghost use Rattle.topology.specs.Words.{fault_words};

    /// The word for the fault in the line that says how a run ended.
    pub fn words(self) -> &'static str
        ensures { result.now ≡ fault_words self }
    {
        match self {
            FrameFault::Version => "version",
            FrameFault::Kind => "kind",
            FrameFault::Length => "length",
            FrameFault::Value => "value",
            FrameFault::Order => "order",
            FrameFault::Truncated => "truncated",
            FrameFault::Direction => "direction",
            FrameFault::Name => "name",
            FrameFault::Sequence { .. } => "sequence",
        }
    }
}
