//! How a run of directives ends.
ghost use Rattle.std.specs.Prelude.{◌≡◌};
ghost use Rattle.route_replay.specs.declared.ends.RunEnd.TheVariants as end;
ghost use Rattle.route_replay.specs.Ends.{end_of};

use std::alloc::AllocError;
use topology::{LimitKind, NoMemory};
use world_core::Stop;

/// Why a run ended before its end.
#[derive(Clone, Copy, Debug, PartialEq, Eq)]
pub enum RunEnd {
    NoMemory,
    WriteFault,
    /// The next event would take this count above its number.
    Limit(LimitKind, u32),
}

impl From<AllocError> for RunEnd {
    ghost from_gives = { λ _ why. why ≡ end.NoMemory };

    fn from(_: AllocError) -> RunEnd {
        RunEnd::NoMemory
    }
}

impl From<NoMemory> for RunEnd {
    ghost from_gives = { λ _ why. why ≡ end.NoMemory };

    fn from(_: NoMemory) -> RunEnd {
        RunEnd::NoMemory
    }
}

impl From<Stop> for RunEnd {
    ghost from_gives = { λ stop why. why ≡ end_of stop };

    fn from(stop: Stop) -> RunEnd {
        match stop {
            Stop::NoMemory => RunEnd::NoMemory,
            Stop::Limit(kind, number) => RunEnd::Limit(kind, number),
        }
    }
}
