//! How a run of directives ends.
ghost use Rattle.std.specs.Prelude.{◌≡◌};
ghost use Rattle.leadership.specs.Ends.{end_of};

use crate::stops::LeadStop;
use topology::LimitKind;

/// Why a run ended early.
#[derive(Clone, Copy, Debug, PartialEq, Eq)]
pub enum RunEnd {
    NoMemory,
    WriteFault,
    /// The next event would take this count above its limit.
    Limit(LimitKind, u32),
}

impl From<LeadStop> for RunEnd {
    ghost from_gives = { λ stop why. why ≡ end_of stop };

    fn from(stop: LeadStop) -> RunEnd {
        match stop {
            LeadStop::NoMemory => RunEnd::NoMemory,
            LeadStop::Limit(kind, number) => RunEnd::Limit(kind, number),
        }
    }
}
