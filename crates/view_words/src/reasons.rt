//! The words of reasons.
ghost use Rattle.std.specs.Prelude.{◌≡◌, ◌++◌, OnOk};
ghost use Rattle.std.specs.String.{string_bytes};
ghost use Rattle.view_words.specs.Reasons.{ballot_text, reason_words};

use crate::numbers::{push_node, push_number};
use std::alloc::AllocError;
use topology::{Ballot, Reason};

// Adds a ballot.
pub(crate) fn ballot_words(out: &mut String, ballot: Ballot) -> Result<(), AllocError>
    ensures { OnOk result (string_bytes out.new ≡ string_bytes out.old ++ ballot_text ballot) }
{
    push_number(out, ballot.round)?;
    out.push('/')?;
    push_node(out, ballot.node)
}

/// Adds the words of a reason.
pub fn reason_words(out: &mut String, reason: Reason) -> Result<(), AllocError>
    ensures { OnOk result (string_bytes out.new ≡ string_bytes out.old ++ reason_words reason) }
{
    match reason {
        Reason::Crashed => out.push_str("crashed"),
        Reason::AlreadyOrigin => out.push_str("already origin"),
        Reason::NotOrigin => out.push_str("not origin"),
        Reason::LinkDown => out.push_str("link down"),
        Reason::EmptyChannel => out.push_str("empty channel"),
        Reason::WrongSession => out.push_str("wrong session"),
        Reason::AlreadyDown => out.push_str("already down"),
        Reason::AlreadyUp => out.push_str("already up"),
        Reason::NotOpen => out.push_str("not open"),
        Reason::StillUp => out.push_str("still up"),
        Reason::AlreadyOpen => out.push_str("already open"),
        Reason::WrongSeq { .. } => out.push_str("wrong sequence"),
        Reason::OldSession => out.push_str("old session"),
        Reason::NotConsolidator => out.push_str("not consolidator"),
        Reason::Decided => out.push_str("decided"),
        Reason::NoReport => out.push_str("no report"),
        Reason::NoSuchMessage => out.push_str("no such message"),
        Reason::Duplicate => out.push_str("duplicate"),
        Reason::Promised(ballot) => {
            out.push_str("promised ")?;
            ballot_words(out, ballot)
        }
        Reason::StaleBallot => out.push_str("stale ballot"),
        Reason::NoRound(_) => out.push_str("no round"),
        Reason::NotCrashed => out.push_str("not crashed"),
        Reason::PacketKnown => out.push_str("packet known"),
        Reason::NoSuchPacket => out.push_str("no such packet"),
        Reason::PacketEnded => out.push_str("packet ended"),
        Reason::NothingPending => out.push_str("nothing pending"),
    }
}
