//! Reads frames that are still in bytes into memory.
ghost use Rattle.std.specs.Prelude.{◌≡◌, true, IfOk, Option};
ghost use Rattle.topology.specs.declared.ballots.Ballot.{Ballot as AnyBallot};
ghost use Rattle.incomplete_closure.specs.declared.values.Value.{Value as AnyValue};
ghost use Rattle.wire_frames.specs.declared.frames.Frame.{Frame as AnyFrame};
ghost use Rattle.wire_frames.specs.Fields.{named};
ghost use Rattle.wire_frames.specs.Frames.{fields_fit, fits};
ghost use Rattle.wire_frames.specs.Shown.{IsFrame, NamesSame};

use crate::faults::ReadError;
use crate::layouts::owned;
use crate::parts::{Links, owned_triggers};
use crate::paths::Paths;
use crate::reports::owned_report;
use crate::{Frame, FrameKind, FrameRef};
use epoch_packet::Packet;
use incomplete_closure::Value;
use std::alloc::Global;
use topology::{Ballot, NoMemory, Path};

// The ballot and the value that a promise names, if any.
fn owned_named(
    alloc: Global,
    accepted: &Option<(Ballot, &[u8])>,
) -> Result<Option<(Ballot, Value)>, ReadError>
    ensures { IfOk result (λ x. (y : Option (AnyBallot × AnyValue)) → named.fits y ≡ true
        → NamesSame accepted.now y → x ≡ y) }
{
    match accepted {
        None => Ok(None),
        Some((ballot, value)) => {
            let value = owned::<Value>(alloc, value)?;
            Ok(Some((*ballot, value)))
        }
    }
}

// Packets and tables, which are the last ones.
fn owned_packet_frame(alloc: Global, frame: &FrameRef<'_>) -> Result<Frame, ReadError>
    ensures { IfOk result (λ owned. (f : AnyFrame) → fields_fit f ≡ true → IsFrame frame.now f
        → owned ≡ f) }
{
    match frame {
        FrameRef::Hop { packet, up } => {
            let packet = owned::<Packet>(alloc, packet)?;
            let up = owned::<Links>(alloc, up)?;
            Ok(Frame::Hop { packet, up })
        }
        FrameRef::Forward { next, packet } => {
            let packet = owned::<Packet>(alloc, packet)?;
            Ok(Frame::Forward {
                next: *next,
                packet,
            })
        }
        FrameRef::Published { epoch, paths } => {
            let paths = owned::<Paths>(alloc, paths)?;
            Ok(Frame::Published {
                epoch: *epoch,
                paths,
            })
        }
        _ => Err(ReadError::Bad(FrameKind::Kind)),
    }
}

// Messages about a value; the others go to the function above.
fn owned_choice(alloc: Global, frame: &FrameRef<'_>) -> Result<Frame, ReadError>
    ensures { IfOk result (λ owned. (f : AnyFrame) → fields_fit f ≡ true → IsFrame frame.now f
        → owned ≡ f) }
{
    match frame {
        FrameRef::Accept {
            peer,
            epoch,
            ballot,
            value,
        } => {
            let value = owned::<Value>(alloc, value)?;
            Ok(Frame::Accept {
                peer: *peer,
                epoch: *epoch,
                ballot: *ballot,
                value,
            })
        }
        FrameRef::Accepted {
            peer,
            epoch,
            ballot,
        } => Ok(Frame::Accepted {
            peer: *peer,
            epoch: *epoch,
            ballot: *ballot,
        }),
        FrameRef::Decision { peer, epoch, value } => {
            let value = owned::<Value>(alloc, value)?;
            Ok(Frame::Decision {
                peer: *peer,
                epoch: *epoch,
                value,
            })
        }
        _ => owned_packet_frame(alloc, frame),
    }
}

// Messages to and from a proposer; the others go to the function above.
fn owned_proposal(alloc: Global, frame: &FrameRef<'_>) -> Result<Frame, ReadError>
    ensures { IfOk result (λ owned. (f : AnyFrame) → fields_fit f ≡ true → IsFrame frame.now f
        → owned ≡ f) }
{
    match frame {
        FrameRef::Report {
            version,
            peer,
            report,
        } => {
            let report = owned_report(alloc, *version, report)?;
            Ok(Frame::Report {
                peer: *peer,
                report,
            })
        }
        FrameRef::Prepare {
            peer,
            epoch,
            ballot,
        } => Ok(Frame::Prepare {
            peer: *peer,
            epoch: *epoch,
            ballot: *ballot,
        }),
        FrameRef::Promise {
            peer,
            epoch,
            ballot,
            named,
        } => {
            let named = owned_named(alloc, named)?;
            Ok(Frame::Promise {
                peer: *peer,
                epoch: *epoch,
                ballot: *ballot,
                named,
            })
        }
        _ => owned_choice(alloc, frame),
    }
}

// Items of a session; the others go to the function above.
fn owned_item(alloc: Global, frame: &FrameRef<'_>) -> Result<Frame, ReadError>
    ensures { IfOk result (λ owned. (f : AnyFrame) → fields_fit f ≡ true → IsFrame frame.now f
        → owned ≡ f) }
{
    match frame {
        FrameRef::Update {
            version,
            peer,
            session,
            seq,
            triggers,
            prefix,
            path,
        } => {
            let triggers = owned_triggers(alloc, *version, triggers)?;
            let path = owned::<Option<Path>>(alloc, path)?;
            Ok(Frame::Update {
                peer: *peer,
                session: *session,
                seq: *seq,
                triggers,
                prefix: *prefix,
                path,
            })
        }
        FrameRef::Marker {
            peer,
            session,
            epoch,
        } => Ok(Frame::Marker {
            peer: *peer,
            session: *session,
            epoch: *epoch,
        }),
        FrameRef::Hello {
            peer,
            session,
            epoch,
        } => Ok(Frame::Hello {
            peer: *peer,
            session: *session,
            epoch: *epoch,
        }),
        _ => owned_proposal(alloc, frame),
    }
}

// Frames of one or two numbers; the others go to the function above.
fn owned_numbers(alloc: Global, frame: &FrameRef<'_>) -> Result<Frame, ReadError>
    ensures { IfOk result (λ owned. (f : AnyFrame) → fields_fit f ≡ true → IsFrame frame.now f
        → owned ≡ f) }
{
    match frame {
        FrameRef::Originate { prefix } => Ok(Frame::Originate { prefix: *prefix }),
        FrameRef::Withdraw { prefix } => Ok(Frame::Withdraw { prefix: *prefix }),
        FrameRef::Prefer { nbr, value } => Ok(Frame::Prefer {
            nbr: *nbr,
            value: *value,
        }),
        FrameRef::Notice { nbr } => Ok(Frame::Notice { nbr: *nbr }),
        FrameRef::OpenSession { nbr, session } => Ok(Frame::OpenSession {
            nbr: *nbr,
            session: *session,
        }),
        FrameRef::Snap => Ok(Frame::Snap),
        FrameRef::Propose { epoch } => Ok(Frame::Propose { epoch: *epoch }),
        FrameRef::Ended { id, end } => Ok(Frame::Ended { id: *id, end: *end }),
        FrameRef::Inject { id, prefix } => Ok(Frame::Inject {
            id: *id,
            prefix: *prefix,
        }),
        FrameRef::Flush { nbr } => Ok(Frame::Flush { nbr: *nbr }),
        _ => owned_item(alloc, frame),
    }
}

/// Reads the frame into memory, with the same fields. A frame that `decode` returned can always be read. If some other
/// value has a part that spells nothing, the call fails with `NoMemory`.
pub fn to_owned(alloc: Global, frame: &FrameRef<'_>) -> Result<Frame, NoMemory>
    ensures { IfOk result (λ owned. (f : AnyFrame) → fits f ≡ true → IsFrame frame.now f
        → owned ≡ f) }
{
    match owned_numbers(alloc, frame) {
        Ok(owned) => Ok(owned),
        Err(ReadError::NoMemory) => Err(NoMemory),
        Err(ReadError::Bad(_)) => Err(NoMemory),
    }
}
