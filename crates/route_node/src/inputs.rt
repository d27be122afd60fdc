//! The inputs that frames bring to a node.
ghost use Rattle.std.specs.Prelude.{◌≡◌, option_map, IfOk};
ghost use Rattle.node_core.specs.Inputs.{input_of as input_seen};
ghost use Rattle.route_node.specs.Frames.{brought};
ghost use Rattle.route_node.specs.Kinds.{agreement_brought, arrival_brought, kept_brought};

use consolidator::Message;
use node_core::Input;
use std::alloc::Global;
use std::rc::Rc;
use topology::{Item, NoMemory};
use wire_frames::Frame;

// The input of a frame about an agreement, with its sender.
fn control_of(frame: Frame) -> Option<Input>
    ensures { option_map input_seen result ≡ agreement_brought frame }
{
    match frame {
        Frame::Prepare {
            peer,
            epoch,
            ballot,
        } => Some(Input::Control {
            from: peer,
            message: Message::Prepare { epoch, ballot },
        }),
        Frame::Promise {
            peer,
            epoch,
            ballot,
            named,
        } => Some(Input::Control {
            from: peer,
            message: Message::Promise {
                epoch,
                ballot,
                named,
            },
        }),
        Frame::Accept {
            peer,
            epoch,
            ballot,
            value,
        } => Some(Input::Control {
            from: peer,
            message: Message::Accept {
                epoch,
                ballot,
                value,
            },
        }),
        Frame::Accepted {
            peer,
            epoch,
            ballot,
        } => Some(Input::Control {
            from: peer,
            message: Message::Accepted { epoch, ballot },
        }),
        Frame::Decision { peer, epoch, value } => Some(Input::Control {
            from: peer,
            message: Message::Decision { epoch, value },
        }),
        _ => None,
    }
}

// The input of a frame of a session or about an agreement.
fn arrival_of(frame: Frame) -> Option<Input>
    ensures { option_map input_seen result ≡ arrival_brought frame }
{
    match frame {
        Frame::Update {
            peer,
            session,
            seq,
            triggers,
            prefix,
            path,
        } => Some(Input::Arrive {
            from: peer,
            session,
            item: Item::Update {
                prefix,
                seq,
                triggers,
                path,
            },
        }),
        Frame::Marker {
            peer,
            session,
            epoch,
        } => Some(Input::Arrive {
            from: peer,
            session,
            item: Item::Marker(epoch),
        }),
        Frame::Hello {
            peer,
            session,
            epoch,
        } => Some(Input::Arrive {
            from: peer,
            session,
            item: Item::Hello(epoch),
        }),
        _ => control_of(frame),
    }
}

// The input of a frame that takes memory: a report becomes shared, and a packet is boxed.
fn kept_of(alloc: Global, frame: Frame) -> Result<Option<Input>, NoMemory>
    ensures { IfOk result (λ input. option_map input_seen input ≡ kept_brought frame) }
{
    match frame {
        Frame::Report { peer, report } => Ok(Some(Input::Control {
            from: peer,
            message: Message::Report(Rc::new(alloc, report)?),
        })),
        Frame::Hop { packet, up } => Ok(Some(Input::Hop {
            packet: Box::new(alloc, packet)?,
            up: Vec::from_slice(alloc, up.as_slice())?,
        })),
        _ => Ok(arrival_of(frame)),
    }
}

/// The input that a frame brings to the node. The answer is `None` exactly where only nodes send frames of this kind.
pub fn input_of(alloc: Global, frame: Frame) -> Result<Option<Input>, NoMemory>
    ensures { IfOk result (λ input. option_map input_seen input ≡ brought frame) }
{
    match frame {
        Frame::Originate { prefix } => Ok(Some(Input::Originate(prefix))),
        Frame::Withdraw { prefix } => Ok(Some(Input::Withdraw(prefix))),
        Frame::Prefer { nbr, value } => Ok(Some(Input::Prefer { nbr, value })),
        Frame::Notice { nbr } => Ok(Some(Input::Notice(nbr))),
        Frame::OpenSession { nbr, session } => Ok(Some(Input::OpenSession { nbr, session })),
        Frame::Snap => Ok(Some(Input::Snap)),
        Frame::Propose { epoch } => Ok(Some(Input::Propose(epoch))),
        Frame::Inject { id, prefix } => Ok(Some(Input::Inject { id, prefix })),
        Frame::Flush { nbr } => Ok(Some(Input::Flush(nbr))),
        _ => kept_of(alloc, frame),
    }
}
