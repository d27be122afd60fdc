//! The outputs of a node, as frames.
ghost use Rattle.std.specs.Prelude.{◌≡◌, ℕ, true, IfOk};
ghost use Rattle.trigger_log.specs.Going.{item_of};
ghost use Rattle.consolidator.specs.Seen.{message_seen};
ghost use Rattle.node_core.specs.Outputs.{output_of};
ghost use Rattle.admission_laws.specs.Handing.{output_fits};
ghost use Rattle.route_node.specs.Frames.{item_frame as item_told, mail_frame as mail_told, telling};

use crate::reports::{paths_of, report_copy};
use consolidator::{Mail, Message};
use node_core::Output;
use std::alloc::Global;
use topology::{Item, NoMemory, Topology};
use trigger_log::Outgoing;
use wire_frames::Frame;

// The frame of an item for a neighbour.
fn item_frame(outgoing: Outgoing) -> Frame
    ensures { result ≡ item_told outgoing.to outgoing.session (item_of outgoing.item) }
{
    let Outgoing { to, session, item } = outgoing;
    match item {
        Item::Update {
            prefix,
            seq,
            triggers,
            path,
        } => {
            // brings in the invariant of the list: triggers ascend
            let _triggers = triggers.as_slice();
            Frame::Update {
                peer: to,
                session,
                seq,
                triggers,
                prefix,
                path,
            }
        }
        Item::Marker(epoch) => Frame::Marker {
            peer: to,
            session,
            epoch,
        },
        Item::Hello(epoch) => Frame::Hello {
            peer: to,
            session,
            epoch,
        },
    }
}

// The frame of a control message for a node.
fn mail_frame(alloc: Global, mail: Mail) -> Result<Frame, NoMemory>
    ensures { IfOk result (λ frame. frame ≡ mail_told mail.to (message_seen mail.message)) }
{
    let Mail { to, message } = mail;
    Ok(match message {
        Message::Report(report) => Frame::Report {
            peer: to,
            report: report_copy(alloc, &report)?,
        },
        Message::Prepare { epoch, ballot } => Frame::Prepare {
            peer: to,
            epoch,
            ballot,
        },
        Message::Promise {
            epoch,
            ballot,
            named,
        } => Frame::Promise {
            peer: to,
            epoch,
            ballot,
            named,
        },
        Message::Accept {
            epoch,
            ballot,
            value,
        } => Frame::Accept {
            peer: to,
            epoch,
            ballot,
            value,
        },
        Message::Accepted { epoch, ballot } => Frame::Accepted {
            peer: to,
            epoch,
            ballot,
        },
        Message::Decision { epoch, value } => Frame::Decision {
            peer: to,
            epoch,
            value,
        },
    })
}

/// The frame of an output, if it has one. Entries and cuts have none: they stay inside the node.
pub(crate) fn frame_of(
    alloc: Global,
    topology: &Topology,
    output: Output,
) -> Result<Option<Frame>, NoMemory>
    ensures { IfOk result (λ shown. (u : ℕ) → output_fits topology.now u (output_of output) ≡ true →
        shown ≡ telling (output_of output)) }
{
    Ok(match output {
        Output::Logged { .. } => None,
        Output::Cut { .. } => None,
        Output::Send(outgoing) => Some(item_frame(outgoing)),
        Output::Mail(mail) => Some(mail_frame(alloc, mail)?),
        Output::Published(table) => Some(Frame::Published {
            epoch: table.epoch(),
            paths: paths_of(alloc, topology, &table)?,
        }),
        Output::Forward { next, packet } => Some(Frame::Forward {
            next,
            packet: Box::into_inner(packet),
        }),
        Output::Ended { id, end } => Some(Frame::Ended { id, end }),
    })
}
