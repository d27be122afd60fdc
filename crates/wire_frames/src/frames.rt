//! Frames, and what can be found at the front of some bytes.
use crate::FrameKind;
use crate::paths::Paths;
use epoch_packet::{End, NodeList, Packet};
use incomplete_closure::{Report, Value};
use topology::{Ballot, Epoch, NodeId, Path, PrefixId, Session, Triggers};

/// A frame. `peer` is the sender in a frame to the process, and the addressee in a frame from it.
#[derive(Debug, Drop)]
pub enum Frame {
    Originate {
        prefix: PrefixId,
    },
    Withdraw {
        prefix: PrefixId,
    },
    Prefer {
        nbr: NodeId,
        value: u32,
    },
    Notice {
        nbr: NodeId,
    },
    OpenSession {
        nbr: NodeId,
        session: Session,
    },
    Snap,
    Propose {
        epoch: Epoch,
    },
    Update {
        peer: NodeId,
        session: Session,
        seq: u32,
        triggers: Triggers,
        prefix: PrefixId,
        path: Option<Path>,
    },
    Marker {
        peer: NodeId,
        session: Session,
        epoch: Epoch,
    },
    Hello {
        peer: NodeId,
        session: Session,
        epoch: Epoch,
    },
    Report {
        peer: NodeId,
        report: Report,
    },
    Prepare {
        peer: NodeId,
        epoch: Epoch,
        ballot: Ballot,
    },
    Promise {
        peer: NodeId,
        epoch: Epoch,
        ballot: Ballot,
        named: Option<(Ballot, Value)>,
    },
    Accept {
        peer: NodeId,
        epoch: Epoch,
        ballot: Ballot,
        value: Value,
    },
    Accepted {
        peer: NodeId,
        epoch: Epoch,
        ballot: Ballot,
    },
    Decision {
        peer: NodeId,
        epoch: Epoch,
        value: Value,
    },
    Hop {
        packet: Packet,
        up: NodeList,
    },
    Forward {
        next: NodeId,
        packet: Packet,
    },
    Ended {
        id: u32,
        end: End,
    },
    Published {
        epoch: Epoch,
        paths: Paths,
    },
    Inject {
        id: u32,
        prefix: PrefixId,
    },
    Flush {
        nbr: NodeId,
    },
}

/// A frame that is still in bytes: each path, report, value, packet and list is the part of the bytes that spells it.
/// `version` is the version of a frame whose kind exists in both versions.
#[derive(Clone, Copy, Debug, PartialEq, Eq)]
pub enum FrameRef<'a> {
    Originate {
        prefix: PrefixId,
    },
    Withdraw {
        prefix: PrefixId,
    },
    Prefer {
        nbr: NodeId,
        value: u32,
    },
    Notice {
        nbr: NodeId,
    },
    OpenSession {
        nbr: NodeId,
        session: Session,
    },
    Snap,
    Propose {
        epoch: Epoch,
    },
    Update {
        version: u8,
        peer: NodeId,
        session: Session,
        seq: u32,
        triggers: &'a [u8],
        prefix: PrefixId,
        path: &'a [u8],
    },
    Marker {
        peer: NodeId,
        session: Session,
        epoch: Epoch,
    },
    Hello {
        peer: NodeId,
        session: Session,
        epoch: Epoch,
    },
    Report {
        version: u8,
        peer: NodeId,
        report: &'a [u8],
    },
    Prepare {
        peer: NodeId,
        epoch: Epoch,
        ballot: Ballot,
    },
    Promise {
        peer: NodeId,
        epoch: Epoch,
        ballot: Ballot,
        named: Option<(Ballot, &'a [u8])>,
    },
    Accept {
        peer: NodeId,
        epoch: Epoch,
        ballot: Ballot,
        value: &'a [u8],
    },
    Accepted {
        peer: NodeId,
        epoch: Epoch,
        ballot: Ballot,
    },
    Decision {
        peer: NodeId,
        epoch: Epoch,
        value: &'a [u8],
    },
    Hop {
        packet: &'a [u8],
        up: &'a [u8],
    },
    Forward {
        next: NodeId,
        packet: &'a [u8],
    },
    Ended {
        id: u32,
        end: End,
    },
    Published {
        epoch: Epoch,
        paths: &'a [u8],
    },
    Inject {
        id: u32,
        prefix: PrefixId,
    },
    Flush {
        nbr: NodeId,
    },
}

/// What is at the front of some bytes.
#[derive(Clone, Copy, Debug, PartialEq, Eq)]
pub enum Decoded<'a> {
    /// A frame, and its number of bytes.
    Frame(FrameRef<'a>, usize),
    /// The beginning of a possible frame: more bytes are needed.
    More,
    /// No frame, whatever bytes follow.
    Bad(FrameKind),
}
