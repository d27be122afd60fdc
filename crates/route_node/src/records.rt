//! What a node does with a record of its journal.
ghost use Rattle.std.specs.Prelude.{◌≡◌, ◌∷◌, true, ℕ, List, None, IfOk, IfErr, OnOk};
ghost use Rattle.topology.specs.Net.{Net};
ghost use Rattle.chronicle.specs.Facts.{Chronicle};
ghost use Rattle.chronicle.specs.Giving.{give};
ghost use Rattle.chronicle.specs.Run.{chronicle_of};
ghost use Rattle.chronicle.specs.Steps.{Carried};
ghost use Rattle.node_core.specs.Coming.{MayCome};
ghost use Rattle.node_core.specs.Inputs.{input_of as input_seen};
ghost use Rattle.node_core.specs.NodeLimits.{node_limit};
ghost use Rattle.node_core.specs.Standing.{StandsFor};
ghost use Rattle.wire_frames.specs.declared.frames.Frame.{Frame as AnyFrame};
ghost use Rattle.route_node.specs.Fronts.{Admits};
ghost use Rattle.route_node.specs.Records.{EndsHeard, EndsRecord, HasFrame, RefusesAtRecord, RefusesRecord, StopsRecord, TakesRecord};
ghost use Rattle.route_node.specs.Streams.{out_of_turn, refusal};
ghost use Rattle.route_node.specs.Who.{Who, afresh, run_over};

use crate::answering::fault_of;
use crate::fronts::{Front, front_in};
use crate::inputs::input_of;
use node_core::{Input, Node, Stop};
use path_vector::Policy;
use std::alloc::Global;
use topology::{FrameFault, Status};
use wire_frames::Frame;

// The frame of the record. Nothing may follow it.
fn frame_of(alloc: Global, bytes: &[u8], offset: u64) -> Result<Frame, Status>
    ensures ok { IfOk result (λ frame. HasFrame bytes.now frame) }
    ensures err { IfErr result (λ status. (who : Who) (frames : List AnyFrame) → RefusesRecord who frames offset bytes.now status) }
{
    match front_in(alloc, bytes) {
        Front::Frame(frame, size) if size == bytes.len() => Ok(frame),
        Front::Bad(kind) => Err(Status::BadJournal(offset, kind.into())),
        Front::NoMemory => Err(Status::NoMemory),
        _ => Err(Status::BadJournal(offset, FrameFault::Length)),
    }
}

// The input of the frame, if the node admits it.
fn admit<P: Policy + Copy>(
    alloc: Global,
    node: &Node<P>,
    frame: Frame,
    offset: u64,
) -> Result<Input, Status>
    ensures ok { IfOk result (λ input. (policy : P) (net : Net) (u : ℕ) (past : Chronicle) →
        StandsFor policy (P.rules policy) net u node.now past → Admits net u frame (input_seen input)) }
    ensures err { IfErr result (λ status. (policy : P) (net : Net) (u : ℕ) (frames : List AnyFrame) →
        StandsFor policy (P.rules policy) net u node.now (run_over (afresh (P.rules policy) net u) frames) →
        RefusesAtRecord offset (refusal (afresh (P.rules policy) net u) frames frame) status) }
{
    let Ok(brought) = input_of(alloc, frame) else {
        return Err(Status::NoMemory);
    };
    let Some(input) = brought else {
        return Err(Status::BadJournal(offset, FrameFault::Direction));
    };
    if !node.fits(&input) {
        return Err(Status::BadJournal(offset, FrameFault::Name));
    }
    Ok(input)
}

// How reading the journal ends if the node stopped.
fn stopped(stop: Stop) -> Status
    ensures { StopsRecord stop result }
{
    match stop {
        Stop::NoMemory => Status::NoMemory,
        Stop::Limit(kind, number) => Status::Limit(kind, number),
    }
}

// Gives the input of a record to the node. Its outputs are dropped: they were written before the crash, or are never
// written.
fn hear<P: Policy + Copy>(node: Node<P>, input: Input, offset: u64) -> Result<Node<P>, Status>
    ensures node { IfOk result (λ next. (policy : P) (net : Net) (u : ℕ) (carried : Carried) (past : Chronicle) →
        StandsFor policy (P.rules policy) net u node past → MayCome net u (input_seen input) →
        StandsFor policy (P.rules policy) net u next (chronicle_of past (give (P.rules policy) net carried u past (input_seen input)))) }
    ensures in_turn { OnOk result ((policy : P) (net : Net) (u : ℕ) (carried : Carried) (past : Chronicle) →
        StandsFor policy (P.rules policy) net u node past → MayCome net u (input_seen input) →
        out_of_turn (give (P.rules policy) net carried u past (input_seen input)) ≡ None) }
    ensures within { OnOk result ((policy : P) (net : Net) (u : ℕ) (carried : Carried) (past : Chronicle) →
        StandsFor policy (P.rules policy) net u node past → MayCome net u (input_seen input) →
        node_limit (P.rules policy) net u (give (P.rules policy) net carried u past (input_seen input)) ≡ None) }
    ensures err { IfErr result (λ status. (policy : P) (net : Net) (u : ℕ) (carried : Carried) (past : Chronicle) →
        StandsFor policy (P.rules policy) net u node past → MayCome net u (input_seen input) →
        EndsHeard offset (out_of_turn (give (P.rules policy) net carried u past (input_seen input)))
        (node_limit (P.rules policy) net u (give (P.rules policy) net carried u past (input_seen input))) status) }
{
    let answered = match node.handle(input) {
        Ok(answered) => answered,
        Err(stop) => return Err(stopped(stop)),
    };
    let (node, outputs) = answered;
    if let Some(fault) = fault_of(&outputs) {
        return Err(Status::BadJournal(offset, fault));
    }
    Ok(node)
}

/// The node after the record of these bytes, which begins at this offset. The record is checked like a frame of the
/// link.
pub(crate) fn take_record<P: Policy + Copy>(
    alloc: Global,
    node: Node<P>,
    bytes: &[u8],
    offset: u64,
) -> Result<Node<P>, Status>
    ensures ok { IfOk result (λ next. (policy : P) (net : Net) (u : ℕ) (frames : List AnyFrame) →
        StandsFor policy (P.rules policy) net u node (run_over (afresh (P.rules policy) net u) frames) →
        TakesRecord policy (afresh (P.rules policy) net u) frames bytes.now next) }
    ensures err { IfErr result (λ status. (policy : P) (net : Net) (u : ℕ) (frames : List AnyFrame) →
        StandsFor policy (P.rules policy) net u node (run_over (afresh (P.rules policy) net u) frames) →
        EndsRecord (afresh (P.rules policy) net u) frames offset bytes.now status) }
{
    node_core::laws::what_fits_may_come();
    let frame = frame_of(alloc, bytes, offset)?;
    let input = admit(alloc, &node, frame, offset)?;
    let next = hear(node, input, offset)?;
    Ok(next)
}
