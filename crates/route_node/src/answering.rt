//! What a node does with the input that a frame brings.
ghost use Rattle.std.specs.Prelude.{◌≡◌, ℕ, ◌<◌, true, None, filter_map, OnOk, IfOk, IfErr};
ghost use Rattle.std.specs.List.{list_all};
ghost use Rattle.topology.specs.Net.{Net};
ghost use Rattle.chronicle.specs.Facts.{Chronicle};
ghost use Rattle.chronicle.specs.Giving.{give};
ghost use Rattle.chronicle.specs.Run.{chronicle_of};
ghost use Rattle.chronicle.specs.Steps.{Carried, Step};
ghost use Rattle.node_core.specs.Coming.{MayCome};
ghost use Rattle.node_core.specs.Inputs.{input_of as input_seen};
ghost use Rattle.node_core.specs.NodeLimits.{node_limit};
ghost use Rattle.node_core.specs.Outputs.{Answers};
ghost use Rattle.node_core.specs.Standing.{StandsFor};
ghost use Rattle.admission_laws.specs.Handing.{output_fits};
ghost use Rattle.route_node.specs.Frames.{telling};
ghost use Rattle.route_node.specs.Fronts.{EndsFrame, StopsFrame};
ghost use Rattle.route_node.specs.Streams.{out_of_turn};
ghost use Rattle.route_node.specs.Told.{handed};
ghost use Rattle.route_node.specs.Writing.{Breaks, Writes};

use crate::replies::write_replies;
use node_core::{Input, Node, Outputs, Stop};
use path_vector::Policy;
use route_io::Link;
use std::alloc::Global;
use topology::limits::MOST_FRAMES;
use topology::{FrameFault, LimitKind, NodeId, Reason, Status, Topology};

/// Why a frame is refused after the node handled its input: the update was out of turn.
pub(crate) fn fault_of(outputs: &Outputs) -> Option<FrameFault>
    ensures { (past : Chronicle) (step : Step) → Answers past step outputs.now → result ≡ out_of_turn step }
{
    match outputs {
        Outputs::Idle(Reason::WrongSeq { expected, got }) => Some(FrameFault::Sequence {
            expected: *expected,
            got: *got,
        }),
        _ => None,
    }
}

// How the run ends if the node stopped. The limit on frames comes before all limits of the node.
fn stopped(frames: u32, stop: Stop) -> Status
    ensures { StopsFrame frames stop result }
{
    match stop {
        Stop::NoMemory => Status::NoMemory,
        Stop::Limit(_, _) if frames >= MOST_FRAMES => Status::Limit(LimitKind::Frames, MOST_FRAMES),
        Stop::Limit(kind, number) => Status::Limit(kind, number),
    }
}

/// Gives the input of a frame to the node. A frame with an update out of turn is refused before frames are counted.
pub(crate) fn hear<P: Policy + Copy>(
    node: Node<P>,
    input: Input,
    frames: u32,
    offset: u64,
) -> Result<(Node<P>, Outputs), Status>
    ensures node { IfOk result (λ r. (policy : P) (net : Net) (u : ℕ) (carried : Carried) (past : Chronicle) →
        StandsFor policy (P.rules policy) net u node past → MayCome net u (input_seen input) →
        StandsFor policy (P.rules policy) net u r.0 (chronicle_of past (give (P.rules policy) net carried u past (input_seen input)))) }
    ensures outputs { IfOk result (λ r. (policy : P) (net : Net) (u : ℕ) (carried : Carried) (past : Chronicle) →
        StandsFor policy (P.rules policy) net u node past → MayCome net u (input_seen input) →
        Answers past (give (P.rules policy) net carried u past (input_seen input)) r.1) }
    ensures in_turn { IfOk result (λ r. (policy : P) (net : Net) (u : ℕ) (carried : Carried) (past : Chronicle) →
        StandsFor policy (P.rules policy) net u node past → MayCome net u (input_seen input) →
        out_of_turn (give (P.rules policy) net carried u past (input_seen input)) ≡ None) }
    ensures within { OnOk result ((policy : P) (net : Net) (u : ℕ) (carried : Carried) (past : Chronicle) →
        StandsFor policy (P.rules policy) net u node past → MayCome net u (input_seen input) →
        node_limit (P.rules policy) net u (give (P.rules policy) net carried u past (input_seen input)) ≡ None) }
    ensures counted { OnOk result (frames < MOST_FRAMES) }
    ensures err { IfErr result (λ status. (policy : P) (net : Net) (u : ℕ) (carried : Carried) (past : Chronicle) →
        StandsFor policy (P.rules policy) net u node past → MayCome net u (input_seen input) →
        EndsFrame offset frames (out_of_turn (give (P.rules policy) net carried u past (input_seen input)))
        (node_limit (P.rules policy) net u (give (P.rules policy) net carried u past (input_seen input))) status) }
{
    let answered = match node.handle(input) {
        Ok(answered) => answered,
        Err(stop) => return Err(stopped(frames, stop)),
    };
    let (node, outputs) = answered;
    if let Some(fault) = fault_of(&outputs) {
        return Err(Status::BadFrame(offset, fault));
    }
    if frames >= MOST_FRAMES {
        return Err(Status::Limit(LimitKind::Frames, MOST_FRAMES));
    }
    Ok((node, outputs))
}

/// Writes a frame for each output that has one. If the node did nothing, writes nothing.
pub(crate) fn write_outputs<L: Link>(
    alloc: Global,
    topology: &Topology,
    id: NodeId,
    outputs: Outputs,
    link: &mut L,
) -> Result<(), Status>
    requires { list_all (output_fits topology.now id) (handed outputs) ≡ true }
    ensures ok { OnOk result (Writes (filter_map telling (handed outputs)) (L.seen link.old) (L.seen link.new)) }
    ensures err { IfErr result (Breaks (filter_map telling (handed outputs)) (L.seen link.old) (L.seen link.new)) }
{
    match outputs {
        Outputs::Did(list) => write_replies(alloc, topology, id, list, link),
        Outputs::Idle(_) => Ok(()),
    }
}
