//! The replies to a frame.
ghost use Rattle.std.specs.Prelude.{◌≡◌, true, [], ◌∷◌, map, filter_map, OnOk, IfErr};
ghost use Rattle.std.specs.List.{list_all};
ghost use Rattle.node_core.specs.Outputs.{output_of};
ghost use Rattle.admission_laws.specs.Handing.{output_fits};
ghost use Rattle.wire_frames.specs.Frames.{fits as has_spelling};
ghost use Rattle.route_node.specs.Frames.{telling};
ghost use Rattle.route_node.specs.Writing.{Writes, Breaks};
ghost use Rattle.route_node.specs.Told.{told};

use crate::outputs::frame_of;
use node_core::{Output, OutputList};
use route_io::Link;
use std::alloc::Global;
use topology::{NodeId, Status, Topology};
use wire_frames::{Frame, encode};

// Writes a frame by one write.
fn write_frame<L: Link>(alloc: Global, frame: &Frame, link: &mut L) -> Result<(), Status>
    requires { has_spelling frame.now ≡ true }
    ensures ok { OnOk result (Writes (frame.now ∷ []) (L.seen link.old) (L.seen link.new)) }
    ensures err { IfErr result (Breaks (frame.now ∷ []) (L.seen link.old) (L.seen link.new)) }
{
    let Ok(bytes) = encode(alloc, frame) else {
        return Err(Status::NoMemory);
    };
    if link.write_all(&bytes).is_err() {
        return Err(Status::LinkFault);
    }
    Ok(())
}

// Writes the frame of the output, if it has one.
fn write_reply<L: Link>(
    alloc: Global,
    topology: &Topology,
    id: NodeId,
    output: Output,
    link: &mut L,
) -> Result<(), Status>
    requires { output_fits topology.now id (output_of output) ≡ true }
    ensures ok { OnOk result (Writes (told (output_of output)) (L.seen link.old) (L.seen link.new)) }
    ensures err { IfErr result (Breaks (told (output_of output)) (L.seen link.old) (L.seen link.new)) }
{
    // brings in the invariant of the topology
    let _nodes = topology.nodes();
    let Ok(shown) = frame_of(alloc, topology, output) else {
        return Err(Status::NoMemory);
    };
    match shown {
        Some(frame) => write_frame(alloc, &frame, link),
        None => Ok(()),
    }
}

// Writes a frame for each of these outputs that has one, in order, each by one write.
fn write_each<L: Link>(
    alloc: Global,
    topology: &Topology,
    id: NodeId,
    outputs: Vec<Output>,
    link: &mut L,
) -> Result<(), Status>
    requires { list_all (output_fits topology.now id) (map output_of outputs.items) ≡ true }
    ensures ok { OnOk result (Writes (filter_map telling (map output_of outputs.items)) (L.seen link.old) (L.seen link.new)) }
    ensures err { IfErr result (Breaks (filter_map telling (map output_of outputs.items)) (L.seen link.old) (L.seen link.new)) }
{
    for output in outputs {
        write_reply(alloc, topology, id, output, link)?;
    }
    Ok(())
}

/// Writes a frame for each output that has one, in order, each by one write.
pub(crate) fn write_replies<L: Link>(
    alloc: Global,
    topology: &Topology,
    id: NodeId,
    outputs: OutputList,
    link: &mut L,
) -> Result<(), Status>
    requires { list_all (output_fits topology.now id) (map output_of outputs) ≡ true }
    ensures ok { OnOk result (Writes (filter_map telling (map output_of outputs)) (L.seen link.old) (L.seen link.new)) }
    ensures err { IfErr result (Breaks (filter_map telling (map output_of outputs)) (L.seen link.old) (L.seen link.new)) }
{
    let Ok(list) = outputs.into_vec() else {
        return Err(Status::NoMemory);
    };
    write_each(alloc, topology, id, list, link)
}
