//! One node of the list handles an input.
ghost use Rattle.std.specs.Prelude.{◌≡◌, ◌<◌, Some, length, slice_get, slice_set, IfOk, IfErr};
ghost use Rattle.std.specs.Vec.{vec_capacity, vec_len};
ghost use Rattle.world_core.specs.Turning.{Handles, IsStopped, returned};
ghost use Rattle.node_core.specs.declared.node.Node.{Node as One};
ghost use Rattle.node_core.specs.Outputs.{told_by};

use node_core::{Input, Node, OutputList, Stop};
use path_vector::Policy;
use std::mem;
use topology::Reason;

// Puts the node back at its rank, and the node that took its place back at the end. The list has room for it.
#[inline(always)]
fn put_back<P: Policy + Copy>(nodes: &mut Vec<Node<P>>, rank: usize, node: Node<P>)
    requires room { vec_len nodes.old < vec_capacity nodes.old }
    ensures { nodes.new.items ≡ returned nodes.old.items rank node }
{
    if rank >= nodes.len() {
        nodes.push_reserved(node);
        return;
    }
    let other = mem::replace(&mut nodes[rank], node);
    nodes.push_reserved(other);
}

/// The node at this rank handles the input. Its outputs are in the list `outputs` then. Returns the reason where the
/// node does nothing. The other nodes stay as they are. The node moves out of the list and back, which copies two
/// words.
#[inline(always)]
pub fn turn<P: Policy + Copy>(
    nodes: &mut Vec<Node<P>>,
    rank: usize,
    input: Input,
    outputs: &mut OutputList,
) -> Result<Option<Reason>, Stop>
    requires { rank < length nodes.old.items }
    ensures turned { IfOk result (λ idle. (old : One P) × (new : One P) ×
        (slice_get nodes.old.items rank ≡ Some old) × (nodes.new.items ≡ slice_set nodes.old.items rank new) ×
        Handles P.rules old input new (told_by idle outputs.new)) }
    ensures stopped { IfErr result (λ stop. (old : One P) ×
        (slice_get nodes.old.items rank ≡ Some old) × IsStopped P.rules old input stop) }
{
    let node = nodes.swap_remove(rank);
    let (node, idle) = node.handle_into(input, outputs)?;
    let Ok(()) = nodes.reserve(1) else {
        return Err(Stop::NoMemory);
    };
    put_back(nodes, rank, node);
    Ok(idle)
}
