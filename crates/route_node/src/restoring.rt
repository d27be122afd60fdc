//! Restarts a node from the frames of its journal.
ghost use Rattle.std.specs.Prelude.{◌≡◌, ◌∷◌, ℕ, true, OnOk};
ghost use Rattle.topology.specs.Lists.{has};
ghost use Rattle.topology.specs.Net.{Net};
ghost use Rattle.chronicle.specs.Facts.{Chronicle, Crash, Restart};
ghost use Rattle.node_core.specs.Standing.{StandsFor};
ghost use Rattle.route_node.specs.Restored.{OpensFirst, Restored};

use crate::keeping::status_of;
use crate::records::take_record;
use acceptor_journal::{Disk, Journal, open_journal};
use node_core::Node;
use path_vector::{GaoRexford, Policy};
use std::alloc::Global;
use std::rc::Rc;
use topology::{NodeId, Status, Topology};

/// A restarted node, and the journal in which it keeps the frames that it takes.
#[derive(Drop)]
pub struct Kept {
    pub node: Node<GaoRexford>,
    pub journal: Journal,
}

// The node after a crash and a restart.
fn started_again<P: Policy + Copy>(node: Node<P>) -> Node<P>
    ensures { (policy : P) (net : Net) (u : ℕ) (past : Chronicle) →
        StandsFor policy (P.rules policy) net u node past →
        StandsFor policy (P.rules policy) net u result (Restart u ∷ Crash u ∷ past) }
{
    node_core::laws::others_change_nothing_of_what_a_node_stands_for::<P>();
    node.forget()
}

/// Opens the journal with this name, gives the frame of each record to the node with this number, and closes the gate
/// after the records. Then the node crashes and restarts, as the process did, and so loses what it had collected as a
/// consolidator. None of its answers is written. If a record is refused, the file stays as it was.
pub fn restore<D: Disk>(
    alloc: Global,
    id: NodeId,
    topology: Rc<Topology>,
    disk: &mut D,
    name: &str,
) -> Result<Kept, Status>
    requires { has topology.value.nodes id ≡ true }
    ensures restored { Restored topology.value id (D.seen disk.old) result (D.seen disk.new) }
    ensures opened { OnOk result (OpensFirst name.now (D.seen disk.old) (D.seen disk.new)) }
{
    let Ok(fresh) = Node::new(alloc, topology, id, GaoRexford) else {
        return Err(Status::NoMemory);
    };
    let mut node = fresh;
    let mut reader = match open_journal(alloc, disk, name) {
        Ok(reader) => reader,
        Err(end) => return Err(status_of(end)),
    };
    let mut offset = 0u64;
    loop {
        let found = match reader.next(disk) {
            Ok(found) => found,
            Err(end) => return Err(status_of(end)),
        };
        let Some(bytes) = found else {
            break;
        };
        node = take_record(alloc, node, &bytes, offset)?;
        offset += 5 + bytes.len() as u64;
    }
    let journal = match reader.finish(disk) {
        Ok(journal) => journal,
        Err(end) => return Err(status_of(end)),
    };
    Ok(Kept {
        node: started_again(node),
        journal,
    })
}
