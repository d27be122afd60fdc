//! Runs a node of a network that is read from a source.
ghost use Rattle.std.specs.Prelude.{◌≡◌, true, IfOk, IfErr};
ghost use Rattle.route_io.specs.Views.{LinkView};
ghost use Rattle.route_node.specs.Attended.{Attended, Endpoint, Gives, endpoint};
ghost use Rattle.route_node.specs.AttendedKept.{AttendedKept, kept_endpoint, outside};
ghost use Rattle.route_node.specs.Early.{ends_early};

use crate::restoring::restore;
use crate::serving::{serve, serve_kept};
use acceptor_journal::Disk;
use route_io::{Link, ReadEnd, Source, read_all};
use schedule_file::{ParseEnd, parse_topology};
use std::alloc::Global;
use std::rc::Rc;
use topology::limits::MOST_BYTES;
use topology::{LimitKind, NodeId, Status, Topology};

/// A node that keeps its frames: its number, the address of its peer, and the name of its journal's file.
#[derive(Clone, Copy, Debug)]
pub struct KeptNode<'a> {
    pub id: NodeId,
    pub address: &'a str,
    pub file: &'a str,
}

// Reads the network from a source.
fn network_of<I: Source>(alloc: Global, source: &mut I) -> Result<Rc<Topology>, Status>
    ensures ok { IfOk result (λ network. Gives (I.seen source.old) (I.seen source.new) network.value) }
    ensures err { IfErr result (λ status. (here : Endpoint) (link : LinkView) →
        Attended here (I.seen source.old) (I.seen source.new) link link status) }
    ensures early { IfErr result (λ status. ends_early status ≡ true) }
{
    let bytes = match read_all(alloc, source, MOST_BYTES as usize) {
        Ok(bytes) => bytes,
        Err(ReadEnd::NoMemory) => return Err(Status::NoMemory),
        Err(ReadEnd::Fault) => return Err(Status::ReadFault),
        Err(ReadEnd::TooLong) => return Err(Status::Limit(LimitKind::Bytes, MOST_BYTES)),
    };
    let topology = match parse_topology(alloc, &bytes) {
        Ok(topology) => topology,
        Err(ParseEnd::NoMemory) => return Err(Status::NoMemory),
        Err(ParseEnd::Bad { line, kind }) => return Err(Status::BadSchedule(line, kind)),
    };
    match Rc::new(alloc, topology) {
        Ok(network) => Ok(network),
        Err(full) => {
            // as a call, the drop is proved once for each type, and its collections are not opened here
            drop(full);
            Err(Status::NoMemory)
        }
    }
}

/// Reads a network from the source, dials the address, and answers the frames as the node with this number.
/// `specs/Attended.antt` says what a user may rely on.
pub fn attend<I: Source, L: Link>(
    alloc: Global,
    id: NodeId,
    address: &str,
    source: &mut I,
    link: &mut L,
) -> Status
    ensures { Attended (endpoint id address.now) (I.seen source.old) (I.seen source.new) (L.seen link.old) (L.seen link.new) result }
{
    let network = match network_of(alloc, source) {
        Ok(network) => network,
        Err(status) => return status,
    };
    if network.rank_of(id).is_none() {
        return Status::NoSuchNode(id);
    }
    if link.dial(address).is_err() {
        return Status::LinkFault;
    }
    serve(alloc, id, network, link)
}

/// Reads a network from the source, restarts the node from the frames of its journal, dials the address, and answers
/// the frames. Each frame is kept in the journal before its replies are written. `specs/AttendedKept.antt` says what a
/// user may rely on.
pub fn attend_kept<I: Source, L: Link, D: Disk>(
    alloc: Global,
    here: KeptNode<'_>,
    source: &mut I,
    link: &mut L,
    disk: &mut D,
) -> Status
    ensures { AttendedKept (kept_endpoint here.entry.id here.entry.address.now here.entry.file.now)
        (outside (I.seen source.old) (L.seen link.old) (D.seen disk.old))
        (outside (I.seen source.new) (L.seen link.new) (D.seen disk.new)) result }
{
    let network = match network_of(alloc, source) {
        Ok(network) => network,
        Err(status) => return status,
    };
    if network.rank_of(here.id).is_none() {
        return Status::NoSuchNode(here.id);
    }
    let Ok(shared) = network.clone() else {
        return Status::NoMemory;
    };
    let kept = match restore(alloc, here.id, shared, disk, here.file) {
        Ok(kept) => kept,
        Err(status) => return status,
    };
    if link.dial(here.address).is_err() {
        return Status::LinkFault;
    }
    serve_kept(alloc, kept, network, link, disk)
}
