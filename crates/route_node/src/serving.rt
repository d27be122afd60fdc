//! Answers the frames of a link.
ghost use Rattle.std.specs.Prelude.{◌≡◌, ◌≢◌, ◌∷◌, ℕ, true, List, Ok, take, IfOk, IfErr};
ghost use Rattle.topology.specs.Lists.{has};
ghost use Rattle.path_vector.specs.GaoRexford.{gao_rexford};
ghost use Rattle.route_io.specs.Views.{LinkView};
ghost use Rattle.node_core.specs.Inputs.{input_of as input_seen};
ghost use Rattle.wire_frames.specs.declared.frames.Frame.{Frame as AnyFrame};
ghost use Rattle.wire_frames.specs.Reading.{Partial, found};
ghost use Rattle.route_node.specs.Fronts.{Admits, Holds, RefusesAt};
ghost use Rattle.route_node.specs.Keeping.{KeptBy};
ghost use Rattle.route_node.specs.Restored.{IsRestored, MayServe};
ghost use Rattle.route_node.specs.Running.{EndsServing, GoesFurther, ServesOn, IsRunning, IsWithin, MayTake, Runs, Serving, Works, left_of, who_at};
ghost use Rattle.route_node.specs.Served.{Served};
ghost use Rattle.route_node.specs.ServedKept.{ServedKept};
ghost use Rattle.route_node.specs.Streams.{refusal};
ghost use Rattle.route_node.specs.Who.{afresh, again};

use crate::answering::{hear, write_outputs};
use crate::fronts::{Front, front_of};
use crate::inputs::input_of;
use crate::keeping::keep;
use crate::restoring::Kept;
use acceptor_journal::{Disk, Journal, MemDisk};
use node_core::{Input, Node};
use path_vector::{GaoRexford, Policy};
use route_io::{Filled, Link, NotFilled, Received};
use std::alloc::Global;
use std::rc::Rc;
use topology::{FrameFault, NodeId, Status, Topology};
use wire_frames::Frame;

// A node over its link: the bytes that were received and not yet taken, how many frames were taken, how many bytes
// these had, and the journal in which they are kept, if there is one.
#[derive(Drop)]
pub(crate) struct Process<P: Policy + Copy> {
    alloc: Global,
    topology: Rc<Topology>,
    id: NodeId,
    node: Node<P>,
    received: Received,
    frames: u32,
    offset: u64,
    journal: Option<Journal>,
}

impl<P: Policy + Copy> Process<P> {
    // Ends the run at the frame that begins here.
    fn refuse(&self, fault: FrameFault) -> Status
        ensures { result ≡ Status.BadFrame self.now.offset fault }
    {
        Status::BadFrame(self.offset, fault)
    }

    // Reads once, because no whole frame was received yet. If the link ends between two frames, the run ends.
    fn wait<L: Link>(mut self, link: &mut L) -> Result<Process<P>, Status>
        ensures ok { IfOk result (λ next. (at : Serving P) (frames : List AnyFrame) →
            Runs (P.rules at.policy) at self (L.seen link.old) frames → IsWithin self → found self.received ≡ Partial →
            ServesOn (P.rules at.policy) at next (L.seen link.new) frames (left_of self)) }
        ensures same_journal { IfOk result (λ next. next.journal ≡ self.journal) }
        ensures err { IfErr result (λ status. (at : Serving P) (frames : List AnyFrame) →
            Runs (P.rules at.policy) at self (L.seen link.old) frames → IsWithin self → found self.received ≡ Partial →
            EndsServing (who_at (P.rules at.policy) at) at.first (L.seen link.new) frames status × (status ≢ Status.DiskFault)) }
    {
        match self.received.fill(link) {
            Ok(Filled::More) => Ok(self),
            Ok(Filled::End) if self.received.as_slice().is_empty() => Err(Status::Done),
            Ok(Filled::End) => Err(self.refuse(FrameFault::Truncated)),
            Err(NotFilled::NoMemory) => Err(Status::NoMemory),
            Err(NotFilled::Fault) => Err(Status::LinkFault),
        }
    }

    // The input of the frame, if the node admits it.
    fn admit(&self, frame: Frame) -> Result<Input, Status>
        ensures ok { IfOk result (λ input. (at : Serving P) (link : LinkView) (frames : List AnyFrame) →
            Runs (P.rules at.policy) at self.now link frames → Admits at.net at.node frame (input_seen input)) }
        ensures err { IfErr result (λ status. (at : Serving P) (link : LinkView) (frames : List AnyFrame) →
            Runs (P.rules at.policy) at self.now link frames →
            RefusesAt self.now.offset (refusal (who_at (P.rules at.policy) at) frames frame) status) }
    {
        let Ok(brought) = input_of(self.alloc, frame) else {
            return Err(Status::NoMemory);
        };
        let Some(input) = brought else {
            return Err(self.refuse(FrameFault::Direction));
        };
        if !self.node.fits(&input) {
            return Err(self.refuse(FrameFault::Name));
        }
        Ok(input)
    }

    // Gives the input of a frame to the node, keeps the frame, and writes the replies.
    fn answer<L: Link, D: Disk>(
        self,
        input: Input,
        size: usize,
        link: &mut L,
        disk: &mut D,
    ) -> Result<Process<P>, Status>
        requires { MayTake (λ policy. P.rules policy) self (L.seen link.old) (input_seen input) size }
        ensures ok { IfOk result (λ next. (at : Serving P) (frames : List AnyFrame) (frame : AnyFrame) →
            Works (P.rules at.policy) at self (L.seen link.old) (D.seen disk.old) frames → IsWithin self →
            Holds self.received frame size → Admits at.net at.node frame (input_seen input) →
            GoesFurther (P.rules at.policy) at next (L.seen link.new) (D.seen disk.new) (left_of self)) }
        ensures err { IfErr result (λ status. (at : Serving P) (frames : List AnyFrame) (frame : AnyFrame) →
            Works (P.rules at.policy) at self (L.seen link.old) (D.seen disk.old) frames → IsWithin self →
            Holds self.received frame size → Admits at.net at.node frame (input_seen input) →
            ServedKept (who_at (P.rules at.policy) at) at.first (L.seen link.new) at.disk (D.seen disk.new) status) }
    {
        node_core::laws::what_fits_may_come();
        let Process {
            alloc,
            topology,
            id,
            node,
            mut received,
            frames,
            offset,
            journal,
        } = self;
        let answered = match hear(node, input, frames, offset) {
            Ok(answered) => answered,
            Err(status) => return Err(status),
        };
        let (node, outputs) = answered;
        let journal = keep(journal, disk, &received.as_slice()[..size])?;
        write_outputs(alloc, &topology, id, outputs, link)?;
        received.take_front(size);
        Ok(Process {
            alloc,
            topology,
            id,
            node,
            received,
            frames: frames + 1,
            offset: offset + size as u64,
            journal,
        })
    }

    // Takes a frame, or reads once.
    fn advance<L: Link, D: Disk>(self, link: &mut L, disk: &mut D) -> Result<Process<P>, Status>
        requires { IsRunning (λ policy. P.rules policy) self (L.seen link.old) (D.seen disk.old) }
        ensures ok { IfOk result (λ next. (at : Serving P) (frames : List AnyFrame) →
            Works (P.rules at.policy) at self (L.seen link.old) (D.seen disk.old) frames → IsWithin self →
            GoesFurther (P.rules at.policy) at next (L.seen link.new) (D.seen disk.new) (left_of self)) }
        ensures err { IfErr result (λ status. (at : Serving P) (frames : List AnyFrame) →
            Works (P.rules at.policy) at self (L.seen link.old) (D.seen disk.old) frames → IsWithin self →
            ServedKept (who_at (P.rules at.policy) at) at.first (L.seen link.new) at.disk (D.seen disk.new) status) }
    {
        match front_of(self.alloc, &self.received) {
            Front::Frame(frame, size) => {
                let input = self.admit(frame)?;
                let next = self.answer(input, size, link, disk)?;
                Ok(next)
            }
            Front::More => {
                let next = self.wait(link)?;
                Ok(next)
            }
            Front::Bad(kind) => Err(self.refuse(kind.into())),
            Front::NoMemory => Err(Status::NoMemory),
        }
    }
}

// Answers frames until the run ends. Returns how it ended.
fn ends<P: Policy + Copy, L: Link, D: Disk>(
    process: Process<P>,
    link: &mut L,
    disk: &mut D,
) -> Status
    requires { IsRunning (λ policy. P.rules policy) process (L.seen link.old) (D.seen disk.old) }
    ensures { (at : Serving P) (frames : List AnyFrame) →
        Works (P.rules at.policy) at process (L.seen link.old) (D.seen disk.old) frames → IsWithin process →
        ServedKept (who_at (P.rules at.policy) at) at.first (L.seen link.new) at.disk (D.seen disk.new) result }
{
    let mut process = process;
    loop {
        match process.advance(link, disk) {
            Ok(next) => process = next,
            Err(status) => return status,
        }
    }
}

/// Answers the frames of a link that was dialled, as the node with this number. It decodes them in order, gives each to
/// the node, and writes its replies before it looks at the next one. If the link ends between two frames, the run ends.
/// `specs/Served.antt` says what a user may rely on.
pub fn serve<L: Link>(alloc: Global, id: NodeId, topology: Rc<Topology>, link: &mut L) -> Status
    requires { has topology.value.nodes id ≡ true }
    ensures { Served (afresh gao_rexford topology.value id) (L.seen link.old) (L.seen link.new) result }
{
    // brings in the invariant of the topology
    let _nodes = topology.nodes();
    let Ok(shared) = topology.clone() else {
        return Status::NoMemory;
    };
    let Ok(node) = Node::new(alloc, shared, id, GaoRexford) else {
        return Status::NoMemory;
    };
    let process = Process {
        alloc,
        topology,
        id,
        node,
        received: Received::new(alloc),
        frames: 0,
        offset: 0,
        journal: None,
    };
    // without a journal this disk is never called
    let mut disk = MemDisk::new(alloc, Vec::new(alloc), Vec::new(alloc));
    ends(process, link, &mut disk)
}

/// Answers the frames of a link that was dialled, as a restarted node. Each frame that it takes is in the journal
/// before its replies are written. Condition: the network is that of the node. `specs/ServedKept.antt` says what a user
/// may rely on.
pub fn serve_kept<L: Link, D: Disk>(
    alloc: Global,
    kept: Kept,
    topology: Rc<Topology>,
    link: &mut L,
    disk: &mut D,
) -> Status
    requires { MayServe topology.value kept }
    ensures { (u : ℕ) (records : List AnyFrame) → IsRestored topology.value kept u records →
        ServedKept (again gao_rexford topology.value u records) (L.seen link.old) (L.seen link.new) (D.seen disk.old) (D.seen disk.new) result }
{
    // brings in the invariant of the topology
    let _nodes = topology.nodes();
    let Kept { node, journal } = kept;
    let process = Process {
        alloc,
        topology,
        id: node.id(),
        node,
        received: Received::new(alloc),
        frames: 0,
        offset: 0,
        journal: Some(journal),
    };
    ends(process, link, disk)
}
