//! Packets that enter the network at a node, or go on from it.
ghost use Rattle.std.specs.Prelude.{◌≡◌, ◌<◌, ◌∷◌, [], ℕ, List, length, option_map, IfOk};
ghost use Rattle.topology.specs.Net.{Net};
ghost use Rattle.chronicle.specs.Facts.{Chronicle};
ghost use Rattle.path_vector.specs.Ranking.{order as order_of};
ghost use Rattle.trigger_log.specs.Entries.{reads};
ghost use Rattle.chronicle.specs.Giving.{answer, forwards, hops_off_tables, hops_on_tables, injects, on_tables, sight};
ghost use Rattle.chronicle.specs.Logs.{log_of};
ghost use Rattle.chronicle.specs.Publications.{kept_path, newest_backups, newest_epoch, newest_path};
ghost use Rattle.chronicle.specs.Run.{chronicle_of};
ghost use Rattle.chronicle.specs.Steps.{Carried};
ghost use Rattle.epoch_packet.specs.declared.walks.Mode.TheVariants.{Stable, Transient};
ghost use Rattle.node_core.specs.Answering.{Says};
ghost use Rattle.node_core.specs.Coming.{MayCome};
ghost use Rattle.node_core.specs.Deciding.{passing_of};
ghost use Rattle.node_core.specs.Outputs.{Forward, Hands, output_of, shown_of};
ghost use Rattle.node_core.specs.Standing.{Follows, StandsFor};
ghost use Rattle.transient_mode.specs.TransientHops.{transient_hop};

use crate::answers::Answer;
use crate::duties::Passing;
use crate::node::Node;
use crate::outputs::{Output, OutputList};
use epoch_packet::{End, Mode, Packet, StableStep, stable_hop, stamp};
use path_vector::Policy;
use std::alloc::Global;
use topology::{Epoch, NoMemory, NodeId, Path, PrefixId};
use transient_mode::{Move, View, asks_for_order, transient_hop};

// The output of a packet for a node, as it leaves this node.
fn forward(alloc: Global, next: NodeId, packet: Packet) -> Result<Output, NoMemory>
    ensures { IfOk result (λ output. output_of output ≡ Forward next packet) }
{
    Ok(Output::Forward {
        next,
        packet: Box::new(alloc, packet)?,
    })
}

// The output of a packet off the tables: after its move, or at the end of its walk.
fn gone_on(alloc: Global, packet: Packet, gone: Move) -> Result<Output, NoMemory>
    ensures { IfOk result (λ output. output_of output ≡ shown_of packet gone) }
{
    match gone {
        Move::Next(next) => forward(alloc, next, packet),
        Move::Ended(end) => Ok(Output::Ended { id: packet.id, end }),
    }
}

impl<P: Policy + Copy> Node<P> {
    // The epoch of the newest table.
    fn newest_epoch(&self) -> Option<Epoch>
        ensures { (policy : P) (net : Net) (u : ℕ) (past : Chronicle) →
            StandsFor policy (P.rules policy) net u self.now past → result ≡ newest_epoch u past }
    {
        Some(self.parts.agreement.tables.newest()?.epoch())
    }

    // A packet enters the network here. Its stamp is the epoch of the newest table.
    fn inject(&self, id: u32, prefix: PrefixId) -> Result<Output, NoMemory>
        ensures { IfOk result (λ output. (policy : P) (net : Net) (u : ℕ) (past : Chronicle) →
            StandsFor policy (P.rules policy) net u self.now past →
            Hands past (output ∷ []) (injects net u past id prefix)) }
    {
        let newest = self.newest_epoch();
        let parts = &*self.parts;
        let packet = stamp(parts.alloc, &parts.topology, id, prefix, parts.id, newest);
        forward(parts.alloc, parts.id, packet)
    }

    // The path of the prefix in the table of the epoch. None where the node does not keep that table, and where the
    // table has no path.
    fn kept_path(&self, epoch: Epoch, prefix: PrefixId) -> Option<&[NodeId]>
        ensures { (policy : P) (net : Net) (u : ℕ) (past : Chronicle) →
            StandsFor policy (P.rules policy) net u self.now past →
            option_map (λ nodes. nodes.now) result ≡ kept_path u epoch prefix past }
    {
        self.parts.agreement.tables.of(epoch)?.path(prefix)
    }

    // A packet on the tables ends its walk, moves on, or leaves the tables here. It stays in its block.
    fn step_on_tables(&self, mut packet: Box<Packet>, step: StableStep) -> Output
        ensures { (policy : P) (net : Net) (u : ℕ) (past : Chronicle) →
            StandsFor policy (P.rules policy) net u self.now past →
            Hands past (result ∷ []) (on_tables net u past packet.value step) }
    {
        let parts = &*self.parts;
        match step {
            StableStep::Arrived => Output::Ended {
                id: packet.id,
                end: End::Delivered,
            },
            StableStep::Next(next) => {
                packet.move_to(&parts.topology, next);
                Output::Forward { next, packet }
            }
            StableStep::Turn => {
                packet.turn(&parts.topology, parts.id);
                let next = parts.id;
                Output::Forward { next, packet }
            }
        }
    }

    // A packet goes on by the table of its epoch, or leaves the tables here.
    fn hop_on_tables(&self, packet: Box<Packet>, up: &[NodeId]) -> Output
        ensures { (policy : P) (net : Net) (u : ℕ) (past : Chronicle) →
            StandsFor policy (P.rules policy) net u self.now past →
            Hands past (result ∷ []) (hops_on_tables net u past packet.value up.now) }
    {
        let path = self.kept_path(packet.epoch, packet.prefix);
        let step = stable_hop(path, up);
        self.step_on_tables(packet, step)
    }

    // The path of the prefix in the newest table.
    fn newest_path(&self, prefix: PrefixId) -> Option<&[NodeId]>
        ensures { (policy : P) (net : Net) (u : ℕ) (past : Chronicle) →
            StandsFor policy (P.rules policy) net u self.now past →
            option_map (λ nodes. nodes.now) result ≡ newest_path u prefix past }
    {
        self.parts.agreement.tables.newest()?.path(prefix)
    }

    // The backups of the prefix in the newest table.
    fn newest_backups(&self, prefix: PrefixId) -> &[Path]
        ensures { (policy : P) (net : Net) (u : ℕ) (past : Chronicle) →
            StandsFor policy (P.rules policy) net u self.now past → prefix < length net.prefixes →
            result.now ≡ newest_backups (P.rules policy) net u prefix past }
    {
        match self.parts.agreement.tables.newest() {
            None => &[],
            Some(table) => table.backups(prefix),
        }
    }

    // The neighbours in the order in which they are tried for the prefix.
    fn order(&self, prefix: PrefixId) -> Result<Vec<NodeId>, NoMemory>
        ensures { IfOk result (λ list. (policy : P) (net : Net) (u : ℕ) (past : Chronicle) →
            StandsFor policy (P.rules policy) net u self.now past → prefix < length net.prefixes →
            list.items ≡ order_of (P.rules policy) net u (reads (log_of u past)) prefix) }
    {
        self.log.live().order(prefix)
    }

    // The order of neighbours for a packet that has left the tables. An empty list where its hop does not read the
    // order.
    fn order_for(&self, packet: &Packet) -> Result<Vec<NodeId>, NoMemory>
        ensures { IfOk result (λ list. (policy : P) (net : Net) (u : ℕ) (past : Chronicle) (up : List ℕ) →
            StandsFor policy (P.rules policy) net u self.now past → packet.now.prefix < length net.prefixes →
            transient_hop net packet.now (record (sight (P.rules policy) net u past packet.now.prefix up) { order = list.items })
            ≡ transient_hop net packet.now (sight (P.rules policy) net u past packet.now.prefix up)) }
    {
        let prefix = packet.prefix;
        let owns = self.log.live().owns(prefix);
        let asks = asks_for_order(&self.parts.topology, packet, self.parts.id, owns);
        if asks {
            return self.order(prefix);
        }
        Ok(Vec::new(self.parts.alloc))
    }

    // The node's knowledge for a packet of the prefix: the links that are up, its routes, and the order of its
    // neighbours.
    fn view<'a>(&'a self, prefix: PrefixId, order: &'a [NodeId], up: &'a [NodeId]) -> View<'a>
        ensures { (policy : P) (net : Net) (u : ℕ) (past : Chronicle) →
            StandsFor policy (P.rules policy) net u self.now past → prefix < length net.prefixes →
            result ≡ record (sight (P.rules policy) net u past prefix up.now) { order = order.now } }
    {
        View {
            at: self.parts.id,
            owns: self.log.live().owns(prefix),
            order,
            up,
            stable: self.newest_path(prefix),
            backups: self.newest_backups(prefix),
        }
    }

    // A packet that has left the tables goes on, or ends its walk.
    fn hop_off_tables(&self, packet: Packet, up: &[NodeId]) -> Result<Output, NoMemory>
        ensures { IfOk result (λ output. (policy : P) (net : Net) (u : ℕ) (past : Chronicle) →
            StandsFor policy (P.rules policy) net u self.now past → packet.prefix < length net.prefixes →
            Hands past (output ∷ []) (hops_off_tables (P.rules policy) net u past packet up.now)) }
    {
        let prefix = packet.prefix;
        let order = self.order_for(&packet)?;
        let view = self.view(prefix, &order, up);
        let (packet, gone) = transient_hop(&self.parts.topology, packet, view)?;
        gone_on(self.parts.alloc, packet, gone)
    }

    // A packet that stands here goes on.
    fn hop(&self, packet: Box<Packet>, up: &[NodeId]) -> Result<Output, NoMemory>
        ensures { IfOk result (λ output. (policy : P) (net : Net) (u : ℕ) (past : Chronicle) →
            StandsFor policy (P.rules policy) net u self.now past → packet.value.prefix < length net.prefixes →
            Hands past (output ∷ []) (forwards (P.rules policy) net u past packet.value up.now)) }
    {
        match packet.mode {
            Mode::Stable => Ok(self.hop_on_tables(packet, up)),
            Mode::Transient => self.hop_off_tables(Box::into_inner(packet), up),
        }
    }

    // The output of a packet here.
    fn passed(&self, passing: Passing) -> Result<Output, NoMemory>
        ensures { IfOk result (λ output. (policy : P) (net : Net) (u : ℕ) (carried : Carried) (past : Chronicle) →
            StandsFor policy (P.rules policy) net u self.now past → MayCome net u (passing_of passing) →
            Hands past (output ∷ []) (chronicle_of past (answer (P.rules policy) net carried u past (passing_of passing)))) }
    {
        match passing {
            Passing::Enter { id, prefix } => self.inject(id, prefix),
            Passing::GoOn { packet, up } => self.hop(packet, &up),
        }
    }

    /// Passes a packet on. The node keeps nothing of packets, and stays as it was.
    pub(crate) fn pass(
        self,
        passing: Passing,
        outputs: &mut OutputList,
    ) -> Result<(Node<P>, Answer), NoMemory>
        ensures node { IfOk result (λ r. (policy : P) (net : Net) (u : ℕ) (carried : Carried) (past : Chronicle) →
            StandsFor policy (P.rules policy) net u self past →
            Follows policy (P.rules policy) net u r.0
            (chronicle_of past (answer (P.rules policy) net carried u past (passing_of passing)))) }
        ensures says { IfOk result (λ r. (policy : P) (net : Net) (u : ℕ) (carried : Carried) (past : Chronicle) →
            StandsFor policy (P.rules policy) net u self past → MayCome net u (passing_of passing) → outputs.old ≡ [] →
            Says u past (answer (P.rules policy) net carried u past (passing_of passing)) r.1 outputs.new) }
    {
        let output = self.passed(passing)?;
        outputs.push(output)?;
        Ok((self, Answer::Did(None)))
    }
}
