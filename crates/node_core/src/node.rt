//! A node: its log, its snapshots, and the state of its epochs.
ghost use Rattle.std.specs.Prelude.{◌≡◌, ◌∷◌, ℕ, [], None, option_copied, option_map, IfOk, IfErr, OnOk};
ghost use Rattle.topology.specs.Net.{Net};
ghost use Rattle.trigger_log.specs.Standing.{StandsFor as LogStandsFor, dropped_of};
ghost use Rattle.incomplete_closure.specs.Seen.{report_seen};
ghost use Rattle.epoch_report.specs.Trimming.{trimmed_report};
ghost use Rattle.stable_table.specs.TwoTables.{StandsFor as TablesStandFor};
ghost use Rattle.chronicle.specs.Control.{decision};
ghost use Rattle.chronicle.specs.Drops.{dropped, reported_cut};
ghost use Rattle.chronicle.specs.Facts.{Chronicle, Crash};
ghost use Rattle.chronicle.specs.Giving.{give};
ghost use Rattle.chronicle.specs.Logs.{log_of};
ghost use Rattle.chronicle.specs.Run.{chronicle_of};
ghost use Rattle.chronicle.specs.Steps.{Carried};
ghost use Rattle.node_core.specs.Coming.{MayCome};
ghost use Rattle.node_core.specs.Inputs.{input_of};
ghost use Rattle.node_core.specs.NodeLimits.{limit_before_marks, node_limit, StopsAt};
ghost use Rattle.node_core.specs.Outputs.{Answers, told_by};
ghost use Rattle.node_core.specs.Standing.{HasSnapshots, StandsFor};
ghost use Rattle.node_core.specs.Views.{views};

use crate::agreement::Agreement;
use crate::answers::Answer;
use crate::counts::Counts;
use crate::inputs::Input;
use crate::outputs::{OutputList, Outputs, Stop};
use crate::parts::NodeParts;
use crate::reports::Reports;
use consolidator::Consolidator;
use incomplete_closure::{Report, Value};
use marker_snapshot::Snapshots;
use path_vector::Policy;
use stable_table::TwoTables;
use std::alloc::Global;
use std::rc::Rc;
use topology::{Epoch, NoMemory, NodeId, Reason, Topology};
use trigger_log::NodeLog;

/// One node of a network: its log, its snapshots, its part in the agreement on the value of each epoch, and its tables.
/// It knows its neighbours from the network. Of its links it knows only which are up, and that only while it handles a
/// packet. It does not know whether an item that it sends arrives. It keeps nothing of packets. Its state stands in two
/// boxes, so a node moves as two words.
#[derive(Drop)]
pub struct Node<P: Policy + Copy> {
    pub(crate) log: Box<NodeLog<P>>,
    pub(crate) parts: Box<NodeParts>,
}

impl<P: Policy + Copy> Node<P> {
    /// The node with this number, before its first input.
    pub fn new(
        alloc: Global,
        topology: Rc<Topology>,
        id: NodeId,
        policy: P,
    ) -> Result<Node<P>, NoMemory>
        ensures { IfOk result (λ node. StandsFor policy (P.rules policy) topology.value id node []) }
    {
        let log = NodeLog::new(alloc, &topology, id, policy)?;
        let log = Box::new(alloc, log)?;
        let agreement = Agreement {
            reports: Reports::new(alloc),
            consolidator: Consolidator::new(alloc, &topology, id)?,
            tables: TwoTables::new(),
        };
        let parts = NodeParts {
            alloc,
            topology,
            id,
            counts: Counts::none(),
            snapshots: Snapshots::new(alloc),
            agreement,
        };
        let parts = parts.boxed()?;
        Ok(Node { log, parts })
    }

    /// Handles an input, and returns the node and its outputs. Where the node does nothing, returns the reason and the
    /// same node. A table that the input completes is the last output. Stops at a limit exactly where the input would
    /// take a count of the node above its number, or would have it propose a value or make a list with more triggers
    /// than one may have, unless memory runs out first. The limit on the triggers of all its lists stands last. The
    /// answer is the same whether links carry the items that it sends or not.
    pub fn handle(self, input: Input) -> Result<(Node<P>, Outputs), Stop>
        ensures node { IfOk result (λ r. (policy : P) (net : Net) (u : ℕ) (carried : Carried) (past : Chronicle) →
            StandsFor policy (P.rules policy) net u self past → MayCome net u (input_of input) →
            StandsFor policy (P.rules policy) net u r.0 (chronicle_of past (give (P.rules policy) net carried u past (input_of input)))) }
        ensures outputs { IfOk result (λ r. (policy : P) (net : Net) (u : ℕ) (carried : Carried) (past : Chronicle) →
            StandsFor policy (P.rules policy) net u self past → MayCome net u (input_of input) →
            Answers past (give (P.rules policy) net carried u past (input_of input)) r.1) }
        ensures within { OnOk result ((policy : P) (net : Net) (u : ℕ) (carried : Carried) (past : Chronicle) →
            StandsFor policy (P.rules policy) net u self past → MayCome net u (input_of input) →
            node_limit (P.rules policy) net u (give (P.rules policy) net carried u past (input_of input)) ≡ None) }
        ensures stopped { IfErr result (λ stop. (policy : P) (net : Net) (u : ℕ) (carried : Carried) (past : Chronicle) →
            StandsFor policy (P.rules policy) net u self past → MayCome net u (input_of input) →
            StopsAt (node_limit (P.rules policy) net u (give (P.rules policy) net carried u past (input_of input))) stop) }
    {
        let mut outputs = OutputList::new(self.parts.alloc);
        let (node, idle) = self.handle_into(input, &mut outputs)?;
        match idle {
            None => {
                node.check_marks()?;
                Ok((node, Outputs::Did(outputs)))
            }
            Some(reason) => Ok((node, Outputs::Idle(reason))),
        }
    }

    /// Handles an input as `handle` does, and puts the outputs into this list, whose memory it uses again. It removes
    /// the list's earlier contents. Where the node does nothing, returns the reason. After a stop the contents of the
    /// list mean nothing. The caller checks the limit on the triggers of all lists by `check_marks`, behind its own
    /// limits.
    #[inline(always)]
    pub fn handle_into(
        self,
        input: Input,
        outputs: &mut OutputList,
    ) -> Result<(Node<P>, Option<Reason>), Stop>
        ensures node { IfOk result (λ r. (policy : P) (net : Net) (u : ℕ) (carried : Carried) (past : Chronicle) →
            StandsFor policy (P.rules policy) net u self past → MayCome net u (input_of input) →
            StandsFor policy (P.rules policy) net u r.0 (chronicle_of past (give (P.rules policy) net carried u past (input_of input)))) }
        ensures outputs { IfOk result (λ r. (policy : P) (net : Net) (u : ℕ) (carried : Carried) (past : Chronicle) →
            StandsFor policy (P.rules policy) net u self past → MayCome net u (input_of input) →
            Answers past (give (P.rules policy) net carried u past (input_of input)) (told_by r.1 outputs.new)) }
        ensures stopped { IfErr result (λ stop. (policy : P) (net : Net) (u : ℕ) (carried : Carried) (past : Chronicle) →
            StandsFor policy (P.rules policy) net u self past → MayCome net u (input_of input) →
            StopsAt (limit_before_marks (P.rules policy) net u (give (P.rules policy) net carried u past (input_of input))) stop) }
    {
        outputs.clear();
        let (node, answer) = self.answer(input, outputs)?;
        let due = match answer {
            Answer::Did(due) => due,
            Answer::Idle(reason) => return Ok((node, Some(reason))),
        };
        let node = node.conclude(due, outputs)?;
        if let Some(stop) = node.limit() {
            return Err(stop);
        }
        Ok((node, None))
    }

    /// The number of the node.
    pub fn id(&self) -> NodeId
        ensures { (policy : P) (net : Net) (u : ℕ) (past : Chronicle) →
            StandsFor policy (P.rules policy) net u self.now past → result ≡ u }
    {
        self.parts.id
    }

    /// The log of the node. It has dropped the entries that no later table needs. The tables that the node published
    /// from reports of all nodes tell which these are.
    pub fn log(&self) -> &NodeLog<P>
        ensures log { (policy : P) (net : Net) (u : ℕ) (past : Chronicle) →
            StandsFor policy (P.rules policy) net u self.now past →
            LogStandsFor policy (P.rules policy) net u result.now (log_of u past) }
        ensures dropped { (policy : P) (net : Net) (u : ℕ) (past : Chronicle) →
            StandsFor policy (P.rules policy) net u self.now past → dropped_of result.now ≡ dropped net u past }
    {
        &self.log
    }

    /// The epochs, cuts and recordings of the node.
    pub fn snapshots(&self) -> &Snapshots
        ensures { (policy : P) (net : Net) (u : ℕ) (past : Chronicle) →
            StandsFor policy (P.rules policy) net u self.now past → HasSnapshots net u past result.now }
    {
        &self.parts.snapshots
    }

    /// The report of the node's cut of an epoch, without the entries that the node had dropped when it took the cut.
    /// None exactly where the node has no such cut. Takes no memory.
    pub fn report(&self, epoch: Epoch) -> Option<&Rc<Report>>
        ensures { (policy : P) (net : Net) (u : ℕ) (past : Chronicle) →
            StandsFor policy (P.rules policy) net u self.now past →
            option_map (λ report. report_seen report.now.value) result
            ≡ option_map (trimmed_report (P.rules policy) net u epoch) (reported_cut net u epoch past) }
    {
        self.parts.agreement.reports.of(epoch)
    }

    /// The node after a crash. It loses the reports that it collected and the ballots that it has open, and keeps all
    /// else. Takes no memory.
    pub fn forget(mut self) -> Node<P>
        ensures { (policy : P) (net : Net) (u : ℕ) (past : Chronicle) →
            StandsFor policy (P.rules policy) net u self past →
            StandsFor policy (P.rules policy) net u result (Crash u ∷ past) }
    {
        self.lose_tallies();
        self
    }

    /// Does what [`forget`](Node::forget) does, in place.
    pub fn lose_tallies(&mut self)
        ensures { (policy : P) (net : Net) (u : ℕ) (past : Chronicle) →
            StandsFor policy (P.rules policy) net u self.old past →
            StandsFor policy (P.rules policy) net u self.new (Crash u ∷ past) }
    {
        self.parts.agreement.forget();
    }

    /// The decision of the epoch, where the node knows it. Takes no memory.
    pub fn decision(&self, epoch: Epoch) -> Option<&Value>
        ensures { (policy : P) (net : Net) (u : ℕ) (past : Chronicle) →
            StandsFor policy (P.rules policy) net u self.now past →
            option_copied result ≡ decision u epoch past }
    {
        self.parts.agreement.consolidator.decision(epoch)
    }

    /// The tables that the node published and keeps.
    pub fn tables(&self) -> &TwoTables
        ensures { (policy : P) (net : Net) (u : ℕ) (past : Chronicle) →
            StandsFor policy (P.rules policy) net u self.now past →
            TablesStandFor result.now (views (P.rules policy) net u past) }
    {
        &self.parts.agreement.tables
    }
}
