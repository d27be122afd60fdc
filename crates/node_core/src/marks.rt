//! Markers, and the cuts that a node takes for them.
ghost use Rattle.std.specs.Prelude.{◌≡◌, ◌<◌, ℕ, Some, [], ◌∷◌, ◌++◌, List, map, true, IfOk, OnOk};
ghost use Rattle.topology.specs.Lists.{has};
ghost use Rattle.topology.specs.Net.{Net, neighbours};
ghost use Rattle.trigger_log.specs.Dropping.{trimmed};
ghost use Rattle.trigger_log.specs.Entries.{Entry};
ghost use Rattle.trigger_log.specs.Going.{Item as Gone, mark_of};
ghost use Rattle.trigger_log.specs.Standing.{StandsFor as LogStandsFor, dropped_of};
ghost use Rattle.marker_snapshot.specs.Acts.{SnapshotActs, Takes};
ghost use Rattle.marker_snapshot.specs.Cuts.{epoch_of};
ghost use Rattle.marker_snapshot.specs.Standing.{StandsFor as SnapshotsStandFor};
ghost use Rattle.incomplete_closure.specs.Seen.{report_seen};
ghost use Rattle.epoch_report.specs.Downs.{DownsListOne};
ghost use Rattle.epoch_report.specs.Trimming.{trimmed_report};
ghost use Rattle.consolidator.specs.Messages.{Reports};
ghost use Rattle.chronicle.specs.Drops.{dropped};
ghost use Rattle.chronicle.specs.Facts.{Chronicle, Took};
ghost use Rattle.chronicle.specs.Logs.{log_of};
ghost use Rattle.chronicle.specs.Run.{held_with};
ghost use Rattle.chronicle.specs.Steps.{Carried, markers, meet_mark, raise};
ghost use Rattle.node_core.specs.Agreeing.{AgreesAs};
ghost use Rattle.node_core.specs.Keeping.{Keeps, KeepsAllBut};
ghost use Rattle.node_core.specs.Outputs.{Hands, Mail as Mailed, Send, output_of};
ghost use Rattle.node_core.specs.Standing.{StandsFor};

use crate::node::Node;
use crate::outputs::{Output, OutputList};
use crate::parts::NodeParts;
use consolidator::{Mail, Message};
use epoch_report::report_of;
use incomplete_closure::Report;
use path_vector::Policy;
use std::rc::Rc;
use topology::{Epoch, Item, NoMemory, NodeId, Session};
use trigger_log::{NodeLog, Outgoing};

// Mails the report to each consolidator.
fn mail_report(
    consolidators: &[NodeId],
    report: &Rc<Report>,
    outputs: &mut OutputList,
) -> Result<(), NoMemory>
    ensures { OnOk result (map output_of outputs.new ≡ map output_of outputs.old
        ++ map (λ to. Mailed to (Reports (report_seen report.now.value))) consolidators.now) }
{
    for to in consolidators {
        let message = Message::Report(report.clone()?);
        let mail = Mail { to: *to, message };
        outputs.push(Output::Mail(mail))?;
    }
    Ok(())
}

// The parts of the node after it took its cut, and kept the report of it.
fn cut_parts<P: Policy + Copy>(
    parts: NodeParts,
    log: &NodeLog<P>,
    epoch: Epoch,
    report: Rc<Report>,
) -> Result<NodeParts, NoMemory>
    ensures rest { IfOk result (λ cut. cut
        ≡ record parts { snapshots = cut.snapshots; agreement = record parts.agreement { reports = cut.agreement.reports } }) }
    ensures snapshots { IfOk result (λ cut. (policy : P) (u : ℕ) (h : List Entry) (acts : SnapshotActs) →
        SnapshotsStandFor parts.topology.value u parts.snapshots acts →
        LogStandsFor policy (P.rules policy) parts.topology.value u log.now h → epoch_of acts < epoch →
        SnapshotsStandFor parts.topology.value u cut.snapshots (Takes epoch h ∷ acts)) }
    ensures reports { IfOk result (λ cut. cut.agreement.reports
        ≡ parts.agreement.reports ++ report_seen report.value ∷ []) }
{
    let NodeParts {
        alloc,
        topology,
        id,
        counts,
        snapshots,
        mut agreement,
    } = parts;
    let snapshots = snapshots.take(epoch, log, &topology)?;
    agreement.reports.keep(report)?;
    Ok(NodeParts {
        alloc,
        topology,
        id,
        counts,
        snapshots,
        agreement,
    })
}

impl<P: Policy + Copy> Node<P> {
    // Sends a marker in each session that the node holds, ready or not, by neighbour, ascending.
    fn send_markers(&self, epoch: Epoch, outputs: &mut OutputList) -> Result<(), NoMemory>
        ensures { OnOk result ((policy : P) (net : Net) (u : ℕ) (h : List Entry) →
            self.now.parts.value.topology.value ≡ net → self.now.parts.value.id ≡ u →
            LogStandsFor policy (P.rules policy) net u self.now.log.value h →
            map output_of outputs.new ≡ map output_of outputs.old ++ map Send (markers net u epoch h)) }
    {
        for nbr in self.parts.topology.neighbours(self.parts.id) {
            let Some(session) = self.log.held(*nbr) else {
                continue;
            };
            outputs.push(Output::Send(Outgoing {
                to: *nbr,
                session,
                item: Item::Marker(epoch),
            }))?;
        }
        Ok(())
    }

    // Hands out the cut, sends the markers, and mails the report of the cut. Returns the report.
    fn tell_cut(&self, epoch: Epoch, outputs: &mut OutputList) -> Result<Rc<Report>, NoMemory>
        ensures report { IfOk result (λ report. (policy : P) (net : Net) (u : ℕ) (h : List Entry) →
            LogStandsFor policy (P.rules policy) net u self.now.log.value h → DownsListOne h →
            report_seen report.value ≡ trimmed_report (P.rules policy) net u epoch (trimmed (dropped_of self.now.log.value) h)) }
        ensures outputs { OnOk result ((policy : P) (net : Net) (u : ℕ) (carried : Carried) (first past : Chronicle) →
            self.now.parts.value.topology.value ≡ net → self.now.parts.value.id ≡ u →
            LogStandsFor policy (P.rules policy) net u self.now.log.value (log_of u past) → DownsListOne (log_of u past) →
            dropped_of self.now.log.value ≡ dropped net u past → Hands first outputs.old past →
            Hands first outputs.new (raise (P.rules policy) net carried u epoch past)) }
    {
        outputs.push(Output::Cut { epoch })?;
        self.send_markers(epoch, outputs)?;
        let made = report_of(self.parts.alloc, &self.log, epoch)?;
        let report = Rc::new(self.parts.alloc, made)?;
        mail_report(self.parts.topology.consolidators(), &report, outputs)?;
        Ok(report)
    }

    /// Raises the epoch: the node takes its cut, sends its markers, and keeps and mails its report of the cut.
    pub(crate) fn raise(self, epoch: Epoch, outputs: &mut OutputList) -> Result<Node<P>, NoMemory>
        ensures others { IfOk result (λ node. KeepsAllBut self node) }
        ensures snapshots { IfOk result (λ node. (policy : P) (net : Net) (u : ℕ) (h : List Entry) (acts : SnapshotActs) →
            self.parts.value.topology.value ≡ net → LogStandsFor policy (P.rules policy) net u self.log.value h →
            SnapshotsStandFor net u self.parts.value.snapshots acts → epoch_of acts < epoch →
            SnapshotsStandFor net u node.parts.value.snapshots (Takes epoch h ∷ acts)) }
        ensures reports { IfOk result (λ node. (policy : P) (net : Net) (u : ℕ) (h : List Entry) →
            LogStandsFor policy (P.rules policy) net u self.log.value h → DownsListOne h →
            node.parts.value.agreement.reports ≡ self.parts.value.agreement.reports
            ++ trimmed_report (P.rules policy) net u epoch (trimmed (dropped_of self.log.value) h) ∷ []) }
        ensures outputs { OnOk result ((policy : P) (net : Net) (u : ℕ) (carried : Carried) (first past : Chronicle) →
            self.parts.value.topology.value ≡ net → self.parts.value.id ≡ u →
            LogStandsFor policy (P.rules policy) net u self.log.value (log_of u past) → DownsListOne (log_of u past) →
            dropped_of self.log.value ≡ dropped net u past → Hands first outputs.old past →
            Hands first outputs.new (raise (P.rules policy) net carried u epoch past)) }
    {
        let report = self.tell_cut(epoch, outputs)?;
        let Node { log, parts } = self;
        let cut = cut_parts(Box::into_inner(parts), &log, epoch, report)?;
        let parts = cut.boxed()?;
        Ok(Node { log, parts })
    }

    /// The node meets a mark of a neighbour, in the session that it holds with it. Its epoch rises to the mark where
    /// the mark is higher. The recordings of the session that wait for this mark, or for an earlier one, end.
    #[inline(always)]
    pub(crate) fn meet(
        self,
        nbr: NodeId,
        session: Session,
        mark: Epoch,
        outputs: &mut OutputList,
    ) -> Result<Node<P>, NoMemory>
        ensures agreement { IfOk result (λ node. AgreesAs self.parts.value.agreement node.parts.value.agreement) }
        ensures node { IfOk result (λ node. (policy : P) (net : Net) (u : ℕ) (carried : Carried) (past : Chronicle) (item : Gone) →
            StandsFor policy (P.rules policy) net u self past → has (neighbours net u) nbr ≡ true →
            held_with u nbr past ≡ Some session → mark_of item ≡ Some mark →
            Keeps policy (P.rules policy) net u node (meet_mark (P.rules policy) net carried u mark (Took nbr u session item ∷ past))) }
        ensures outputs { OnOk result ((policy : P) (net : Net) (u : ℕ) (carried : Carried) (past : Chronicle) (item : Gone) (first : Chronicle) →
            StandsFor policy (P.rules policy) net u self past → Hands first outputs.old past →
            Hands first outputs.new (meet_mark (P.rules policy) net carried u mark (Took nbr u session item ∷ past))) }
    {
        let mut node = self;
        if node.parts.snapshots.epoch() < mark {
            node = node.raise(mark, outputs)?;
        }
        node.parts.snapshots.on_marker(nbr, session, mark);
        Ok(node)
    }
}
