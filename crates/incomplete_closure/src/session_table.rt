//! The session rows of reports, by key.
ghost use Rattle.std.specs.Prelude.{ℕ, ◌≡◌, ◌==◌, ◌&&◌, [], ◌∷◌, ◌++◌, ◌+◌, ◌≤◌, List, map, length, Some, None, OnOk, IfOk, if◌then◌else◌};
ghost use Rattle.std.specs.Option.{option_or};
ghost use Rattle.std.specs.Rc.{rc_value};
ghost use Rattle.incomplete_closure.specs.Opening.{row_of};
ghost use Rattle.incomplete_closure.specs.declared.reports.Report.{Report as AnyReport};
ghost use Rattle.incomplete_closure.specs.Tables.{has_node, row_at, IsTableOf};
ghost use Rattle.incomplete_closure.specs.Sizes.{sessions_of};

use crate::steps::Steps;
use crate::{Report, SessionRow};
use std::alloc::Global;
use std::collections::{BTreeMap, BTreeSet};
use std::rc::Rc;
use std::sync::ledger::Ledger;
use topology::{NoMemory, NodeId, Session, Trigger};

/// A session of a node with a neighbour.
#[derive(Clone, Copy, Debug, PartialEq, Eq, PartialOrd, Ord, Hash)]
pub(crate) struct SessionKey {
    node: NodeId,
    nbr: NodeId,
    session: Session,
}

/// The nodes of reports, and their session rows by key.
#[derive(Drop)]
pub(crate) struct SessionTable {
    nodes: BTreeSet<NodeId>,
    rows: BTreeMap<SessionKey, SessionRow>,
}

impl SessionTable {
    /// The table of these reports. The first report of each node counts, and its first row of each session.
    pub(crate) fn of<L: Ledger>(
        alloc: Global,
        reports: &[Rc<Report>],
        steps: &mut Steps<L>,
    ) -> Result<SessionTable, NoMemory>
        ensures table { IfOk result (IsTableOf (map rc_value reports.now)) }
        ensures most { steps.new ≤ steps.old + sessions_of (map rc_value reports.now) }
        ensures least { steps.old ≤ steps.new }
    {
        let mut table = SessionTable {
            nodes: BTreeSet::new(alloc),
            rows: BTreeMap::new(alloc),
        };
        for report in reports {
            table.add(report, steps)?;
        }
        Ok(table)
    }

    fn add<L: Ledger>(&mut self, report: &Report, steps: &mut Steps<L>) -> Result<(), NoMemory>
        ensures table { OnOk result ((before : List AnyReport) →
            IsTableOf before self.old → IsTableOf (before ++ report.now ∷ []) self.new) }
        ensures most { steps.new ≤ steps.old + length report.now.sessions }
        ensures least { steps.old ≤ steps.new }
    {
        if self.has_node(report.node) {
            return Ok(());
        }
        self.fill(report, steps)?;
        self.nodes.insert(report.node)?;
        Ok(())
    }

    fn fill<L: Ledger>(&mut self, report: &Report, steps: &mut Steps<L>) -> Result<(), NoMemory>
        ensures nodes { OnOk result (self.new.nodes.keys ≡ self.old.nodes.keys) }
        ensures rows { OnOk result ((n v s : ℕ) → row_at self.new n v s ≡
            option_or (row_at self.old n v s) (if n == report.now.node then row_of report.now v s else None)) }
        ensures most { steps.new ≤ steps.old + length report.now.sessions }
        ensures least { steps.old ≤ steps.new }
    {
        for row in report.sessions.as_slice() {
            steps.take();
            self.put(report.node, row)?;
        }
        Ok(())
    }

    // Adds the row, unless the table has one of its session.
    fn put(&mut self, node: NodeId, row: &SessionRow) -> Result<(), NoMemory>
        ensures nodes { OnOk result (self.new.nodes.keys ≡ self.old.nodes.keys) }
        ensures rows { OnOk result ((n v s : ℕ) → row_at self.new n v s ≡
            option_or (row_at self.old n v s)
            (if n == node && (row.now.nbr == v && row.now.session == s) then Some row.now else None)) }
    {
        let key = SessionKey {
            node,
            nbr: row.nbr,
            session: row.session,
        };
        if self.rows.contains_key(&key) {
            return Ok(());
        }
        let down: Option<Trigger> = row.down;
        let row = SessionRow {
            nbr: row.nbr,
            session: row.session,
            received: row.received,
            down,
        };
        let _ = self.rows.insert(key, row)?;
        Ok(())
    }

    pub(crate) fn has_node(&self, node: NodeId) -> bool
        ensures { result ≡ has_node self.now node }
    {
        self.nodes.contains(&node)
    }

    pub(crate) fn row(&self, node: NodeId, nbr: NodeId, session: Session) -> Option<SessionRow>
        ensures { result ≡ row_at self.now node nbr session }
    {
        self.rows.get(&SessionKey { node, nbr, session }).copied()
    }
}
