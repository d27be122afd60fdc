//! The reports of one epoch that a node holds.
ghost use Rattle.std.specs.Prelude.{ℕ, ◌≡◌, ◌+◌, ◌≤◌, [], false, List, map, length, OnOk, OnErr, IfOk};
ghost use Rattle.std.specs.Rc.{rc_value};
ghost use Rattle.topology.specs.Lists.{has};
ghost use Rattle.incomplete_closure.specs.Seen.{report_seen, reports_seen};
ghost use Rattle.incomplete_closure.specs.Collecting.{value_of};
ghost use Rattle.consolidator.specs.Readings.{put_report, nodes_of, is_empty};
ghost use Rattle.consolidator.specs.Holding.{place_of};

use incomplete_closure::{Report, Value, uncounted_closure};
use std::alloc::Global;
use std::marker::Model;
use std::rc::Rc;
use topology::{Epoch, NoMemory, NodeId};

/// Reports of one epoch, one for each node, ordered by node.
#[derive(Drop)]
pub struct HeldReports {
    epoch: Epoch,
    list: Vec<Rc<Report>>,
    // Their value, once somebody asked for it: many ballots may be for the value of the same reports.
    computed: Option<Value>,
}

impl Model for HeldReports {
    ghost use Rattle.std.specs.Prelude.{map};
    ghost use Rattle.std.specs.Rc.{rc_value};
    ghost use Rattle.incomplete_closure.specs.Seen.{reports_seen};
    ghost use Rattle.consolidator.specs.Holding.{Holding, AreHeld, IsComputed};

    ghost Value = { Holding };

    ghost view = { λ h. record { epoch = h.epoch; reports = reports_seen (map rc_value h.list.items) } };

    ghost invariant = { λ h. AreHeld h.epoch (map rc_value h.list.items) × IsComputed h.computed (reports_seen (map rc_value h.list.items)) };
}

// The place of the first report of a higher node.
fn place_of(reports: &[Rc<Report>], node: NodeId) -> usize
    ensures place { result ≡ place_of node (map rc_value reports.now) }
    ensures within { result ≤ length reports.now }
{
    let mut place = 0;
    for report in reports {
        if node < report.node {
            return place;
        }
        place += 1;
    }
    place
}

// Whether one of the reports is the node's.
fn has_node(reports: &[Rc<Report>], node: NodeId) -> bool
    ensures { result ≡ has (nodes_of (reports_seen (map rc_value reports.now))) node }
{
    for report in reports {
        if report.node == node {
            return true;
        }
    }
    false
}

impl HeldReports {
    /// No reports yet. Takes no memory.
    pub fn new(alloc: Global, epoch: Epoch) -> HeldReports
        ensures epoch { result.epoch ≡ epoch }
        ensures none { result.reports ≡ [] }
    {
        HeldReports {
            epoch,
            list: Vec::new(alloc),
            computed: None,
        }
    }

    pub fn epoch(&self) -> Epoch
        ensures { result ≡ self.now.epoch }
    {
        self.epoch
    }

    pub fn is_empty(&self) -> bool
        ensures { result ≡ is_empty self.now.reports }
    {
        self.list.is_empty()
    }

    /// Whether a report of the node is held.
    pub fn has(&self, node: NodeId) -> bool
        ensures { result ≡ has (nodes_of self.now.reports) node }
    {
        has_node(&self.list, node)
    }

    /// Keeps the report, unless one of its node is held already.
    pub fn keep(&mut self, report: Rc<Report>) -> Result<(), NoMemory>
        requires epoch { report.value.epoch ≡ self.old.epoch }
        requires new { has (nodes_of self.old.reports) report.value.node ≡ false }
        ensures epoch { self.new.epoch ≡ self.old.epoch }
        ensures kept { OnOk result (self.new.reports ≡ put_report (report_seen report.value) self.old.reports) }
        ensures err { OnErr result (self.new ≡ self.old) }
    {
        let place = place_of(&self.list, report.node);
        self.list.insert(place, report)?;
        self.computed = None;
        Ok(())
    }

    /// Drops the reports. Takes no memory.
    pub fn clear(&mut self)
        ensures { self.new ≡ record { epoch = self.old.epoch; reports = [] } }
    {
        self.list.clear();
        self.computed = None;
    }

    /// The value of the reports. It is computed where it was not asked for since the last report came.
    pub fn value(&mut self, alloc: Global) -> Result<Value, NoMemory>
        ensures value { IfOk result (λ value. value ≡ value_of self.old.reports) }
        ensures same { self.new ≡ self.old }
    {
        if let Some(value) = &self.computed {
            return value.copy();
        }
        let value = uncounted_closure(alloc, &self.list)?;
        let copy = value.copy()?;
        self.computed = Some(value);
        Ok(copy)
    }
}
