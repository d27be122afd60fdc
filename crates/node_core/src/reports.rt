//! The reports of a node's cuts.
ghost use Rattle.std.specs.Prelude.{◌≡◌, ◌∷◌, ◌++◌, [], find, map, option_map, OnOk, OnErr};
ghost use Rattle.std.specs.Rc.{rc_value};
ghost use Rattle.incomplete_closure.specs.Seen.{report_seen, reports_seen};
ghost use Rattle.node_core.specs.Reports.{is_of_epoch};

use incomplete_closure::Report;
use std::alloc::Global;
use std::marker::Model;
use std::rc::Rc;
use topology::{Epoch, NoMemory};

/// The reports that a node made, the oldest first. A report is shared with its readers, not copied.
#[derive(Drop)]
pub struct Reports {
    list: Vec<Rc<Report>>,
}

impl Model for Reports {
    ghost use Rattle.std.specs.Prelude.{List, map};
    ghost use Rattle.std.specs.Rc.{rc_value};
    ghost use Rattle.incomplete_closure.specs.Reports.{Report};
    ghost use Rattle.incomplete_closure.specs.Seen.{reports_seen};

    ghost Value = { List Report };

    ghost view = { λ r. reports_seen (map rc_value r.list.items) };
}

// The first of the reports that is of the epoch.
fn report_in(reports: &[Rc<Report>], epoch: Epoch) -> Option<&Rc<Report>>
    ensures { option_map (λ report. report_seen report.now.value) result
        ≡ find (is_of_epoch epoch) (reports_seen (map rc_value reports.now)) }
{
    for report in reports {
        if report.epoch == epoch {
            return Some(report);
        }
    }
    None
}

impl Reports {
    /// No report. Takes no memory.
    pub fn new(alloc: Global) -> Reports
        ensures { result ≡ [] }
    {
        Reports {
            list: Vec::new(alloc),
        }
    }

    /// Adds a report.
    pub fn keep(&mut self, report: Rc<Report>) -> Result<(), NoMemory>
        ensures kept { OnOk result (self.new ≡ self.old ++ report_seen report.value ∷ []) }
        ensures err { OnErr result (self.new ≡ self.old) }
    {
        self.list.push(report)?;
        Ok(())
    }

    /// The report of an epoch. Takes no memory.
    pub fn of(&self, epoch: Epoch) -> Option<&Rc<Report>>
        ensures { option_map (λ report. report_seen report.now.value) result ≡ find (is_of_epoch epoch) self.now }
    {
        report_in(&self.list, epoch)
    }
}
