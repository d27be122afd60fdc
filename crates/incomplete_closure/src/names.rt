//! Numbers for triggers.
ghost use Rattle.std.specs.Prelude.{◌≡◌, ◌+◌, ◌≤◌, [], length, map, slice_get, OnOk, IfOk};
ghost use Rattle.std.specs.Rc.{rc_value};
ghost use Rattle.incomplete_closure.specs.Names.{with_name, with_names, with_rows, with_reports, with_open, names_of, number_of};
ghost use Rattle.incomplete_closure.specs.Sizes.{triggers_in, rows_of, triggers_of};

use crate::opening::OpenTrigger;
use crate::steps::Steps;
use crate::{Report, Row};
use indexmap::IndexSet;
use std::alloc::Global;
use std::marker::Model;
use std::rc::Rc;
use std::sync::ledger::Ledger;
use topology::{NoMemory, Trigger};

/// Different triggers, in the order in which they were added. The place of a trigger is its number.
#[derive(Drop)]
pub(crate) struct Names {
    set: IndexSet<Trigger>,
}

impl Model for Names {
    ghost use Rattle.std.specs.Prelude.{List};
    ghost use Rattle.topology.specs.declared.names.Trigger.{Trigger};

    ghost Value = { List Trigger };

    ghost view = { λ n. n.set.keys };
}

impl Names {
    /// No trigger. Takes no memory.
    fn new(alloc: Global) -> Names
        ensures { result ≡ [] }
    {
        Names {
            set: IndexSet::new(alloc),
        }
    }

    pub(crate) fn len(&self) -> usize
        ensures { result ≡ length self.now }
    {
        self.set.len()
    }

    // Adds the trigger at the end, unless it is there.
    fn add(&mut self, trigger: Trigger) -> Result<(), NoMemory>
        ensures { OnOk result (self.new ≡ with_name self.old trigger) }
    {
        let _ = self.set.insert(trigger)?;
        Ok(())
    }

    // Adds each trigger of the list.
    fn add_all<L: Ledger>(
        &mut self,
        triggers: &[Trigger],
        steps: &mut Steps<L>,
    ) -> Result<(), NoMemory>
        ensures names { OnOk result (self.new ≡ with_names self.old triggers.now) }
        ensures most { steps.new ≤ steps.old + length triggers.now }
        ensures least { steps.old ≤ steps.new }
    {
        for trigger in triggers {
            steps.take();
            self.add(*trigger)?;
        }
        Ok(())
    }

    // Adds each trigger that the rows list.
    fn add_rows<L: Ledger>(&mut self, rows: &[Row], steps: &mut Steps<L>) -> Result<(), NoMemory>
        ensures names { OnOk result (self.new ≡ with_rows self.old rows.now) }
        ensures most { steps.new ≤ steps.old + (length rows.now + triggers_in rows.now) }
        ensures least { steps.old ≤ steps.new }
    {
        for row in rows {
            steps.take();
            self.add_all(row.triggers.as_slice(), steps)?;
        }
        Ok(())
    }

    // Adds each trigger that the rows of the reports list.
    fn add_reports<L: Ledger>(
        &mut self,
        reports: &[Rc<Report>],
        steps: &mut Steps<L>,
    ) -> Result<(), NoMemory>
        ensures names { OnOk result (self.new ≡ with_reports self.old (map rc_value reports.now)) }
        ensures most { steps.new ≤ steps.old
            + (rows_of (map rc_value reports.now) + triggers_of (map rc_value reports.now)) }
        ensures least { steps.old ≤ steps.new }
    {
        for report in reports {
            self.add_rows(report.rows.as_slice(), steps)?;
        }
        Ok(())
    }

    // Adds each trigger that is open.
    fn add_open<L: Ledger>(
        &mut self,
        opened: &[OpenTrigger],
        steps: &mut Steps<L>,
    ) -> Result<(), NoMemory>
        ensures names { OnOk result (self.new ≡ with_open self.old opened.now) }
        ensures most { steps.new ≤ steps.old + length opened.now }
        ensures least { steps.old ≤ steps.new }
    {
        for open_trigger in opened {
            steps.take();
            self.add(open_trigger.trigger)?;
        }
        Ok(())
    }

    /// All triggers that reports, and what is open between them, list.
    pub(crate) fn of<L: Ledger>(
        alloc: Global,
        reports: &[Rc<Report>],
        opened: &[OpenTrigger],
        steps: &mut Steps<L>,
    ) -> Result<Names, NoMemory>
        ensures names { IfOk result (λ names. names ≡ names_of (map rc_value reports.now) opened.now) }
        ensures most { steps.new ≤ steps.old + (rows_of (map rc_value reports.now)
            + triggers_of (map rc_value reports.now) + length opened.now) }
        ensures least { steps.old ≤ steps.new }
    {
        let mut names = Names::new(alloc);
        names.add_reports(reports, steps)?;
        names.add_open(opened, steps)?;
        Ok(names)
    }

    /// The number of the trigger. A trigger without one gets the count of all numbers.
    pub(crate) fn number(&self, trigger: &Trigger) -> usize
        ensures number { result ≡ number_of self.now trigger.now }
        ensures within { result ≤ length self.now }
    {
        match self.set.get_index_of(trigger) {
            Some(number) => number,
            None => self.set.len(),
        }
    }

    /// The trigger with a number.
    pub(crate) fn at(&self, place: usize) -> Option<Trigger>
        ensures { result ≡ slice_get self.now place }
    {
        self.set.get_index(place).copied()
    }
}
