//! Which triggers are open: those of items that were sent to a node with a report and not received there, and those of
//! updates that are held back from such a node.
ghost use Rattle.std.specs.Prelude.{◌≡◌, ◌++◌, ◌+◌, ◌*◌, ◌≤◌, List, map, length, OnOk, IfOk};
ghost use Rattle.std.specs.Rc.{rc_value};
ghost use Rattle.incomplete_closure.specs.declared.reports.Report.{Report as AnyReport};
ghost use Rattle.incomplete_closure.specs.Opening.{down_of, with_down, if_open, open_at, waiting_at, of_node, open_in_row, open_in_rows, waiting_in, open_in_report, open_triggers};
ghost use Rattle.incomplete_closure.specs.Receipts.{AreReceipts};
ghost use Rattle.incomplete_closure.specs.Tables.{IsTableOf};
ghost use Rattle.incomplete_closure.specs.Sizes.{carried_by, items_in, carried_in, held_in, entries_of, sessions_of, carried_of};

use crate::receipts::Receipts;
use crate::reports::received_of;
use crate::session_table::SessionTable;
use crate::steps::Steps;
use crate::{Report, Row, SessionRow};
use std::alloc::Global;
use std::rc::Rc;
use std::sync::ledger::Ledger;
use topology::{NoMemory, NodeId, Pending, SentRef, Trigger};

/// A trigger that an item lists which its receiver has not received, or that a held-back update lists. `down` is the
/// trigger of the receiver's `Down` of that session, if there is one.
#[derive(Clone, Copy, Debug)]
pub(crate) struct OpenTrigger {
    pub(crate) trigger: Trigger,
    pub(crate) down: Option<Trigger>,
}

// The trigger of the `Down` in the row, if there is one.
fn down_of(row: &Option<SessionRow>) -> Option<Trigger>
    ensures { result ≡ down_of row.now }
{
    match row {
        Some(row) => row.down,
        None => None,
    }
}

// Adds each trigger at the end.
fn push_all<L: Ledger>(
    opened: &mut Vec<OpenTrigger>,
    triggers: &[Trigger],
    down: &Option<Trigger>,
    steps: &mut Steps<L>,
) -> Result<(), NoMemory>
    ensures opened { OnOk result (opened.new.items ≡ opened.old.items ++ map (with_down down.now) triggers.now) }
    ensures most { steps.new ≤ steps.old + length triggers.now }
    ensures least { steps.old ≤ steps.new }
{
    for trigger in triggers {
        steps.take();
        opened.push(OpenTrigger {
            trigger: *trigger,
            down: *down,
        })?;
    }
    Ok(())
}

// Adds the triggers of the item at the end, if the receiver's row shows that it has not received the item.
fn push_open<L: Ledger>(
    opened: &mut Vec<OpenTrigger>,
    row: &Option<SessionRow>,
    item: &SentRef<'_>,
    steps: &mut Steps<L>,
) -> Result<(), NoMemory>
    ensures opened { OnOk result (opened.new.items ≡ opened.old.items ++ if_open row.now item.now) }
    ensures most { steps.new ≤ steps.old + length item.now.triggers }
    ensures least { steps.old ≤ steps.new }
{
    if received_of(row) < item.seq {
        return push_all(opened, item.triggers, &down_of(row), steps);
    }
    Ok(())
}

// As `push_open`, for an item of node `from`, if its receiver has a report. Few items come here.
#[inline(never)]
fn gather_listed<L: Ledger>(
    opened: &mut Vec<OpenTrigger>,
    table: &SessionTable,
    from: NodeId,
    item: SentRef<'_>,
    steps: &mut Steps<L>,
) -> Result<(), NoMemory>
    ensures opened { OnOk result ((reports : List AnyReport) → IsTableOf reports table.now →
        opened.new.items ≡ opened.old.items ++ open_at (of_node reports item.entry.to) from item.entry) }
    ensures most { steps.new ≤ steps.old + length item.entry.triggers }
    ensures least { steps.old ≤ steps.new }
{
    if !table.has_node(item.to) {
        return Ok(());
    }
    push_open(
        opened,
        &table.row(item.to, from, item.session),
        &item,
        steps,
    )
}

// The open triggers of an item of node `from`. The table is asked only where no receipt settles the item.
#[inline(always)]
fn gather_item<L: Ledger>(
    opened: &mut Vec<OpenTrigger>,
    table: &SessionTable,
    receipts: &Receipts,
    from: NodeId,
    item: SentRef<'_>,
    steps: &mut Steps<L>,
) -> Result<(), NoMemory>
    ensures opened { OnOk result ((reports : List AnyReport) → IsTableOf reports table.now → AreReceipts table.now from receipts.now →
        opened.new.items ≡ opened.old.items ++ open_at (of_node reports item.entry.to) from item.entry) }
    ensures most { steps.new ≤ steps.old + length item.entry.triggers }
    ensures least { steps.old ≤ steps.new }
{
    if receipts.is_settled(&item) {
        return Ok(());
    }
    gather_listed(opened, table, from, item, steps)
}

// The open triggers of a row.
fn gather_row<L: Ledger>(
    opened: &mut Vec<OpenTrigger>,
    table: &SessionTable,
    receipts: &Receipts,
    from: NodeId,
    row: &Row,
    steps: &mut Steps<L>,
) -> Result<(), NoMemory>
    ensures opened { OnOk result ((reports : List AnyReport) → IsTableOf reports table.now → AreReceipts table.now from receipts.now →
        opened.new.items ≡ opened.old.items ++ open_in_row reports from row.now) }
    ensures most { steps.new ≤ steps.old + (length row.now.sent + carried_by row.now.sent) }
    ensures least { OnOk result (steps.old + length row.now.sent ≤ steps.new) }
{
    if row.sent.is_none() {
        return Ok(());
    }
    for place in 0..row.sent.len() {
        steps.take();
        let item = row.sent.at(place).unwrap();
        gather_item(opened, table, receipts, from, item, steps)?;
    }
    Ok(())
}

// The open triggers of rows. This loop takes most of the time of a closure, so it is compiled by itself.
#[inline(never)]
fn gather_rows<L: Ledger>(
    opened: &mut Vec<OpenTrigger>,
    table: &SessionTable,
    receipts: &Receipts,
    from: NodeId,
    rows: &[Row],
    steps: &mut Steps<L>,
) -> Result<(), NoMemory>
    ensures opened { OnOk result ((reports : List AnyReport) → IsTableOf reports table.now → AreReceipts table.now from receipts.now →
        opened.new.items ≡ opened.old.items ++ open_in_rows reports from rows.now) }
    ensures most { steps.new ≤ steps.old + (length rows.now + items_in rows.now + carried_in rows.now) }
    ensures least { OnOk result (steps.old + (length rows.now + items_in rows.now) ≤ steps.new) }
{
    for row in rows {
        steps.take();
        gather_row(opened, table, receipts, from, row, steps)?;
    }
    Ok(())
}

// The open triggers of an update that node `from` holds back, if its receiver has a report.
fn gather_pending<L: Ledger>(
    opened: &mut Vec<OpenTrigger>,
    table: &SessionTable,
    from: NodeId,
    row: &Pending,
    steps: &mut Steps<L>,
) -> Result<(), NoMemory>
    ensures opened { OnOk result ((reports : List AnyReport) → IsTableOf reports table.now →
        opened.new.items ≡ opened.old.items ++ waiting_at (of_node reports row.now.to) from row.now) }
    ensures most { steps.new ≤ steps.old + length row.now.triggers }
    ensures least { steps.old ≤ steps.new }
{
    if !table.has_node(row.to) {
        return Ok(());
    }
    push_all(
        opened,
        row.triggers.as_slice(),
        &down_of(&table.row(row.to, from, row.session)),
        steps,
    )
}

// The open triggers of all that the node holds back.
fn gather_waiting<L: Ledger>(
    opened: &mut Vec<OpenTrigger>,
    table: &SessionTable,
    from: NodeId,
    rows: &[Pending],
    steps: &mut Steps<L>,
) -> Result<(), NoMemory>
    ensures opened { OnOk result ((reports : List AnyReport) → IsTableOf reports table.now →
        opened.new.items ≡ opened.old.items ++ waiting_in reports from rows.now) }
    ensures most { steps.new ≤ steps.old + (length rows.now + held_in rows.now) }
    ensures least { OnOk result (steps.old + length rows.now ≤ steps.new) }
{
    for row in rows {
        steps.take();
        gather_pending(opened, table, from, row, steps)?;
    }
    Ok(())
}

// The open triggers of a report. One look-up for each of its sessions serves all its items.
fn gather_report<L: Ledger>(
    alloc: Global,
    opened: &mut Vec<OpenTrigger>,
    table: &SessionTable,
    report: &Report,
    steps: &mut Steps<L>,
) -> Result<(), NoMemory>
    ensures opened { OnOk result ((reports : List AnyReport) → IsTableOf reports table.now →
        opened.new.items ≡ opened.old.items ++ open_in_report reports report.now) }
    ensures most { steps.new ≤ steps.old + (length report.now.sessions
        + ((length report.now.rows + items_in report.now.rows + length report.now.pending)
        + (carried_in report.now.rows + held_in report.now.pending))) }
    ensures least { OnOk result (steps.old
        + (length report.now.rows + items_in report.now.rows + length report.now.pending) ≤ steps.new) }
{
    let receipts = Receipts::of(alloc, table, report, steps)?;
    gather_rows(
        opened,
        table,
        &receipts,
        report.node,
        report.rows.as_slice(),
        steps,
    )?;
    gather_waiting(opened, table, report.node, report.pending.as_slice(), steps)
}

/// The triggers that are open between the reports.
pub(crate) fn open_triggers<L: Ledger>(
    alloc: Global,
    reports: &[Rc<Report>],
    steps: &mut Steps<L>,
) -> Result<Vec<OpenTrigger>, NoMemory>
    ensures opened { IfOk result (λ opened. opened.items ≡ open_triggers (map rc_value reports.now)) }
    ensures most { steps.new ≤ steps.old + (2 * sessions_of (map rc_value reports.now)
        + (entries_of (map rc_value reports.now) + carried_of (map rc_value reports.now))) }
    ensures least { OnOk result (steps.old + entries_of (map rc_value reports.now) ≤ steps.new) }
{
    let table = SessionTable::of(alloc, reports, steps)?;
    let mut opened = Vec::new(alloc);
    for report in reports {
        gather_report(alloc, &mut opened, &table, report, steps)?;
    }
    Ok(opened)
}
