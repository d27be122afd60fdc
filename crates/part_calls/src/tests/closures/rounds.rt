//! Finds the incomplete triggers in rounds over all items, rows and pending rows, until a round adds none. It does not
//! use the graph.

use incomplete_closure::{Report, Row, SessionRow, missing};
use std::alloc::Global;
use std::collections::BTreeSet;
use std::rc::Rc;
use std::test::Fail;
use topology::{NodeId, Scope, Sent, SentRef, Session, Trigger, Triggers};

type Marks = BTreeSet<Trigger>;

// The row of the session with the neighbour. If rows repeat, the first counts.
fn session_of(report: &Report, nbr: NodeId, session: Session) -> Option<SessionRow> {
    for row in report.sessions.as_slice() {
        if row.nbr == nbr && row.session == session {
            return Some(*row);
        }
    }
    None
}

// Whether the session has no `Down`, or one with a marked trigger.
fn is_due(marks: &Marks, row: Option<SessionRow>) -> bool {
    let Some(row) = row else {
        return true;
    };
    let down: Option<Trigger> = row.down;
    match down {
        Some(down) => marks.contains(&down),
        None => true,
    }
}

fn mark_all(marks: &mut Marks, triggers: &[Trigger]) -> Result<(), Fail> {
    for trigger in triggers {
        marks.insert(*trigger)?;
    }
    Ok(())
}

// Marks the triggers of an item that the other report misses, if they are due.
fn mark_item(
    marks: &mut Marks,
    from: &Report,
    to: &Report,
    item: &SentRef<'_>,
) -> Result<(), Fail> {
    let sent = Sent {
        to: item.to,
        session: item.session,
        seq: item.seq,
        triggers: Triggers::none(),
    };
    if missing(from, to, &sent) && is_due(marks, session_of(to, from.node, item.session)) {
        mark_all(marks, item.triggers)?;
    }
    Ok(())
}

fn mark_items_of(marks: &mut Marks, from: &Report, to: &Report, row: &Row) -> Result<(), Fail> {
    for place in 0..row.sent.len() {
        if let Some(item) = row.sent.at(place) {
            mark_item(marks, from, to, &item)?;
        }
    }
    Ok(())
}

// Marks the triggers of updates that are held back from the other node, if they are due.
fn mark_pending(marks: &mut Marks, from: &Report, to: &Report) -> Result<(), Fail> {
    for row in from.pending.as_slice() {
        if row.to == to.node && is_due(marks, session_of(to, from.node, row.session)) {
            mark_all(marks, row.triggers.as_slice())?;
        }
    }
    Ok(())
}

fn mark_items(marks: &mut Marks, from: &Report, to: &Report) -> Result<(), Fail> {
    for row in from.rows.as_slice() {
        mark_items_of(marks, from, to, row)?;
    }
    mark_pending(marks, from, to)
}

fn mark_all_items(marks: &mut Marks, from: &Report, reports: &[Rc<Report>]) -> Result<(), Fail> {
    for to in reports {
        mark_items(marks, from, to)?;
    }
    Ok(())
}

fn shares(a: &Scope, b: &Scope) -> bool {
    match a {
        Scope::All => *b != Scope::Nothing,
        Scope::One(p) => match b {
            Scope::All => true,
            Scope::One(q) => *p == *q,
            Scope::Nothing => false,
        },
        Scope::Nothing => false,
    }
}

// Whether one of the triggers of the row is marked.
fn is_marked(marks: &Marks, row: &Row) -> bool {
    for trigger in row.triggers.as_slice() {
        if marks.contains(trigger) {
            return true;
        }
    }
    false
}

// Marks all triggers of a marked row, and those of later rows that share a prefix with it.
fn mark_rows(marks: &mut Marks, report: &Report) -> Result<(), Fail> {
    let rows = report.rows.as_slice();
    for place in 0..rows.len() {
        if is_marked(marks, &rows[place]) {
            mark_all(marks, rows[place].triggers.as_slice())?;
            for later in (place + 1)..rows.len() {
                if shares(&rows[place].scope, &rows[later].scope) {
                    mark_all(marks, rows[later].triggers.as_slice())?;
                }
            }
        }
    }
    Ok(())
}

fn mark_round(marks: &mut Marks, reports: &[Rc<Report>]) -> Result<(), Fail> {
    for from in reports {
        mark_all_items(marks, from, reports)?;
        mark_rows(marks, from)?;
    }
    Ok(())
}

// How many triggers rows, items and pending rows list.
fn count_listed(reports: &[Rc<Report>]) -> usize {
    let mut count: usize = 0;
    for report in reports {
        for row in report.rows.as_slice() {
            count = count.saturating_add(row.triggers.len());
            count = count.saturating_add(row.sent.marks().unwrap_or(usize::MAX));
        }
        for row in report.pending.as_slice() {
            count = count.saturating_add(row.triggers.len());
        }
    }
    count
}

/// The incomplete triggers of the reports, ascending. Each round except the last marks a trigger that is listed.
pub(super) fn rounds(alloc: Global, reports: &[Rc<Report>]) -> Result<Vec<Trigger>, Fail> {
    let mut marks = BTreeSet::new(alloc);
    for _round in 0..count_listed(reports).saturating_add(1) {
        let before = marks.len();
        mark_round(&mut marks, reports)?;
        if marks.len() == before {
            break;
        }
    }
    Ok(marks.iter().copied().collect(alloc)?)
}
