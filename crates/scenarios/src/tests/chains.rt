//! A chain of triggers through many reports. A closure that went over all rows in rounds would follow one link in each
//! round.
ghost use Rattle.std.specs.Prelude.{◌≡◌, map, IfOk};
ghost use Rattle.std.specs.Rc.{rc_value};
ghost use Rattle.incomplete_closure.specs.Together.{OfOneEpoch};

use incomplete_closure::{PendingRows, Report, Row, Rows, SessionRows, uncounted_closure};
use std::alloc::Global;
use std::rc::Rc;
use std::test::Fail;
use topology::{Epoch, NodeId, PrefixId, Scope, Sent, SentItems, Session, Trigger, Triggers};

// How many reports there are, of the nodes from 1 on.
const REPORTS: u16 = 64;

// How many links of the chain each report has.
const LINKS: u32 = 256;

// How many rows come before them, with a trigger that nothing blocks.
const ROWS_BEFORE: u32 = 1_536;

fn trigger(node: u16, count: u32) -> Trigger {
    Trigger {
        node: NodeId::new(node),
        count,
    }
}

// The items of the row with which a link begins. The first link has one, which nobody received.
fn items(alloc: Global, link: u32) -> Result<SentItems, Fail> {
    if link != 1 {
        return Ok(SentItems::none());
    }
    let item = Sent {
        to: NodeId::new(1),
        session: Session::new(1),
        seq: 1,
        triggers: Triggers::one(trigger(1, link)),
    };
    Ok(SentItems::of(alloc, &[item])?)
}

fn row(trigger: Trigger, prefix: u16, sent: SentItems) -> Row {
    Row {
        triggers: Triggers::one(trigger),
        scope: Scope::One(PrefixId::new(prefix)),
        sent,
    }
}

// A link leads from a trigger of node 1 to the next one, by two rows of one prefix. No other link of the report has
// that prefix.
// report is of that prefix.
fn push_link(alloc: Global, rows: &mut Vec<Row>, link: u32) -> Result<(), Fail> {
    let prefix = (link.saturating_sub(1) % LINKS) as u16;
    let sent = items(alloc, link)?;
    rows.push(row(trigger(1, link), prefix, sent))?;
    let behind = trigger(1, link.saturating_add(1));
    rows.push(row(behind, prefix, SentItems::none()))?;
    Ok(())
}

// The rows before the links, and the links up to this one, the last first.
fn rows(alloc: Global, last: u32) -> Result<Rows, Fail> {
    let mut rows = Vec::new(alloc);
    for _place in 0..ROWS_BEFORE {
        rows.push(row(trigger(2, 1), 0, SentItems::none()))?;
    }
    for before in 0..LINKS {
        push_link(alloc, &mut rows, last.saturating_sub(before))?;
    }
    Ok(Rows::new(rows))
}

// The chain begins in the report of the last node, and ends in that of node 1.
fn report(alloc: Global, node: u16) -> Result<Report, Fail>
    ensures node { IfOk result (λ report. report.node ≡ node) }
    ensures epoch { IfOk result (λ report. report.epoch ≡ 1) }
{
    let last = LINKS * u32::from(REPORTS.saturating_sub(node).saturating_add(1));
    Ok(Report {
        node: NodeId::new(node),
        epoch: Epoch::new(1),
        rows: rows(alloc, last)?,
        sessions: SessionRows::new(Vec::new(alloc)),
        pending: PendingRows::new(Vec::new(alloc)),
    })
}

fn reports(alloc: Global) -> Result<Vec<Rc<Report>>, Fail>
    ensures { IfOk result (λ reports. OfOneEpoch (map rc_value reports.items)) }
{
    let mut reports = Vec::new(alloc);
    for before in 0..REPORTS {
        reports.push(Rc::new(alloc, report(alloc, before + 1)?)?)?;
    }
    Ok(reports)
}

fn all_nodes(alloc: Global) -> Result<Vec<NodeId>, Fail> {
    let mut nodes = Vec::new(alloc);
    for before in 0..REPORTS {
        nodes.push(NodeId::new(before + 1))?;
    }
    Ok(nodes)
}

// The triggers of node 1: 64 times 256 links connect one more trigger than that.
fn whole_chain(alloc: Global) -> Result<Vec<Trigger>, Fail> {
    let mut triggers = Vec::new(alloc);
    for before in 0..16_385 {
        triggers.push(trigger(1, before + 1))?;
    }
    Ok(triggers)
}

#[test]
fn a_long_chain(rt: HostRuntime) -> Result<(), Fail> {
    let alloc = rt.alloc();
    let reports = reports(alloc)?;
    let value = uncounted_closure(alloc, &reports)?;
    let (nodes, triggers) = (all_nodes(alloc)?, whole_chain(alloc)?);
    assert_eq!(rt; value.responding.as_slice(), nodes.as_slice());
    // a list of all triggers would be too long for a trigger list
    let incomplete = value.incomplete.as_slice();
    assert_eq!(rt; incomplete.len(), triggers.len());
    assert!(rt; incomplete == triggers.as_slice());
    Ok(())
}
