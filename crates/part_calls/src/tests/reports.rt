//! Calls of `epoch_report`: what a node reports of its cut.
use super::entering::{appended, log_of};
use super::making::{Items, are_items, is_alone, network, path_of, trigger};
use epoch_report::report_of;
use incomplete_closure::{Report, Row, SessionRow};
use path_vector::{Cause, ShortestAll};
use std::alloc::Global;
use std::process::Abort;
use std::test::Fail;
use topology::{Epoch, NodeId, PrefixId, Relation, Scope, Session, Topology};
use trigger_log::NodeLog;

// The trigger, whether the row concerns one prefix, and the items of each row. Node 2 starts to originate the prefix
// and tells both neighbours; its session with 1 ends, with a close, and is opened again; then it hears from 3, which
// changes nothing. By hand.
const ROWS: [(u16, u32, bool, Items); 4] = [
    (2, 1, true, &[(1, 1, 1), (3, 1, 1)]),
    (2, 2, false, &[(1, 1, 2)]),
    (2, 3, false, &[]),
    (3, 7, true, &[]),
];

// Neighbour, session, the number of updates received, and the counter of the trigger of its end, or 0.
const SESSIONS: [(u16, u32, u32, u32); 3] = [(1, 1, 0, 2), (1, 2, 0, 0), (3, 1, 1, 0)];

fn line(alloc: Global) -> Result<Box<Topology>, Fail> {
    let links = [(2, 1, Relation::Any), (2, 3, Relation::Any)];
    network(alloc, &[1, 2, 3], &links, 1)
}

// The update of the fourth row.
fn update(alloc: Global) -> Result<Cause, Fail> {
    Ok(Cause::Recv {
        from: NodeId::new(3),
        session: Session::new(1),
        seq: 1,
        path: path_of(alloc, &[3])?,
    })
}

fn cause_of(alloc: Global, place: usize) -> Result<Cause, Fail> {
    let nbr = NodeId::new(1);
    match place {
        0 => Ok(Cause::Originate),
        1 => Ok(Cause::Down {
            nbr,
            session: Session::new(1),
        }),
        2 => Ok(Cause::Up {
            nbr,
            session: Session::new(2),
        }),
        _ => update(alloc),
    }
}

fn scope(one: bool) -> Scope {
    if one {
        Scope::One(PrefixId::new(0))
    } else {
        Scope::All
    }
}

type Log = Box<NodeLog<ShortestAll>>;

// Enters the row at this place.
fn enter(
    alloc: Global,
    net: &Topology,
    log: Log,
    (node, count, one, _): (u16, u32, bool, Items),
    place: usize,
) -> Result<Log, Fail> {
    let cause = cause_of(alloc, place)?;
    let (log, _) = appended(alloc, net, log, trigger(node, count), scope(one), cause)?;
    Ok(log)
}

fn play(alloc: Global, net: &Topology, start: Log) -> Result<Log, Fail> {
    let log = enter(alloc, net, start, ROWS[0], 0)?;
    let log = enter(alloc, net, log, ROWS[1], 1)?;
    let log = enter(alloc, net, log, ROWS[2], 2)?;
    enter(alloc, net, log, ROWS[3], 3)
}

fn shows_row(rt: &impl Abort, row: &Row, (node, count, one, items): (u16, u32, bool, Items)) {
    let own = trigger(node, count);
    is_alone(rt, row.triggers.as_slice(), &own);
    assert!(rt; row.scope == scope(one));
    are_items(rt, &row.sent, items, &own);
}

fn shows_session(
    rt: &impl Abort,
    row: &SessionRow,
    (nbr, session, received, down): (u16, u32, u32, u32),
) {
    assert!(rt; row.nbr == NodeId::new(nbr));
    assert!(rt; row.session == Session::new(session));
    assert!(rt; row.received == received);
    match row.down {
        None => assert!(rt; down == 0),
        Some(end) => assert!(rt; end == trigger(2, down)),
    }
}

fn shows(rt: &impl Abort, report: &Report) {
    assert!(rt; report.node == NodeId::new(2));
    assert!(rt; report.epoch == Epoch::new(5));
    let rows = report.rows.as_slice();
    assert!(rt; rows.len() == 4);
    for place in 0..4 {
        shows_row(rt, &rows[place], ROWS[place]);
    }
    let sessions = report.sessions.as_slice();
    assert!(rt; sessions.len() == 3);
    for place in 0..3 {
        shows_session(rt, &sessions[place], SESSIONS[place]);
    }
    assert!(rt; report.pending.as_slice().is_empty());
}

// The report of node 2.
fn report(alloc: Global, net: &Topology) -> Result<Report, Fail> {
    let log = log_of(alloc, net, 2, ShortestAll)?;
    let log = play(alloc, net, log)?;
    Ok(report_of(alloc, &log, Epoch::new(5))?)
}

#[test]
fn a_report_tells_entries_and_sessions(rt: HostRuntime) -> Result<(), Fail> {
    let net = line(rt.alloc())?;
    let report = report(rt.alloc(), &net)?;
    shows(&rt, &report);
    Ok(())
}
