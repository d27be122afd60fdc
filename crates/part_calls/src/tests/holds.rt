//! Calls of `trigger_log` and `epoch_report`: what a node holds back, and how a flush and a close change it.
use super::entering::{appended, flushed, log_of};
use super::making::{network, trigger};
use epoch_report::report_of;
use path_vector::{Cause, ShortestAll};
use std::alloc::Global;
use std::process::Abort;
use std::test::Fail;
use topology::{
    Epoch, Item, NodeId, Pending, PrefixId, Relation, Scope, SentItems, Session, Topology, Trigger,
    Triggers,
};
use trigger_log::{NodeLog, Outgoing};

type Log = Box<NodeLog<ShortestAll>>;

fn first() -> NodeId {
    NodeId::new(1)
}

// Node 2 holds back from node 1, but not from node 3.
fn line(alloc: Global) -> Result<Box<Topology>, Fail> {
    let links = [(2, 1, Relation::Any), (2, 3, Relation::Any)];
    let mut net = network(alloc, &[1, 2, 3], &links, 2)?;
    net.add_hold(NodeId::new(2), first())?;
    Ok(net)
}

// Node 2 starts or stops announcing a prefix.
fn turn(alloc: Global, net: &Topology, log: Log, prefix: u16, begins: bool) -> Result<Log, Fail> {
    let cause = if begins {
        Cause::Originate
    } else {
        Cause::Withdraw
    };
    let next = log.next_trigger();
    let scope = Scope::One(PrefixId::new(prefix));
    let (log, outgoing) = appended(alloc, net, log, next, scope, cause)?;
    if outgoing.len() != 1 {
        return Err(Fail::from("node 3 alone is told at once"));
    }
    Ok(log)
}

// It announces the second prefix, then the first one, which it withdraws again: triggers 2.1, 2.2 and 2.3.
fn three_changes(alloc: Global, net: &Topology) -> Result<Log, Fail> {
    let log = log_of(alloc, net, 2, ShortestAll)?;
    let log = turn(alloc, net, log, 1, true)?;
    let log = turn(alloc, net, log, 0, true)?;
    turn(alloc, net, log, 0, false)
}

fn is_held(rt: &impl Abort, row: &Pending, prefix: u16, triggers: &[Trigger]) {
    assert!(rt; row.to == first());
    assert!(rt; row.prefix == PrefixId::new(prefix));
    assert!(rt; row.session == Session::new(1));
    assert!(rt; row.triggers.as_slice() == triggers);
}

// The rows by prefix in file order, in a log and in a report of it.
fn are_held(rt: &impl Abort, rows: &[Pending]) {
    assert!(rt; rows.len() == 2);
    is_held(rt, &rows[0], 0, &[trigger(2, 2), trigger(2, 3)]);
    is_held(rt, &rows[1], 1, &[trigger(2, 1)]);
}

fn is_told(rt: &impl Abort, told: &Outgoing, place: (u16, u32), list: &[Trigger], is_path: bool) {
    assert!(rt; told.to == first());
    match &told.item {
        Item::Update {
            prefix,
            seq,
            triggers,
            path,
        } => {
            assert!(rt; (prefix.place(), *seq) == place);
            assert!(rt; triggers.as_slice() == list);
            assert!(rt; path.is_some() == is_path);
        }
        _ => assert!(rt; false),
    }
}

// The newest entry lists no trigger, and this many items.
fn lists_nothing(rt: &impl Abort, log: &Log, items: usize) {
    match log.entry(log.len()) {
        None => assert!(rt; false),
        Some(entry) => {
            assert!(rt; entry.triggers.is_empty());
            assert!(rt; entry.scope == Scope::Nothing);
            assert!(rt; entry.sent.len() == items);
        }
    }
}

// A flush fits only once. It withdraws the first prefix, which was never told, and then tells the second one.
fn flushes(rt: &impl Abort, alloc: Global, net: &Topology, log: Log) -> Result<(), Fail> {
    let flush = Cause::Flush { nbr: first() };
    assert!(rt; log.fits(Scope::Nothing, &flush));
    assert!(rt; !log.fits(Scope::All, &flush));
    let next = log.next_trigger();
    let (log, told) = flushed(alloc, net, log, first())?;
    assert!(rt; told.len() == 2);
    is_told(rt, &told[0], (0, 1), &[trigger(2, 2), trigger(2, 3)], false);
    is_told(rt, &told[1], (1, 2), &[trigger(2, 1)], true);
    lists_nothing(rt, &log, 2);
    assert!(rt; log.pending().is_empty());
    assert!(rt; log.next_trigger() == next);
    assert!(rt; !log.fits(Scope::Nothing, &flush));
    Ok(())
}

// The first item lists all of these.
fn lists_all(rt: &impl Abort, sent: &SentItems, all: &[Trigger]) {
    match sent.at(0) {
        None => assert!(rt; false),
        Some(item) => assert!(rt; item.triggers == all),
    }
}

// A close lists its own trigger, and those of all updates that were held back.
fn closes(rt: &impl Abort, alloc: Global, net: &Topology, log: Log) -> Result<(), Fail> {
    let session = Session::new(1);
    let cause = Cause::Down {
        nbr: first(),
        session,
    };
    let next = log.next_trigger();
    let (log, told) = appended(alloc, net, log, next, Scope::All, cause)?;
    assert!(rt; told.is_empty());
    assert!(rt; log.pending().is_empty());
    match log.entry(log.len()) {
        None => assert!(rt; false),
        Some(entry) => {
            let all = Triggers::new(counted(alloc)?)?.ok_or("triggers that ascend")?;
            assert!(rt; entry.sent.len() == 1);
            lists_all(rt, &entry.sent, all.as_slice());
        }
    }
    Ok(())
}

// The triggers 2.1 to 2.4.
fn counted(alloc: Global) -> Result<Vec<Trigger>, Fail> {
    let mut list = Vec::new(alloc);
    for count in 1..5 {
        list.push(trigger(2, count))?;
    }
    Ok(list)
}

#[test]
fn a_flush_tells_what_was_held_back(rt: HostRuntime) -> Result<(), Fail> {
    let net = line(rt.alloc())?;
    let log = three_changes(rt.alloc(), &net)?;
    are_held(&rt, log.pending());
    flushes(&rt, rt.alloc(), &net, log)
}

#[test]
fn a_report_tells_what_is_held_back(rt: HostRuntime) -> Result<(), Fail> {
    let net = line(rt.alloc())?;
    let log = three_changes(rt.alloc(), &net)?;
    let report = report_of(rt.alloc(), &log, Epoch::new(1))?;
    are_held(&rt, report.pending.as_slice());
    Ok(())
}

#[test]
fn a_close_has_what_was_held_back(rt: HostRuntime) -> Result<(), Fail> {
    let net = line(rt.alloc())?;
    let log = three_changes(rt.alloc(), &net)?;
    closes(&rt, rt.alloc(), &net, log)
}
