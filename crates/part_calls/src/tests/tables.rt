//! Calls of `stable_table`: the tables of epochs, and the two that a node keeps.
use super::entering::{appended, log_of, shorter};
use super::making::{STAR, network, node, nodes_in, number, split, trigger};
use incomplete_closure::{RespondingNodes, Value};
use path_vector::{Cause, ShortestAll};
use stable_table::{Table, TwoTables, droppable_before, table_of};
use std::alloc::Global;
use std::process::Abort;
use std::rc::Rc;
use std::test::Fail;
use topology::{Epoch, NodeId, Path, PrefixId, Scope, Session, Topology, Triggers};
use trigger_log::NodeLog;

mod after_earlier;

// How many entries the cut has, the nodes that responded, and the counter of the incomplete trigger of node 9, or 0;
// then what the table has: the path of the first prefix, its backups one after another, and the path of the second
// prefix, which node 2 originates after all updates. In turn: two updates; four updates; without the fourth; node 4 did
// not respond, so there is no path, but the other candidates are backups; after the withdrawal, with the own prefix;
// node 2 did not respond. By hand: fewer nodes are better, then the lower neighbour.
const CASES: &str = "2 1,2,3,4,9 0 2,1,9 2,1,9,2,3,9 -
4 1,2,3,4,9 0 2,3 2,3,2,4,2,1,9 -
4 1,2,3,4,9 4 2,4 2,4,2,1,9,2,3,9 -
4 1,2,3,9 4 - 2,1,9,2,3,9 -
6 1,2,3,4,9 4 2,4 2,4,2,3,9 2
6 1,3,4,9 4 - - -";

// The same for a log that has dropped its first three entries. The second entry counts as complete, although its
// trigger is not; so does the whole log.
const DROPPED: &str = "4 1,2,3,4,9 2 2,3 2,3,2,4,2,1,9 -
4 1,2,3,4,9 4 2,4 2,4,2,1,9,2,3,9 -
6 1,2,3,4,9 0 2,3 2,3,2,4 2";

// The tables that node 2 publishes in turn: the epoch, the entries of the cut and the counter as above; then the newest
// epoch so far if the table is refused, the newest epoch now, and for the epochs 1 to 6 the next node for the first
// prefix, if there is a table. The second prefix has no next node: only the last table has a path for it, which ends
// where it begins.
const PUBLISHED: &str = "2 2 0: - 2 -1----
5 4 0: - 5 -1--3-
4 4 4: 5 5 -1--3-
5 2 0: 5 5 -1--3-
6 6 4: - 6 ----34";

fn update(alloc: Global, from: &str, seq: &str, path: &str) -> Result<Cause, Fail> {
    Ok(Cause::Recv {
        from: node(from)?,
        session: Session::new(1),
        seq: number(seq)?,
        path: Path::new(nodes_in(alloc, path)?)?,
    })
}

type Log = Box<NodeLog<ShortestAll>>;

// Node 2 receives an update of the first prefix: the neighbour, the number, the path (none for a withdrawal), and the
// counter of the trigger, which is one of node 9.
fn hear(alloc: Global, net: &Topology, log: Log, line: &str) -> Result<Log, Fail> {
    let (from, rest) = split(line, ' ')?;
    let (seq, rest) = split(rest, ' ')?;
    let (path, count) = split(rest, ' ')?;
    let cause = update(alloc, from, seq, path)?;
    let scope = Scope::One(PrefixId::new(0));
    let (log, _) = appended(alloc, net, log, trigger(9, number(count)?), scope, cause)?;
    Ok(log)
}

fn play(alloc: Global, net: &Topology, start: Log) -> Result<Log, Fail> {
    let log = hear(alloc, net, start, "1 1 1,9 1")?;
    let log = hear(alloc, net, log, "3 1 3,9 2")?;
    let log = hear(alloc, net, log, "4 1 4 3")?;
    let log = hear(alloc, net, log, "3 2 3 4")?;
    hear(alloc, net, log, "1 2 - 5")
}

fn begin(alloc: Global, net: &Topology, log: Log) -> Result<Log, Fail> {
    let next = log.next_trigger();
    let scope = Scope::One(PrefixId::new(1));
    let (log, _) = appended(alloc, net, log, next, scope, Cause::Originate)?;
    Ok(log)
}

fn value(alloc: Global, responding: &str, incomplete: &str) -> Result<Value, Fail> {
    let count = number(incomplete)?;
    let incomplete = if count > 0 {
        Triggers::one(trigger(9, count))
    } else {
        Triggers::none()
    };
    Ok(Value {
        responding: RespondingNodes::new(nodes_in(alloc, responding)?),
        incomplete,
    })
}

fn has_path(
    rt: &impl Abort,
    alloc: Global,
    table: &Table,
    prefix: u16,
    path: &str,
) -> Result<(), Fail> {
    let wanted = nodes_in(alloc, path)?;
    match table.path(PrefixId::new(prefix)) {
        None => assert!(rt; wanted.is_empty()),
        Some(nodes) => assert!(rt; nodes == wanted.as_slice()),
    }
    Ok(())
}

fn has_backups(rt: &impl Abort, alloc: Global, table: &Table, backups: &str) -> Result<(), Fail> {
    let mut nodes = Vec::new(alloc);
    for path in table.backups(PrefixId::new(0)) {
        nodes.extend_from_slice(path.nodes())?;
    }
    let wanted = nodes_in(alloc, backups)?;
    assert!(rt; nodes.as_slice() == wanted.as_slice());
    Ok(())
}

// Checks the path of the first prefix, its backups, and the path of the second one.
fn has(rt: &impl Abort, alloc: Global, table: &Table, wanted: &str) -> Result<(), Fail> {
    let (path, rest) = split(wanted, ' ')?;
    let (backups, own) = split(rest, ' ')?;
    assert!(rt; table.epoch() == Epoch::new(3));
    has_path(rt, alloc, table, 0, path)?;
    has_backups(rt, alloc, table, backups)?;
    has_path(rt, alloc, table, 1, own)?;
    has_path(rt, alloc, table, 2, "-")
}

fn is_by(rt: &impl Abort, table: &Table, agreed: &Value) {
    let by = table.value();
    assert!(rt; by.responding.as_slice() == agreed.responding.as_slice());
    assert!(rt; by.incomplete.as_slice() == agreed.incomplete.as_slice());
}

// The table of an epoch over a cut, by this value.
fn made(
    alloc: Global,
    net: &Topology,
    log: &NodeLog<ShortestAll>,
    cut: &str,
    epoch: u32,
    agreed: &Value,
) -> Result<Rc<Table>, Fail> {
    let cut = number(cut)?;
    let table = table_of(alloc, net, log, cut, Epoch::new(epoch), agreed)?;
    Ok(Rc::new(alloc, table)?)
}

fn shows(
    rt: &impl Abort,
    alloc: Global,
    net: &Topology,
    log: &NodeLog<ShortestAll>,
    line: &str,
) -> Result<(), Fail> {
    let (cut, rest) = split(line, ' ')?;
    let (responding, rest) = split(rest, ' ')?;
    let (incomplete, wanted) = split(rest, ' ')?;
    let agreed = value(alloc, responding, incomplete)?;
    let table = made(alloc, net, log, cut, 3, &agreed)?;
    is_by(rt, &table, &agreed);
    has(rt, alloc, &table, wanted)
}

fn show_all(
    rt: &impl Abort,
    alloc: Global,
    net: &Topology,
    log: &NodeLog<ShortestAll>,
) -> Result<(), Fail> {
    for line in CASES.lines() {
        shows(rt, alloc, net, log, line)?;
    }
    Ok(())
}

// The place before which entries may be dropped, if the cut is the whole log. The first incomplete entry ends them, and
// none may be dropped if a node did not respond.
fn place(
    alloc: Global,
    net: &Topology,
    log: &NodeLog<ShortestAll>,
    responding: &str,
) -> Result<u32, Fail> {
    let agreed = value(alloc, responding, "4")?;
    Ok(droppable_before(alloc, net, log, log.len(), &agreed)?)
}

fn are_places(
    rt: &impl Abort,
    alloc: Global,
    net: &Topology,
    log: &NodeLog<ShortestAll>,
) -> Result<(), Fail> {
    assert!(rt; place(alloc, net, log, "1,2,3,9")? == 1);
    assert!(rt; place(alloc, net, log, "1,2,3,4,9")? == 4);
    Ok(())
}

fn show_dropped(
    rt: &impl Abort,
    alloc: Global,
    net: &Topology,
    log: &NodeLog<ShortestAll>,
) -> Result<(), Fail> {
    for line in DROPPED.lines() {
        shows(rt, alloc, net, log, line)?;
    }
    Ok(())
}

fn drop_first(rt: &impl Abort, alloc: Global, net: &Topology, log: Log) -> Result<(), Fail> {
    are_places(rt, alloc, net, &log)?;
    let log = shorter(alloc, net, log, 4)?;
    show_dropped(rt, alloc, net, &log)
}

fn epoch_in(word: &str) -> Option<Epoch> {
    match word.parse::<u32>() {
        Ok(number) => Some(Epoch::new(number)),
        Err(_) => None,
    }
}

// The digit, as a node.
fn node_in(digit: u8) -> Option<NodeId> {
    let number = digit.checked_sub(b'0')?;
    Some(NodeId::new(u16::from(number)))
}

// Whether there is a table of the epoch, and its next node for each of the two prefixes.
fn sends(rt: &impl Abort, tables: &TwoTables, epoch: Epoch, hop: Option<NodeId>) {
    assert!(rt; tables.of(epoch).is_some() == hop.is_some());
    assert!(rt; tables.next_hop(epoch, PrefixId::new(0)) == hop);
    assert!(rt; tables.next_hop(epoch, PrefixId::new(1)) == None);
}

fn keeps(rt: &impl Abort, tables: &TwoTables, newest: &str, hops: &str) {
    let epoch = match tables.newest() {
        None => None,
        Some(table) => Some(table.epoch()),
    };
    assert!(rt; epoch == epoch_in(newest));
    for (epoch, digit) in (1..7).zip(hops.bytes()) {
        sends(rt, tables, Epoch::new(epoch), node_in(digit));
    }
}

fn publishes(rt: &impl Abort, tables: &mut TwoTables, table: Rc<Table>, refused: &str) {
    let kept = match tables.publish(table) {
        Ok(()) => None,
        Err(older) => Some(older.kept),
    };
    assert!(rt; kept == epoch_in(refused));
}

// The table whose epoch, cut and counter the line gives.
fn made_in(
    alloc: Global,
    net: &Topology,
    log: &NodeLog<ShortestAll>,
    line: &str,
) -> Result<Rc<Table>, Fail> {
    let (epoch, rest) = split(line, ' ')?;
    let (cut, incomplete) = split(rest, ' ')?;
    let agreed = value(alloc, "1,2,3,4,9", incomplete)?;
    made(alloc, net, log, cut, number(epoch)?, &agreed)
}

fn sees(
    rt: &impl Abort,
    tables: &mut TwoTables,
    table: Rc<Table>,
    wanted: &str,
) -> Result<(), Fail> {
    let (refused, rest) = split(wanted, ' ')?;
    let (newest, hops) = split(rest, ' ')?;
    publishes(rt, tables, table, refused);
    keeps(rt, tables, newest, hops);
    Ok(())
}

fn publish_line(
    rt: &impl Abort,
    alloc: Global,
    net: &Topology,
    log: &NodeLog<ShortestAll>,
    tables: &mut TwoTables,
    line: &str,
) -> Result<(), Fail> {
    let (table, wanted) = split(line, ':')?;
    let table = made_in(alloc, net, log, table)?;
    sees(rt, tables, table, wanted.trim())
}

fn publish_each(
    rt: &impl Abort,
    alloc: Global,
    net: &Topology,
    log: &NodeLog<ShortestAll>,
    tables: &mut TwoTables,
) -> Result<(), Fail> {
    keeps(rt, tables, "-", "------");
    for line in PUBLISHED.lines() {
        publish_line(rt, alloc, net, log, tables, line)?;
    }
    Ok(())
}

fn publish_all(
    rt: &impl Abort,
    alloc: Global,
    net: &Topology,
    log: &NodeLog<ShortestAll>,
) -> Result<(), Fail> {
    let mut tables = TwoTables::new();
    publish_each(rt, alloc, net, log, &mut tables)
}

fn show_and_publish(
    rt: &impl Abort,
    alloc: Global,
    net: &Topology,
    log: &NodeLog<ShortestAll>,
) -> Result<(), Fail> {
    show_all(rt, alloc, net, log)?;
    publish_all(rt, alloc, net, log)
}

// The log of node 2 from which tables are made.
fn begun(alloc: Global, net: &Topology) -> Result<Log, Fail> {
    let log = log_of(alloc, net, 2, ShortestAll)?;
    let log = play(alloc, net, log)?;
    begin(alloc, net, log)
}

fn show_all_of(rt: &impl Abort, alloc: Global, net: &Topology) -> Result<(), Fail> {
    let log = begun(alloc, net)?;
    show_and_publish(rt, alloc, net, &log)?;
    drop_first(rt, alloc, net, log)
}

#[test]
fn tables_follow_the_value_and_two_are_kept(rt: HostRuntime) -> Result<(), Fail> {
    let net = network(rt.alloc(), &[1, 2, 3, 4, 9], &STAR, 2)?;
    show_all_of(&rt, rt.alloc(), &net)
}
