//! What a file says, and how it is printed.
use schedule_file::{Numbered, Schedule, parse, parse_topology, print};
use std::alloc::Global;
use std::process::Abort;
use std::test::Fail;
use topology::{NodeId, Topology};

// Its directives are on the lines 13, 15, 16, 17 and from 19 on.
const SCHEDULE: &[u8] = b"node 1 consolidator # one
node 2
link 1 2 customer
prefix 1.0.0.0/8
prefix 2.0.0.0/8\r
pref 1 2 3
pref\t1 2 7
hops 9
transient backup
hops 7
transient detour 2
begin
originate 2 2.0.0.0/8

deliver 2 1
show log
withdraw 2 2.0.0.0/8
# the end
show rib
prefer 1 2 0
fail 1 2
notice 2 1
restore 2 1
open 1 2
drain 1000000
snap 2
show cut 32
show closure 1
propose 2 9
ctl 7
ctl all 8
show ctl
show tables 10
inject 4294967295 2 2.0.0.0/8
hop 5
hop 5 1000000
show walk 5
probe 1 2.0.0.0/8";

// The directives of the same schedule, with their lines.
const DIRECTIVES: &str = "\
13 Originate { node: NodeId(2), prefix: PrefixId(1) }
15 Deliver { from: NodeId(2), to: NodeId(1) }
16 ShowLog
17 Withdraw { node: NodeId(2), prefix: PrefixId(1) }
19 ShowRib
20 Prefer { node: NodeId(1), nbr: NodeId(2), value: 0 }
21 Fail { a: NodeId(1), b: NodeId(2) }
22 Notice { node: NodeId(2), nbr: NodeId(1) }
23 Restore { a: NodeId(2), b: NodeId(1) }
24 OpenSession { node: NodeId(1), nbr: NodeId(2) }
25 Drain { times: 1000000 }
26 Snap { node: NodeId(2) }
27 ShowCut(Epoch(32))
28 ShowClosure(Epoch(1))
29 Propose { node: NodeId(2), epoch: Epoch(9) }
30 Control { number: 7 }
31 ControlAll { times: 8 }
32 ShowControl
33 ShowTables(Epoch(10))
34 Inject { packet: 4294967295, node: NodeId(2), prefix: PrefixId(1) }
35 Hop { packet: 5, times: None }
36 Hop { packet: 5, times: Some(1000000) }
37 ShowWalk(5)
38 Probe { node: NodeId(1), prefix: PrefixId(1) }
";

// What a network says of two nodes: the relation and the preference of each; then its nodes, and its settings for
// packets.
fn network_text(alloc: Global, network: &Topology, a: u16, b: u16) -> Result<String, Fail> {
    let (a, b) = (NodeId::new(a), NodeId::new(b));
    let relations = format!(in alloc; "{:?} {:?}", network.relation(a, b), network.relation(b, a))?;
    let nodes = format!(in alloc; "{:?} {:?}", network.node_at(0), network.node_at(1))?;
    Ok(format!(in alloc;
        "{relations} {} {} {nodes} {} {:?}",
        network.pref(a, b),
        network.pref(b, a),
        network.hops(),
        network.scheme()
    )?)
}

fn directives_text(alloc: Global, lines: &[Numbered]) -> Result<String, Fail> {
    let mut text = String::new(alloc);
    for numbered in lines {
        let line = format!(in alloc; "{} {:?}\n", numbered.line, numbered.directive)?;
        text.push_str(&line)?;
    }
    Ok(text)
}

fn schedule_of(rt: &impl Abort, alloc: Global, file: &[u8]) -> Result<Schedule, Fail> {
    assert!(rt; file.len() < 1000);
    match parse(alloc, file) {
        Ok(schedule) => Ok(schedule),
        Err(_) => Err("a schedule".into()),
    }
}

fn network_of(rt: &impl Abort, alloc: Global, file: &[u8]) -> Result<Topology, Fail> {
    assert!(rt; file.len() < 1000);
    match parse_topology(alloc, file) {
        Ok(network) => Ok(network),
        Err(_) => Err("a network".into()),
    }
}

// The file of a network alone, and what it says of its nodes 3 and 7.
fn network_said(rt: &impl Abort, alloc: Global, file: &[u8]) -> Result<String, Fail> {
    let network = network_of(rt, alloc, file)?;
    network_text(alloc, &network, 3, 7)
}

#[test]
fn keeps_the_network_of_a_file(rt: HostRuntime) -> Result<(), Fail> {
    let file = b"node 7\nnode 3 consolidator\nlink 7 3 peer";
    let text = network_said(&rt, rt.alloc(), file)?;
    assert_eq!(rt;
        text.as_str(),
        "Some(Peer) Some(Peer) 100 100 Some((NodeId(7), false)) Some((NodeId(3), true)) 128 Deflect"
    );
    Ok(())
}

// What a file says of its nodes 1 and 2.
fn pair_said(rt: &impl Abort, alloc: Global, file: &[u8]) -> Result<String, Fail> {
    let schedule = schedule_of(rt, alloc, file)?;
    network_text(alloc, &schedule.topology, 1, 2)
}

// The directives of a file.
fn directed(rt: &impl Abort, alloc: Global, file: &[u8]) -> Result<String, Fail> {
    let schedule = schedule_of(rt, alloc, file)?;
    directives_text(alloc, &schedule.lines)
}

#[test]
fn reads_a_schedule(rt: HostRuntime) -> Result<(), Fail> {
    let network = pair_said(&rt, rt.alloc(), SCHEDULE)?;
    assert_eq!(rt;
        network.as_str(),
        "Some(Customer) Some(Provider) 7 100 Some((NodeId(1), true)) Some((NodeId(2), false)) 7 Detour(NodeId(2))"
    );
    let directives = directed(&rt, rt.alloc(), SCHEDULE)?;
    assert_eq!(rt; directives.as_str(), DIRECTIVES);
    Ok(())
}

// The same schedule as it is printed.
const PRINTED: &[u8] = b"node 1 consolidator
node 2
link 1 2 customer
prefix 1.0.0.0/8
prefix 2.0.0.0/8
pref 1 2 7
hops 7
transient detour 2
begin
originate 2 2.0.0.0/8
deliver 2 1
show log
withdraw 2 2.0.0.0/8
show rib
prefer 1 2 0
fail 1 2
notice 2 1
restore 2 1
open 1 2
drain 1000000
snap 2
show cut 32
show closure 1
propose 2 9
ctl 7
ctl all 8
show ctl
show tables 10
inject 4294967295 2 2.0.0.0/8
hop 5
hop 5 1000000
show walk 5
probe 1 2.0.0.0/8
";

// Preferences are sorted, everything else stays in file order.
const SHUFFLED: &[u8] =
    b"prefix 9.8.7.0/24\nnode 3\nnode 1\nlink 3 1 peer\npref 3 1 0\npref 1 3 6\nprefix 0.0.0.0/0\ntransient backup\nhops 0\nbegin\nrestart 1\ncrash 3";

const SORTED: &[u8] = b"node 3
node 1
link 3 1 peer
prefix 9.8.7.0/24
prefix 0.0.0.0/0
pref 1 3 6
pref 3 1 0
hops 0
transient backup
begin
restart 1
crash 3
";

// The text that is printed for a file.
fn printed(rt: &impl Abort, alloc: Global, file: &[u8]) -> Result<Vec<u8>, Fail> {
    let schedule = schedule_of(rt, alloc, file)?;
    Ok(print(alloc, &schedule)?)
}

fn check_printed(rt: &impl Abort, alloc: Global, file: &[u8], text: &[u8]) -> Result<(), Fail> {
    let printed = printed(rt, alloc, file)?;
    assert!(rt; printed.as_slice() == text);
    Ok(())
}

#[test]
fn prints_schedules(rt: HostRuntime) -> Result<(), Fail> {
    check_printed(&rt, rt.alloc(), SCHEDULE, PRINTED)?;
    check_printed(&rt, rt.alloc(), SHUFFLED, SORTED)?;
    check_printed(&rt, rt.alloc(), PRINTED, PRINTED)?;
    let least: &[u8] = b"hops 128\ntransient deflect\nbegin\n";
    check_printed(&rt, rt.alloc(), b"", least)
}

// The schedule of an epoch, from the first announcement to the tables.
const EPOCH: &[u8] = b"node 1 consolidator
node 2
node 3
link 1 2 any
link 2 3 any
prefix 10.0.0.0/8
begin
originate 1 10.0.0.0/8
drain 100
show log
snap 1
drain 100
ctl all 100
propose 1 1
ctl all 100
show tables 1
";

// The same, with the lines that it leaves out.
const EPOCH_PRINTED: &[u8] = b"node 1 consolidator
node 2
node 3
link 1 2 any
link 2 3 any
prefix 10.0.0.0/8
hops 128
transient deflect
begin
originate 1 10.0.0.0/8
drain 100
show log
snap 1
drain 100
ctl all 100
propose 1 1
ctl all 100
show tables 1
";

// What both say of the nodes 2 and 3, and their directives.
const EPOCH_SAID: &str =
    "Some(Any) Some(Any) 100 100 Some((NodeId(1), true)) Some((NodeId(2), false)) 128 Deflect
Originate { node: NodeId(1), prefix: PrefixId(0) }
Drain { times: 100 }
ShowLog
Snap { node: NodeId(1) }
Drain { times: 100 }
ControlAll { times: 100 }
Propose { node: NodeId(1), epoch: Epoch(1) }
ControlAll { times: 100 }
ShowTables(Epoch(1))
";

// Adds the directives of these lines, without the line numbers.
fn add_directives(alloc: Global, lines: &[Numbered], text: &mut String) -> Result<(), Fail> {
    for numbered in lines {
        let line = format!(in alloc; "{:?}\n", numbered.directive)?;
        text.push_str(&line)?;
    }
    Ok(())
}

// What a schedule says of the nodes 2 and 3, and its directives.
fn words_of(alloc: Global, schedule: &Schedule) -> Result<String, Fail> {
    let mut text = network_text(alloc, &schedule.topology, 2, 3)?;
    text.push('\n')?;
    add_directives(alloc, &schedule.lines, &mut text)?;
    Ok(text)
}

// The same for a file.
fn said(rt: &impl Abort, alloc: Global, file: &[u8]) -> Result<String, Fail> {
    let schedule = schedule_of(rt, alloc, file)?;
    words_of(alloc, &schedule)
}

fn check_said(rt: &impl Abort, alloc: Global, file: &[u8]) -> Result<(), Fail> {
    let text = said(rt, alloc, file)?;
    assert_eq!(rt; text.as_str(), EPOCH_SAID);
    Ok(())
}

#[test]
fn a_printed_schedule_is_read_again(rt: HostRuntime) -> Result<(), Fail> {
    let text = printed(&rt, rt.alloc(), EPOCH)?;
    assert!(rt; text.as_slice() == EPOCH_PRINTED);
    check_said(&rt, rt.alloc(), EPOCH)?;
    check_said(&rt, rt.alloc(), text.as_slice())
}
