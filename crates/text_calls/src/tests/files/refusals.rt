//! Faults of a file, of a line, and of the file of a network alone.
use schedule_file::{ParseEnd, parse, parse_topology};
use std::alloc::Global;
use std::process::Abort;
use std::test::Fail;
use topology::BadKind;

// Files, and the first bad line of each.
const BAD: [(&[u8], u32, BadKind); 6] = [
    (b"node 1\nnode 0\nnode 1", 2, BadKind::BadNumber),
    (b"begin\nfail 1 2", 2, BadKind::UnknownNode),
    (b"begin\n\ndrain 0", 3, BadKind::BadNumber),
    (b"node 1\nctl all", 2, BadKind::NotHere),
    (b"begin\nsnap 1", 2, BadKind::UnknownNode),
    (b"begin\nshow cut", 2, BadKind::WrongCount),
];

// Faults of a line about agreement, after one node and `begin`.
const AGREEMENT: &str = "
good: propose 1 1
good: propose 1 32
good: ctl 1
good: ctl 1000000
good: ctl all 1
good: ctl all 1000000
good: show ctl
good: show tables 1
good: show tables 32
wrong count: propose 1
wrong count: propose x y z
bad number: propose 0 33
bad number: propose 9 0
bad number: propose 9 33
unknown node: propose 9 1
wrong count: ctl
wrong count: ctl all 1 1
bad number: ctl 0
bad number: ctl 1000001
bad number: ctl all
bad number: ctl all 0
bad number: ctl all 1000001
unknown word: ctl 5 5
unknown word: ctl All 0
unknown word: control 1
wrong count: show ctl 1
wrong count: show tables
wrong count: show tables 1 1
bad number: show tables 0
bad number: show tables 33
";

// Faults of a line about packets, after one node, one prefix and `begin`.
const PACKETS: &str = "
good: inject 1 1 10.0.0.0/8
good: inject 4294967295 1 10.0.0.0/8
good: hop 1
good: hop 4294967295
good: hop 1 1
good: hop 4294967295 1000000
good: show walk 1
good: show walk 4294967295
unknown word: injects 1 1 10.0.0.0/8
unknown word: Hop 1
not here: hops 8
not here: hops x y z
not here: transient backup
not here: transient x y z
wrong count: inject
wrong count: inject 0 0
wrong count: inject 1 1 10.0.0.0/8 1
bad number: inject 0 0 x
bad number: inject 4294967296 1 10.0.0.0/8
bad number: inject 1 0 x
bad number: inject 1 65536 10.0.0.0/8
bad prefix: inject 1 9 10.0.0.0/33
bad prefix: inject 1 9 10.0.0.1/8
unknown node: inject 1 9 20.0.0.0/8
unknown prefix: inject 1 1 20.0.0.0/8
wrong count: hop
wrong count: hop 0 0 0
bad number: hop 0
bad number: hop 01
bad number: hop 4294967296
bad number: hop 0 x
bad number: hop 1 0
bad number: hop 1 1000001
bad number: hop all 1
wrong count: show walk
wrong count: show walk 0 0
bad number: show walk 0
bad number: show walk 4294967296
unknown word: show walks 1
unknown word: show hop 1
";

// Faults of a line with a probe, after one node, one prefix and `begin`.
const PROBES: &str = "
good: probe 1 10.0.0.0/8
good:   probe\t1 10.0.0.0/8 # from here
unknown word: Probe 1 10.0.0.0/8
unknown word: probes 1 10.0.0.0/8
wrong count: probe
wrong count: probe 0
wrong count: probe 0 x y
bad number: probe 0 x
bad number: probe 01 10.0.0.0/8
bad number: probe 65536 10.0.0.0/8
bad number: probe 10.0.0.0/8 1
bad prefix: probe 9 10.0.0.0/33
bad prefix: probe 9 10.0.0.1/8
unknown node: probe 9 20.0.0.0/8
unknown prefix: probe 1 20.0.0.0/8
unknown prefix: probe 1 10.0.0.0/9
";

// Faults of a line of the first part, after one node.
const SETTINGS: &str = "
good: hops 0
good: hops 65535
good: transient deflect
good: transient detour 1
good: transient backup
not here: inject 1 1 10.0.0.0/8
not here: hop
not here: show walk
not here: probe 1 10.0.0.0/8
not here: probe
unknown word: hops8
unknown word: Transient deflect
wrong count: hops
wrong count: hops 1 1
bad number: hops 65536
bad number: hops 08
bad number: hops -1
wrong count: transient
wrong count: transient x 0 0
unknown word: transient x
unknown word: transient x 0
unknown word: transient Backup
wrong count: transient deflect 1
wrong count: transient backup 0
wrong count: transient detour
bad number: transient detour 0
bad number: transient detour 65536
unknown node: transient detour 2
";

// Faults of a line after one node, a blank line and `begin`, in the file of a network.
const TOPOLOGY: &str = "
good: # nothing
not here: node 2
not here: begin
not here: snap 1
not here: snap 9
not here: snap
not here: drain 0
not here: ctl x y z
not here: show foo
unknown word: snaps 1
not here: hop 1
not here: hop x y z
not here: inject
not here: show walk 1
not here: hops 1
not here: transient x
not here: probe 9 x
";

// How reading a file ends if it gives no schedule; with `alone`, if it gives no network.
fn end_of(rt: &impl Abort, alloc: Global, alone: bool, text: &[u8]) -> Option<ParseEnd> {
    assert!(rt; text.len() < 1000);
    if alone {
        return parse_topology(alloc, text).err();
    }
    parse(alloc, text).err()
}

fn kind_of(end: Option<ParseEnd>) -> &'static str {
    match end {
        None => "good",
        Some(ParseEnd::NoMemory) => "no memory",
        Some(ParseEnd::Bad { line: _, kind }) => kind.words(),
    }
}

// Each row names the fault of its line after the front of a file.
fn check_rows(
    rt: &impl Abort,
    alloc: Global,
    alone: bool,
    front: &str,
    rows: &str,
) -> Result<(), Fail> {
    for row in rows.lines() {
        let Some((kind, line)) = row.split_once(": ") else {
            continue;
        };
        let mut file = String::from_str(alloc, front)?;
        file.push_str(line)?;
        let end = end_of(rt, alloc, alone, file.as_bytes());
        assert_eq!(rt; kind_of(end), kind, "{line}");
    }
    Ok(())
}

#[test]
fn names_the_first_bad_line(rt: HostRuntime) {
    for (text, line, kind) in BAD {
        let want = Some(ParseEnd::Bad { line, kind });
        assert_eq!(rt; end_of(&rt, rt.alloc(), false, text), want, "{text:?}");
    }
}

#[test]
fn reads_single_lines(rt: HostRuntime) -> Result<(), Fail> {
    check_rows(&rt, rt.alloc(), false, "node 1\nbegin\n", AGREEMENT)?;
    let front = "node 1\nprefix 10.0.0.0/8\nbegin\n";
    check_rows(&rt, rt.alloc(), false, front, PACKETS)?;
    check_rows(&rt, rt.alloc(), false, front, PROBES)?;
    check_rows(&rt, rt.alloc(), false, "node 1\n", SETTINGS)
}

#[test]
fn reads_a_network_alone(rt: HostRuntime) -> Result<(), Fail> {
    check_rows(&rt, rt.alloc(), true, "node 1\n\nbegin\n", TOPOLOGY)?;
    let early = end_of(&rt, rt.alloc(), true, b"node 1\nsnap 1\nbegin");
    let kind = BadKind::NotHere;
    assert_eq!(rt; early, Some(ParseEnd::Bad { line: 2, kind }));
    Ok(())
}
