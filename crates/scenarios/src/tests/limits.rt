//! Runs up to a limit, and one event beyond it.
use super::outcome;
use std::alloc::Global;
use std::process::Abort;
use std::test::Fail;
use topology::{LimitKind, Status};

// A file of this front, `count` lines that alternate between these two, and one more line.
fn busy(
    alloc: Global,
    front: &str,
    lines: (&str, &str),
    count: u32,
    last: &str,
) -> Result<String, Fail> {
    let (first, second) = lines;
    let mut file = String::from_str(alloc, front)?;
    for place in 0..count {
        file.push_str(if place % 2 == 0 { first } else { second })?;
    }
    file.push_str(last)?;
    Ok(file)
}

// A run of so many of these lines ends like this, and what was written before a limit stays written.
fn check_busy(
    rt: &impl Abort,
    alloc: Global,
    front: &str,
    lines: (&str, &str),
    cases: &[(u32, &str, Status)],
    text: &str,
) -> Result<(), Fail> {
    for (count, last, status) in cases {
        let file = busy(alloc, front, lines, *count, last)?;
        let (answer, written) = outcome(alloc, file.as_str())?;
        assert_eq!(rt; answer, *status, "{count} {last}");
        assert_eq!(rt; written.as_str(), text, "{count} {last}");
    }
    Ok(())
}

// Two lines that alternate; each makes an entry.
const TURNS: (&str, &str) = ("originate 1 10.0.0.0/8\n", "withdraw 1 10.0.0.0/8\n");

const ALONE: &str = "node 1\nprefix 10.0.0.0/8\nbegin\nwithdraw 1 10.0.0.0/8\n";

#[test]
fn raises_and_enters_as_often_as_the_limits_say(rt: HostRuntime) -> Result<(), Fail> {
    let alloc = rt.alloc();
    let snap = ("snap 1\n", "snap 1\n");
    let text = "4: idle not origin\n";
    let epochs = Status::Limit(LimitKind::Epochs, 32);
    let cases = [
        (31, "", Status::Done),
        (32, "", Status::Done),
        (33, "", epochs),
        (32, TURNS.0, Status::Done),
    ];
    check_busy(&rt, alloc, ALONE, snap, &cases, text)?;
    let entries = Status::Limit(LimitKind::Entries, 2048);
    let cases = [
        (2047, "", Status::Done),
        (2048, "", Status::Done),
        (2049, "", entries),
        (2048, "snap 1\n", Status::Done),
    ];
    check_busy(&rt, alloc, ALONE, TURNS, &cases, text)
}

// Node 1 with a link to each of 16 others.
fn star(alloc: Global) -> Result<String, Fail> {
    let mut front = String::from_str(alloc, "node 1\n")?;
    for node in 2..18 {
        write!(front, "node {node}\nlink 1 {node} any\n")?;
    }
    front.push_str("prefix 10.0.0.0/8\nbegin\n")?;
    Ok(front)
}

#[test]
fn sends_as_many_items_as_the_limit_says(rt: HostRuntime) -> Result<(), Fail> {
    let alloc = rt.alloc();
    let front = star(alloc)?;
    let cases = [
        (1023, "", Status::Done),
        (1024, "", Status::Done),
        // the close of a session is one more item
        (
            1024,
            "fail 1 2\nnotice 1 2\n",
            Status::Limit(LimitKind::Updates, 16_384),
        ),
        (1024, "snap 1\nfail 1 2\n", Status::Done),
        (1025, "", Status::Limit(LimitKind::Updates, 16_384)),
    ];
    check_busy(&rt, alloc, front.as_str(), TURNS, &cases, "")
}

// Nodes that make so many triggers, at most 2048 each, after a line that does nothing.
fn many_triggers(alloc: Global, triggers: u32) -> Result<String, Fail> {
    let mut file = String::from_str(
        alloc,
        "node 1\nnode 2\nnode 3\nnode 4\nnode 5\nprefix 10.0.0.0/8\nbegin\nwithdraw 1 10.0.0.0/8\n",
    )?;
    for trigger in 0..triggers {
        let node = trigger / 2048 + 1;
        let word = if trigger % 2 == 0 {
            "originate"
        } else {
            "withdraw"
        };
        write!(file, "{word} {node} 10.0.0.0/8\n")?;
    }
    Ok(file)
}

#[test]
fn gives_as_many_triggers_as_the_limit_says(rt: HostRuntime) -> Result<(), Fail> {
    let alloc = rt.alloc();
    for (triggers, status) in [
        (8191, Status::Done),
        (8192, Status::Done),
        (8193, Status::Limit(LimitKind::Triggers, 8192)),
    ] {
        let file = many_triggers(alloc, triggers)?;
        let (answer, text) = outcome(alloc, file.as_str())?;
        assert_eq!(rt; answer, status, "{triggers}");
        // what was written before the limit stays written
        assert_eq!(rt; text.as_str(), "8: idle not origin\n", "{triggers}");
    }
    Ok(())
}

#[test]
fn takes_as_many_events_as_the_limit_says(rt: HostRuntime) -> Result<(), Fail> {
    // an idle event counts as an event, a probe does not
    let front =
        "node 1\nnode 2\nlink 1 2 any\nprefix 10.0.0.0/8\nbegin\nprobe 1 10.0.0.0/8\nrestore 1 2\n";
    let lines = ("fail 1 2\n", "restore 1 2\n");
    let events = Status::Limit(LimitKind::Events, 1_000_000);
    let cases = [(999_999, "", Status::Done), (999_999, "fail 1 2\n", events)];
    check_busy(
        &rt,
        rt.alloc(),
        front,
        lines,
        &cases,
        "probe 1 10.0.0.0/8: 1 2 1 stuck\n7: idle already up\n",
    )
}

// One node that starts a ballot for each line. Each ballot sends one control message; the first message is the node's
// report.
const BALLOTS: &str = "node 1 consolidator\nbegin\nsnap 1\nctl 1\n";

#[test]
fn sends_as_many_control_messages_as_the_limit_says(rt: HostRuntime) -> Result<(), Fail> {
    let alloc = rt.alloc();
    let propose = ("propose 1 1\n", "propose 1 1\n");
    let cases = [
        (16_382, "", Status::Done),
        (16_383, "", Status::Done),
        (16_384, "", Status::Limit(LimitKind::Control, 16_384)),
        (16_383, "crash 1\n", Status::Done),
        // the answer to a ballot is one more message
        (16_383, "ctl 2\n", Status::Limit(LimitKind::Control, 16_384)),
    ];
    check_busy(&rt, alloc, BALLOTS, propose, &cases, "")?;
    // epochs come before control messages
    let mut front = String::from_str(alloc, BALLOTS)?;
    for _ in 1..32 {
        front.push_str("snap 1\n")?;
    }
    let epochs = Status::Limit(LimitKind::Epochs, 32);
    let cases = [(16_352, "", Status::Done), (16_352, "snap 1\n", epochs)];
    check_busy(&rt, alloc, front.as_str(), propose, &cases, "")
}

// One node, and as many packets.
fn many_packets(alloc: Global, packets: u32) -> Result<String, Fail> {
    let mut file = String::from_str(alloc, "node 1\nprefix 10.0.0.0/8\nbegin\n")?;
    for packet in 1..=packets {
        write!(file, "inject {packet} 1 10.0.0.0/8\n")?;
    }
    Ok(file)
}

#[test]
fn takes_as_many_packets_as_the_limit_says(rt: HostRuntime) -> Result<(), Fail> {
    let alloc = rt.alloc();
    for (packets, last, status, text) in [
        (4096, "", Status::Done, ""),
        (
            4096,
            "inject 1 1 10.0.0.0/8\n",
            Status::Done,
            "4100: idle packet known\n",
        ),
        (4097, "", Status::Limit(LimitKind::Packets, 4096), ""),
    ] {
        let mut file = many_packets(alloc, packets)?;
        file.push_str(last)?;
        let (answer, written) = outcome(alloc, file.as_str())?;
        assert_eq!(rt; answer, status, "{packets}");
        assert_eq!(rt; written.as_str(), text, "{packets}");
    }
    Ok(())
}
