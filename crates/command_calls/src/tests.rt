//! Runs over memory: words, notes, room, and the failure of each side in turn.
use acceptor_journal::MemDisk;
use itoa::Buffer;
use route_io::{MemLink, MemSink, MemSource, PlainLink, PlainSink, PlainSource};
use routing_commands::notes::tell;
use routing_commands::run::run;
use std::alloc::Global;
use std::test::Fail;
use topology::{AuditKind, BadKind, FrameFault, LimitKind, NodeId, Status};

// A route spreads along three nodes, and is withdrawn.
const FILE: &str = "\
node 1 consolidator
node 2
node 3
link 1 2 any
link 2 3 any
prefix 10.0.0.0/8
begin
originate 1 10.0.0.0/8
deliver 1 2
deliver 2 3
show rib
withdraw 1 10.0.0.0/8
deliver 1 2
show rib
";

const TEXT: &str = "\
rib 1 10.0.0.0/8: 1
rib 2 10.0.0.0/8: 2 1
rib 3 10.0.0.0/8: 3 2 1
rib 1 10.0.0.0/8: none
rib 2 10.0.0.0/8: none
rib 3 10.0.0.0/8: 3 2 1
";

// What is written before the second write.
const FIRST_ROUTES: &str = "\
rib 1 10.0.0.0/8: 1
rib 2 10.0.0.0/8: 2 1
rib 3 10.0.0.0/8: 3 2 1
";

const USAGE_NOTE: &str =
    "usage: consensus_routing replay | load NUMBER | node ID ADDRESS | node ID ADDRESS FILE | audit | lead\n";

fn words_of(alloc: Global, words: &[&str]) -> Result<Vec<String>, Fail> {
    let mut given = Vec::new(alloc);
    for word in words {
        given.push(String::from_str(alloc, word)?)?;
    }
    Ok(given)
}

// A link that brings nothing and takes nothing.
fn no_link(alloc: Global) -> MemLink {
    let none = Vec::new(alloc);
    MemLink::new(
        Vec::new(alloc),
        Vec::new(alloc),
        true,
        none,
        Vec::new(alloc),
    )
}

// A disk without a file, for words that need none.
fn no_disk(alloc: Global) -> MemDisk {
    MemDisk::new(alloc, Vec::new(alloc), Vec::new(alloc))
}

// A sink with room for so many bytes.
fn sink_of(alloc: Global, room: usize, failing: &[u64]) -> Result<MemSink, Fail> {
    let room = vec![in alloc; 0; room]?;
    Ok(MemSink::new(room, Vec::from_slice(alloc, failing)?))
}

fn text_of(alloc: Global, sink: &MemSink) -> Result<String, Fail> {
    Ok(String::from_utf8(Vec::from_slice(alloc, sink.held())?)?)
}

// The status of a run of this file with these words and failing calls. The two sinks have what was written and what was
// noted.
fn status_of(
    alloc: Global,
    words: &[&str],
    file: &str,
    reads: &[u64],
    sink: &mut MemSink,
    notes: &mut MemSink,
) -> Result<Status, Fail> {
    let given = words_of(alloc, words)?;
    let content = Vec::from_slice(alloc, file.as_bytes())?;
    let mut source = MemSource::new(content, Vec::from_slice(alloc, reads)?);
    let mut link = no_link(alloc);
    let mut disk = no_disk(alloc);
    Ok(run(
        alloc,
        &given,
        &mut source,
        sink,
        notes,
        &mut link,
        &mut disk,
    ))
}

// The status of a run of the file, what was written, and what was noted.
fn outcome(
    alloc: Global,
    words: &[&str],
    reads: &[u64],
    writes: &[u64],
) -> Result<(Status, String, String), Fail> {
    let mut sink = sink_of(alloc, 4096, writes)?;
    let mut notes = sink_of(alloc, 128, &[])?;
    let status = status_of(alloc, words, FILE, reads, &mut sink, &mut notes)?;
    Ok((status, text_of(alloc, &sink)?, text_of(alloc, &notes)?))
}

// Words, the reads and writes that fail, the status, what is written, and what is noted.
const RUNS: [(&[&str], &[u64], &[u64], Status, &str, &str); 7] = [
    (&["replay"], &[], &[], Status::Done, TEXT, ""),
    (&["replay", "now"], &[], &[], Status::Usage, "", USAGE_NOTE),
    (&[], &[], &[], Status::Usage, "", USAGE_NOTE),
    (
        &["replay"],
        &[1],
        &[],
        Status::ReadFault,
        "",
        "read fault\n",
    ),
    (
        &["replay"],
        &[2],
        &[],
        Status::ReadFault,
        "",
        "read fault\n",
    ),
    (
        &["replay"],
        &[],
        &[1],
        Status::WriteFault,
        "",
        "write fault\n",
    ),
    (
        &["replay"],
        &[],
        &[2],
        Status::WriteFault,
        FIRST_ROUTES,
        "write fault\n",
    ),
];

#[test]
fn runs_a_file_and_names_each_fault(rt: HostRuntime) -> Result<(), Fail> {
    for (words, reads, writes, status, text, note) in RUNS {
        let (answer, written, noted) = outcome(rt.alloc(), words, reads, writes)?;
        assert_eq!(rt; answer, status, "{words:?} {reads:?} {writes:?}");
        assert_eq!(rt; written.as_str(), text, "{words:?} {reads:?} {writes:?}");
        assert_eq!(rt; noted.as_str(), note, "{words:?} {reads:?} {writes:?}");
    }
    Ok(())
}

// Words with no known form.
const NO_FORMS: [&[&str]; 15] = [
    &["load"],
    &["load", ""],
    &["load", "x"],
    &["load", "01"],
    &["load", "-1"],
    &["load", "4294967296"],
    &["load", "0", "0"],
    &["replay", "0"],
    &["Load", "0"],
    &["node", "2"],
    &["node", "0", "127.0.0.1:1"],
    &["node", "02", "127.0.0.1:1"],
    &["node", "65536", "127.0.0.1:1"],
    &["node", "0", "127.0.0.1:1", "journal"],
    &["node", "2", "127.0.0.1:1", "journal", "2"],
];

#[test]
fn takes_words_of_the_forms_alone(rt: HostRuntime) -> Result<(), Fail> {
    for words in NO_FORMS {
        let (answer, written, noted) = outcome(rt.alloc(), words, &[], &[])?;
        assert_eq!(rt; answer, Status::Usage, "{words:?}");
        assert_eq!(rt; written.as_str(), "", "{words:?}");
        assert_eq!(rt; noted.as_str(), USAGE_NOTE, "{words:?}");
    }
    Ok(())
}

#[test]
fn reads_nothing_for_a_load(rt: HostRuntime) -> Result<(), Fail> {
    let (answer, written, noted) = outcome(rt.alloc(), &["load", "0"], &[1], &[])?;
    assert_eq!(rt; answer, Status::Done);
    assert!(rt; written.as_str().starts_with("nodes 24\n"));
    assert_eq!(rt; noted.as_str(), "");
    let (failed, cut, note) = outcome(rt.alloc(), &["load", "4294967295"], &[], &[1])?;
    assert_eq!(rt; failed, Status::WriteFault);
    assert_eq!(rt; cut.as_str(), "");
    assert_eq!(rt; note.as_str(), "write fault\n");
    Ok(())
}

#[test]
fn notes_why_a_run_ended(rt: HostRuntime) -> Result<(), Fail> {
    let alloc = rt.alloc();
    let cases = [
        (Status::Done, ""),
        (Status::Usage, USAGE_NOTE),
        (Status::NoMemory, "no memory\n"),
        (
            Status::BadSchedule(1, BadKind::NotHere),
            "bad schedule: line 1: not here\n",
        ),
        (
            Status::BadSchedule(4_294_967_295, BadKind::DuplicatePrefix),
            "bad schedule: line 4294967295: duplicate prefix\n",
        ),
        (Status::Limit(LimitKind::Bytes, 0), "limit: bytes 0\n"),
        (
            Status::Limit(LimitKind::Triggers, 4_294_967_295),
            "limit: triggers 4294967295\n",
        ),
        (Status::ReadFault, "read fault\n"),
        (Status::WriteFault, "write fault\n"),
        (Status::LinkFault, "link fault\n"),
        (
            Status::BadFrame(18_446_744_073_709_551_615, FrameFault::Truncated),
            "bad frame: offset 18446744073709551615: truncated\n",
        ),
        (
            Status::BadFrame(
                18_446_744_073_709_551_615,
                FrameFault::Sequence {
                    expected: 4_294_967_295,
                    got: 4_294_967_294,
                },
            ),
            "bad frame: offset 18446744073709551615: sequence expected 4294967295 got 4294967294\n",
        ),
        (
            Status::NoSuchNode(NodeId::new(65_535)),
            "no such node: 65535\n",
        ),
        (Status::DiskFault, "disk fault\n"),
        (
            Status::BadJournal(18_446_744_073_709_551_615, FrameFault::Length),
            "bad journal: offset 18446744073709551615: length\n",
        ),
        (
            Status::BadTables(4_294_967_295),
            "bad tables: line 4294967295\n",
        ),
        (
            Status::Inconsistent(4_294_967_295, AuditKind::DoesNotContinue),
            "inconsistent: line 4294967295: does not continue\n",
        ),
    ];
    for (status, note) in cases {
        let mut notes = sink_of(alloc, 128, &[])?;
        tell(&mut notes, &status);
        assert_eq!(rt; notes.held(), note.as_bytes(), "{note}");
    }
    Ok(())
}

#[test]
fn faults_of_the_notes_change_no_status(rt: HostRuntime) -> Result<(), Fail> {
    let alloc = rt.alloc();
    let cases: [(&str, usize, &[u64], Status, &str); 4] = [
        (
            "hello",
            64,
            &[1],
            Status::BadSchedule(1, BadKind::UnknownWord),
            "",
        ),
        (
            "hello",
            23,
            &[],
            Status::BadSchedule(1, BadKind::UnknownWord),
            "bad schedule: line 1: u",
        ),
        (
            "hello",
            0,
            &[],
            Status::BadSchedule(1, BadKind::UnknownWord),
            "",
        ),
        ("", 0, &[1], Status::Done, ""),
    ];
    for (file, room, failing, status, note) in cases {
        let mut sink = sink_of(alloc, 0, &[])?;
        let mut notes = sink_of(alloc, room, failing)?;
        let answer = status_of(alloc, &["replay"], file, &[], &mut sink, &mut notes)?;
        assert_eq!(rt; answer, status, "{note}");
        assert_eq!(rt; notes.held(), note.as_bytes(), "{note}");
    }
    Ok(())
}

// Adds lines with the numbers from 0 on, `count` of them.
fn add_lines(file: &mut String, begin: &str, count: u32, end: &str) -> Result<(), Fail> {
    for number in 0..count {
        file.push_str(begin)?;
        file.push_str(Buffer::new().format(number))?;
        file.push_str(end)?;
    }
    Ok(())
}

// A file with one view, which has 15360 lines of about 25 bytes.
fn long_view(alloc: Global) -> Result<String, Fail> {
    let mut file = String::new(alloc);
    add_lines(&mut file, "node 1", 60, "\n")?;
    add_lines(&mut file, "prefix 10.0.", 256, ".0/24\n")?;
    file.push_str("begin\nshow rib\n")?;
    Ok(file)
}

#[test]
fn writes_a_long_view_by_the_page(rt: HostRuntime) -> Result<(), Fail> {
    let alloc = rt.alloc();
    let file = long_view(alloc)?;
    for (failing, pages) in [(1, 0), (2, 1), (3, 2)] {
        let mut sink = sink_of(alloc, 1_000_000, &[failing])?;
        let mut notes = sink_of(alloc, 64, &[])?;
        let status = status_of(
            alloc,
            &["replay"],
            file.as_str(),
            &[],
            &mut sink,
            &mut notes,
        )?;
        assert_eq!(rt; status, Status::WriteFault, "write {failing}");
        assert_eq!(rt; sink.held().len() / 65_536, pages, "write {failing}");
        assert!(rt; sink.held().len() % 65_536 < 65, "write {failing}");
    }
    Ok(())
}

// The status of a run of a file of so many of these bytes, and the notes.
fn end_of_bytes(alloc: Global, byte: u8, count: usize) -> Result<(Status, String), Fail> {
    let words = words_of(alloc, &["replay"])?;
    let mut source = MemSource::new(vec![in alloc; byte; count]?, Vec::new(alloc));
    let mut sink = sink_of(alloc, 0, &[])?;
    let mut notes = sink_of(alloc, 64, &[])?;
    let mut link = no_link(alloc);
    let mut disk = no_disk(alloc);
    let status = run(
        alloc,
        &words,
        &mut source,
        &mut sink,
        &mut notes,
        &mut link,
        &mut disk,
    );
    Ok((status, text_of(alloc, &notes)?))
}

#[test]
fn takes_no_more_bytes_than_the_limit_says(rt: HostRuntime) -> Result<(), Fail> {
    let alloc = rt.alloc();
    for (byte, count, status, note) in [
        (
            b'\n',
            16_777_217,
            Status::Limit(LimitKind::Bytes, 16_777_216),
            "limit: bytes 16777216\n",
        ),
        (
            b'#',
            16_777_217,
            Status::Limit(LimitKind::Bytes, 16_777_216),
            "limit: bytes 16777216\n",
        ),
        (b'#', 16_777_216, Status::Done, ""),
    ] {
        let (answer, noted) = end_of_bytes(alloc, byte, count)?;
        assert_eq!(rt; answer, status, "{count}");
        assert_eq!(rt; noted.as_str(), note, "{count}");
    }
    Ok(())
}

#[test]
fn fails_over_plain_memory_only_for_room(rt: HostRuntime) -> Result<(), Fail> {
    let alloc = rt.alloc();
    let words = vec![in alloc; String::from_str(alloc, "replay")?]?;
    for (room, status) in [
        (0, Status::WriteFault),
        (TEXT.len() - 1, Status::WriteFault),
        (TEXT.len(), Status::Done),
        (TEXT.len() + 1, Status::Done),
    ] {
        let mut source = PlainSource::new(Vec::from_slice(alloc, FILE.as_bytes())?);
        let mut sink = PlainSink::new(vec![in alloc; 0; room]?);
        let mut notes = PlainSink::new(vec![in alloc; 0; 64]?);
        let mut link = PlainLink::new(Vec::new(alloc), Vec::new(alloc));
        let mut disk = no_disk(alloc);
        let answer = run(
            alloc,
            &words,
            &mut source,
            &mut sink,
            &mut notes,
            &mut link,
            &mut disk,
        );
        assert_eq!(rt; answer, status, "{room}");
        assert!(rt; TEXT.as_bytes().starts_with(sink.held()), "{room}");
    }
    Ok(())
}
