//! Printed tables: the check of rows alone, and audits of whole texts.
use super::ends::{sink_of, source_of};
use std::alloc::Global;
use std::process::Abort;
use std::test::Fail;
use table_audit::{Verdict, audit, check_rows, read_rows};
use topology::{AuditKind, Status};

// Rows on the lines 3, 5 and 6.
const CONTINUED: &str = "\
7: idle empty channel
table 3 1: unpublished
table 3 1 0.0.0.0/0: 3 2 1
rib 1 0.0.0.0/0: 1
table 2 1 0.0.0.0/0: 2 1
table 1 1 0.0.0.0/0: 1
";

// The same, and rows on the lines 9 and 10.
const BROKEN: &str = "\
7: idle empty channel
table 3 1: unpublished
table 3 1 0.0.0.0/0: 3 2 1
rib 1 0.0.0.0/0: 1
table 2 1 0.0.0.0/0: 2 1
table 1 1 0.0.0.0/0: 1
table 4 1: unpublished
table 5 1: unpublished
table 1 1 0.0.0.0/0: 1 4
table 5 1 0.0.0.0/0: 5 5
";

// The verdict on the rows of a text; `None` if they cannot be read.
fn judged(rt: &impl Abort, alloc: Global, text: &str) -> Option<Verdict> {
    assert!(rt; text.len() < 1000);
    let rows = read_rows(alloc, text.as_bytes()).ok()?;
    check_rows(alloc, &rows).ok()
}

#[test]
fn paths_that_continue_are_consistent(rt: HostRuntime) {
    let wanted = Verdict::Consistent;
    assert!(rt; judged(&rt, rt.alloc(), CONTINUED) == Some(wanted));
}

#[test]
fn the_first_bad_row_is_named(rt: HostRuntime) {
    let wanted = Verdict::Bad {
        line: 9,
        kind: AuditKind::Changed,
    };
    assert!(rt; judged(&rt, rt.alloc(), BROKEN) == Some(wanted));
}

// The audit of a text ends like this, and writes this.
fn ends(
    rt: &impl Abort,
    alloc: Global,
    text: &str,
    wanted: Status,
    written: &str,
) -> Result<(), Fail> {
    let mut source = source_of(alloc, text)?;
    let mut sink = sink_of(alloc, 16)?;
    let end = audit(alloc, &mut source, &mut sink);
    assert!(rt; end == wanted, "{text}");
    assert!(rt; sink.held() == written.as_bytes(), "{text}");
    Ok(())
}

#[test]
fn a_consistent_text_is_answered_with_one_line(rt: HostRuntime) -> Result<(), Fail> {
    for text in [
        "table 1 1 10.0.0.0/8: 1\ntable 2 1 10.0.0.0/8: 2 1\ntable 3 1 10.0.0.0/8: 3 2 1\n",
        "7: idle empty channel\ntable 4 1: unpublished\n",
        "",
    ] {
        ends(&rt, rt.alloc(), text, Status::Done, "consistent\n")?;
    }
    Ok(())
}

#[test]
fn another_text_is_refused_by_its_first_line(rt: HostRuntime) -> Result<(), Fail> {
    for (text, wanted) in [
        (
            "table 1 1 10.0.0.0/8: 1 2 3\ntable 2 1 10.0.0.0/8: none\n",
            Status::Inconsistent(1, AuditKind::DoesNotContinue),
        ),
        (
            "table 3 1 10.0.0.0/8: 3 2 3\n",
            Status::Inconsistent(1, AuditKind::NotSimple),
        ),
        ("table 3 1\n", Status::BadTables(1)),
        // A misspelled line comes before any bad row.
        (
            "table 3 1 10.0.0.0/8: 3 2 3\ntable 3 1 10.0.0.0/8:\n",
            Status::BadTables(2),
        ),
    ] {
        ends(&rt, rt.alloc(), text, wanted, "")?;
    }
    Ok(())
}
