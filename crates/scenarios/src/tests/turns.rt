//! The text of a directive is written before the next directive runs.
use route_io::{MemSink, MemSource};
use route_replay::replay;
use std::alloc::Global;
use std::test::Fail;
use topology::Status;

// Three of its directives write something: a view of three lines, a delivery that does nothing, and a view again.
const FILE: &str = "\
node 1 consolidator
node 2
node 3
link 1 2 any
link 2 3 any
prefix 10.0.0.0/8
begin
originate 1 10.0.0.0/8
deliver 1 2
deliver 2 3
show rib
deliver 1 2
withdraw 1 10.0.0.0/8
deliver 1 2
show rib
";

const TEXT: &str = "\
rib 1 10.0.0.0/8: 1
rib 2 10.0.0.0/8: 2 1
rib 3 10.0.0.0/8: 3 2 1
12: idle empty channel
rib 1 10.0.0.0/8: none
rib 2 10.0.0.0/8: none
rib 3 10.0.0.0/8: 3 2 1
";

// How the run ends if the write with this number fails, and what was written.
fn cut_at(alloc: Global, failing: u64) -> Result<(Status, String), Fail> {
    let content = Vec::from_slice(alloc, FILE.as_bytes())?;
    let mut source = MemSource::new(content, Vec::new(alloc));
    let mut sink = MemSink::new(vec![in alloc; 0; 1_024]?, vec![in alloc; failing]?);
    let status = replay(alloc, &mut source, &mut sink);
    let text = String::from_utf8(Vec::from_slice(alloc, sink.held())?)?;
    Ok((status, text))
}

#[test]
fn each_write_is_the_text_of_one_directive(rt: HostRuntime) -> Result<(), Fail> {
    for (failing, lines, status) in [
        (1, 0, Status::WriteFault),
        (2, 3, Status::WriteFault),
        (3, 4, Status::WriteFault),
        (4, 7, Status::Done),
    ] {
        let (answer, written) = cut_at(rt.alloc(), failing)?;
        assert_eq!(rt; answer, status, "write {failing}");
        assert_eq!(rt; written.lines().count(), lines, "write {failing}");
        assert!(rt; TEXT.starts_with(written.as_str()), "write {failing}");
    }
    Ok(())
}
