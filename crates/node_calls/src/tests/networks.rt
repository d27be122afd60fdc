//! Networks of a few nodes.
use schedule_file::parse_topology;
use std::alloc::Global;
use std::process::Abort;
use std::rc::Rc;
use std::test::Fail;
use topology::Topology;

/// Two nodes with a link, and a prefix.
pub const PAIR: &str = "\
node 1
node 2
link 1 2 any
prefix 0.0.0.0/0
";

/// The same, with the first node as the only consolidator.
pub const PAIR_CONSOLIDATED: &str = "\
node 1 consolidator
node 2
link 1 2 any
prefix 0.0.0.0/0
";

/// Two nodes without a link, and a prefix; the first is the only consolidator.
pub const APART: &str = "\
node 1 consolidator
node 2
prefix 0.0.0.0/0
";

/// Three nodes in a line, and two prefixes.
pub const LINE: &str = "\
node 1
node 2
node 3
link 1 2 any
link 2 3 any
prefix 0.0.0.0/0
prefix 0.0.0.0/1
";

/// The same; the second node holds back from the first.
pub const HOLDING_LINE: &str = "\
node 1
node 2
node 3
link 1 2 any
link 2 3 any
prefix 0.0.0.0/0
prefix 0.0.0.0/1
hold 2 1
";

/// Two nodes with a link, the first of which holds back from the second, and a prefix.
pub const HOLDING_PAIR: &str = "\
node 1
node 2
link 1 2 any
prefix 0.0.0.0/0
hold 1 2
";

/// The network of this file.
pub fn network_of(rt: &impl Abort, alloc: Global, file: &str) -> Result<Rc<Topology>, Fail> {
    assert!(rt; file.len() < 1000);
    let topology = parse_topology(alloc, file.as_bytes()).ok();
    Ok(Rc::new(alloc, topology.ok_or("a network")?)?)
}
