//! Calls of `backup_routes`: which backup a packet takes.
use super::making::{network, nodes_in, number, paths, split};
use backup_routes::backup_for;
use epoch_packet::with_visited;
use std::alloc::Global;
use std::process::Abort;
use std::test::Fail;
use topology::{NodeId, Path, Topology};

// The second node of the backup that a packet takes after it visited these nodes; 0 if it takes none.
fn taken(net: &Topology, backups: &[Path], walk: &[NodeId], up: &[NodeId]) -> u32 {
    let mut visited = 0;
    for node in walk {
        visited = with_visited(net, visited, *node);
    }
    match backup_for(net, backups, visited, up) {
        Some(path) => match path.nodes() {
            [_, next, ..] => u32::from(next.number()),
            _ => 0,
        },
        None => 0,
    }
}

// The nodes that the packet visited, the neighbours whose link to node 1 is up, and the second node of the backup that
// it takes, or 0. In turn: the first backup by rank, although node 1 itself was visited; then backups with a visited
// node, as the second node or later. By hand.
const CASES: &str = "1 2,3,4 2
1 3,4 3
1 4 4
2,1 2,3,4 3
2,1 4 0
4,3,1 2,3,4 0";

fn takes(
    rt: &impl Abort,
    alloc: Global,
    net: &Topology,
    backups: &[Path],
    case: &str,
) -> Result<(), Fail> {
    let (walk, rest) = split(case, ' ')?;
    let (up, wanted) = split(rest, ' ')?;
    let walk = nodes_in(alloc, walk)?;
    let up = nodes_in(alloc, up)?;
    assert_eq!(rt; taken(net, backups, &walk, &up), number(wanted)?, "{case}");
    Ok(())
}

fn takes_what_is_open(rt: &impl Abort, alloc: Global, net: &Topology) -> Result<(), Fail> {
    let backups = paths(alloc, &[&[1, 2, 3], &[1, 3], &[1, 4, 2, 3]])?;
    for case in CASES.lines() {
        takes(rt, alloc, net, &backups, case)?;
    }
    Ok(())
}

#[test]
fn the_first_backup_that_is_open_is_taken(rt: HostRuntime) -> Result<(), Fail> {
    let net = network(rt.alloc(), &[1, 2, 3, 4], &[], 0)?;
    takes_what_is_open(&rt, rt.alloc(), &net)
}
