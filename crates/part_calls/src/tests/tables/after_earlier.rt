//! Tables that are made after an earlier one, which has some of their paths, or all of them.
use super::{begun, has_backups, has_path, value};
use crate::tests::making::{STAR, network};
use path_vector::ShortestAll;
use stable_table::{Table, table_after, table_of};
use std::alloc::Global;
use std::process::Abort;
use std::test::Fail;
use topology::{Epoch, Topology};
use trigger_log::NodeLog;

fn first(
    alloc: Global,
    net: &Topology,
    log: &NodeLog<ShortestAll>,
    cut: u32,
) -> Result<Table, Fail> {
    let agreed = value(alloc, "1,2,3,4,9", "0")?;
    Ok(table_of(alloc, net, log, cut, Epoch::new(2), &agreed)?)
}

fn after(
    alloc: Global,
    net: &Topology,
    log: &NodeLog<ShortestAll>,
    earlier: &Table,
) -> Result<Table, Fail> {
    let agreed = value(alloc, "1,2,3,4,9", "0")?;
    Ok(table_after(alloc, net, log, 4, Epoch::new(3), &agreed, Some(earlier))?)
}

// The table over four updates, by hand, where the earlier table is one over the given number of updates.
fn is_made(
    rt: &impl Abort,
    alloc: Global,
    net: &Topology,
    log: &NodeLog<ShortestAll>,
    cut: u32,
) -> Result<(), Fail> {
    let earlier = first(alloc, net, log, cut)?;
    let table = after(alloc, net, log, &earlier)?;
    assert!(rt; table.epoch() == Epoch::new(3));
    has_path(rt, alloc, &table, 0, "2,3")?;
    has_backups(rt, alloc, &table, "2,3,2,4,2,1,9")
}

fn are_made(rt: &impl Abort, alloc: Global, net: &Topology) -> Result<(), Fail> {
    let log = begun(alloc, net)?;
    // the path by 1 is the same, that by 3 has become another, and 4 had told none
    is_made(rt, alloc, net, &log, 2)?;
    // all paths are the same
    is_made(rt, alloc, net, &log, 4)
}

#[test]
fn tables_after_earlier_ones(rt: HostRuntime) -> Result<(), Fail> {
    let net = network(rt.alloc(), &[1, 2, 3, 4, 9], &STAR, 2)?;
    are_made(&rt, rt.alloc(), &net)
}
