//! Packets at one node, between two others.
use super::super::networks::LINE;
use super::desk::Desk;
use std::test::Fail;

// What is done at node 2, between the nodes 1 and 3, and the result. The packet that it last handed out goes on, with
// the links to the nodes of these digits up. By hand: if nothing is published, a packet is off the tables at once, and
// it is at the origin; on a table, a path of just node 2 is the end; without a path the packet leaves the tables where
// it stands, and is deflected to the first neighbour whose link is up, or is stuck; epoch 1 is gone once three were
// published, and a packet stamped with it leaves the tables.
const PASSED: &str = "\
originate 1 | logged 1; update 1 1 1; update 3 1 1
inject 1 1 | forward 1 to 2 with 0 off 128
go - | ended 1 Delivered
snap | cut 1; marker 1 1 1; marker 3 1 1
control 3 decision 1 1/1 2 | published 1 with 0
inject 2 1 | forward 2 to 2 with 1 on 128
go 13 | ended 2 Delivered
inject 3 0 | forward 3 to 2 with 1 on 128
go 13 | forward 3 to 2 with 1 off 128
go 3 | forward 3 to 3 with 1 off 127
inject 4 0 | forward 4 to 2 with 1 on 128
go - | forward 4 to 2 with 1 off 128
go - | ended 4 Stuck
inject 5 1 | forward 5 to 2 with 1 on 128
snap | cut 2; marker 1 1 2; marker 3 1 2
control 3 decision 2 1/1 2 | published 2 with 0
snap | cut 3; marker 1 1 3; marker 3 1 3
control 3 decision 3 1/1 2 | published 3 with 0
go 1 | forward 5 to 2 with 1 off 128
go 1 | ended 5 Delivered
inject 6 1 | forward 6 to 2 with 3 on 128
";

// Whether node 2 admits a packet of this number, prefix, stamp and trail, with these links.
const FITTING: &str = "\
packet 1 1 32 2 13: yes
packet 1 0 0 - -: yes
packet 0 1 1 2 13: no
packet 1 2 1 2 13: no
packet 1 1 33 2 13: no
packet 1 1 1 4 13: no
packet 1 1 1 2 31: no
packet 1 1 1 2 2: no
";

#[test]
fn packets_come_and_go(rt: HostRuntime) -> Result<(), Fail> {
    let mut desk = Desk::new(&rt, rt.alloc(), LINE, 2)?;
    desk.run(&rt, rt.alloc(), PASSED)?;
    desk.admits(&rt, rt.alloc(), FITTING)
}
