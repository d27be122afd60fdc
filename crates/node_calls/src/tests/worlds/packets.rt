//! Packets that enter a network of two nodes, and go on from there.
use super::super::networks::PAIR_CONSOLIDATED;
use super::play::Play;
use path_vector::GaoRexford;
use std::alloc::Global;
use std::process::Abort;
use std::test::Fail;
use world_core::World;

// Packet 1 enters at node 2, and only once. It goes to node 1, which has the prefix. Packet 2 has nowhere to go.
const ENTERED: &str = "\
hop 1 | idle NoSuchPacket | - -
inject 1 2 | 1 at 2 | - -
inject 1 1 | idle PacketKnown | - -
originate 1 | 1 logged 1; 1>2 | 1>2 -
hop 1 | 1 at 1 | 1>2 -
hop 1 | 1 Delivered | 1>2 -
hop 1 | idle PacketEnded | 1>2 -
fail 1 2 | | - -
inject 2 2 | 2 at 2 | - -
hop 2 | 2 Stuck | - -
";

// Nothing enters at a crashed node. A packet that is known or has ended is so even there. Packet 3 waits at a crashed
// node, and goes on to another one.
const CRASHED: &str = "\
crash 1 | | - -
inject 3 1 | idle Crashed | - -
inject 1 1 | idle PacketKnown | - -
hop 1 | idle PacketEnded | - -
inject 3 2 | 3 at 2 | - -
crash 2 | | - -
hop 3 | idle Crashed | - -
restart 2 | | - -
restore 1 2 | | - -
hop 3 | 3 at 1 | - -
hop 3 | idle Crashed | - -
";

// Which events fit: those with nodes of the network, and packets from 1 on, known or not.
const FITTING: &str = "\
inject 0 1: no
inject 1 3: no
hop 0: no
hop 9: yes
inject 9 2: yes
";

// The walks at the end: no table was published, so each visit is off the tables.
const WALKS: &str = "\
1: 2@Transient 1@Transient Delivered
2: 2@Transient Stuck
3: 2@Transient 1@Transient moving
4: none
";

fn walk_text(alloc: Global, world: &World<GaoRexford>, packet: u32) -> Result<String, Fail> {
    let Some(walk) = world.walk(packet) else {
        return Ok(format!(in alloc; "none")?);
    };
    let mut text = String::new(alloc);
    for visit in walk.0 {
        let node = visit.node.number();
        text.push_str(&format!(in alloc; "{node}@{:?} ", visit.mode)?)?;
    }
    match walk.1 {
        Some(end) => text.push_str(&format!(in alloc; "{end:?}")?)?,
        None => text.push_str("moving")?,
    }
    Ok(text)
}

fn walked(rt: &impl Abort, alloc: Global, world: &World<GaoRexford>) -> Result<(), Fail> {
    for line in WALKS.lines() {
        let (number, walk) = line.split_once(": ").ok_or("a walk")?;
        let text = walk_text(alloc, world, number.parse::<u32>()?)?;
        assert_eq!(rt; text.as_str(), walk, "{line}");
    }
    Ok(())
}

// By hand.
#[test]
fn packets_of_two_nodes(rt: HostRuntime) -> Result<(), Fail> {
    let mut play = Play::new(&rt, rt.alloc(), PAIR_CONSOLIDATED, GaoRexford)?;
    play.run(&rt, rt.alloc(), ENTERED)?;
    play.run(&rt, rt.alloc(), CRASHED)?;
    walked(&rt, rt.alloc(), play.world()?)?;
    play.admits(&rt, rt.alloc(), FITTING)
}
