//! A withdrawal that is on its way while the cuts are taken.
use super::super::networks::LINE;
use super::play::Play;
use path_vector::GaoRexford;
use std::test::Fail;
use topology::{Epoch, NodeId};
use world_core::World;

// Node 1 originates; node 3 hears of it last.
const ANNOUNCED: &str = "\
originate 1 | 1 logged 1; 1>2 | 1>2 -
deliver 1 2 | 2 logged 1; 2>1; 2>3 | 2>1 -
deliver 2 1 | 1 logged 2 | 2>3 -
deliver 2 3 | 3 logged 1; 3>2 | 3>2 -
deliver 3 2 | 2 logged 2 | - -
";

// Node 2 starts a snapshot, and node 1 withdraws the prefix before it hears of that. The markers arrive before what was
// sent after them.
const WITHDRAWN: &str = "\
snap 2 | 2 cut 1; 2>1; 2>3 | 2>1 -
withdraw 1 | 1 logged 3; 1>2 | 1>2 -
deliver 1 2 | 2 logged 3; 2>1; 2>3 | 2>1 -
deliver 2 1 | 1 cut 1; 1>2 | 1>2 -
deliver 1 2 | | 2>1 -
deliver 2 1 | 1 logged 4 | 2>3 -
deliver 2 3 | 3 cut 1; 3>2 | 2>3 -
deliver 2 3 | 3 logged 2; 3>2 | 3>2 -
deliver 3 2 | | 3>2 -
deliver 3 2 | 2 logged 4 | - -
";

// How many entries the cut of epoch 1 has at a node, and how many updates it recorded of another node; 99 if there is
// none.
fn cut_at(world: &World<GaoRexford>, node: u16, nbr: u16) -> (u32, u32) {
    let Some(node) = world.node(NodeId::new(node)) else {
        return (99, 99);
    };
    let snapshots = node.snapshots();
    let entries = snapshots.cut_of(Epoch::new(1)).unwrap_or(99);
    match snapshots.recorded(Epoch::new(1), NodeId::new(nbr)) {
        Some(recording) if recording.done => (entries, recording.count),
        _ => (entries, 99),
    }
}

#[test]
fn a_withdrawal_on_its_way(rt: HostRuntime) -> Result<(), Fail> {
    let mut play = Play::new(&rt, rt.alloc(), LINE, GaoRexford)?;
    play.run(&rt, rt.alloc(), ANNOUNCED)?;
    play.run(&rt, rt.alloc(), WITHDRAWN)?;
    let world = play.world()?;
    assert_eq!(rt; cut_at(world, 1, 2), (3, 0));
    assert_eq!(rt; cut_at(world, 2, 1), (2, 1));
    assert_eq!(rt; cut_at(world, 2, 3), (2, 0));
    assert_eq!(rt; cut_at(world, 3, 2), (1, 0));
    Ok(())
}
