//! Three nodes in a line.
use super::super::networks::LINE;
use super::play::Play;
use path_vector::GaoRexford;
use std::test::Fail;
use topology::NodeId;

// Two idle events; then node 1 originates, and node 2 hears of it and tells both neighbours.
const TOLD: &str = "\
deliver 1 2 | idle EmptyChannel | - -
withdraw 1 | idle NotOrigin | - -
originate 1 | 1 logged 1; 1>2 | 1>2 -
originate 1 | idle AlreadyOrigin | 1>2 -
deliver 1 2 | 2 logged 1; 2>1; 2>3 | 2>1 -
prefer 3 2 2 | 3 logged 1 | 2>1 -
";

const FITTING: &str = "\
deliver 1 3: no
fail 3 1: no
snap 4: no
";

// What is sent over a link that is down is lost, and so is what was on its way when the link failed.
const LOST: &str = "\
originate 1 | 1 logged 1; 1>2 | 1>2 -
fail 3 2 | | 1>2 -
deliver 1 2 | 2 logged 1; 2>1; 2>3 lost | 2>1 -
fail 1 2 | | - -
deliver 2 1 | idle LinkDown | - -
";

#[test]
fn a_line_of_three(rt: HostRuntime) -> Result<(), Fail> {
    let mut play = Play::new(&rt, rt.alloc(), LINE, GaoRexford)?;
    play.run(&rt, rt.alloc(), TOLD)?;
    play.admits(&rt, rt.alloc(), FITTING)?;
    let world = play.world()?;
    assert_eq!(rt; world.events().len(), 6);
    assert!(rt; world.node(NodeId::new(4)).is_none());
    Ok(())
}

#[test]
fn what_is_lost(rt: HostRuntime) -> Result<(), Fail> {
    let mut play = Play::new(&rt, rt.alloc(), LINE, GaoRexford)?;
    play.run(&rt, rt.alloc(), LOST)
}

// If nothing waits, no event is added; otherwise the next delivery is.
#[test]
fn the_next_delivery(rt: HostRuntime) -> Result<(), Fail> {
    let mut play = Play::new(&rt, rt.alloc(), LINE, GaoRexford)?;
    play.deliver(&rt, rt.alloc(), "-", 0)?;
    play.run(&rt, rt.alloc(), TOLD)?;
    play.deliver(&rt, rt.alloc(), "2>1", 7)
}
