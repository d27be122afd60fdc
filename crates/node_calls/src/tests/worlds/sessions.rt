//! Two nodes whose link fails and comes up again.
use super::super::networks::{HOLDING_PAIR, PAIR};
use super::play::Play;
use path_vector::{GaoRexford, ShortestAll};
use std::alloc::Global;
use std::process::Abort;
use std::test::Fail;
use topology::NodeId;

// The link fails while an update is on its way, and both ends notice it. It comes up again, both ends open the next
// session, and all that is on its way arrives.
const ANEW: &str = "\
originate 1 | 1 logged 1; 1>2 | 1>2 -
fail 1 2 | | - -
notice 1 2 | 1 logged 2 | - -
notice 2 1 | 2 logged 1 | - -
restore 1 2 | | - -
open 1 2 | 1 logged 3; 1>2 | - -
open 2 1 | 2 logged 2; 2>1 | 1>2 -
deliver 1 2 | 2 logged 3 | 2>1 -
deliver 2 1 | 1 logged 4; 1>2 | 1>2 -
deliver 1 2 | 2 logged 4; 2>1 | 2>1 -
deliver 2 1 | 1 logged 5 | - -
";

// Only node 1 notices. What it says in the new session waits until node 2 has opened the session too.
const ONE_END: &str = "\
fail 2 1 | | - -
notice 1 2 | 1 logged 1 | - -
restore 1 2 | | - -
open 1 2 | 1 logged 2; 1>2 | - -
deliver 1 2 | idle WrongSession | - -
notice 2 1 | 2 logged 1 | - -
deliver 1 2 | idle WrongSession | - -
open 2 1 | 2 logged 2; 2>1 | 1>2 -
deliver 1 2 | 2 logged 3 | 2>1 -
";

// Events that do nothing while the link is up, and while it is down.
const REASONS: &str = "\
restore 1 2 | idle AlreadyUp | - -
notice 1 2 | idle StillUp | - -
open 1 2 | idle AlreadyOpen | - -
fail 1 2 | | - -
fail 2 1 | idle AlreadyDown | - -
open 1 2 | idle AlreadyOpen | - -
notice 1 2 | 1 logged 1 | - -
notice 1 2 | idle NotOpen | - -
open 1 2 | idle LinkDown | - -
";

// Node 1 holds back from node 2. A flush sends what is held back, or does nothing, for each of its reasons.
const HELD: &str = "\
originate 1 | 1 logged 1 | - -
flush 2 1 | idle NothingPending | - -
flush 1 2 | 1 logged 2; 1>2 | 1>2 -
flush 1 2 | idle NothingPending | 1>2 -
deliver 1 2 | 2 logged 1; 2>1 | 2>1 -
withdraw 1 | 1 logged 3 | 2>1 -
fail 1 2 | | - -
notice 1 2 | 1 logged 4 | - -
flush 1 2 | idle NotOpen | - -
crash 1 | | - -
flush 1 2 | idle Crashed | - -
";

// Node 2 crashes with an update on its way to it.
const STOPPED: &str = "\
originate 1 | 1 logged 1; 1>2 | 1>2 -
crash 2 | | - -
";

// It comes back.
const BACK: &str = "\
deliver 1 2 | idle Crashed | - -
restart 2 | | 1>2 -
restart 2 | idle NotCrashed | 1>2 -
";

#[test]
fn a_link_that_comes_up_again(rt: HostRuntime) -> Result<(), Fail> {
    let mut play = Play::new(&rt, rt.alloc(), PAIR, GaoRexford)?;
    play.run(&rt, rt.alloc(), ANEW)?;
    let mut play = Play::new(&rt, rt.alloc(), PAIR, ShortestAll)?;
    play.run(&rt, rt.alloc(), ANEW)
}

// Runs the lines in a world of two nodes.
fn happens(rt: &impl Abort, alloc: Global, lines: &str) -> Result<Play<ShortestAll>, Fail> {
    let mut play = Play::new(rt, alloc, PAIR, ShortestAll)?;
    play.run(rt, alloc, lines)?;
    Ok(play)
}

#[test]
fn one_end_notices(rt: HostRuntime) -> Result<(), Fail> {
    happens(&rt, rt.alloc(), ONE_END)?;
    Ok(())
}

#[test]
fn each_reason(rt: HostRuntime) -> Result<(), Fail> {
    happens(&rt, rt.alloc(), REASONS)?;
    Ok(())
}

#[test]
fn a_node_holds_back(rt: HostRuntime) -> Result<(), Fail> {
    let mut play = Play::new(&rt, rt.alloc(), HOLDING_PAIR, ShortestAll)?;
    play.run(&rt, rt.alloc(), HELD)
}

#[test]
fn a_node_stops(rt: HostRuntime) -> Result<(), Fail> {
    let mut play = happens(&rt, rt.alloc(), STOPPED)?;
    assert!(rt; play.world()?.crashed(NodeId::new(2)));
    assert!(rt; !play.world()?.crashed(NodeId::new(1)));
    play.run(&rt, rt.alloc(), BACK)?;
    assert!(rt; !play.world()?.crashed(NodeId::new(2)));
    Ok(())
}
