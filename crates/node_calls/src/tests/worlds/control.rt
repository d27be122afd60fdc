//! Two nodes, the first of which is the only consolidator.
use super::super::networks::PAIR_CONSOLIDATED;
use super::play::Play;
use path_vector::GaoRexford;
use std::process::Abort;
use std::test::Fail;
use topology::{Epoch, PrefixId};
use world_core::World;

// Node 1 starts a snapshot, and node 2 hears of it: both report. Only node 1 may propose, and not before it has a
// report. Both reports arrive, the first one twice. Node 1 agrees with itself on what both reported.
const AGREED: &str = "\
snap 1 | 1 cut 1; 1>2; mailed 1 | 1>2 1
propose 2 1 | idle NotConsolidator | 1>2 1
propose 1 1 | idle NoReport | 1>2 1
deliver 1 2 | 2 cut 1; 2>1; mailed 2 | 2>1 1
ctl 1 | | 2>1 2
ctl 2 | | 2>1 -
ctl 1 | idle Duplicate | 2>1 -
propose 1 1 | mailed 3 | 2>1 3
ctl 4 | idle NoSuchMessage | 2>1 3
ctl 3 | mailed 4 | 2>1 4
ctl 4 | mailed 5 | 2>1 5
";

// It tells both; node 2 is crashed when the decision comes, and is told again.
const TOLD: &str = "\
ctl 5 | mailed 6 | 2>1 6
ctl 6 | mailed 7; mailed 8 | 2>1 7
crash 2 | | 2>1 7
ctl 7 | 1 published 1 | 2>1 -
ctl 8 | idle Crashed | 2>1 -
restart 2 | | 2>1 -
ctl 8 | 2 published 1 | 2>1 -
propose 1 1 | idle Decided | 2>1 -
";

// How often each message was delivered at the end, by number; `None` if there is no such message.
const DELIVERED: [(u32, Option<u32>); 6] = [
    (0, None),
    (1, Some(2)),
    (4, Some(1)),
    (7, Some(1)),
    (8, Some(2)),
    (9, None),
];

// Which events fit: those with nodes of the network, epochs from 1 to 32, and messages from 1 on, sent or not.
const FITTING: &str = "\
ctl 0: no
propose 3 1: no
propose 1 0: no
propose 1 33: no
ctl 9: yes
ctl 1000000: yes
ctl 1000001: no
propose 1 32: yes
";

// How often the message was delivered; `None` if there is no such message.
fn deliveries_of(world: &World<GaoRexford>, number: u32) -> Option<u32> {
    let Some(mail) = world.mail(number) else {
        return None;
    };
    Some(mail.2)
}

fn delivered(rt: &impl Abort, world: &World<GaoRexford>) {
    assert_eq!(rt; world.mail_count(), 8);
    for (number, times) in DELIVERED {
        assert_eq!(rt; deliveries_of(world, number), times, "{number}");
    }
}

// Both published the table of epoch 1, by the value of both reports; it has no path.
fn published(rt: &impl Abort, world: &World<GaoRexford>) {
    assert_eq!(rt; world.publications().len(), 2);
    for publication in world.publications() {
        assert_eq!(rt; publication.epoch(), Epoch::new(1));
        assert_eq!(rt; publication.value().responding.as_slice().len(), 2);
        assert!(rt; publication.path(PrefixId::new(0)).is_none());
    }
}

// By hand.
#[test]
fn a_consolidator_and_another(rt: HostRuntime) -> Result<(), Fail> {
    let mut play = Play::new(&rt, rt.alloc(), PAIR_CONSOLIDATED, GaoRexford)?;
    play.run(&rt, rt.alloc(), AGREED)?;
    play.run(&rt, rt.alloc(), TOLD)?;
    delivered(&rt, play.world()?);
    published(&rt, play.world()?);
    play.admits(&rt, rt.alloc(), FITTING)
}
