//! Calls of `control_mail`: what is posted, and how often it is delivered.
use super::making::{ballot, network};
use consolidator::{Mail, Message};
use control_mail::Mails;
use std::alloc::Global;
use std::process::Abort;
use std::test::Fail;
use topology::{Epoch, NodeId};

// An act on the messages, or a reading of them.
#[derive(Clone, Copy)]
enum MailAct {
    // from one node to another, about an epoch
    Post(u16, u16, u32),
    Deliver(u32),
    Crash(u16),
    Restart(u16),
    // the number of the next message
    Next(Option<u32>),
    // a number, then the message's sender, addressee and epoch, and how often it was delivered
    Kept(u32, u16, u16, u32, u32),
    // no message has the number
    Missing(u32),
    Count(u32),
    Crashed(u16, bool),
}

// Nodes 1 to 3, by hand.
const DELIVERIES: [MailAct; 40] = [
    // the start
    MailAct::Count(0),
    MailAct::Next(None),
    MailAct::Missing(0),
    MailAct::Missing(1),
    // numbered from 1 in order
    MailAct::Post(1, 2, 10),
    MailAct::Post(1, 3, 11),
    MailAct::Post(3, 2, 12),
    MailAct::Post(2, 2, 13),
    MailAct::Count(4),
    MailAct::Next(Some(1)),
    MailAct::Kept(1, 1, 2, 10, 0),
    MailAct::Kept(3, 3, 2, 12, 0),
    MailAct::Missing(5),
    // out of order
    MailAct::Deliver(2),
    MailAct::Next(Some(1)),
    MailAct::Deliver(1),
    MailAct::Next(Some(3)),
    // again, and of no message
    MailAct::Deliver(1),
    MailAct::Deliver(9),
    MailAct::Deliver(0),
    MailAct::Kept(1, 1, 2, 10, 2),
    MailAct::Kept(2, 1, 3, 11, 1),
    MailAct::Missing(9),
    MailAct::Count(4),
    MailAct::Next(Some(3)),
    // a crashed node gets no next message, and a delivery to it counts
    MailAct::Crash(2),
    MailAct::Next(None),
    MailAct::Post(2, 3, 14),
    MailAct::Post(1, 2, 15),
    MailAct::Next(Some(5)),
    MailAct::Deliver(3),
    MailAct::Kept(3, 3, 2, 12, 1),
    MailAct::Deliver(5),
    MailAct::Next(None),
    // the messages that wait keep waiting
    MailAct::Restart(2),
    MailAct::Next(Some(4)),
    MailAct::Deliver(4),
    MailAct::Next(Some(6)),
    MailAct::Deliver(6),
    MailAct::Next(None),
];

// The same nodes; node 9 is not in the network.
const CRASHES: [MailAct; 26] = [
    MailAct::Crashed(1, false),
    MailAct::Crashed(9, false),
    MailAct::Crash(1),
    MailAct::Crash(1),
    MailAct::Crash(2),
    MailAct::Crashed(1, true),
    MailAct::Crashed(2, true),
    MailAct::Crashed(3, false),
    // to crashed nodes, to a node outside, to one that runs
    MailAct::Post(3, 2, 20),
    MailAct::Post(3, 1, 21),
    MailAct::Next(None),
    MailAct::Post(3, 9, 22),
    MailAct::Post(1, 3, 23),
    MailAct::Next(Some(3)),
    MailAct::Deliver(3),
    MailAct::Next(Some(4)),
    // the lower number first, once its addressee is back
    MailAct::Restart(1),
    MailAct::Next(Some(2)),
    MailAct::Restart(2),
    MailAct::Restart(2),
    MailAct::Next(Some(1)),
    MailAct::Crashed(1, false),
    MailAct::Crashed(2, false),
    // a message that was delivered before the crash does not wait again
    MailAct::Deliver(1),
    MailAct::Crash(2),
    MailAct::Restart(2),
];

fn post(mails: &mut Mails, from: u16, to: u16, epoch: u32) -> Result<(), Fail> {
    let message = Message::Accepted {
        epoch: Epoch::new(epoch),
        ballot: ballot(1, from),
    };
    let to = NodeId::new(to);
    mails.post(NodeId::new(from), Mail { to, message })?;
    Ok(())
}

fn is_kept(rt: &impl Abort, mails: &Mails, number: u32, ends: (u16, u16), seen: (u32, u32)) {
    match mails.kept(number) {
        Some(kept) => {
            assert!(rt; kept.from.number() == ends.0 && kept.mail.to.number() == ends.1);
            assert!(rt; kept.mail.message.epoch().number() == seen.0 && kept.deliveries == seen.1);
        }
        None => { assert!(rt; false) }
    }
}

fn play(rt: &impl Abort, mails: &mut Mails, act: MailAct) -> Result<(), Fail> {
    match act {
        MailAct::Post(from, to, epoch) => post(mails, from, to, epoch)?,
        MailAct::Deliver(number) => mails.deliver(number),
        MailAct::Crash(node) => mails.crash(NodeId::new(node)),
        MailAct::Restart(node) => mails.restart(NodeId::new(node)),
        MailAct::Next(number) => { assert!(rt; mails.next() == number) }
        MailAct::Kept(number, from, to, epoch, deliveries) => {
            is_kept(rt, mails, number, (from, to), (epoch, deliveries))
        }
        MailAct::Missing(number) => { assert!(rt; mails.kept(number).is_none()) }
        MailAct::Count(count) => { assert!(rt; mails.count() == count) }
        MailAct::Crashed(node, crashed) => {
            assert!(rt; mails.is_crashed(NodeId::new(node)) == crashed)
        }
    }
    Ok(())
}

fn plays(rt: &impl Abort, mails: &mut Mails, acts: &[MailAct]) -> Result<(), Fail> {
    for act in acts {
        play(rt, mails, *act)?;
    }
    Ok(())
}

fn of_three(alloc: Global) -> Result<Box<Mails>, Fail> {
    let net = network(alloc, &[1, 2, 3], &[], 0)?;
    Ok(Box::new(alloc, Mails::new(alloc, &net)?)?)
}

#[test]
fn messages_stay_and_are_counted(rt: HostRuntime) -> Result<(), Fail> {
    let mut mails = of_three(rt.alloc())?;
    plays(&rt, &mut mails, &DELIVERIES)
}

#[test]
fn messages_wait_through_crashes(rt: HostRuntime) -> Result<(), Fail> {
    let mut mails = of_three(rt.alloc())?;
    plays(&rt, &mut mails, &CRASHES)?;
    assert!(&rt; mails.next() == Some(2));
    Ok(())
}
