//! Calls of `paxos_core`: an acceptor and a proposer, each without failures and with enough memory.
use super::making::ballot;
use paxos_core::{Acceptor, Prepared, Proposer, Tally, Took};
use std::process::Abort;
use topology::{Ballot, NoMemory, NodeId};

// Round and node of two ballots, and whether the first is below the second.
const PAIRS: [((u32, u16), (u32, u16), bool); 5] = [
    ((1, 2), (1, 2), false),
    ((1, 2), (1, 3), true),
    ((1, 3), (1, 2), false),
    ((1, 9), (2, 1), true),
    ((2, 1), (1, 9), false),
];

fn is_below(rt: &impl Abort, a: (u32, u16), b: (u32, u16), below: bool) {
    assert!(rt; ballot(a.0, a.1).is_below(ballot(b.0, b.1)) == below);
}

#[test]
fn ballots_are_compared_by_round_then_node(rt: HostRuntime) {
    for (a, b, below) in &PAIRS {
        is_below(&rt, *a, *b, *below);
    }
}

fn takes(rt: &impl Abort, acceptor: &mut Acceptor<u32>) {
    assert!(rt; acceptor.promised() == None);
    assert!(rt; acceptor.on_prepare(ballot(1, 1)) == Prepared::Promise);
    assert!(rt; acceptor.accepted() == None);
    assert!(rt; acceptor.on_accept(ballot(1, 1), 7) == Took::Accepted);
}

fn refuses(rt: &impl Abort, acceptor: &mut Acceptor<u32>) {
    assert!(rt; acceptor.on_prepare(ballot(1, 1)) == Prepared::Refused(ballot(1, 1)));
    assert!(rt; acceptor.on_prepare(ballot(2, 2)) == Prepared::Promise);
    assert!(rt; acceptor.accepted() == Some((ballot(1, 1), &7)));
    assert!(rt; acceptor.on_accept(ballot(1, 1), 7) == Took::Refused(ballot(2, 2)));
}

fn takes_again(rt: &impl Abort, acceptor: &mut Acceptor<u32>) {
    assert!(rt; acceptor.on_accept(ballot(2, 2), 7) == Took::Accepted);
    assert!(rt; acceptor.on_accept(ballot(2, 2), 7) == Took::Again);
    assert!(rt; acceptor.promised() == Some(ballot(2, 2)));
}

#[test]
fn an_acceptor_keeps_its_promise(rt: HostRuntime) {
    let mut acceptor: Acceptor<u32> = Acceptor::new();
    takes(&rt, &mut acceptor);
    refuses(&rt, &mut acceptor);
    takes_again(&rt, &mut acceptor);
}

// The word of a tally's answer, and the value that came with it.
fn shown(tally: Result<Tally<u32>, NoMemory>) -> (&'static str, Option<u32>) {
    match tally {
        Ok(Tally::Counted) => ("counted", None),
        Ok(Tally::Majority(value)) => ("majority", value),
        Ok(Tally::Stale) => ("stale", None),
        Ok(Tally::Duplicate) => ("duplicate", None),
        Err(_) => ("no memory", None),
    }
}

// Gives the proposer a promise of one of five members, which names an accepted value, and checks the answer.
fn hears(
    rt: &impl Abort,
    proposer: &mut Proposer<u32>,
    from: u16,
    of: Ballot,
    named: Option<(Ballot, u32)>,
    wanted: (&'static str, Option<u32>),
) {
    assert!(rt; shown(proposer.on_promise(NodeId::new(from), of, named, 5)) == wanted);
}

#[test]
fn a_proposer_goes_to_a_majority(rt: HostRuntime) {
    let mut proposer: Proposer<u32> = Proposer::new(rt.alloc(), NodeId::new(1));
    assert!(rt; proposer.last_round() == 0);
    let mine = proposer.start(4);
    assert!(rt; mine == ballot(5, 1));
    let lower = Some((ballot(2, 3), 8));
    let higher = Some((ballot(2, 3), 9));
    hears(&rt, &mut proposer, 1, ballot(4, 1), None, ("stale", None));
    hears(&rt, &mut proposer, 1, mine, None, ("counted", None));
    hears(&rt, &mut proposer, 1, mine, None, ("duplicate", None));
    hears(&rt, &mut proposer, 2, mine, lower, ("counted", None));
    hears(&rt, &mut proposer, 3, mine, higher, ("majority", Some(8)));
    hears(&rt, &mut proposer, 4, mine, None, ("counted", None));
}

// Gives the node its own acceptance, where it is the only member, and checks the answer.
fn accepts(rt: &impl Abort, proposer: &mut Proposer<u32>, of: &Ballot, wanted: &str) {
    let word = match proposer.on_accepted(NodeId::new(1), *of, 1) {
        Ok(Tally::Stale) => "stale",
        Ok(Tally::Majority(None)) => "majority",
        Ok(Tally::Duplicate) => "duplicate",
        _ => "another",
    };
    assert!(rt; word == wanted);
}

#[test]
fn a_proposer_alone_gets_its_value_chosen(rt: HostRuntime) {
    let node = NodeId::new(1);
    let mut proposer: Proposer<u32> = Proposer::new(rt.alloc(), node);
    let first = proposer.start(0);
    proposer.forget();
    let mine = proposer.start(0);
    assert!(rt; proposer.last_round() == 2);
    assert!(rt; shown(proposer.on_promise(node, first, None, 1)) == ("stale", None));
    let Ok(Tally::Majority(None)) = proposer.on_promise(node, mine, None, 1) else {
        panic!(rt; "no majority of one")
    };
    proposer.propose();
    accepts(&rt, &mut proposer, &first, "stale");
    accepts(&rt, &mut proposer, &mine, "majority");
    accepts(&rt, &mut proposer, &mine, "duplicate");
}
