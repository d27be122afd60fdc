//! Calls of `consolidator`: the ballots of an epoch, step by step.
use super::making::{node, nodes_in, number, split};
use consolidator::{Consolidator, Mail, Message, Outbox, Reply};
use incomplete_closure::{PendingRows, Report, RespondingNodes, Rows, SessionRows, Value};
use std::alloc::Global;
use std::process::Abort;
use std::rc::Rc;
use std::test::Fail;
use topology::{Ballot, Epoch, NodeId, Reason, Topology, Triggers};

// Nodes 1, 2 and 3 are consolidators, node 4 is not. Each line has a message that arrives at node 1, its reply, and the
// decision of epoch 1 that it then knows. A message is its sender or its addressees, its kind, its epoch, and the rest;
// a value is the list of nodes that responded. By hand.
const CONSOLIDATOR: &str = "propose 1 | idle no-report |
2 report 1 2 | |
3 report 2 3 | |
2 report 1 2 | idle duplicate |
1 report 1 1 | |
propose 1 | 1,2,3 prepare 1 1/1 |
1 prepare 1 1/1 | 1 promise 1 1/1 |
1 prepare 1 1/1 | idle promised 1/1 |
1 promise 1 1/1 | |
1 promise 1 1/1 | idle duplicate |
2 promise 1 2/1 | idle stale |
2 prepare 1 1/2 | 2 promise 1 1/2 |
2 promise 1 1/1 | 1,2,3 accept 1 1/1 1,2 |
3 promise 1 1/1 | idle stale |
1 accept 1 1/1 1,2 | idle promised 1/2 |
2 accepted 1 1/1 | |
2 accepted 1 1/1 | idle duplicate |
2 accept 1 1/2 2 | 2 accepted 1 1/2 |
2 accept 1 1/2 2 | idle duplicate |
propose 1 | 1,2,3 prepare 1 2/1 |
3 accepted 1 1/1 | idle stale |
1 prepare 1 2/1 | 1 promise 1 2/1 1/2 2 |
1 promise 1 2/1 1/2 2 | |
crash | |
3 promise 1 2/1 | idle stale |
propose 1 | idle no-report |
1 prepare 1 2/1 | idle promised 2/1 |
1 report 1 1 | |
3 report 1 3 | |
propose 1 | 1,2,3 prepare 1 3/1 |
1 prepare 1 3/1 | 1 promise 1 3/1 1/2 2 |
3 promise 1 3/1 1/1 1,2 | |
1 promise 1 3/1 1/2 2 | 1,2,3 accept 1 3/1 2 |
1 accept 1 3/1 2 | 1 accepted 1 3/1 |
1 accepted 1 3/1 | |
2 accepted 1 3/1 | 1,2,3,4 decision 1 2 |
3 accepted 1 3/1 | |
1 decision 1 2 | | 2
2 decision 1 1,2 | idle decided | 2
2 report 1 2 | idle decided | 2
propose 1 | idle decided | 2
3 accepted 1 3/1 | idle stale | 2
2 prepare 1 9/2 | 2 promise 1 9/2 3/1 2 | 2
crash | | 2
propose 2 | idle no-report | 2
3 report 2 3 | | 2
propose 2 | 1,2,3 prepare 2 1/1 | 2
2 prepare 2 4294967295/2 | 2 promise 2 4294967295/2 | 2
propose 2 | idle no-round 4294967295/2 | 2";

// The same for node 4.
const OTHER: &str = "propose 1 | idle no-consolidator |
1 report 1 1 | idle no-consolidator |
1 prepare 1 1/1 | idle no-consolidator |
1 promise 1 1/1 | idle no-consolidator |
1 accept 1 1/1 2 | idle no-consolidator |
1 accepted 1 1/1 | idle no-consolidator |
1 decision 1 2 | | 2
1 decision 1 1,2 | idle decided | 2
crash | | 2";

// The same for node 1 as an acceptor, in a network of only nodes 1 and 2.
const ACCEPTOR: &str = "2 prepare 1 1/1 | 2 promise 1 1/1 |
2 accept 1 1/1 1 | 2 accepted 1 1/1 |
2 prepare 1 1/1 | idle promised 1/1 |
2 prepare 1 2/2 | 2 promise 1 2/2 1/1 1 |
2 accept 1 1/1 1 | idle promised 2/2 |
2 accept 1 2/2 1 | 2 accepted 1 2/2 |
2 accept 1 2/2 1 | idle duplicate |";

fn ballot_in(word: &str) -> Result<Ballot, Fail> {
    let (round, of) = split(word, '/')?;
    Ok(Ballot {
        round: number(round)?,
        node: node(of)?,
    })
}

fn value(alloc: Global, word: &str) -> Result<Value, Fail> {
    Ok(Value {
        responding: RespondingNodes::new(nodes_in(alloc, word)?),
        incomplete: Triggers::none(),
    })
}

fn report(alloc: Global, epoch: Epoch, of: &str) -> Result<Message, Fail> {
    let report = Report {
        node: node(of)?,
        epoch,
        rows: Rows::new(Vec::new(alloc)),
        sessions: SessionRows::new(Vec::new(alloc)),
        pending: PendingRows::new(Vec::new(alloc)),
    };
    Ok(Message::Report(Rc::new(alloc, report)?))
}

fn promise(alloc: Global, epoch: Epoch, rest: &str) -> Result<Message, Fail> {
    let (of, rest) = rest.split_once(' ').unwrap_or((rest, ""));
    let ballot = ballot_in(of)?;
    let Some((accepted, word)) = rest.split_once(' ') else {
        let named = None;
        return Ok(Message::Promise {
            epoch,
            ballot,
            named,
        });
    };
    let named = Some((ballot_in(accepted)?, value(alloc, word)?));
    Ok(Message::Promise {
        epoch,
        ballot,
        named,
    })
}

fn accept(alloc: Global, epoch: Epoch, rest: &str) -> Result<Message, Fail> {
    let (of, word) = split(rest, ' ')?;
    Ok(Message::Accept {
        epoch,
        ballot: ballot_in(of)?,
        value: value(alloc, word)?,
    })
}

fn message(alloc: Global, text: &str) -> Result<Message, Fail> {
    let (kind, rest) = split(text, ' ')?;
    let (epoch, rest) = split(rest, ' ')?;
    let epoch = Epoch::new(number(epoch)?);
    match kind {
        "report" => report(alloc, epoch, rest),
        "promise" => promise(alloc, epoch, rest),
        "accept" => accept(alloc, epoch, rest),
        "prepare" => Ok(Message::Prepare {
            epoch,
            ballot: ballot_in(rest)?,
        }),
        "accepted" => Ok(Message::Accepted {
            epoch,
            ballot: ballot_in(rest)?,
        }),
        _ => Ok(Message::Decision {
            epoch,
            value: value(alloc, rest)?,
        }),
    }
}

fn reason(text: &str) -> Result<Reason, Fail> {
    let (word, rest) = text.split_once(' ').unwrap_or((text, ""));
    match word {
        "no-consolidator" => Ok(Reason::NotConsolidator),
        "decided" => Ok(Reason::Decided),
        "no-report" => Ok(Reason::NoReport),
        "duplicate" => Ok(Reason::Duplicate),
        "stale" => Ok(Reason::StaleBallot),
        "promised" => Ok(Reason::Promised(ballot_in(rest)?)),
        _ => Ok(Reason::NoRound(ballot_in(rest)?)),
    }
}

fn reply(alloc: Global, text: &str) -> Result<Reply, Fail> {
    let mut list = Vec::new(alloc);
    let Some((first, rest)) = text.split_once(' ') else {
        return Ok(Reply::Sent(Outbox::new(list)));
    };
    if first == "idle" {
        return Ok(Reply::Idle(reason(rest)?));
    }
    for to in nodes_in(alloc, first)? {
        let message = message(alloc, rest)?;
        list.push(Mail { to, message })?;
    }
    Ok(Reply::Sent(Outbox::new(list)))
}

// The consolidator's reply to a message.
fn reply_of(
    alloc: Global,
    net: &Topology,
    at: Consolidator,
    text: &str,
) -> Result<(Consolidator, Reply), Fail> {
    let mut consolidator = at;
    let Some((first, rest)) = text.split_once(' ') else {
        consolidator.forget();
        return Ok((consolidator, Reply::Sent(Outbox::new(Vec::new(alloc)))));
    };
    if first == "propose" {
        return Ok(consolidator.propose(net, Epoch::new(number(rest)?))?);
    }
    let from = node(first)?;
    Ok(consolidator.handle(net, from, message(alloc, rest)?)?)
}

fn step(
    alloc: Global,
    net: &Topology,
    at: Consolidator,
    text: &str,
) -> Result<(Consolidator, String), Fail> {
    let (next, reply) = reply_of(alloc, net, at, text)?;
    Ok((next, format!(in alloc; "{reply:?}")?))
}

fn wanted(alloc: Global, text: &str) -> Result<String, Fail> {
    let reply = reply(alloc, text)?;
    Ok(format!(in alloc; "{reply:?}")?)
}

fn decision(alloc: Global, consolidator: &Consolidator) -> Result<String, Fail> {
    match consolidator.decision(Epoch::new(1)) {
        Some(value) => Ok(format!(in alloc; "{value:?}")?),
        None => Ok(String::new(alloc)),
    }
}

fn known(alloc: Global, word: &str) -> Result<String, Fail> {
    if word.is_empty() {
        return Ok(String::new(alloc));
    }
    let value = value(alloc, word)?;
    Ok(format!(in alloc; "{value:?}")?)
}

fn knows(
    rt: &impl Abort,
    alloc: Global,
    consolidator: &Consolidator,
    line: &str,
    word: &str,
) -> Result<(), Fail> {
    let decision = decision(alloc, consolidator)?;
    assert_eq!(rt; decision, known(alloc, word)?, "{line}");
    Ok(())
}

fn plays_line(
    rt: &impl Abort,
    alloc: Global,
    net: &Topology,
    at: Consolidator,
    line: &str,
) -> Result<Consolidator, Fail> {
    let (comes, rest) = split(line, '|')?;
    let (replies, word) = split(rest, '|')?;
    let (next, told) = step(alloc, net, at, comes.trim())?;
    assert_eq!(rt; told, wanted(alloc, replies.trim())?, "{line}");
    knows(rt, alloc, &next, line, word.trim())?;
    Ok(next)
}

fn plays(
    rt: &impl Abort,
    alloc: Global,
    net: &Topology,
    node: u16,
    steps: &str,
) -> Result<(), Fail> {
    let mut consolidator = Consolidator::new(alloc, net, NodeId::new(node))?;
    for line in steps.lines() {
        consolidator = plays_line(rt, alloc, net, consolidator, line)?;
    }
    Ok(())
}

// Nodes 1 and 2 are consolidators; in a network of four nodes node 3 is one too.
fn fill(net: &mut Topology, of_four: bool) -> Result<(), Fail> {
    net.add_node(NodeId::new(1), true)?;
    net.add_node(NodeId::new(2), true)?;
    if of_four {
        net.add_node(NodeId::new(3), true)?;
        net.add_node(NodeId::new(4), false)?;
    }
    Ok(())
}

fn consolidators(alloc: Global, of_four: bool) -> Result<Box<Topology>, Fail> {
    let mut net = Box::new(alloc, Topology::empty(alloc))?;
    fill(&mut net, of_four)?;
    Ok(net)
}

#[test]
fn the_ballots_of_an_epoch(rt: HostRuntime) -> Result<(), Fail> {
    let net = consolidators(rt.alloc(), true)?;
    plays(&rt, rt.alloc(), &net, 1, CONSOLIDATOR)?;
    plays(&rt, rt.alloc(), &net, 4, OTHER)
}

#[test]
fn an_acceptor_promises_and_accepts(rt: HostRuntime) -> Result<(), Fail> {
    let net = consolidators(rt.alloc(), false)?;
    plays(&rt, rt.alloc(), &net, 1, ACCEPTOR)
}
