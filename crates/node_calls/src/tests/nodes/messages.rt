//! Messages of the control network, from their words.
use super::super::words::{ballot, epoch, node, nodes, number, word};
use consolidator::Message;
use incomplete_closure::{PendingRows, Report, RespondingNodes, Rows, SessionRows, Value};
use node_core::Input;
use std::alloc::Global;
use std::rc::Rc;
use std::test::Fail;
use topology::{Ballot, Epoch, NodeId, Triggers};

// The value of these nodes, without incomplete triggers.
fn value_of(alloc: Global, nodes: Vec<NodeId>) -> Value {
    Value {
        responding: RespondingNodes::new(nodes),
        incomplete: Triggers::none(),
    }
}

// An empty report.
fn report_of(alloc: Global, epoch: Epoch, node: NodeId) -> Result<Message, Fail> {
    let report = Report {
        node,
        epoch,
        rows: Rows::new(Vec::new(alloc)),
        sessions: SessionRows::new(Vec::new(alloc)),
        pending: PendingRows::new(Vec::new(alloc)),
    };
    Ok(Message::Report(Rc::new(alloc, report)?))
}

// A promise that names the value of these nodes, or nothing if there are none.
fn promise_of(alloc: Global, epoch: Epoch, ballot: Ballot, nodes: Vec<NodeId>) -> Message {
    if nodes.is_empty() {
        return Message::Promise {
            epoch,
            ballot,
            named: None,
        };
    }
    let named_ballot = Ballot {
        round: ballot.round,
        node: ballot.node,
    };
    let named = Some((named_ballot, value_of(alloc, nodes)));
    Message::Promise {
        epoch,
        ballot,
        named,
    }
}

// A message of this kind.
fn message_of(
    alloc: Global,
    kind: &str,
    epoch: Epoch,
    ballot: Ballot,
    nodes: Vec<NodeId>,
) -> Result<Message, Fail> {
    Ok(match kind {
        "prepare" => Message::Prepare { epoch, ballot },
        "promise" => promise_of(alloc, epoch, ballot, nodes),
        "accept" => Message::Accept {
            epoch,
            ballot,
            value: value_of(alloc, nodes),
        },
        "accepted" => Message::Accepted { epoch, ballot },
        "decision" => Message::Decision {
            epoch,
            value: value_of(alloc, nodes),
        },
        _ => report_of(alloc, epoch, ballot.node)?,
    })
}

/// A message with its sender: its kind, its epoch, its ballot or the node of a report, and the nodes of a value.
pub fn control(alloc: Global, words: &[&str]) -> Result<Input, Fail> {
    let from = node(words, 1)?;
    let kind = word(words, 2)?;
    let message = message_of(
        alloc,
        kind,
        epoch(words, 3)?,
        ballot(words, 4)?,
        nodes(alloc, words, 5)?,
    )?;
    Ok(Input::Control { from, message })
}

/// The message with this number, from node 1.
pub fn heard(messages: &[Message], words: &[&str]) -> Result<Input, Fail> {
    let place = (number(words, 1)? as usize).saturating_sub(1);
    let message = messages.get(place).ok_or("a message")?.copy()?;
    Ok(Input::Control {
        from: NodeId::new(1),
        message,
    })
}
