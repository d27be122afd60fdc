//! The messages of the control network.
ghost use Rattle.std.specs.Prelude.{◌≡◌, ◌∷◌, [], Option, map, IfOk};
ghost use Rattle.consolidator.specs.Answers.{is_for_all as is_open};
ghost use Rattle.consolidator.specs.Messages.{epoch_of};
ghost use Rattle.consolidator.specs.Seen.{message_seen, mails_seen};

use incomplete_closure::{Report, Value};
use std::alloc::Global;
use std::marker::Model;
use std::rc::Rc;
use topology::{Ballot, Epoch, NoMemory, NodeId, Reason};

/// A message of the control network.
#[derive(Debug, Drop)]
pub enum Message {
    /// The report of a cut. It goes to consolidators.
    Report(Rc<Report>),
    /// Asks a consolidator to promise the ballot.
    Prepare {
        epoch: Epoch,
        ballot: Ballot,
    },
    /// The sender promises the ballot, and names what it accepted last.
    Promise {
        epoch: Epoch,
        ballot: Ballot,
        named: Option<(Ballot, Value)>,
    },
    /// Asks a consolidator to accept the value in the ballot.
    Accept {
        epoch: Epoch,
        ballot: Ballot,
        value: Value,
    },
    /// The sender accepted the value of the ballot.
    Accepted {
        epoch: Epoch,
        ballot: Ballot,
    },
    /// The value is chosen. This goes to every node.
    Decision {
        epoch: Epoch,
        value: Value,
    },
}

// A copy of what a Promise names.
fn copy_named(named: &Option<(Ballot, Value)>) -> Result<Option<(Ballot, Value)>, NoMemory>
    ensures { IfOk result (λ copy. copy ≡ named.now) }
{
    match named {
        Some((ballot, value)) => Ok(Some((*ballot, value.copy()?))),
        None => Ok(None),
    }
}

impl Message {
    /// The epoch that the message is about.
    pub fn epoch(&self) -> Epoch
        ensures { result ≡ epoch_of (message_seen self.now) }
    {
        match self {
            Message::Report(report) => report.epoch,
            Message::Prepare { epoch, .. } => *epoch,
            Message::Promise { epoch, .. } => *epoch,
            Message::Accept { epoch, .. } => *epoch,
            Message::Accepted { epoch, .. } => *epoch,
            Message::Decision { epoch, .. } => *epoch,
        }
    }

    /// Whether the message is for every node, and not only for consolidators.
    pub fn is_for_all(&self) -> bool
        ensures { result ≡ is_open (message_seen self.now) }
    {
        matches!(self, Message::Decision { .. })
    }

    /// An equal message. The report of a cut is shared, not copied.
    pub fn copy(&self) -> Result<Message, NoMemory>
        ensures { IfOk result (λ copy. message_seen copy ≡ message_seen self.now) }
    {
        match self {
            Message::Report(report) => Ok(Message::Report(report.clone()?)),
            Message::Prepare { epoch, ballot } => Ok(Message::Prepare {
                epoch: *epoch,
                ballot: *ballot,
            }),
            Message::Promise {
                epoch,
                ballot,
                named,
            } => Ok(Message::Promise {
                epoch: *epoch,
                ballot: *ballot,
                named: copy_named(named)?,
            }),
            Message::Accept {
                epoch,
                ballot,
                value,
            } => Ok(Message::Accept {
                epoch: *epoch,
                ballot: *ballot,
                value: value.copy()?,
            }),
            Message::Accepted { epoch, ballot } => Ok(Message::Accepted {
                epoch: *epoch,
                ballot: *ballot,
            }),
            Message::Decision { epoch, value } => Ok(Message::Decision {
                epoch: *epoch,
                value: value.copy()?,
            }),
        }
    }
}

/// A message and its addressee.
#[derive(Debug, Drop)]
pub struct Mail {
    pub to: NodeId,
    pub message: Message,
}

/// Mails in the order in which they are sent.
#[derive(Debug, Drop)]
pub struct Outbox {
    list: Vec<Mail>,
}

impl Model for Outbox {
    ghost use Rattle.std.specs.Prelude.{List};
    ghost use Rattle.consolidator.specs.declared.messages.Mail.{Mail};

    ghost Value = { List Mail };

    ghost view = { λ m. m.list.items };
}

impl Outbox {
    /// An outbox from a list. Takes no memory.
    pub fn new(list: Vec<Mail>) -> Outbox
        ensures { result ≡ list.items }
    {
        Outbox { list }
    }

    pub fn as_slice(&self) -> &[Mail]
        ensures { result.now ≡ self.now }
    {
        &self.list
    }

    /// The mails as a list. Takes no memory.
    pub fn into_list(self) -> Vec<Mail>
        ensures { result.items ≡ self }
    {
        self.list
    }
}

// An outbox with one message.
pub(crate) fn one(alloc: Global, to: NodeId, message: Message) -> Result<Outbox, NoMemory>
    ensures { IfOk result (λ mails. mails_seen mails ≡ (to, message_seen message) ∷ []) }
{
    let mut list = Vec::new(alloc);
    list.push(Mail { to, message })?;
    Ok(Outbox::new(list))
}

// An outbox with the message for each of the nodes.
pub(crate) fn to_each(
    alloc: Global,
    nodes: &[NodeId],
    message: &Message,
) -> Result<Outbox, NoMemory>
    ensures { IfOk result (λ mails. mails_seen mails ≡ map (λ to. (to, message_seen message.now)) nodes.now) }
{
    let mut list = Vec::with_capacity(alloc, nodes.len())?;
    for node in nodes {
        let copy = message.copy()?;
        list.push(Mail {
            to: *node,
            message: copy,
        })?;
    }
    Ok(Outbox::new(list))
}

/// What a node does when a message arrives, or when it should propose: it sends messages, or it does nothing.
#[derive(Debug, Drop)]
pub enum Reply {
    Sent(Outbox),
    Idle(Reason),
}
