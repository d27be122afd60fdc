//! Scripts: the members, and the directives of a run.
use crate::events::LeadEvent;
use topology::{NodeId, NodeSet};

/// The kinds of lines, by first word.
#[derive(Clone, Copy, Debug, PartialEq, Eq)]
pub enum Keyword {
    Member,
    Begin,
    Lead,
    Offer,
    Control,
    Crash,
    Restart,
    Show,
}

/// What a line orders.
#[derive(Clone, Copy, Debug, PartialEq, Eq)]
pub enum Directive {
    /// One event. A line is written if it does nothing.
    Event(LeadEvent),
    /// At most this many deliveries, each of the message that is then the next one.
    Deliveries(u32),
    /// A line for each epoch with a chosen value.
    ShowChosen,
}

/// The meaning of a line.
#[derive(Clone, Copy, Debug, PartialEq, Eq)]
pub enum Line {
    Member(NodeId),
    Begin,
    Directs(Directive),
}

/// A directive, and the number of its line, from 1.
#[derive(Clone, Copy, Debug, PartialEq, Eq)]
pub struct Numbered {
    pub line: u32,
    pub directive: Directive,
}

/// A script: its members, and its directives in order.
#[derive(Drop)]
pub struct Script {
    pub members: NodeSet,
    pub directives: Vec<Numbered>,
}
