//! The messages that wait for each node.
ghost use Rattle.std.specs.BTreeSet.{contains};
ghost use Rattle.std.specs.Ordering.{nat_cmp};
ghost use Rattle.std.specs.Prelude.{ℕ, ◌≡◌, ◌==◌, true, false, [], IfOk, OnOk, OnErr, IfSome, IfNone};
ghost use Rattle.control_mail.specs.Keeping.{Stopped, Waiting, IsAbsent, IsAt, HasInbox, Keeps, IsLowest, with_stopped, with_waiting, offers, lower};

use crate::inbox::Inbox;
use std::alloc::Global;
use std::marker::Model;
use topology::{NoMemory, NodeId};

/// An inbox for each node that was added, and for each node to which something was sent.
#[derive(Drop)]
pub struct Inboxes {
    boxes: Vec<Inbox>,
    alloc: Global,
}

impl Model for Inboxes {
    ghost use Rattle.std.specs.Prelude.{List};
    ghost use Rattle.control_mail.specs.declared.inbox.Inbox.{Inbox};

    ghost Value = { List Inbox };

    ghost view = { λ i. i.boxes.items };
}

// The inbox of a node for which one number waits.
fn with_one(alloc: Global, node: NodeId, number: u32) -> Result<Inbox, NoMemory>
    ensures node { IfOk result (λ b. b.node ≡ node) }
    ensures runs { IfOk result (λ b. b.crashed ≡ false) }
    ensures one { IfOk result (λ b. (k : ℕ) → contains nat_cmp b.waiting k ≡ (number == k)) }
{
    let mut inbox = Inbox::new(alloc, node);
    inbox.add(number)?;
    Ok(inbox)
}

// The lower of two numbers, if both are there; otherwise the one that is there.
fn lower_of(a: Option<u32>, b: Option<u32>) -> Option<u32>
    ensures { result ≡ lower a b }
{
    match a {
        None => b,
        Some(x) => match b {
            None => Some(x),
            Some(y) => Some(x.min(y)),
        },
    }
}

// The place of a node's inbox; `None` if it has none.
fn place_of(boxes: &[Inbox], node: NodeId) -> Option<usize>
    ensures some { IfSome result (λ place. IsAt boxes.now node place) }
    ensures none { IfNone result (IsAbsent boxes.now node) }
{
    let mut place = 0;
    for inbox in boxes {
        if inbox.node() == node {
            return Some(place);
        }
        place += 1;
    }
    None
}

// The lowest number that waits for a running node.
fn lowest_of(boxes: &[Inbox]) -> Option<u32>
    ensures { IsLowest (offers boxes.now) result }
{
    let mut lowest = None;
    for inbox in boxes {
        lowest = lower_of(lowest, inbox.next());
    }
    lowest
}

impl Inboxes {
    /// No inboxes. Takes no memory.
    pub fn new(alloc: Global) -> Inboxes
        ensures { result ≡ [] }
    {
        Inboxes {
            boxes: Vec::new(alloc),
            alloc,
        }
    }

    /// Adds an inbox for the node, unless it has one.
    pub fn open(&mut self, node: NodeId) -> Result<(), NoMemory>
        ensures keeps { OnOk result ((stopped : Stopped) (waiting : Waiting) → Keeps self.old stopped waiting →
            Keeps self.new stopped waiting) }
        ensures opened { OnOk result (HasInbox self.new node) }
        ensures others { OnOk result ((u : ℕ) → HasInbox self.old u → HasInbox self.new u) }
        ensures err { OnErr result (self.new ≡ self.old) }
    {
        if place_of(&self.boxes, node).is_none() {
            self.boxes.push(Inbox::new(self.alloc, node))?;
        }
        Ok(())
    }

    /// Adds the number to those that wait for the node.
    pub fn put(&mut self, node: NodeId, number: u32) -> Result<(), NoMemory>
        ensures keeps { OnOk result ((stopped : Stopped) (waiting : Waiting) → Keeps self.old stopped waiting →
            Keeps self.new stopped (with_waiting node number true waiting)) }
        ensures others { OnOk result ((u : ℕ) → HasInbox self.old u → HasInbox self.new u) }
        ensures err { OnErr result (self.new ≡ self.old) }
    {
        let Some(place) = place_of(&self.boxes, node) else {
            self.boxes.push(with_one(self.alloc, node, number)?)?;
            return Ok(());
        };
        self.boxes[place].add(number)
    }

    /// Removes the number from those that wait for the node. Takes no memory.
    pub fn take(&mut self, node: NodeId, number: u32)
        ensures keeps { (stopped : Stopped) (waiting : Waiting) → Keeps self.old stopped waiting →
            Keeps self.new stopped (with_waiting node number false waiting) }
        ensures others { (u : ℕ) → HasInbox self.old u → HasInbox self.new u }
    {
        if let Some(place) = place_of(&self.boxes, node) {
            self.boxes[place].remove(number);
        }
    }

    /// Sets whether the node is crashed. For a node without an inbox nothing is stored. Takes no memory.
    pub fn set_crashed(&mut self, node: NodeId, crashed: bool)
        ensures keeps { (stopped : Stopped) (waiting : Waiting) → Keeps self.old stopped waiting →
            HasInbox self.old node → Keeps self.new (with_stopped node crashed stopped) waiting }
        ensures others { (u : ℕ) → HasInbox self.old u → HasInbox self.new u }
    {
        if let Some(place) = place_of(&self.boxes, node) {
            self.boxes[place].set_crashed(crashed);
        }
    }

    /// Whether the node is crashed. Takes no memory.
    pub fn is_crashed(&self, node: NodeId) -> bool
        ensures { (stopped : Stopped) (waiting : Waiting) → Keeps self.now stopped waiting → result ≡ stopped node }
    {
        match place_of(&self.boxes, node) {
            Some(place) => self.boxes[place].is_crashed(),
            None => false,
        }
    }

    /// The lowest number that waits for a running node. Looks at each inbox once, and takes no memory.
    pub fn next(&self) -> Option<u32>
        ensures { IsLowest (offers self.now) result }
    {
        lowest_of(&self.boxes)
    }
}
