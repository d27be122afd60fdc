//! The greatest ballots that a member was asked to promise or to accept, by epoch.
ghost use Rattle.std.specs.Prelude.{ℕ, ◌≡◌, ◌<◌, Option, length, slice_index_or, IfSome, IfNone, OnOk, OnErr};
ghost use Rattle.topology.specs.Ballots.{below};
ghost use Rattle.paxos_core.specs.Readings.{greater};
ghost use Rattle.leadership.specs.Floors.{covers, greatest_in, floor_from, floor_at, AreEmptyFloors, AreSameFloors, HasFloor, AddsMessage, Raises};

use crate::messages::Message;
use std::alloc::Global;
use topology::{Ballot, Epoch, NoMemory};

/// The greatest ballot among some messages of one epoch.
#[derive(Clone, Copy, Debug)]
pub struct Floor {
    pub epoch: Epoch,
    pub ballot: Ballot,
}

/// A set of epochs.
#[derive(Clone, Copy, Debug)]
pub enum Span {
    All,
    From(Epoch),
    UpTo(Epoch),
    Only(Epoch),
}

/// For each epoch from which on a ballot was prepared, the greatest such ballot; for each epoch for which a value was
/// to be accepted, the greatest ballot of these.
#[derive(Drop)]
pub struct Floors {
    pub prepared: Vec<Floor>,
    pub offered: Vec<Floor>,
}

fn covers(span: &Span, epoch: Epoch) -> bool
    ensures { result ≡ covers span.now epoch }
{
    match span {
        Span::All => true,
        Span::From(first) => *first <= epoch,
        Span::UpTo(last) => epoch <= *last,
        Span::Only(only) => epoch == *only,
    }
}

fn greater(ballot: &Ballot, before: Option<Ballot>) -> Option<Ballot>
    ensures { result ≡ greater ballot.now before }
{
    match before {
        Some(other) if !(other < *ballot) => Some(other),
        _ => Some(*ballot),
    }
}

fn is_below(ballot: &Ballot, other: &Ballot) -> bool
    ensures { result ≡ below ballot.now other.now }
{
    *ballot < *other
}

// The greatest ballot among the floors of these epochs and `before`.
fn greatest_in(span: &Span, floors: &[Floor], before: Option<Ballot>) -> Option<Ballot>
    ensures { result ≡ greatest_in span.now floors.now before }
{
    let mut best = before;
    for floor in floors {
        if covers(span, floor.epoch) {
            best = greater(&floor.ballot, best);
        }
    }
    best
}

// The place of an epoch's floor.
fn place_of(floors: &[Floor], epoch: Epoch) -> Option<usize>
    ensures some { IfSome result (HasFloor floors.now epoch) }
{
    for i in 0..floors.len() {
        if floors[i].epoch == epoch {
            return Some(i);
        }
    }
    None
}

// Adds one more ballot of an epoch.
fn raise(floors: &mut Vec<Floor>, epoch: Epoch, ballot: Ballot) -> Result<(), NoMemory>
    ensures ok { OnOk result (Raises epoch ballot floors.old.items floors.new.items) }
    ensures err { OnErr result (floors.new.items ≡ floors.old.items) }
{
    let Some(place) = place_of(floors, epoch) else {
        floors.push(Floor { epoch, ballot })?;
        return Ok(());
    };
    if is_below(&floors[place].ballot, &ballot) {
        floors[place] = Floor { epoch, ballot };
    }
    Ok(())
}

impl Floors {
    /// The floors without any message. Takes no memory.
    pub(crate) fn new(alloc: Global) -> Floors
        ensures { AreEmptyFloors result }
    {
        Floors {
            prepared: Vec::new(alloc),
            offered: Vec::new(alloc),
        }
    }

    /// Adds one more message.
    pub(crate) fn hear(&mut self, message: &Message) -> Result<(), NoMemory>
        ensures ok { OnOk result (AddsMessage message.now self.old self.new) }
        ensures err { OnErr result (AreSameFloors self.old self.new) }
    {
        match message {
            Message::PrepareFrom { epoch, ballot } => raise(&mut self.prepared, *epoch, *ballot),
            Message::Accept {
                epoch,
                ballot,
                value: _,
            } => raise(&mut self.offered, *epoch, *ballot),
            _ => Ok(()),
        }
    }

    /// The greatest ballot promised for any epoch from this one on.
    pub(crate) fn from_on(&self, first: Epoch) -> Option<Ballot>
        ensures { result ≡ floor_from first self.now }
    {
        let prepared = greatest_in(&Span::All, &self.prepared, None);
        greatest_in(&Span::From(first), &self.offered, prepared)
    }

    /// The ballot promised for this epoch.
    pub(crate) fn at(&self, epoch: Epoch) -> Option<Ballot>
        ensures { result ≡ floor_at epoch self.now }
    {
        let prepared = greatest_in(&Span::UpTo(epoch), &self.prepared, None);
        greatest_in(&Span::Only(epoch), &self.offered, prepared)
    }
}
