//! The messages that a member heard.
ghost use Rattle.std.specs.Prelude.{ℕ, ◌≡◌, ◌++◌, ◌∷◌, [], length, OnOk, OnErr};
ghost use Rattle.topology.specs.Lists.{has};
ghost use Rattle.leadership.specs.Counted.{accepts, counts, has_acceptance, is_watched};
ghost use Rattle.leadership.specs.Hearings.{counted_heard, promised_heard, promised_for_heard, voters_heard};
ghost use Rattle.leadership.specs.Readings.{senders};

use crate::floors::Floors;
use crate::hearings::{
    Acceptance, Hearing, acceptances, accepted_in, has_promised, has_voted, is_promise,
    promise_count, promisers,
};
use crate::messages::Message;
use std::alloc::Global;
use std::marker::Model;
use topology::{Ballot, Epoch, NoMemory, NodeId};

/// All messages that a member heard, the oldest first. Beside them stand the ballots that it promised, and the members
/// that promised or accepted one ballot. So these questions need no walk over the messages.
#[derive(Drop)]
pub struct HeardList {
    list: Vec<Hearing>,
    floors: Floors,
    watched: Option<Ballot>,
    promisers: Vec<NodeId>,
    acceptances: Vec<Acceptance>,
}

impl Model for HeardList {
    ghost use Rattle.std.specs.Prelude.{List};
    ghost use Rattle.leadership.specs.declared.hearings.Hearing.{Hearing};
    ghost use Rattle.leadership.specs.Counted.{AreCounted};
    ghost use Rattle.leadership.specs.Floors.{AreFloors};

    ghost Value = { List Hearing };

    ghost view = { λ h. h.list.items };

    ghost invariant = { λ h. AreCounted h.watched h.promisers.items h.acceptances.items h.list.items
        × AreFloors h.floors h.list.items };
}

fn is_watched(watched: &Option<Ballot>, ballot: &Ballot) -> bool
    ensures { result ≡ is_watched watched.now ballot.now }
{
    match watched {
        Some(other) => *other == *ballot,
        None => false,
    }
}

// Whether the message promises the watched ballot.
fn counts(watched: &Option<Ballot>, message: &Message) -> bool
    ensures { result ≡ counts watched.now message.now }
{
    match watched {
        Some(ballot) => is_promise(message, ballot),
        None => false,
    }
}

// The epoch for which the message accepts the watched ballot.
fn accepts(watched: &Option<Ballot>, message: &Message) -> Option<Epoch>
    ensures { result ≡ accepts watched.now message.now }
{
    match watched {
        Some(ballot) => accepted_in(message, ballot),
        None => None,
    }
}

fn has_acceptance(these: &[Acceptance], epoch: Epoch, from: NodeId) -> bool
    ensures { result ≡ has_acceptance epoch from these.now }
{
    for one in these {
        if one.epoch == epoch && one.from == from {
            return true;
        }
    }
    false
}

impl HeardList {
    /// No messages. Takes no memory.
    pub(crate) fn new(alloc: Global) -> HeardList
        ensures { result ≡ [] }
    {
        HeardList {
            list: Vec::new(alloc),
            floors: Floors::new(alloc),
            watched: None,
            promisers: Vec::new(alloc),
            acceptances: Vec::new(alloc),
        }
    }

    pub(crate) fn as_slice(&self) -> &[Hearing]
        ensures { result.now ≡ self.now }
    {
        &self.list
    }

    /// Adds one more message.
    pub(crate) fn hear(&mut self, from: NodeId, message: Message) -> Result<(), NoMemory>
        ensures ok { OnOk result (self.new ≡ self.old ++ record { from = from; message = message } ∷ []) }
        ensures err { OnErr result (self.new ≡ self.old) }
    {
        let is_counted = counts(&self.watched, &message);
        let accepted = accepts(&self.watched, &message);
        self.list.reserve(1)?;
        self.floors.hear(&message)?;
        self.list.push_reserved(Hearing { from, message });
        if is_counted {
            let Ok(()) = self.promisers.insert(0, from) else {
                self.watched = None;
                return Ok(());
            };
        }
        if let Some(epoch) = accepted {
            let Ok(()) = self.acceptances.insert(0, Acceptance { epoch, from }) else {
                self.watched = None;
                return Ok(());
            };
        }
        Ok(())
    }

    /// From now on stores who promises and who accepts this ballot, if there is memory for it.
    pub(crate) fn watch(&mut self, ballot: Ballot)
        ensures { self.new ≡ self.old }
    {
        let alloc = *self.list.allocator();
        self.watched = None;
        let Ok(promisers) = promisers(alloc, &self.list, &ballot) else {
            return;
        };
        let Ok(acceptances) = acceptances(alloc, &self.list, &ballot) else {
            return;
        };
        self.promisers = promisers;
        self.acceptances = acceptances;
        self.watched = Some(ballot);
    }

    /// The greatest ballot promised for any epoch from this one on.
    pub(crate) fn promised_from(&self, from_on: Epoch) -> Option<Ballot>
        ensures { result ≡ promised_heard from_on self.now }
    {
        self.floors.from_on(from_on)
    }

    /// The ballot promised for this epoch.
    pub(crate) fn promised(&self, at: Epoch) -> Option<Ballot>
        ensures { result ≡ promised_for_heard at self.now }
    {
        self.floors.at(at)
    }

    /// How many promises of the ballot were counted.
    pub(crate) fn promise_count(&self, of: &Ballot) -> usize
        ensures { result ≡ length (counted_heard of.now self.now) }
    {
        if is_watched(&self.watched, of) {
            return self.promisers.len();
        }
        promise_count(&self.list, of)
    }

    /// Whether the sender's promise of the ballot was counted.
    pub(crate) fn has_promised(&self, of: &Ballot, from: NodeId) -> bool
        ensures { result ≡ has (senders (counted_heard of.now self.now)) from }
    {
        if is_watched(&self.watched, of) {
            return self.promisers.contains(&from);
        }
        has_promised(&self.list, of, from)
    }

    /// Whether the sender's acceptance of the ballot for the epoch was counted.
    pub(crate) fn has_voted(&self, at: Epoch, of: &Ballot, from: NodeId) -> bool
        ensures { result ≡ has (voters_heard at of.now self.now) from }
    {
        if is_watched(&self.watched, of) {
            return has_acceptance(&self.acceptances, at, from);
        }
        has_voted(&self.list, at, of, from)
    }
}
