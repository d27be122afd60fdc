//! All messages that were sent.
ghost use Rattle.std.specs.Prelude.{ℕ, ◌≡◌, ◌++◌, ◌∷◌, ◌||◌, [], length, OnOk, OnErr};
ghost use Rattle.std.specs.BTreeSet.{contains};
ghost use Rattle.leadership.specs.Mails.{offered_in};
ghost use Rattle.leadership.specs.Offers.{Offer, by_parts, is_offer, offer_of};

use crate::mails::Letter;
use crate::messages::Message;
use std::alloc::Global;
use std::collections::BTreeSet;
use std::marker::Model;
use topology::{Ballot, Epoch, NoMemory, NodeId};

/// An offer: a member gave an epoch a value in a ballot.
#[derive(Clone, Copy, Debug, PartialEq, Eq, PartialOrd, Ord)]
pub struct Offer {
    pub from: NodeId,
    pub epoch: Epoch,
    pub ballot: Ballot,
}

/// All messages that were sent, the oldest first. Beside them stand the offers, so that looking for one needs no walk
/// over the messages.
#[derive(Drop)]
pub struct MailList {
    list: Vec<Letter>,
    offers: BTreeSet<Offer>,
}

impl Model for MailList {
    ghost use Rattle.std.specs.Prelude.{List};
    ghost use Rattle.leadership.specs.declared.mails.Letter.{Letter};
    ghost use Rattle.leadership.specs.Offers.{AreOffers};

    ghost Value = { List Letter };

    ghost view = { λ m. m.list.items };

    ghost invariant = { λ m. AreOffers m.offers m.list.items };
}

// The offer of the message, if it gives an epoch a value.
fn offer_of(letter: &Letter) -> Option<Offer>
    ensures { result ≡ offer_of letter.now }
{
    match &letter.message {
        Message::Accept {
            epoch,
            ballot,
            value: _,
        } => Some(Offer {
            from: letter.from,
            epoch: *epoch,
            ballot: *ballot,
        }),
        _ => None,
    }
}

// Adds the offer, if there is one.
fn add(offers: &mut BTreeSet<Offer>, offer: Option<Offer>) -> Result<(), NoMemory>
    ensures added { OnOk result ((o : Offer) → contains by_parts offers.new o
        ≡ (is_offer offer o || contains by_parts offers.old o)) }
    ensures err { OnErr result (offers.new ≡ offers.old) }
{
    if let Some(offer) = offer {
        offers.insert(offer)?;
    }
    Ok(())
}

impl MailList {
    /// No messages. Takes no memory.
    pub(crate) fn new(alloc: Global) -> MailList
        ensures { result ≡ [] }
    {
        MailList {
            list: Vec::new(alloc),
            offers: BTreeSet::new(alloc),
        }
    }

    pub(crate) fn as_slice(&self) -> &[Letter]
        ensures { result.now ≡ self.now }
    {
        &self.list
    }

    /// How many messages there are.
    pub(crate) fn len(&self) -> usize
        ensures { result ≡ length self.now }
    {
        self.list.len()
    }

    /// The allocator of the lists.
    pub(crate) fn allocator(&self) -> Global {
        *self.list.allocator()
    }

    /// Adds one more message.
    pub(crate) fn push(&mut self, letter: Letter) -> Result<(), NoMemory>
        ensures ok { OnOk result (self.new ≡ self.old ++ letter ∷ []) }
        ensures err { OnErr result (self.new ≡ self.old) }
    {
        self.list.reserve(1)?;
        add(&mut self.offers, offer_of(&letter))?;
        self.list.push_reserved(letter);
        Ok(())
    }

    /// Whether the member sent an Accept of the ballot for the epoch.
    pub(crate) fn is_offered(&self, node: NodeId, epoch: Epoch, ballot: &Ballot) -> bool
        ensures { result ≡ offered_in node epoch ballot.now self.now }
    {
        self.offers.contains(&Offer {
            from: node,
            epoch,
            ballot: *ballot,
        })
    }
}
