//! The control messages.
ghost use Rattle.std.specs.Prelude.{ℕ, suc, ◌≡◌, ◌<◌, ◌≤◌, ◌-◌, ◌^◌, ◌&&◌, [], ◌∷◌, Some, None, true, false, nat_lt, nat_le, length, IfOk, OnOk, OnErr, IfSome, IfNone};
ghost use Rattle.std.specs.Vec.{vec_capacity, vec_len};
ghost use Rattle.consolidator.specs.Seen.{message_seen};
ghost use Rattle.topology.specs.Lists.{has};
ghost use Rattle.topology.specs.Net.{Net};
ghost use Rattle.control_mail.specs.Acts.{MailActs, Posts, Delivers, Crashes, Restarts};
ghost use Rattle.control_mail.specs.Readings.{letters, letter, deliveries, crashed, next_letter};
ghost use Rattle.control_mail.specs.Seen.{letter_seen};
ghost use Rattle.control_mail.specs.Standing.{StandsFor};

use crate::inboxes::Inboxes;
use crate::kept::Kept;
use consolidator::Mail;
use std::alloc::Global;
use std::marker::Model;
use topology::{NoMemory, NodeId, Topology};

/// The control messages of a network, and which of its nodes are crashed.
#[derive(Drop)]
pub struct Mails {
    // The messages; number n stands at place n - 1.
    kept: Vec<Kept>,
    inboxes: Inboxes,
}

impl Model for Mails {
    ghost use Rattle.std.specs.Prelude.{◌<◌, ◌^◌, length};
    ghost use Rattle.control_mail.specs.Seen.{Office};

    ghost Value = { Office };

    ghost view = { λ m. record { kept = m.kept.items; boxes = m.inboxes } };

    ghost invariant = { λ m. length m.kept.items < 2 ^ 32 };
}

// The next number after so many messages; `None` if there is none left.
fn number_after(count: usize) -> Option<u32>
    ensures some { IfSome result (λ number. number ≡ suc count) }
    ensures none { IfNone result (2 ^ 32 - 1 ≤ count) }
{
    if count >= u32::MAX as usize {
        return None;
    }
    Some(count as u32 + 1)
}

// Makes room for one more message, and returns its number. If no number is left, there is no room.
fn make_room(kept: &mut Vec<Kept>) -> Result<u32, NoMemory>
    ensures items { kept.new.items ≡ kept.old.items }
    ensures number { IfOk result (λ number. number ≡ suc (length kept.old.items)) }
    ensures few { OnOk result (suc (length kept.old.items) < 2 ^ 32) }
    ensures room { OnOk result (vec_len kept.new < vec_capacity kept.new) }
{
    let Some(number) = number_after(kept.len()) else {
        return Err(NoMemory);
    };
    kept.reserve(1)?;
    Ok(number)
}

// The place of the message with a number, among so many messages; `None` if no message has it.
fn place_of(number: u32, count: usize) -> Option<usize>
    ensures some { IfSome result (λ place. (number ≡ suc place) × (place < count)) }
    ensures none { IfNone result ((nat_lt 0 number && nat_le number count) ≡ false) }
{
    let number = number as usize;
    if number == 0 || number > count {
        return None;
    }
    Some(number - 1)
}

impl Mails {
    /// No messages, and all nodes running.
    pub fn new(alloc: Global, topology: &Topology) -> Result<Mails, NoMemory>
        ensures { IfOk result (λ mails. StandsFor topology.now mails []) }
    {
        topology::laws::ascending_is_sorted();
        let mut inboxes = Inboxes::new(alloc);
        for node in topology.nodes() {
            inboxes.open(*node)?;
        }
        Ok(Mails {
            kept: Vec::new(alloc),
            inboxes,
        })
    }

    /// Sends a message: it gets the next number, and waits for its addressee. If no number is left (the last is 2^32 -
    /// 1), the call fails with `NoMemory`.
    pub fn post(&mut self, from: NodeId, mail: Mail) -> Result<(), NoMemory>
        ensures ok { OnOk result ((net : Net) (acts : MailActs) → StandsFor net self.old acts →
            StandsFor net self.new (Posts from mail.to (message_seen mail.message) ∷ acts)) }
        ensures err { OnErr result (self.new ≡ self.old) }
    {
        let number = make_room(&mut self.kept)?;
        self.inboxes.put(mail.to, number)?;
        self.kept.push_reserved(Kept {
            from,
            mail,
            deliveries: 0,
        });
        Ok(())
    }

    /// Delivers a message once more. It is kept, and no longer waits. If no message has the number, nothing is counted.
    /// Takes no memory.
    pub fn deliver(&mut self, number: u32)
        ensures { (net : Net) (acts : MailActs) → StandsFor net self.old acts → deliveries number acts < 2 ^ 32 - 1 →
            StandsFor net self.new (Delivers number ∷ acts) }
    {
        let Some(place) = place_of(number, self.kept.len()) else {
            return;
        };
        let kept = &mut self.kept[place];
        kept.deliveries = kept.deliveries.saturating_add(1);
        let to = kept.mail.to;
        self.inboxes.take(to, number);
    }

    /// Marks a node of the network as crashed. The messages that wait for it keep waiting. Takes no memory.
    pub fn crash(&mut self, node: NodeId)
        ensures { (net : Net) (acts : MailActs) → StandsFor net self.old acts → has net.nodes node ≡ true →
            StandsFor net self.new (Crashes node ∷ acts) }
    {
        self.inboxes.set_crashed(node, true);
    }

    /// Marks a node of the network as running again. Takes no memory.
    pub fn restart(&mut self, node: NodeId)
        ensures { (net : Net) (acts : MailActs) → StandsFor net self.old acts → has net.nodes node ≡ true →
            StandsFor net self.new (Restarts node ∷ acts) }
    {
        self.inboxes.set_crashed(node, false);
    }

    /// The message with a number, and how often it was delivered. The answer is `None` exactly where no message has the
    /// number. Takes no memory.
    pub fn kept(&self, number: u32) -> Option<&Kept>
        ensures some { IfSome result (λ kept. (net : Net) (acts : MailActs) → StandsFor net self.now acts →
            (letter number acts ≡ Some (letter_seen kept.now)) × (kept.now.deliveries ≡ deliveries number acts)) }
        ensures none { IfNone result ((net : Net) (acts : MailActs) → StandsFor net self.now acts →
            letter number acts ≡ None) }
    {
        let Some(place) = place_of(number, self.kept.len()) else {
            return None;
        };
        Some(&self.kept[place])
    }

    /// The number of messages, which is also the number of the last one. Takes no memory.
    pub fn count(&self) -> u32
        ensures { (net : Net) (acts : MailActs) → StandsFor net self.now acts → result ≡ length (letters acts) }
    {
        self.kept.len() as u32
    }

    /// The number of the next message: the lowest one that was never delivered and whose addressee is not crashed.
    /// Looks at each inbox once, and takes no memory.
    pub fn next(&self) -> Option<u32>
        ensures { (net : Net) (acts : MailActs) → StandsFor net self.now acts → result ≡ next_letter acts }
    {
        self.inboxes.next()
    }

    /// Whether a node is crashed. Takes no memory.
    pub fn is_crashed(&self, node: NodeId) -> bool
        ensures { (net : Net) (acts : MailActs) → StandsFor net self.now acts → result ≡ crashed node acts }
    {
        self.inboxes.is_crashed(node)
    }
}
