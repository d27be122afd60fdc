//! The limits of one node.
ghost use Rattle.std.specs.Prelude.{◌≡◌, ℕ, None, true, false, IfErr, IfNone, IfSome, OnErr, OnOk};
ghost use Rattle.std.specs.List.{list_any};
ghost use Rattle.topology.specs.declared.status.LimitKind.TheVariants.{Marks};
ghost use Rattle.topology.specs.Net.{Net};
ghost use Rattle.chronicle.specs.Facts.{Chronicle};
ghost use Rattle.consolidator.specs.Seen.{message_seen};
ghost use Rattle.node_core.specs.NodeLimits.{has_long_list, has_more_marks, is_large, proposes_large, node_above, StopsAt};
ghost use Rattle.node_core.specs.Standing.{Follows, StandsFor};
ghost use Rattle.node_core.specs.declared.outputs.Stop.TheVariants.{Limit};

use crate::counts::{any_long, are_more};
use crate::node::Node;
use crate::outputs::Stop;
use consolidator::{Mail, Message, Reply};
use path_vector::Policy;
use topology::LimitKind;
use topology::limits::{MOST_ENTRIES, MOST_EPOCHS, MOST_MARKS, MOST_TRIGGERS, MOST_UPDATES};

// Whether the message proposes a value with more triggers than one may have.
fn is_large(message: &Message) -> bool
    ensures { result ≡ is_large (message_seen message.now) }
{
    match message {
        Message::Accept { value, .. } => {
            value.incomplete.as_slice().len() > MOST_TRIGGERS as usize
        }
        _ => false,
    }
}

// Whether one of the messages proposes a value with more triggers than one may have.
fn any_large(mails: &[Mail]) -> bool
    ensures { result ≡ list_any (λ mail. is_large (message_seen mail.message)) mails.now }
{
    mails.iter().any(|mail| is_large(&mail.message))
}

/// Whether one of the messages proposes a value with more triggers than one may have.
pub(crate) fn proposes_large(reply: &Reply) -> bool
    ensures { result ≡ proposes_large reply.now }
{
    match reply {
        Reply::Sent(mails) => any_large(mails.as_slice()),
        Reply::Idle(_) => false,
    }
}

// The stop at the number of marks.
fn at_marks() -> Stop
    ensures { result ≡ Limit Marks MOST_MARKS }
{
    Stop::Limit(LimitKind::Marks, MOST_MARKS)
}

impl<P: Policy + Copy> Node<P> {
    // Whether an item of the log, or a row of updates held back, lists more triggers than a list may have.
    fn has_long_list(&self) -> bool
        ensures { (policy : P) (net : Net) (u : ℕ) (past : Chronicle) →
            Follows policy (P.rules policy) net u self.now past → result ≡ has_long_list (P.rules policy) net u past }
    {
        self.parts.counts.has_long | any_long(self.log.pending())
    }

    /// The stop at the first count that is above its number, in the order epoch, lists of triggers, entries, items.
    /// None where no count is. Takes no memory.
    #[inline(always)]
    pub(crate) fn limit(&self) -> Option<Stop>
        ensures some { IfSome result (λ stop. (policy : P) (net : Net) (u : ℕ) (past : Chronicle) →
            Follows policy (P.rules policy) net u self.now past → StopsAt (node_above (P.rules policy) net u past) stop) }
        ensures none { IfNone result ((policy : P) (net : Net) (u : ℕ) (past : Chronicle) →
            Follows policy (P.rules policy) net u self.now past → node_above (P.rules policy) net u past ≡ None) }
    {
        if self.parts.snapshots.epoch().number() > MOST_EPOCHS {
            return Some(Stop::Limit(LimitKind::Epochs, MOST_EPOCHS));
        }
        if self.has_long_list() {
            return Some(Stop::Limit(LimitKind::Triggers, MOST_TRIGGERS));
        }
        if self.log.len() > MOST_ENTRIES {
            return Some(Stop::Limit(LimitKind::Entries, MOST_ENTRIES));
        }
        if self.parts.counts.updates > MOST_UPDATES as usize {
            return Some(Stop::Limit(LimitKind::Updates, MOST_UPDATES));
        }
        None
    }

    // Whether the entries, their items and the updates held back list more triggers than a node may have.
    fn has_more_marks(&self) -> bool
        ensures { (policy : P) (net : Net) (u : ℕ) (past : Chronicle) →
            StandsFor policy (P.rules policy) net u self.now past → result ≡ has_more_marks (P.rules policy) net u past }
    {
        are_more(self.parts.counts.marks, self.log.pending())
    }

    /// Stops where the lists of triggers of the node have more than 65,536 triggers together. These are the lists of
    /// all entries and of all items that it sent, dropped ones too, and of the updates that it holds back now. A
    /// trigger counts once for each list that has it. This limit stands behind all others, also those of a network, so
    /// `handle_into` leaves it to its caller. Takes no memory.
    #[inline(always)]
    pub fn check_marks(&self) -> Result<(), Stop>
        ensures ok { OnOk result ((policy : P) (net : Net) (u : ℕ) (past : Chronicle) →
            StandsFor policy (P.rules policy) net u self.now past → has_more_marks (P.rules policy) net u past ≡ false) }
        ensures stop { IfErr result (λ stop. stop ≡ Limit Marks MOST_MARKS) }
        ensures stopped { OnErr result ((policy : P) (net : Net) (u : ℕ) (past : Chronicle) →
            StandsFor policy (P.rules policy) net u self.now past → has_more_marks (P.rules policy) net u past ≡ true) }
    {
        if self.has_more_marks() {
            return Err(at_marks());
        }
        Ok(())
    }
}
