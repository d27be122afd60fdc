//! One item of a list of sent items, as it is read there.
ghost use Rattle.std.specs.Prelude.{◌≡◌, ◌∷◌, []};
ghost use Rattle.topology.specs.Triggers.{Ascend};

use crate::items::Sent;
use crate::{NodeId, Session, Trigger};
use std::marker::Model;
use std::slice;

/// An item that was sent, where its list keeps it. It lends its triggers.
#[derive(Drop)]
pub struct SentRef<'a> {
    pub to: NodeId,
    pub session: Session,
    pub seq: u32,
    pub triggers: &'a [Trigger],
}

impl<'a> Model for SentRef<'a> {
    ghost use Rattle.topology.specs.declared.items.Sent.{Sent};

    ghost Value = { Sent };

    ghost view = { λ s. record { to = s.to; session = s.session; seq = s.seq; triggers = s.triggers.now } };
}

impl SentRef<'_> {
    /// The item, lent.
    pub(crate) fn of(item: &Sent) -> SentRef<'_>
        ensures item { result ≡ item.now }
        ensures ascend { Ascend item.now.triggers }
    {
        SentRef {
            to: item.to,
            session: item.session,
            seq: item.seq,
            triggers: item.triggers.as_slice(),
        }
    }

    /// An item that lists this trigger alone, in a session and with a number of two bytes.
    pub(crate) fn short(to: NodeId, session: u16, seq: u16, trigger: &Trigger) -> SentRef<'_>
        ensures { result ≡ record { to = to; session = session; seq = seq; triggers = trigger.now ∷ [] } }
    {
        SentRef {
            to,
            session: Session::new(session as u32),
            seq: seq as u32,
            triggers: slice::from_ref(trigger),
        }
    }
}
