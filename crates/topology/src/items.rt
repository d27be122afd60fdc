//! Items that go over a link, records of sent items, and updates that are held back.
ghost use Rattle.std.specs.Prelude.{◌≡◌, ◌≤◌, length, IfOk, IsOk};

use crate::{Epoch, NoMemory, NodeId, Path, PrefixId, Session, Triggers};

/// One message of a session.
#[derive(Debug, Drop)]
pub enum Item {
    /// The sender's path for a prefix; `None` says that it has none. `seq` numbers the updates of one direction of a
    /// session, from 1. `triggers` are those of the entries that caused the update.
    Update {
        prefix: PrefixId,
        seq: u32,
        triggers: Triggers,
        path: Option<Path>,
    },
    /// The sender has raised its epoch to this one.
    Marker(Epoch),
    /// The sender has opened the session, in this epoch.
    Hello(Epoch),
}

/// The record of an item that was sent to a neighbour in a session: its number, and the triggers for which it was sent.
#[derive(Debug, Drop)]
pub struct Sent {
    pub to: NodeId,
    pub session: Session,
    pub seq: u32,
    pub triggers: Triggers,
}

impl Sent {
    /// Copies the record. With at most one trigger the copy takes no memory.
    pub fn copy(&self) -> Result<Sent, NoMemory>
        ensures copy { IfOk result (λ sent. sent ≡ self.now) }
        ensures few { length self.now.triggers ≤ 1 → IsOk result }
    {
        Ok(Sent {
            to: self.to,
            session: self.session,
            seq: self.seq,
            triggers: self.triggers.copy()?,
        })
    }
}

/// The record that an update of a prefix is held back from a neighbour, in the session held with it, and for which
/// triggers.
#[derive(Debug, Drop)]
pub struct Pending {
    pub to: NodeId,
    pub prefix: PrefixId,
    pub session: Session,
    pub triggers: Triggers,
}

impl Pending {
    /// Copies the record.
    pub fn copy(&self) -> Result<Pending, NoMemory>
        ensures { IfOk result (λ pending. pending ≡ self.now) }
    {
        Ok(Pending {
            to: self.to,
            prefix: self.prefix,
            session: self.session,
            triggers: self.triggers.copy()?,
        })
    }
}
