//! The sessions of a node, as rows of a report.
ghost use Rattle.std.specs.Prelude.{◌≡◌};

use std::marker::Model;
use topology::{NodeId, Session, Trigger};

/// A session that was ever held: how many updates were received in it, and the trigger of its
/// `Down`, if there is one.
#[derive(Clone, Copy, Debug, PartialEq, Eq)]
pub struct SessionRow {
    pub nbr: NodeId,
    pub session: Session,
    pub received: u32,
    pub down: Option<Trigger>,
}

/// The session rows of a report. If a neighbour and session repeat, the first row counts.
#[derive(Debug, Drop)]
pub struct SessionRows {
    list: Vec<SessionRow>,
}

impl Model for SessionRows {
    ghost use Rattle.std.specs.Prelude.{List};
    ghost use Rattle.incomplete_closure.specs.declared.session_rows.SessionRow.{SessionRow};

    ghost Value = { List SessionRow };

    ghost view = { λ r. r.list.items };
}

impl SessionRows {
    /// A report's session rows from a list. Takes no memory.
    pub fn new(list: Vec<SessionRow>) -> SessionRows
        ensures { result ≡ list.items }
    {
        SessionRows { list }
    }

    pub fn as_slice(&self) -> &[SessionRow]
        ensures { result.now ≡ self.now }
    {
        &self.list
    }
}
