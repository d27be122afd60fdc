//! What is stored of a cut, and of each session that the cut holds.
ghost use Rattle.std.specs.Prelude.{◌≡◌};
ghost use Rattle.marker_snapshot.specs.Rows.{met, heard};

use topology::{Epoch, NodeId, Session};

/// What a node records of a session that its cut holds. The recorded updates have consecutive numbers.
#[derive(Clone, Copy, Debug, PartialEq, Eq)]
pub struct Recording {
    pub session: Session,
    /// The number of the first update, 0 where there is none.
    pub first: u32,
    /// The number of updates.
    pub count: u32,
    /// Whether a mark of the cut's epoch or a later one arrived in the session.
    pub done: bool,
}

/// What was recorded of a session with a neighbour since the cut of an epoch.
#[derive(Clone, Copy, Debug, PartialEq, Eq)]
pub struct Row {
    pub epoch: Epoch,
    pub nbr: NodeId,
    pub recording: Recording,
}

/// How many entries the log had when the cut of an epoch was taken.
#[derive(Clone, Copy, Debug, PartialEq, Eq)]
pub struct Cut {
    pub epoch: Epoch,
    pub entries: u32,
}

impl Row {
    /// A mark arrived in a session. If it is of the cut's epoch or a later one, it ends the recording of that session.
    pub fn meet(&mut self, nbr: NodeId, session: Session, epoch: Epoch)
        ensures { self.new ≡ met nbr session epoch self.old }
    {
        if nbr == self.nbr && session == self.recording.session && self.epoch <= epoch {
            self.recording.done = true;
        }
    }

    /// An update arrived in a session. A count at its maximum stays there, but the update numbers run out before that.
    pub fn hear(&mut self, nbr: NodeId, session: Session, seq: u32)
        ensures { self.new ≡ heard nbr session seq self.old }
    {
        if nbr == self.nbr && session == self.recording.session && !self.recording.done {
            if self.recording.count == 0 {
                self.recording.first = seq;
            }
            self.recording.count = self.recording.count.saturating_add(1);
        }
    }
}
