//! Why an event does nothing.
use topology::Ballot;

/// Why an event does nothing.
#[derive(Clone, Copy, Debug, PartialEq, Eq)]
pub enum LeadReason {
    /// The member is crashed.
    Crashed,
    /// The member should come back, and is not crashed.
    NotCrashed,
    /// No message has this number.
    NoSuchMessage,
    /// The member has promised this ballot, and the message's ballot is too low compared with it.
    Promised(Ballot),
    /// The member neither prepares nor leads this ballot.
    StaleBallot,
    /// The sender was counted before, or the ballot is accepted already.
    Duplicate,
    /// The member does not lead.
    NotLeader,
    /// The epoch is below those for which the member's ballot was started.
    Below,
    /// The member has already given this epoch a value in its ballot.
    Offered,
}
