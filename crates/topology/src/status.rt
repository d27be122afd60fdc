//! How runs and single events end.
ghost use Rattle.std.specs.Prelude.{◌≡◌};

use crate::{Ballot, FrameFault, NodeId};

/// Why an event did nothing.
#[derive(Clone, Copy, Debug, PartialEq, Eq)]
pub enum Reason {
    /// The node is crashed.
    Crashed,
    /// The node originates the prefix already.
    AlreadyOrigin,
    /// The node does not originate the prefix.
    NotOrigin,
    /// The link is down.
    LinkDown,
    /// No item is on its way from the one node to the other.
    EmptyChannel,
    /// The addressee does not hold the session that the link carries.
    WrongSession,
    /// The link is down already.
    AlreadyDown,
    /// The link is up already.
    AlreadyUp,
    /// The node holds no session with the neighbour.
    NotOpen,
    /// The link carries the session that the node holds.
    StillUp,
    /// The node holds a session with the neighbour already.
    AlreadyOpen,
    /// The update is not the next one of the held session.
    WrongSeq { expected: u32, got: u32 },
    /// The session is not above the last one that was held with the neighbour.
    OldSession,
    /// The node is no consolidator.
    NotConsolidator,
    /// The node knows the decision of the epoch.
    Decided,
    /// The node holds no report of the epoch.
    NoReport,
    /// There is no control message with this number.
    NoSuchMessage,
    /// The sender's report is held already, the sender is counted already, or the ballot is accepted already.
    Duplicate,
    /// The node has promised this ballot, and the message's ballot is too low compared with it.
    Promised(Ballot),
    /// The node neither prepares this ballot nor gathers promises for it.
    StaleBallot,
    /// This ballot has the highest round that there is.
    NoRound(Ballot),
    /// The node is not crashed.
    NotCrashed,
    /// A packet has this number already.
    PacketKnown,
    /// There is no packet with this number.
    NoSuchPacket,
    /// The walk of the packet has ended.
    PacketEnded,
    /// Nothing is held back from the neighbour.
    NothingPending,
}

/// A count that has a limit.
#[derive(Clone, Copy, Debug, PartialEq, Eq)]
pub enum LimitKind {
    /// The bytes of a schedule.
    Bytes,
    /// The events of a run, idle ones among them.
    Events,
    /// The epochs of one node.
    Epochs,
    /// The triggers of all nodes.
    Triggers,
    /// The entries of one node.
    Entries,
    /// The items that the entries of one node list.
    Updates,
    /// The control messages that were sent.
    Control,
    /// The packets that were injected.
    Packets,
    /// The frames that a node took over its link.
    Frames,
    /// The triggers that one node lists in its entries, in their items and in its rows of held-back updates, counted
    /// once for each list.
    Marks,
    /// The bytes of a journal.
    Journal,
}

impl LimitKind {
    ghost use Rattle.topology.specs.Words.{limit_words};

    /// The words for the count in the line that says how a run ended.
    pub fn words(self) -> &'static str
        ensures { result.now ≡ limit_words self }
    {
        match self {
            LimitKind::Bytes => "bytes",
            LimitKind::Events => "events",
            LimitKind::Epochs => "epochs",
            LimitKind::Triggers => "triggers",
            LimitKind::Entries => "entries",
            LimitKind::Updates => "updates",
            LimitKind::Control => "control",
            LimitKind::Packets => "packets",
            LimitKind::Frames => "frames",
            LimitKind::Marks => "marks",
            LimitKind::Journal => "journal",
        }
    }
}

/// What is wrong with a line of a schedule.
#[derive(Clone, Copy, Debug, PartialEq, Eq)]
pub enum BadKind {
    /// The word begins no line, or is not allowed at its place.
    UnknownWord,
    /// The line stands on the wrong side of `begin`, or is a second `begin`.
    NotHere,
    /// No form of this line has this number of words.
    WrongCount,
    /// A number is misspelled or out of its range.
    BadNumber,
    /// A prefix is misspelled or has bits beyond its length.
    BadPrefix,
    /// A node is not declared.
    UnknownNode,
    /// A prefix is not declared.
    UnknownPrefix,
    /// The two ends are the same node.
    SelfLink,
    /// The two nodes have no link.
    NoLink,
    /// The node is declared already.
    DuplicateNode,
    /// The two nodes have a link already.
    DuplicateLink,
    /// The prefix is declared already.
    DuplicatePrefix,
    /// The limit for such lines is reached.
    TooMany,
}

impl BadKind {
    ghost use Rattle.topology.specs.Words.{bad_words};

    /// The words for the fault in the line that says how a run ended.
    pub fn words(self) -> &'static str
        ensures { result.now ≡ bad_words self }
    {
        match self {
            BadKind::UnknownWord => "unknown word",
            BadKind::NotHere => "not here",
            BadKind::WrongCount => "wrong count",
            BadKind::BadNumber => "bad number",
            BadKind::BadPrefix => "bad prefix",
            BadKind::UnknownNode => "unknown node",
            BadKind::UnknownPrefix => "unknown prefix",
            BadKind::SelfLink => "self link",
            BadKind::NoLink => "no link",
            BadKind::DuplicateNode => "duplicate node",
            BadKind::DuplicateLink => "duplicate link",
            BadKind::DuplicatePrefix => "duplicate prefix",
            BadKind::TooMany => "too many",
        }
    }
}

/// What is wrong with a row of printed tables.
#[derive(Clone, Copy, Debug, PartialEq, Eq)]
pub enum AuditKind {
    /// The path repeats a node, or does not begin with the row's node.
    NotSimple,
    /// An earlier row of the same node, epoch and prefix has another path.
    Changed,
    /// The row of the path's second node has a path that differs from the rest of this one.
    DoesNotContinue,
}

impl AuditKind {
    ghost use Rattle.topology.specs.Words.{audit_words};

    /// The words for the fault in the line that says how a run ended.
    pub fn words(self) -> &'static str
        ensures { result.now ≡ audit_words self }
    {
        match self {
            AuditKind::NotSimple => "not simple",
            AuditKind::Changed => "changed",
            AuditKind::DoesNotContinue => "does not continue",
        }
    }
}

/// How a run ended.
#[derive(Clone, Copy, Debug, PartialEq, Eq)]
pub enum Status {
    /// The input was read to its end and everything was written.
    Done,
    /// The command line has none of the known forms.
    Usage,
    /// There was no memory left.
    NoMemory,
    /// The first line outside the grammar, counted from 1, and its fault.
    BadSchedule(u32, BadKind),
    /// The next action would exceed this limit; its number is given.
    Limit(LimitKind, u32),
    /// The source failed.
    ReadFault,
    /// The sink failed.
    WriteFault,
    /// The link failed.
    LinkFault,
    /// A frame was refused. The number is the offset at which it begins in what came over the link.
    BadFrame(u64, FrameFault),
    /// The network has no node with this number.
    NoSuchNode(NodeId),
    /// The disk failed.
    DiskFault,
    /// A record of a journal was refused. The number is the offset at which it begins.
    BadJournal(u64, FrameFault),
    /// The first line, counted from 1, that begins with the word `table` but is not a line of a table.
    BadTables(u32),
    /// The line of the first bad row of printed tables, counted from 1, and its fault.
    Inconsistent(u32, AuditKind),
}

impl Status {
    ghost use Rattle.topology.specs.Codes.{code_of};

    /// The exit code of the program.
    pub fn code(&self) -> u8
        ensures { result ≡ code_of self.now }
    {
        match self {
            Status::Done => 0,
            Status::Usage => 2,
            Status::NoMemory => 3,
            Status::BadSchedule(_, _) => 4,
            Status::Limit(_, _) => 5,
            Status::ReadFault => 6,
            Status::WriteFault => 7,
            Status::LinkFault => 8,
            Status::BadFrame(_, _) => 9,
            Status::NoSuchNode(_) => 10,
            Status::DiskFault => 11,
            Status::BadJournal(_, _) => 12,
            Status::BadTables(_) => 13,
            Status::Inconsistent(_, _) => 14,
        }
    }
}
