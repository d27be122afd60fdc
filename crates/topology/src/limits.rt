//! The limits of counts and the ranges of numbers; no other file names them. `MOST_` is the highest value of a count,
//! `HIGHEST_` that of a number which a line, an event or a frame may name. `specs/Limits.antt` writes each number out.

// ---- a network

/// The most nodes of a network. A printed path has no more nodes either.
pub const MOST_NODES: usize = 64;

/// The most consolidators.
pub const MOST_CONSOLIDATORS: usize = 7;

/// The most links of a network.
pub const MOST_LINKS: usize = 512;

/// The most prefixes of a network.
pub const MOST_PREFIXES: usize = 256;

// ---- what is read, and what a run may have

/// The most bytes of a schedule, of a script, or of printed tables.
pub const MOST_BYTES: u32 = 16_777_216;

/// The most events of a run; idle events count too.
pub const MOST_EVENTS: u32 = 1_000_000;

/// The most triggers of all nodes together, of one value, or of one list.
pub const MOST_TRIGGERS: u32 = 8_192;

/// The most control messages.
pub const MOST_CONTROL: u32 = 16_384;

/// The most packets.
pub const MOST_PACKETS: u32 = 4_096;

/// The most frames that a node takes from its link.
pub const MOST_FRAMES: u32 = 1_000_000;

/// The most members of a script.
pub const MOST_MEMBERS: usize = 7;

/// The most times that one line repeats something. The least is 1.
pub const MOST_TIMES: u32 = 1_000_000;

// ---- what one node may have

/// The most epochs of a node.
pub const MOST_EPOCHS: u32 = 32;

/// The most entries of a node.
pub const MOST_ENTRIES: u32 = 2_048;

/// The most items that the entries of a node list. A close counts as an item.
pub const MOST_UPDATES: u32 = 16_384;

/// The most triggers that a node lists in its entries, in their items and in its rows of held-back updates. A trigger
/// counts once for each list that has it. A report lists no more.
pub const MOST_MARKS: u32 = 65_536;

/// The most rows of held-back updates in a report: one for each prefix and each other node.
pub const MOST_PENDING: u32 = 16_128;

/// The most rows of sessions in a report.
pub const MOST_SESSIONS: u32 = 65_535;

/// The most nodes of a packet's trail, or of its route.
pub const MOST_TRAIL: usize = 64;

// ---- numbers that may be named

/// The highest number of a load. The lowest is 0.
pub const HIGHEST_LOAD: u32 = 4_294_967_295;

/// The highest number of a node. The lowest is 1.
pub const HIGHEST_NODE: u32 = 65_535;

/// The highest preference of a neighbour. The lowest is 0.
pub const HIGHEST_PREFERENCE: u32 = 1_000_000;

/// The highest limit on the moves of a packet. The lowest is 0.
pub const HIGHEST_HOPS: u32 = 65_535;

/// The highest number of a control message that may be named. The lowest is 1. It is more than the number of messages
/// that can be sent: a line may name a message that was not sent.
pub const HIGHEST_MESSAGE: u32 = 1_000_000;

/// The highest number of a packet. The lowest is 1.
pub const HIGHEST_PACKET: u32 = 4_294_967_295;

/// The highest epoch that may be named. The lowest is 1.
pub const HIGHEST_EPOCH: u32 = 32;

/// The highest value that a member of a script offers. The lowest is 0.
pub const HIGHEST_VALUE: u32 = 4_294_967_295;
