//! The frames that a process and its peers send to each other: reading them from bytes, and writing them as bytes.
//!
//! A frame is one byte version, 1 or 2, one byte kind, four bytes length n, and n bytes of body. Numbers have the
//! highest byte first. n is at most 65,536, or 1,048,576 for the kinds 11, 13, 14 and 16. Version 1:
//!
//! | Kind | Frame | Body |
//! |---|---|---|
//! | 1, 2 | originate, withdraw | prefix |
//! | 3 | prefer | node, value up to 1000000 in four bytes |
//! | 4 | notice | node |
//! | 5 | open session | node, session |
//! | 6 | snap | empty |
//! | 7 | propose | epoch |
//! | 8 | update | peer, session, number, trigger, prefix, path |
//! | 9, 10 | marker, hello | peer, session, epoch (0 in a hello for none) |
//! | 11 | report | peer, report |
//! | 12, 15 | prepare, accepted | peer, epoch, ballot |
//! | 13 | promise | peer, epoch, ballot, a flag, and after flag 1 a ballot and a value |
//! | 14 | accept | peer, epoch, ballot, value |
//! | 16 | decision | peer, epoch, value |
//! | 17 | hop | packet, up to 63 nodes ascending |
//! | 18 | forward | node, packet |
//! | 19 | ended | packet number, 1 delivered, 2 expired or 3 stuck |
//! | 20 | published | epoch, in two bytes how many paths, up to 256, the paths |
//! | 21 | inject | packet number, prefix |
//!
//! A node is two bytes, from 1; a prefix two bytes, up to 255; a session, number, counter or round four bytes, from 1;
//! an epoch four bytes, from 1 to 32. A trigger is a node and a counter, a ballot a round and a node. A path is a byte
//! count, up to 64, and that many different nodes; with no nodes it means no path. `specs/Fields.antt` describes
//! reports, values and packets.
//!
//! Version 2 spells the frames that version 1 cannot:
//!
//! | Kind | Frame | Body |
//! |---|---|---|
//! | 8 | update | peer, session, number, two or more triggers, prefix, path |
//! | 11 | report | peer, report |
//! | 22 | flush | node |
//!
//! A list of triggers is two bytes count, up to 8192, and that many triggers, ascending by node, then by counter. An
//! update of version 1 has one trigger. In a report of version 1 each row lists one trigger, its items list the same
//! one, and nothing is pending; `specs/Listing.antt` describes the lists of all other reports. A frame with a spelling
//! in version 1 has none in version 2.
#![tactic(auto)]

mod bodies;
pub mod checking;
mod counts;
pub mod decoding;
pub mod encoding;
mod faults;
mod fitting;
pub mod frames;
mod kinds;
pub mod laws;
mod layouts;
mod listed_runs;
pub mod owned;
mod parts;
pub mod paths;
mod plain;
mod reading;
mod reports;
mod sent_runs;
mod series;
pub mod tags;
mod writing;

pub use checking::has_spelling;
pub use decoding::decode;
pub use encoding::encode;
pub use frames::{Decoded, Frame, FrameRef};
pub use owned::to_owned;
pub use paths::Paths;
pub use topology::FrameKind;
