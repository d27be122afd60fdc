//! One node over a link: it reads frames, gives each to the node, and writes what the node sends out.
//!
//! [`serve`] answers the frames of a link that was dialled; [`attend`] reads the network from a source and dials first;
//! [`attend_plain`] does the same over plain memory. `specs/Streams.antt` defines how a stream of frames ends.
//! `specs/Served.antt` and `specs/Attended.antt` say what a user is promised, `specs/Plain.antt` what is added over
//! plain memory.
#![tactic(auto)]

mod answering;
mod attending;
pub mod fronts;
pub mod inputs;
pub mod keeping;
pub mod laws;
mod outputs;
mod plain;
mod records;
mod replies;
mod reports;
pub mod restoring;
pub mod serving;

pub use attending::{KeptNode, attend, attend_kept};
pub use keeping::MOST_JOURNAL;
pub use plain::attend_plain;
pub use restoring::{Kept, restore};
pub use serving::{serve, serve_kept};
