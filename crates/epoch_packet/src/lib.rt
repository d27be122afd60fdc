//! Packets: what they carry, and how they follow the stable tables.
//!
//! A packet enters the network stamped with the newest epoch that its node published, and follows the tables of that
//! epoch. Where it cannot, it turns: it leaves the tables for good, and may make a limited number of moves. No call
//! takes memory unless it makes a list of nodes longer.
#![tactic(auto)]

pub mod node_lists;
pub mod packets;
pub mod stable;
pub mod visited;
pub mod walks;

pub use node_lists::NodeList;
pub use packets::{Packet, stamp};
pub use stable::{StableStep, stable_hop};
pub use visited::{has_visited, with_visited};
pub use walks::{End, Mode, Visit};
