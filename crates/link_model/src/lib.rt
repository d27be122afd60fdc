//! The links of a network: which session each carries, and what is on its way over it.
//!
//! Items go over a link in sessions, numbered from 1. A link that fails loses what is on its way, in both directions;
//! when it is restored, it carries the next session. Nothing else empties a channel, and items leave it in the order in
//! which they were pushed.
#![tactic(auto)]

pub mod channels;
pub mod laws;
pub mod links;
mod ranks;
pub mod way_set;
mod way_table;

pub use channels::Channel;
pub use links::Links;
pub use topology::LinkState;
pub use way_set::{MOST_WAYS, WaySet};
