//! The log of a node: its entries, their triggers, and the items that each entry sent.
#![tactic(auto)]

mod announcements;
mod best_routes;
mod counters;
pub mod entries;
pub mod held_back;
mod held_changes;
pub mod kept_entries;
pub mod laws;
mod listeners;
pub mod log;
mod offers;
pub mod outgoing;
pub mod pending_list;
mod quiet_entries;
mod session_changes;
pub mod sessions;

pub use counters::next_number;
pub use entries::Entry;
pub use log::NodeLog;
pub use outgoing::Outgoing;
pub use sessions::SessionMark;
