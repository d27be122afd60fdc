//! Consolidators: they hold the reports of cuts, and agree on the value of each epoch.
#![tactic(auto)]

pub mod consolidators;
pub mod held_reports;
pub mod laws;
pub mod messages;
pub mod parts;

pub use consolidators::Consolidator;
#[doc(hidden)]
pub use held_reports::HeldReports;
pub use messages::{Mail, Message, Outbox, Reply};
#[doc(hidden)]
pub use parts::Part;
