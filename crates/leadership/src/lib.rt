//! One leader for many epochs: a single prepare makes a member the leader of every epoch from one on.
//!
//! Members agree on a number for each epoch, after Lamport's Paxos. [`lead`] reads a script, runs it and writes its
//! text. The lines of a script are cut into words like those of a schedule. Before `begin` there are
//!
//! | Line | Meaning |
//! |---|---|
//! | `member N` | a member, N from 1 to 65535; at most 7 |
//!
//! and after it
//!
//! | Line | Meaning |
//! |---|---|
//! | `lead N E` | N starts a ballot for every epoch from E on, 1 to 32 |
//! | `offer N E X` | if N leads, it gives epoch E the value X, 0 to 4294967295 |
//! | `ctl K` | message K, 1 to 1000000, arrives |
//! | `ctl all N` | at most N messages, 1 to 1000000, arrive, each of them the next one |
//! | `crash N`, `restart N` | N crashes, or runs again |
//! | `show chosen` | writes each epoch with a chosen value |
//!
//! An event that does nothing writes a line with the reason, unless it comes from `ctl all`.
#![tactic(auto)]

mod choices;
mod directives;
pub mod ends;
pub mod events;
pub mod floors;
pub mod fronts;
pub mod heard;
pub mod hearings;
pub mod laws;
pub mod leads;
mod lists;
pub mod mail_list;
pub mod mails;
mod marks;
pub mod messages;
mod network;
pub mod parser;
mod reading;
pub mod reasons;
pub mod runner;
pub mod scripts;
pub mod sites;
pub mod stops;
mod text;
mod votes;
mod waiting;
pub mod world;

pub use events::LeadEvent;
pub use parser::{ScriptEnd, parse};
pub use reasons::LeadReason;
pub use runner::lead;
pub use scripts::{Directive, Line, Numbered, Script};
pub use stops::LeadStop;
pub use world::LeadWorld;
