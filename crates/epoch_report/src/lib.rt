//! What a node reports of its cut of an epoch: its entries and the items that each sent, its sessions, and what it
//! holds back.
#![tactic(auto)]

pub mod reporting;
mod telling;

pub use reporting::report_of;
