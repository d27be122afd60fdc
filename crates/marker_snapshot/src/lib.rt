//! The snapshots of a node: its epoch, its cuts, and what it records after each of them.
//!
//! A node that raises its epoch takes a cut: it notes the number of entries of its log. From then on it records, for
//! each session that it holds, which updates arrive in it, until a marker or hello of that epoch or a later one arrives
//! in that session (after Chandy and Lamport, 1985).
#![tactic(auto)]

pub mod recording;
pub mod recordings;
pub mod snapshots;

pub use recording::Recording;
pub use snapshots::Snapshots;
