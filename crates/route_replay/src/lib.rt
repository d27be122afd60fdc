//! Replays a schedule: the text of its run.
#![tactic(auto)]

pub mod closure_text;
pub mod control_text;
pub mod cut_text;
pub mod directives;
pub mod ends;
pub mod laws;
pub mod loading;
pub mod log_text;
pub mod node_views;
pub mod page;
pub mod plain;
pub mod probe_text;
pub mod rib_text;
pub mod runner;
pub mod shown_closure;
pub mod summary;
pub mod tables_text;
pub mod tasks;
pub mod views;
pub mod walk_text;

pub use loading::{load, load_at_exit};
pub use plain::{load_plain, replay_plain};
pub use runner::{replay, replay_at_exit};
