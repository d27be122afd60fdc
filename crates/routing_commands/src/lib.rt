//! What the words of the program ask for, and the top call that does it.
//!
//! [`run::run`] replays a schedule, makes a load and runs it, answers a link as one node, audits printed tables, or runs
//! a script of members, over any source, sink, link and disk.
//! [`forms`] reads the words, and [`notes`] writes the line of a run that ended before its time.
#![tactic(auto)]

pub mod forms;
pub mod notes;
pub mod run;
