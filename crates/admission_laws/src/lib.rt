//! Laws of what a node sends out: its addressees admit it. This crate has only laws, and no code that runs.
#![tactic(auto)]

pub mod laws;
