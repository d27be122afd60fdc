//! Whether control messages and packets fit a network and the limits.
#![tactic(auto)]

pub mod control_fitting;
pub mod marks;
pub mod names;
pub mod packet_fitting;
