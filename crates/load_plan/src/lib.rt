//! What a load is made of: a network and what happens in it, both drawn from one number.
#![tactic(auto)]

pub mod draws;
pub mod load_network;
pub mod load_schedule;

pub use load_schedule::{Load, PACKETS, load_of};
