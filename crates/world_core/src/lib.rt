//! A world: the nodes, links, control messages and packets of a network, and what each event does to them.
#![tactic(auto)]

pub mod laws;
mod network;
mod probing;
pub mod world;
mod world_state;

pub use chronicle::Event;
pub use link_model::Links;
pub use node_core::{Node, Stop};
pub use run_record::{Effect, Effects, Outcome, Publication};
pub use world::World;
