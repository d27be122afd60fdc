//! What a packet does at a node once it has left the stable tables. By the scheme of the network it is deflected, makes
//! a detour, or takes a backup.
//!
//! If the node owns the prefix, the packet is delivered. Otherwise, if it has no move left, it has expired. Otherwise
//! it moves to a neighbour whose link is up, or is stuck. Each move lowers the budget by one, and the node that it goes
//! to counts as visited from then on.
#![tactic(auto)]

mod backups;
pub mod deflection;
pub mod detours;
pub mod hops;
pub mod laws;
pub mod moves;
mod routes;
pub mod view;

pub use deflection::{asks_for_order, deflect};
pub use detours::detour;
pub use hops::transient_hop;
pub use moves::Move;
pub use view::View;
