//! The walk of a deflected packet over a network that does not change. Which links are up, which nodes own the prefix,
//! and the order in which each node tries its neighbours all stay the same.
//!
//! Such a walk is delivered exactly if links that are up connect its first node to an owner; otherwise it is stuck. It
//! makes at most two moves for each node other than the first: one to get there, and one to go back.
#![tactic(auto)]

mod fitting;
pub mod laws;
pub mod orders;
mod sights;
pub mod stills;
pub mod up_links;
pub mod walking;

pub use orders::Orders;
pub use stills::Still;
pub use up_links::UpLinks;
pub use walking::{StillWalk, still_walk};
