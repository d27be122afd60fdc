//! One node: the state that it keeps, and its answer to each input.
#![tactic(auto)]

pub mod agreement;
pub mod answers;
pub mod counts;
mod duties;
mod fitting;
pub mod inputs;
pub mod laws;
pub mod limits;
mod marks;
pub mod node;
pub mod outputs;
mod packet_hops;
pub mod parts;
mod publishing;
mod reports;
mod steps;

#[doc(hidden)]
pub use agreement::Agreement;
#[doc(hidden)]
pub use counts::Counts;
pub use inputs::Input;
pub use node::Node;
pub use outputs::{First, Output, OutputList, Outputs, Stop};
#[doc(hidden)]
pub use parts::NodeParts;
