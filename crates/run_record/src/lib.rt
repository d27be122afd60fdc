//! What a world keeps of its run: the walks of its packets, the tables that were published, and what each step told.
#![tactic(auto)]

pub mod account;
pub mod outcomes;
pub mod publications;
pub mod walks;

pub use account::{Account, Wanted};
pub use outcomes::{Effect, Effects, Outcome};
pub use publications::Publication;
pub use walks::{Walks, visit_of};
