//! The verdict on a run: whether its outcome is the wanted one, and where the two differ first.
#![tactic(auto)]

mod differences;
mod outcomes;
mod verdicts;

pub use outcomes::{Outcome, Part, Wanted};
pub use verdicts::{Verdict, verdict_on};
