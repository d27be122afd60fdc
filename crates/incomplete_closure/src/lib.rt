//! Which triggers are incomplete: reports of cuts, what is open between two reports, and the value that is agreed on.
#![tactic(auto)]

mod behind;
pub mod closing;
mod collection;
pub mod cut_rows;
mod graph;
pub mod laws;
mod names;
mod opening;
pub mod pending_rows;
mod reached;
mod receipts;
pub mod reports;
mod search;
pub mod session_rows;
mod session_table;
pub mod steps;
pub mod values;
mod wiring;

pub use closing::{closure, uncounted_closure};
pub use cut_rows::{Row, Rows};
pub use pending_rows::PendingRows;
pub use reports::{Report, missing};
pub use session_rows::{SessionRow, SessionRows};
pub use steps::Steps;
pub use values::{RespondingNodes, Value};
