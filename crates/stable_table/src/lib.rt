//! The stable table of an epoch: for each prefix the best path over the complete entries of a cut, and the backup
//! paths, all through nodes that responded. A node keeps two such tables.
#![tactic(auto)]

mod backups;
mod dropping;
mod incomplete;
mod known_paths;
mod responders;
mod routes;
pub mod rows;
pub mod tables;
pub mod two_tables;

pub use dropping::droppable_before;
pub use tables::{Table, table_after, table_of};
pub use two_tables::{Older, TwoTables};
