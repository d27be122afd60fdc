//! Checks whether printed tables fit together: each path is simple, is printed the same each time, and goes on as the
//! path of its second node.
//!
//! The text has lines as `replay` writes them for the tables of an epoch:
//!
//! | Line | Meaning |
//! |---|---|
//! | `table N E PREFIX: none` | in its table of epoch E, 1 to 32, node N, 1 to 65535, has no path for the prefix |
//! | `table N E PREFIX: N V ..` | it has this path, of 1 to 64 nodes |
//! | `table N E: unpublished` | it has published no table of the epoch |
//!
//! A line that begins with another word is skipped. [`audit`] reads a text and writes one line if nothing is wrong;
//! [`check_rows`] is the check alone.
#![tactic(auto)]

pub mod auditing;
pub mod checking;
mod index;
pub mod laws;
mod lines;
pub mod reading;
pub mod rows;

pub use auditing::audit;
pub use checking::{Verdict, check_rows};
pub use reading::{RowsEnd, read_rows};
pub use rows::{AuditRow, RowNodes};
