//! Entries as a log stores them.
use path_vector::Cause;
use topology::{Scope, SentItems, Triggers};

/// One entry of a log.
#[derive(Debug, Drop)]
pub struct Entry {
    pub triggers: Triggers,
    pub scope: Scope,
    pub cause: Cause,
    pub sent: SentItems,
}
