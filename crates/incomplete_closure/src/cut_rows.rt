//! The entries of a cut, as rows of a report.
ghost use Rattle.std.specs.Prelude.{◌≡◌};

use std::marker::Model;
use topology::{Scope, SentItems, Triggers};

/// The row of an entry of the cut: the triggers that it lists, its scope, and the items that it sent.
#[derive(Debug, Drop)]
pub struct Row {
    pub triggers: Triggers,
    pub scope: Scope,
    pub sent: SentItems,
}

/// The rows of a report: one for each entry of the cut, the oldest first.
#[derive(Debug, Drop)]
pub struct Rows {
    list: Vec<Row>,
}

impl Model for Rows {
    ghost use Rattle.std.specs.Prelude.{List};
    ghost use Rattle.incomplete_closure.specs.declared.cut_rows.Row.{Row};

    ghost Value = { List Row };

    ghost view = { λ r. r.list.items };
}

impl Rows {
    /// A report's rows from a list. Takes no memory.
    pub fn new(list: Vec<Row>) -> Rows
        ensures { result ≡ list.items }
    {
        Rows { list }
    }

    pub fn as_slice(&self) -> &[Row]
        ensures { result.now ≡ self.now }
    {
        &self.list
    }
}
