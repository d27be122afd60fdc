//! The paths of a table.
ghost use Rattle.std.specs.Prelude.{◌≡◌};

use std::marker::Model;
use topology::Path;

/// The path of each prefix of a table, in the order of the prefixes.
#[derive(Debug, Drop)]
pub struct Paths {
    list: Vec<Option<Path>>,
}

impl Model for Paths {
    ghost use Rattle.std.specs.Prelude.{ℕ, List, Option};

    ghost Value = { List (Option (List ℕ)) };

    ghost view = { λ p. p.list.items };
}

impl Paths {
    /// Paths from a list. Takes no memory.
    pub fn new(list: Vec<Option<Path>>) -> Paths
        ensures { result ≡ list.items }
    {
        Paths { list }
    }

    pub fn as_slice(&self) -> &[Option<Path>]
        ensures { result.now ≡ self.now }
    {
        &self.list
    }
}
