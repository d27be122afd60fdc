//! The addresses that were dialled, recorded for contracts only.
ghost use Rattle.std.specs.Prelude.{◌≡◌, ℕ, List, [], ◌∷◌};
ghost use Rattle.std.specs.Borrow.{ftrue};

use std::marker::Model;

/// The addresses that were dialled, the newest first. The value has no bytes: only contracts read it.
#[derive(Drop)]
pub struct Dialled {
    pub ghost addresses: { List (List ℕ) },
}

impl Model for Dialled {
    ghost also_owns = { λ _. ftrue };
}

impl Dialled {
    /// No addresses.
    pub fn new() -> Dialled
        ensures { result.addresses ≡ [] }
    {
        Dialled {}
    }

    /// Adds an address.
    pub fn then(&self, _address: &[u8]) -> Dialled
        ensures { result.addresses ≡ _address.now ∷ self.now.addresses }
    {
        Dialled {}
    }
}
