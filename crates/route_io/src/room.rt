//! A buffer in memory that is filled in order.
ghost use Rattle.std.specs.Prelude.{◌≡◌, ◌-◌, min, length, take, ◌++◌, []};

use std::marker::Model;

/// A buffer whose bytes before `place` are used; the others are free.
#[derive(Drop)]
pub struct Room {
    bytes: Vec<u8>,
    place: usize,
}

impl Model for Room {
    ghost use Rattle.std.specs.Prelude.{◌≤◌, length, take};
    ghost use Rattle.route_io.specs.Shelf.{Shelf};

    ghost Value = { Shelf };

    ghost view = { λ r.
        record { held = take r.place r.bytes.items; size = length r.bytes.items } };

    ghost invariant = { λ r. r.place ≤ length r.bytes.items };
}

impl Room {
    /// An empty buffer, with all of `bytes` free.
    pub fn new(bytes: Vec<u8>) -> Room
        ensures held { result.held ≡ [] }
        ensures size { result.size ≡ length bytes.items }
    {
        Room { bytes, place: 0 }
    }

    /// The bytes that were taken.
    pub fn held(&self) -> &[u8]
        ensures { result.now ≡ self.now.held }
    {
        &self.bytes[..self.place]
    }

    /// Takes bytes from the front of `piece`, as far as there is room. Returns how many.
    pub fn take(&mut self, piece: &[u8]) -> usize
        ensures count { result ≡ min (length piece.now) (self.old.size - length self.old.held) }
        ensures held { self.new.held ≡ self.old.held ++ take result piece.now }
        ensures size { self.new.size ≡ self.old.size }
    {
        let count = piece.len().min(self.bytes.len() - self.place);
        let end = self.place + count;
        self.bytes[self.place..end].copy_from_slice(&piece[..count]);
        self.place = end;
        count
    }
}
