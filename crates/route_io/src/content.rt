//! Bytes in memory that are read in order.
ghost use Rattle.std.specs.Prelude.{◌≡◌, min, length, take, ◌++◌};

use std::marker::Model;

/// Bytes of which those before `place` have been read.
#[derive(Drop)]
pub struct Content {
    bytes: Vec<u8>,
    place: usize,
}

impl Model for Content {
    ghost use Rattle.std.specs.Prelude.{ℕ, List, ◌≤◌, length, drop};

    ghost Value = { List ℕ };

    ghost view = { λ c. drop c.place c.bytes.items };

    ghost invariant = { λ c. c.place ≤ length c.bytes.items };
}

impl Content {
    /// The content before the first read.
    pub fn new(bytes: Vec<u8>) -> Content
        ensures { result ≡ bytes.items }
    {
        Content { bytes, place: 0 }
    }

    /// Copies the next bytes into the front of `buf`, as many as both allow. Returns how many.
    pub fn give(&mut self, buf: &mut [u8]) -> usize
        ensures count { result ≡ min (length buf.old) (length self.old) }
        ensures bytes { self.old ≡ take result buf.new ++ self.new }
    {
        let count = buf.len().min(self.bytes.len() - self.place);
        let end = self.place + count;
        buf[..count].copy_from_slice(&self.bytes[self.place..end]);
        self.place = end;
        count
    }
}
