//! Sets of ways.
ghost use Rattle.std.specs.Prelude.{ℕ, ◌≡◌, ◌<◌, ◌==◌, false, length, IfOk, IfSome, IfNone, if◌then◌else◌, slice_index};
ghost use Rattle.std.specs.Int.{bit_at};
ghost use Rattle.link_model.specs.declared.way_set.TheConstants.{MOST_WAYS};

use std::alloc::Global;
use topology::NoMemory;

/// No network has this many ways: it has at most 64 nodes, each with fewer than 64 neighbours.
pub const MOST_WAYS: usize = 4_096;

// The number of words that together have a bit for each way.
const WORDS: usize = 64;

/// A set of ways, with a bit for the number of each.
#[derive(Drop)]
pub struct WaySet {
    words: Vec<u64>,
    // A bit for each word; where it is 0, the word is 0.
    filled: u64,
    ghost full: { length words.items ≡ 64 },
    ghost known: { (place : ℕ) → place < 64 → bit_at filled place ≡ 0 → slice_index words.items place ≡ 0 },
}

impl WaySet {
    ghost use Rattle.link_model.specs.WaySets.{has_number, has_both, IsLowest};

    /// The empty set.
    pub fn new(alloc: Global) -> Result<WaySet, NoMemory>
        ensures { IfOk result (λ ways. (number : ℕ) → has_number ways number ≡ false) }
    {
        Ok(WaySet {
            words: vec![in alloc; 0; WORDS]?,
            filled: 0,
        })
    }

    /// Adds the way with this number, or removes it. Takes no memory.
    pub fn put(&mut self, number: usize, is: bool)
        requires { number < MOST_WAYS }
        ensures { (other : ℕ) → has_number self.new other ≡ (if other == number then is else has_number self.old other) }
    {
        let place = number / 64;
        let bit = 1u64 << (number % 64);
        if is {
            self.words[place] |= bit;
            self.filled |= 1u64 << place;
            return;
        }
        self.words[place] &= !bit;
        if self.words[place] == 0 {
            self.filled &= !(1u64 << place);
        }
    }

    /// Whether the way with this number is in the set. Takes no memory.
    pub fn has(&self, number: usize) -> bool
        requires { number < MOST_WAYS }
        ensures { result ≡ has_number self.now number }
    {
        self.words[number / 64] >> (number % 64) & 1 == 1
    }

    /// The lowest number that is in both sets. Takes no memory.
    pub fn first_common(&self, other: &WaySet) -> Option<usize>
        ensures some { IfSome result (IsLowest (has_both self.now other.now)) }
        ensures none { IfNone result ((number : ℕ) → has_both self.now other.now number ≡ false) }
    {
        let filled = self.filled & other.filled;
        if filled == 0 {
            return None;
        }
        for place in filled.trailing_zeros() as usize..WORDS {
            let word = self.words[place] & other.words[place];
            if word != 0 {
                return Some(place * 64 + word.trailing_zeros() as usize);
            }
        }
        None
    }
}
