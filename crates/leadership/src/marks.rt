//! Which messages were delivered.
ghost use Rattle.std.specs.Prelude.{ℕ, ◌≡◌, ◌&&◌, ◌||◌, nat_lt, nat_le, IfOk};
ghost use Rattle.std.specs.BTreeSet.{contains};
ghost use Rattle.std.specs.Ordering.{nat_cmp};
ghost use Rattle.leadership.specs.Deliveries.{delivers};

use crate::events::LeadEvent;
use std::collections::BTreeSet;
use topology::NoMemory;

/// Marks the message that the event delivers, if there is one with its number.
pub(crate) fn mark(
    numbers: BTreeSet<u32>,
    count: usize,
    event: &LeadEvent,
) -> Result<BTreeSet<u32>, NoMemory>
    ensures { IfOk result (λ now. (k : ℕ) → contains nat_cmp now k
        ≡ ((delivers k event.now && (nat_lt 0 k && nat_le k count)) || contains nat_cmp numbers k)) }
{
    let mut numbers = numbers;
    match event {
        LeadEvent::Control { number } => {
            let number = *number;
            if number >= 1 && number as usize <= count {
                numbers.insert(number)?;
            }
            Ok(numbers)
        }
        _ => Ok(numbers),
    }
}
