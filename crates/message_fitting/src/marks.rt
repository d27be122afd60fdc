//! What is left of a number after what lists have.
ghost use Rattle.std.specs.Prelude.{◌+◌, ◌<◌, ◌≡◌, IfNone, IfSome};
ghost use Rattle.message_fitting.specs.Marks.{row_marks};

use topology::Pending;

/// The first number less the second. None where the second is higher.
pub fn less(number: usize, count: usize) -> Option<usize>
    ensures some { IfSome result (λ left. left + count ≡ number) }
    ensures none { IfNone result (number < count) }
{
    if count > number {
        return None;
    }
    Some(number - count)
}

/// The number less the count of triggers that the rows of updates held back list. None where the rows list more.
pub fn less_pending(number: usize, rows: &[Pending]) -> Option<usize>
    ensures some { IfSome result (λ left. left + row_marks rows.now ≡ number) }
    ensures none { IfNone result (number < row_marks rows.now) }
{
    let mut left = number;
    for row in rows {
        let Some(rest) = less(left, row.triggers.len()) else {
            return None;
        };
        left = rest;
    }
    Some(left)
}
