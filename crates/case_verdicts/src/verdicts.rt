//! The verdict on an outcome.
ghost use Rattle.std.specs.Prelude.{IfOk};
ghost use Rattle.case_verdicts.specs.Judging.{Judges};

use crate::differences::{difference, is_same, part_difference};
use crate::{Outcome, Wanted};
use std::alloc::{AllocError, Global};

/// The verdict on a case.
#[derive(Drop)]
pub enum Verdict {
    /// The outcome is what is wanted.
    Passed,
    /// The outcome is different; this is the first difference.
    Failed(String),
}

/// The verdict on an outcome.
pub fn verdict_on(alloc: Global, wanted: &Wanted, came: &Outcome) -> Result<Verdict, AllocError>
    ensures { IfOk result (λ verdict. Judges verdict wanted.now came.now) }
{
    match wanted {
        Wanted::Whole(wanted) => {
            if is_same(wanted, came) {
                return Ok(Verdict::Passed);
            }
            Ok(Verdict::Failed(difference(alloc, wanted, came)?))
        }
        Wanted::Lines(part) => match part_difference(alloc, part, came)? {
            Some(difference) => Ok(Verdict::Failed(difference)),
            None => Ok(Verdict::Passed),
        },
    }
}
