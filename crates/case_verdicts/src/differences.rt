//! Compares a run with what is wanted, and names the first difference.
ghost use Rattle.std.specs.Prelude.{◌↔◌, IsTrue};
ghost use Rattle.case_verdicts.specs.Judging.{IsSame};

use crate::{Outcome, Part};
use std::alloc::{AllocError, Global};

/// Whether the run is exactly what is wanted.
pub(crate) fn is_same(wanted: &Outcome, came: &Outcome) -> bool
    ensures { IsTrue result ↔ IsSame wanted.now came.now }
{
    wanted.end == came.end && wanted.text == came.text && wanted.answers == came.answers
}

// The first line that differs.
fn line_difference(alloc: Global, wanted: &str, came: &str) -> Result<String, AllocError> {
    let mut written = came.lines();
    let mut number = 1u64;
    for line in wanted.lines() {
        let next = written.next().unwrap_or("nothing");
        if next != line {
            return format!(in alloc; "line {number} of the text: wanted: {line}, written: {next}");
        }
        number = number.saturating_add(1);
    }
    match written.next() {
        Some(next) => format!(in alloc;
            "line {number} of the text: wanted: nothing, written: {next}"
        ),
        None => String::from_str(alloc, "the newline at the end of the text"),
    }
}

// The first byte that differs.
fn byte_difference(alloc: Global, wanted: &[u8], came: &[u8]) -> Result<String, AllocError> {
    let mut place = 0u64;
    for (wanted, came) in wanted.iter().zip(came) {
        if wanted != came {
            return format!(in alloc;
                "byte {place} of the answers: wanted: {wanted:02x}, came: {came:02x}"
            );
        }
        place = place.saturating_add(1);
    }
    let (wanted, came) = (wanted.len(), came.len());
    format!(in alloc; "bytes of the answers: wanted: {wanted}, came: {came}")
}

// The ends of two runs that end differently.
fn end_difference(alloc: Global, wanted: &str, came: &str) -> Result<String, AllocError> {
    let (wanted, came) = (wanted.trim_ascii_end(), came.trim_ascii_end());
    format!(in alloc; "the end: wanted: {wanted}, came: {came}")
}

/// The first difference between the run and what is wanted.
pub(crate) fn difference(
    alloc: Global,
    wanted: &Outcome,
    came: &Outcome,
) -> Result<String, AllocError> {
    if wanted.end != came.end {
        return end_difference(alloc, wanted.end.as_str(), came.end.as_str());
    }
    if wanted.text != came.text {
        return line_difference(alloc, wanted.text.as_str(), came.text.as_str());
    }
    byte_difference(alloc, wanted.answers.as_slice(), came.answers.as_slice())
}

// The first of these lines that does not come in the text after the lines before it.
fn missing<'a>(text: &str, lines: &'a str) -> Option<&'a str> {
    let mut written = text.lines();
    for line in lines.lines() {
        if !written.any(|it| it == line) {
            return Some(line);
        }
    }
    None
}

/// The first difference between the run and what is known of what is wanted.
pub(crate) fn part_difference(
    alloc: Global,
    part: &Part,
    came: &Outcome,
) -> Result<Option<String>, AllocError> {
    if part.end != came.end {
        return Ok(Some(end_difference(alloc, part.end.as_str(), came.end.as_str())?));
    }
    if let Some(line) = missing(came.text.as_str(), part.lines.as_str()) {
        return Ok(Some(format!(in alloc;
            "the text: wanted: {line}, written: no such line there"
        )?));
    }
    let count = came.text.as_str().lines().count();
    match part.count {
        Some(wanted) if wanted != count => Ok(Some(format!(in alloc;
            "lines of the text: wanted: {wanted}, written: {count}"
        )?)),
        _ => Ok(None),
    }
}
