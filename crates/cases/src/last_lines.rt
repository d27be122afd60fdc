//! Tables of last lines. A row has the fault of a line, a colon, and the line. Each line is put after the
//! schedule in turn.
use crate::outcome::{end_line, outcome_of};
use anyhow::Result;
use case_verdicts::Outcome;
use std::alloc::{AllocError, Global};

// How many lines the front has.
fn lines_in(front: &[u8]) -> usize {
    front.iter().filter(|byte| **byte == b'\n').count()
}

// The front followed by this line.
fn followed(alloc: Global, front: &[u8], line: &str) -> Result<Vec<u8>, AllocError> {
    let mut file = Vec::from_slice(alloc, front)?;
    file.extend_from_slice(line.as_bytes())?;
    file.push(b'\n')?;
    Ok(file)
}

// How a run must end whose last line has this number and this fault, or is `good`.
fn wanted_end(alloc: Global, number: usize, fault: &str) -> Result<String, AllocError> {
    if fault == "good" {
        return end_line(alloc, 0, "");
    }
    let note = format!(in alloc; "bad schedule: line {number}: {fault}\n")?;
    end_line(alloc, 4, note.as_str())
}

// What is wrong with a run. The text of a run that reaches the last line does not matter.
fn fault_of(
    alloc: Global,
    line: &str,
    wanted: &str,
    came: &Outcome,
) -> Result<Option<String>, AllocError> {
    let end = came.end.as_str();
    if end != wanted {
        let (wanted, end) = (wanted.trim_ascii_end(), end.trim_ascii_end());
        return Ok(Some(format!(in alloc; "{line}: wanted: {wanted}, came: {end}")?));
    }
    if end != "0\n" && !came.text.is_empty() {
        return Ok(Some(format!(in alloc; "{line}: something is written")?));
    }
    Ok(None)
}

// What is wrong with the run of this row.
fn row_fault(alloc: Global, words: &[String], front: &[u8], row: &str) -> Result<Option<String>> {
    let Some((fault, line)) = row.split_once(": ") else {
        return Ok(Some(format!(in alloc; "no row: {row}")?));
    };
    let number = lines_in(front).saturating_add(1);
    let wanted = wanted_end(alloc, number, fault)?;
    let file = followed(alloc, front, line)?;
    let came = outcome_of(alloc, words, file, Vec::new(alloc))?;
    Ok(fault_of(alloc, line, wanted.as_str(), &came)?)
}

/// What is wrong with the first row that fails. Empty rows, and rows that begin with `#`, are skipped.
pub fn first_fault(
    alloc: Global,
    words: &[String],
    front: &[u8],
    rows: &str,
) -> Result<Option<String>> {
    for row in rows.lines() {
        if row.is_empty() || row.starts_with("#") {
            continue;
        }
        if let Some(fault) = row_fault(alloc, words, front, row)? {
            return Ok(Some(fault));
        }
    }
    Ok(None)
}
