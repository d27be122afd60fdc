//! The wanted outcome of a case.
use crate::files::{text_of, text_or};
use crate::spelled::bytes_spelled;
use anyhow::Result;
use case_verdicts::{Outcome, Part, Wanted};
use std::rt::Files;

// How many lines the text of the case must have, if a file says it.
fn count_of<R: Files + AllocGlobal>(rt: &R, name: &str) -> Result<Option<usize>> {
    let Some(text) = text_of(rt, name, "count")? else {
        return Ok(None);
    };
    Ok(Some(text.as_str().trim_ascii().parse::<usize>()?))
}

/// The wanted outcome, from the files of the case.
pub fn wanted_of<R: Files + AllocGlobal>(rt: &R, name: &str) -> Result<Wanted> {
    let end = text_or(rt, name, "end", "0\n")?;
    if let Some(lines) = text_of(rt, name, "has")? {
        let count = count_of(rt, name)?;
        return Ok(Wanted::Lines(Part { end, lines, count }));
    }
    let text = text_or(rt, name, "text", "")?;
    let answers = text_or(rt, name, "answers", "")?;
    let answers = bytes_spelled(rt.alloc(), answers.as_str())?;
    Ok(Wanted::Whole(Outcome { end, text, answers }))
}
