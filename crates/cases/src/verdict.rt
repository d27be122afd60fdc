//! One case: what its files ask for, the outcome of its run, and the verdict on it.
use crate::files::{bytes_of, text_of, text_or};
use crate::last_lines::first_fault;
use crate::outcome::outcome_of;
use crate::spelled::bytes_spelled;
use crate::wanted::wanted_of;
use anyhow::{Result, bail};
use case_verdicts::{Verdict, verdict_on};
use std::rt::Files;

// The words of the case, one on each line; `replay` if it has no file of words.
fn words_of<R: Files + AllocGlobal>(rt: &R, name: &str) -> Result<Vec<String>> {
    let text = text_or(rt, name, "words", "replay\n")?;
    let mut words = Vec::new(rt.alloc());
    for word in text.as_str().lines() {
        words.push(String::from_str(rt.alloc(), word)?)?;
    }
    Ok(words)
}

// The source of the case: a schedule, the network of a node, or nothing if the words need no file.
fn source_of<R: Files + AllocGlobal>(rt: &R, name: &str) -> Result<Vec<u8>> {
    for ending in ["schedule", "network"] {
        if let Some(source) = bytes_of(rt, name, ending)? {
            return Ok(source);
        }
    }
    if text_of(rt, name, "words")?.is_none() {
        bail!("no such case");
    }
    Ok(Vec::new(rt.alloc()))
}

/// Runs the case of this name.
pub fn verdict_of<R: Files + AllocGlobal>(rt: &R, name: &str) -> Result<Verdict> {
    let alloc = rt.alloc();
    let words = words_of(rt, name)?;
    let source = source_of(rt, name)?;
    if let Some(rows) = text_of(rt, name, "last")? {
        return match first_fault(alloc, words.as_slice(), source.as_slice(), rows.as_str())? {
            Some(fault) => Ok(Verdict::Failed(fault)),
            None => Ok(Verdict::Passed),
        };
    }
    let frames = text_or(rt, name, "frames", "")?;
    let frames = bytes_spelled(alloc, frames.as_str())?;
    let wanted = wanted_of(rt, name)?;
    let came = outcome_of(alloc, words.as_slice(), source, frames)?;
    Ok(verdict_on(alloc, &wanted, &came)?)
}
