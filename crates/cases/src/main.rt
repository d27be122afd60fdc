//! Runs over memory the cases that standard input names, one on each line. Writes for each case whether it passed.
//!
//! A case is a few files in the folder where this program runs. docs/ARCHITECTURE.md says how to add one.
#![tactic(auto)]

mod files;
mod last_lines;
mod outcome;
mod spelled;
mod verdict;
mod wanted;

use anyhow::Result;
use case_verdicts::Verdict;
use std::io;
use std::process::ExitCode;
use std::rt::Files;
use verdict::verdict_of;

// Runs the case and writes its line. Returns whether it passed.
fn passes<R: Files + Print + AllocGlobal>(rt: &R, name: &str) -> Result<bool> {
    match verdict_of(rt, name) {
        Ok(Verdict::Passed) => {
            println!(rt; "{name} ok")?;
            Ok(true)
        }
        Ok(Verdict::Failed(cause)) => {
            println!(rt; "{name}: FAILED: {cause}")?;
            Ok(false)
        }
        Err(error) => {
            println!(rt; "{name}: FAILED: {error}")?;
            Ok(false)
        }
    }
}

// Whether all cases with these names passed.
fn all_pass<R: Files + Print + AllocGlobal>(rt: &R, names: &str) -> Result<bool> {
    let mut passed = true;
    for name in names.lines() {
        if !passes(rt, name)? {
            passed = false;
        }
    }
    Ok(passed)
}

fn main(rt: HostRuntime) -> Result<ExitCode> {
    let names = io::read_to_string(rt.alloc(), rt.reader())?;
    if all_pass(&rt, names.as_str())? {
        return Ok(ExitCode::SUCCESS);
    }
    Ok(ExitCode::FAILURE)
}
