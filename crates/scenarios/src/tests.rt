//! Runs up to their limits, and calls of single libraries.
mod chains;
mod limits;
mod schemes;
mod turns;
mod unrest;

use route_io::{MemSink, MemSource};
use route_replay::replay;
use std::alloc::Global;
use std::test::Fail;
use topology::Status;

/// How the run of this file ended, and what was written.
pub fn outcome(alloc: Global, file: &str) -> Result<(Status, String), Fail> {
    let content = Vec::from_slice(alloc, file.as_bytes())?;
    let mut source = MemSource::new(content, Vec::new(alloc));
    let mut sink = MemSink::new(vec![in alloc; 0; 16_384]?, Vec::new(alloc));
    let status = replay(alloc, &mut source, &mut sink);
    let text = String::from_utf8(Vec::from_slice(alloc, sink.held())?)?;
    Ok((status, text))
}
