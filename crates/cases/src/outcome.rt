//! The outcome of a run over memory.
use acceptor_journal::MemDisk;
use anyhow::Result;
use case_verdicts::Outcome;
use route_io::{MemLink, MemSink, MemSource};
use routing_commands::run::run;
use std::alloc::{AllocError, Global};

// How many bytes a run may write.
const TEXT_ROOM: usize = 131_072;

// How many bytes a run may send over its link.
const LINK_ROOM: usize = 16_384;

// How many bytes of notes a run may write; more than the longest line.
const NOTE_ROOM: usize = 256;

fn zeros(alloc: Global, count: usize) -> Result<Vec<u8>, AllocError> {
    vec![in alloc; 0; count]
}

// What the sink holds, as text.
fn held(alloc: Global, sink: &MemSink) -> Result<String> {
    Ok(String::from_utf8(Vec::from_slice(alloc, sink.held())?)?)
}

/// How a run with this code and these notes ends, as one line.
pub fn end_line(alloc: Global, code: u8, notes: &str) -> Result<String, AllocError> {
    if notes.is_empty() {
        return format!(in alloc; "{code}\n");
    }
    format!(in alloc; "{code} {notes}")
}

/// The outcome of a run with these words and this source, where these frames come over the link.
pub fn outcome_of(
    alloc: Global,
    words: &[String],
    source: Vec<u8>,
    frames: Vec<u8>,
) -> Result<Outcome> {
    let mut source = MemSource::new(source, Vec::new(alloc));
    let mut sink = MemSink::new(zeros(alloc, TEXT_ROOM)?, Vec::new(alloc));
    let mut notes = MemSink::new(zeros(alloc, NOTE_ROOM)?, Vec::new(alloc));
    let room = zeros(alloc, LINK_ROOM)?;
    let mut link = MemLink::new(frames, room, false, Vec::new(alloc), Vec::new(alloc));
    let mut disk = MemDisk::new(alloc, Vec::new(alloc), Vec::new(alloc));
    let status = run(
        alloc,
        words,
        &mut source,
        &mut sink,
        &mut notes,
        &mut link,
        &mut disk,
    );
    Ok(Outcome {
        end: end_line(alloc, status.code(), held(alloc, &notes)?.as_str())?,
        text: held(alloc, &sink)?,
        answers: Vec::from_slice(alloc, link.outgoing())?,
    })
}
