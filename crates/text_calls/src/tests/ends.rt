//! A source and a sink over memory.
use route_io::{PlainSink, PlainSource};
use std::alloc::{AllocError, Global};

/// A source of this text.
pub fn source_of(alloc: Global, text: &str) -> Result<PlainSource, AllocError> {
    Ok(PlainSource::new(Vec::from_slice(alloc, text.as_bytes())?))
}

/// A sink with room for so many bytes.
pub fn sink_of(alloc: Global, room: usize) -> Result<PlainSink, AllocError> {
    Ok(PlainSink::new(vec![in alloc; 0; room]?))
}
