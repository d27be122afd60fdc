//! Runs of one node over memory.
mod kept_nodes;
mod over_links;
mod waiting_peer;

use acceptor_journal::MemDisk;
use route_io::MemSink;
use std::alloc::Global;
use std::test::Fail;

fn words_of(alloc: Global, words: &[&str]) -> Result<Vec<String>, Fail> {
    let mut given = Vec::new(alloc);
    for word in words {
        given.push(String::from_str(alloc, word)?)?;
    }
    Ok(given)
}

// A disk without a file, for words that need none.
fn no_disk(alloc: Global) -> MemDisk {
    MemDisk::new(alloc, Vec::new(alloc), Vec::new(alloc))
}

// A sink with room for so many bytes.
fn sink_of(alloc: Global, room: usize, failing: &[u64]) -> Result<MemSink, Fail> {
    let room = vec![in alloc; 0; room]?;
    Ok(MemSink::new(room, Vec::from_slice(alloc, failing)?))
}
