//! Tests of one node over a link in memory, by the top call and by the calls for one node: a link or a disk fails, or has little
//! room, and a peer waits.
#![tactic(auto)]

#[cfg(test)]
mod tests;
