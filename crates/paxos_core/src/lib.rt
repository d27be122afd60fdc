//! Agreement on one value among members, by ballots: an acceptor, a proposer, and what holds of
//! every chronicle in which nodes follow the rules. After Lamport, "Paxos Made Simple", 2001.
#![tactic(auto)]

pub mod acceptor;
pub mod laws;
pub mod proposer;

pub use acceptor::{Acceptor, Prepared, Took};
pub use proposer::{Phase, Proposer, Tally};
