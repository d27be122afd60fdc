//! Tests of the calls of one node and of whole worlds. The expected answers were worked out by hand from the rules,
//! never from the program.
#![tactic(auto)]

#[cfg(test)]
mod tests;
