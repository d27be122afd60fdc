//! Tests of the public calls of the lower libraries, each library by itself. The expected values were worked out by
//! hand.
#![tactic(auto)]

#[cfg(test)]
mod tests;
