//! Tests of the crates for bytes, lines, files and frames. The expected answers were worked out from the rules of the
//! formats, never from the program.
#![tactic(auto)]

#[cfg(test)]
mod tests;
