//! Tests of the top call and its notes, over memory: each side fails in turn, rooms are too small, and words have no
//! known form. Whole files are tested in `cases`.
#![tactic(auto)]

#[cfg(test)]
mod tests;
