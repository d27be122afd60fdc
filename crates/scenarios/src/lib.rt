//! Tests that need code: runs up to each limit, whose files are too long to be kept, a run that never comes to rest,
//! and calls of single libraries. Whole files with their wanted text are in `cases`.
#![tactic(auto)]

#[cfg(test)]
mod tests;
