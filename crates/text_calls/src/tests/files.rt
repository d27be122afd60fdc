//! Files, lines and what they say, worked out by hand from the rules of the format. Many more are in the crate `cases`.
mod refusals;
mod schedules;
