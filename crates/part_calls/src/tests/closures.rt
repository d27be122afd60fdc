//! Calls of `incomplete_closure`: reports of three nodes, with their incomplete triggers worked out by hand.
mod cases;
mod reading;
mod rounds;
