//! Cuts the bytes of a text into lines, words and numbers, as spans of the text. No call takes memory.
#![tactic(auto)]

pub mod laws;
pub mod lines;
pub mod numbers;
pub mod words;

pub use lines::{Line, Lines};
pub use numbers::read_number;
pub use words::{Token, Tokens};
