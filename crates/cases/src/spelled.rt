//! Frames as a case spells them: two digits for each byte, with spaces between bytes, and comments after `#`.
use anyhow::Result;
use std::alloc::{AllocError, Global};

// Only the digits of the text.
fn digits_of(alloc: Global, text: &str) -> Result<String, AllocError> {
    let mut digits = String::new(alloc);
    for line in text.lines() {
        let spelled = match line.split_once("#") {
            Some((front, _comment)) => front,
            None => line,
        };
        for word in spelled.split_ascii_whitespace() {
            digits.push_str(word)?;
        }
    }
    Ok(digits)
}

/// The bytes that the text spells.
pub fn bytes_spelled(alloc: Global, text: &str) -> Result<Vec<u8>> {
    let digits = digits_of(alloc, text)?;
    Ok(hex::decode(alloc, digits.as_str())?)
}
