//! The words of a line.
ghost use Rattle.std.specs.Prelude.{ℕ, ◌≡◌, ◌≤◌, not, List, [], ◌∷◌, length, position, slice_range, IfSome, IfNone};
ghost use Rattle.text_lines.specs.Words.{separates};

use crate::lines::Line;
use std::marker::Model;

/// A word, as a span of the text.
#[derive(Clone, Copy, Debug, PartialEq, Eq)]
pub struct Token {
    pub start: usize,
    pub end: usize,
}

/// Gives the words of a line one by one.
#[derive(Drop)]
pub struct Tokens<'a> {
    text: &'a [u8],
    from: usize,
    end: usize,
}

impl<'a> Model for Tokens<'a> {
    ghost use Rattle.std.specs.Prelude.{◌≤◌, length};
    ghost use Rattle.text_lines.specs.Readings.{Cutting};

    ghost Value = { Cutting };

    ghost view = { λ tokens. record { text = tokens.text.now; from = tokens.from; end = tokens.end } };

    ghost invariant = { λ tokens. (tokens.from ≤ tokens.end) × (tokens.end ≤ length tokens.text.now) };
}

// Whether the byte is a space or a tab.
fn separates(byte: u8) -> bool
    ensures { result ≡ separates byte }
{
    byte == b' ' || byte == b'\t'
}

// The place of the first separator.
fn first_separator(bytes: &[u8]) -> Option<usize>
    ensures { result ≡ position separates bytes.now }
{
    bytes.iter().position(|byte| separates(*byte))
}

// The place of the first byte of a word.
fn first_of_word(bytes: &[u8]) -> Option<usize>
    ensures { result ≡ position (λ b. not (separates b)) bytes.now }
{
    bytes.iter().position(|byte| !separates(*byte))
}

impl<'a> Tokens<'a> {
    ghost use Rattle.text_lines.specs.Readings.{words_left, IsWithin};

    /// A reader at the start of the line.
    pub fn new(text: &'a [u8], line: Line) -> Tokens<'a>
        requires ordered { line.start ≤ line.end }
        requires inside { line.end ≤ length text.now }
        ensures { result ≡ record { text = text.now; from = line.start; end = line.end } }
    {
        Tokens {
            text,
            from: line.start,
            end: line.end,
        }
    }

    /// The next word of the line.
    pub fn next(&mut self) -> Option<Token>
        ensures within { IfSome result (IsWithin self.old) }
        ensures moved { IfSome result (λ token. self.new
            ≡ record { text = self.old.text; from = token.end; end = self.old.end }) }
        ensures left { IfSome result (λ token. words_left self.old
            ≡ slice_range self.old.text token.start token.end ∷ words_left self.new) }
        ensures same { IfNone result (self.new ≡ self.old) }
        ensures end { IfNone result (words_left self.old ≡ []) }
    {
        let (line, _) = self.text.split_at(self.end);
        let (_, rest) = line.split_at(self.from);
        let Some(skipped) = first_of_word(rest) else {
            return None;
        };
        let (_, rest) = rest.split_at(skipped);
        let start = self.from + skipped;
        let end = start + first_separator(rest).unwrap_or(rest.len());
        self.from = end;
        Some(Token { start, end })
    }
}
