//! The lines of a text.
ghost use Rattle.std.specs.Prelude.{ℕ, ◌≡◌, ◌↔◌, ◌+◌, ◌-◌, ◌<◌, ◌≤◌, ◌^◌, ◌==◌, List, [], ◌∷◌, length, take, position, IsSome, IfSome, IfNone};
ghost use Rattle.text_lines.specs.Lines.{lines_of, left_of, line_at};

use std::marker::Model;

/// What is left of a line after its comment and its carriage return are dropped, as a span of the
/// text. Lines are numbered from 1.
#[derive(Clone, Copy, Debug, PartialEq, Eq)]
pub struct Line {
    pub number: u32,
    pub start: usize,
    pub end: usize,
}

/// Gives the lines of a text one by one.
#[derive(Drop)]
pub struct Lines<'a> {
    text: &'a [u8],
    at: usize,
    given: u32,
}

impl<'a> Model for Lines<'a> {
    ghost use Rattle.text_lines.specs.Readings.{Reading};
    ghost use Rattle.text_lines.specs.Places.{StandsAt};

    ghost Value = { Reading };

    ghost view = { λ lines. record { text = lines.text.now; given = lines.given } };

    ghost invariant = { λ lines. StandsAt lines.text.now lines.at lines.given };
}

// The place of the first mark.
fn first(mark: u8, bytes: &[u8]) -> Option<usize>
    ensures { result ≡ position (λ b. b == mark) bytes.now }
{
    bytes.iter().position(|byte| *byte == mark)
}

// How many bytes are left of a line.
fn left_length(line: &[u8]) -> usize
    ensures within { result ≤ length line.now }
    ensures left { take result line.now ≡ left_of line.now }
{
    let length = first(b'#', line).unwrap_or(line.len());
    if length > 0 && line[length - 1] == b'\r' {
        return length - 1;
    }
    length
}

impl<'a> Lines<'a> {
    ghost use Rattle.text_lines.specs.Readings.{lines_left, IsNextLine};

    /// A reader at the start of the text.
    pub fn new(text: &'a [u8]) -> Lines<'a>
        requires { length text.now < 2 ^ 32 - 1 }
        ensures { result ≡ record { text = text.now; given = 0 } }
    {
        Lines {
            text,
            at: 0,
            given: 0,
        }
    }

    /// The next line. Every line is given, even one without words.
    pub fn next(&mut self) -> Option<Line>
        ensures more { IsSome result ↔ (self.old.given < length (lines_of self.old.text)) }
        ensures line { IfSome result (IsNextLine self.old) }
        ensures given { IfSome result
            (λ _. self.new ≡ record { text = self.old.text; given = self.old.given + 1 }) }
        ensures left { let line = line_at self.old.text self.old.given in
            IfSome result (λ _. lines_left self.old ≡ line ∷ lines_left self.new) }
        ensures same { IfNone result (self.new ≡ self.old) }
        ensures end { IfNone result (lines_left self.old ≡ []) }
    {
        if self.at == self.text.len() {
            return None;
        }
        let start = self.at;
        let (_, rest) = self.text.split_at(start);
        let length = first(b'\n', rest).unwrap_or(rest.len());
        let (whole, _) = rest.split_at(length);
        let end = start + left_length(whole);
        self.at = self.text.len().min(start + length + 1);
        self.given += 1;
        Some(Line {
            number: self.given,
            start,
            end,
        })
    }
}
