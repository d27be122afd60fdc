//! Lines, words and numbers cut by hand, and a caller that goes through a whole text.
ghost use Rattle.std.specs.Prelude.{◌≡◌, ◌+◌, ◌-◌, ◌≤◌, ◌<◌, ◌^◌, length, map, slice_range, sum_by, IfOk};
ghost use Rattle.text_lines.specs.Lines.{lines_of, left_of};
ghost use Rattle.text_lines.specs.Words.{words_of};

use std::alloc::{AllocError, Global};
use std::process::Abort;
use std::test::Fail;
use text_lines::laws::lines_stand_in_order;
use text_lines::{Line, Lines, Token, Tokens, read_number};

// Texts, and what is left of each of their lines.
const LINES: [(&[u8], &[&[u8]]); 18] = [
    (b"", &[]),
    (b"\n", &[b""]),
    (b"a", &[b"a"]),
    (b"a\n", &[b"a"]),
    (b"a\nb", &[b"a", b"b"]),
    (b"\n\na\n\n", &[b"", b"", b"a", b""]),
    (b"# all\nb", &[b"", b"b"]),
    (b"a #x # y\nb#\n#", &[b"a ", b"b", b""]),
    (b"a\r", &[b"a"]),
    (b"a\r\nb\r\n", &[b"a", b"b"]),
    (b"a\r\r\nb", &[b"a\r", b"b"]),
    (b"a\r#x", &[b"a"]),
    (b"a\r #x", &[b"a\r "]),
    (b"a#x\r\nb", &[b"a", b"b"]),
    (b"\r", &[b""]),
    (b"\r\n\r\r", &[b"", b"\r"]),
    (b"a\rb \n", &[b"a\rb "]),
    (b"\xc3\xa9\xff\x80\n\xff\r", &[b"\xc3\xa9\xff\x80", b"\xff"]),
];

// Lines and their words.
const WORDS: [(&[u8], &[&[u8]]); 9] = [
    (b"", &[]),
    (b" \t ", &[]),
    (b"a", &[b"a"]),
    (b"ab c", &[b"ab", b"c"]),
    (b"a\tb", &[b"a", b"b"]),
    (b"\t a \t\t bc  ", &[b"a", b"bc"]),
    (b"a\r b", &[b"a\r", b"b"]),
    (b"a\x0bb\x00 c", &[b"a\x0bb\x00", b"c"]),
    (b"\xff\x80 \xa0", &[b"\xff\x80", b"\xa0"]),
];

// Words, the largest number that is allowed, and the number that they spell.
const NUMBERS: [(&[u8], u32, Option<u32>); 18] = [
    (b"0", u32::MAX, Some(0)),
    (b"00", u32::MAX, None),
    (b"01", u32::MAX, None),
    (b"7", u32::MAX, Some(7)),
    (b"10", u32::MAX, Some(10)),
    (b"4294967295", u32::MAX, Some(4_294_967_295)),
    (b"4294967296", u32::MAX, None),
    (b"99999999999999999999999999", u32::MAX, None),
    (b"", u32::MAX, None),
    (b"+1", u32::MAX, None),
    (b"-1", u32::MAX, None),
    (b"1a", u32::MAX, None),
    (b"1 ", u32::MAX, None),
    (b"\xb2", u32::MAX, None),
    (b"0", 0, Some(0)),
    (b"1", 0, None),
    (b"255", 255, Some(255)),
    (b"256", 255, None),
];

// How many words the line has.
fn words_in(text: &[u8], line: Line) -> usize
    requires ordered { line.start ≤ line.end }
    requires inside { line.end ≤ length text.now }
    ensures count { result ≡ length (words_of (slice_range text.now line.start line.end)) }
    ensures few { result + line.start ≤ line.end }
{
    let mut count = 0;
    let mut tokens = Tokens::new(text, line);
    while let Some(_token) = tokens.next() {
        count += 1;
    }
    count
}

// How many words the text has.
fn words_in_all(text: &[u8]) -> usize
    requires { length text.now < 2 ^ 32 - 1 }
    ensures { result ≡ sum_by (λ line. length (words_of (left_of line))) (lines_of text.now) }
{
    lines_stand_in_order();
    let mut count = 0;
    let mut lines = Lines::new(text);
    while let Some(line) = lines.next() {
        count += words_in(text, line);
    }
    count
}

// The words of the line, as spans of the text.
fn tokens_of(alloc: Global, text: &[u8], line: Line) -> Result<Vec<Token>, AllocError>
    requires ordered { line.start ≤ line.end }
    requires inside { line.end ≤ length text.now }
    ensures { IfOk result
        (λ tokens. map (λ token. slice_range text.now token.start token.end) tokens.items
        ≡ words_of (slice_range text.now line.start line.end)) }
{
    let mut tokens = Vec::new(alloc);
    let mut rest = Tokens::new(text, line);
    while let Some(token) = rest.next() {
        tokens.push(token)?;
    }
    Ok(tokens)
}

// Checks that the next line has this number and these bytes.
fn check_line(rt: &impl Abort, text: &[u8], line: Option<Line>, number: usize, left: &[u8]) {
    let line = line.expect(rt, "a line is missing");
    assert!(rt; line.number as usize == number, "{number} in {text:?}");
    let got = text.get(line.start..line.end);
    assert!(rt; got == Some(left), "{number} in {text:?}");
}

fn check_lines(rt: &impl Abort, text: &[u8], want: &[&[u8]]) {
    assert!(rt; text.len() < 1000);
    let mut lines = Lines::new(text);
    for (place, left) in want.iter().enumerate() {
        check_line(rt, text, lines.next(), place + 1, left);
    }
    assert!(rt; lines.next().is_none(), "more lines in {text:?}");
}

fn check_word(rt: &impl Abort, text: &[u8], token: Token, word: &[u8]) {
    let got = text.get(token.start..token.end);
    assert!(rt; got == Some(word), "in {text:?}");
}

fn check_words(rt: &impl Abort, alloc: Global, text: &[u8], want: &[&[u8]]) -> Result<(), Fail> {
    let line = Line {
        number: 1,
        start: 0,
        end: text.len(),
    };
    let tokens = tokens_of(alloc, text, line)?;
    assert!(rt; tokens.len() == want.len(), "words in {text:?}");
    for (token, word) in tokens.iter().zip(want) {
        check_word(rt, text, *token, word);
    }
    Ok(())
}

// Checks the lines of a text with four words, as spans.
fn check_spans(rt: &impl Abort, text: &[u8]) {
    assert!(rt; text.len() < 1000);
    assert!(rt; words_in_all(text) == 4);
    let mut lines = Lines::new(text);
    for (number, start, end) in [(1, 0, 8), (2, 17, 17), (3, 18, 23), (4, 25, 31)] {
        assert!(rt; lines.next() == Some(Line { number, start, end }));
    }
    assert!(rt; lines.next().is_none());
    assert!(rt; lines.next().is_none());
}

#[test]
fn cuts_lines(rt: HostRuntime) {
    for (text, want) in LINES {
        check_lines(&rt, text, want);
    }
    check_spans(&rt, b"one two # three\r\n\n\tfour\r\n five #");
}

fn check_number(rt: &impl Abort, word: &[u8], max: u32, want: Option<u32>) {
    assert!(rt; read_number(word, max) == want, "of {word:?} up to {max}");
}

#[test]
fn cuts_words_and_reads_numbers(rt: HostRuntime) -> Result<(), Fail> {
    for (text, want) in WORDS {
        check_words(&rt, rt.alloc(), text, want)?;
    }
    for (word, max, want) in NUMBERS {
        check_number(&rt, word, max, want);
    }
    Ok(())
}
