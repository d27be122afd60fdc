//! Reads the spelling of a prefix.
ghost use Rattle.std.specs.Prelude.{ℕ, ◌≡◌, ◌≢◌, ◌<◌, ◌≤◌, List, ◌∷◌, ◌++◌, IfSome, IfNone};
ghost use Rattle.std.specs.Fmt.{decimal};
ghost use Rattle.schedule_file.specs.Spelling.{prefix_text, IsRange};
ghost use Rattle.schedule_file.specs.Cutting.{Cuts};
ghost use Rattle.topology.specs.declared.prefixes.Prefix.{Prefix as Range};

use text_lines::read_number;
use topology::Prefix;

// The bytes before the first mark, and those after it, if there is a mark.
#[derive(Clone, Copy, Debug)]
struct Cut<'a> {
    front: &'a [u8],
    rest: Option<&'a [u8]>,
}

// Cuts the bytes at the first mark.
fn cut_at(mark: u8, bytes: &[u8]) -> Cut<'_>
    ensures { Cuts mark bytes.now result }
{
    for (place, byte) in bytes.iter().enumerate() {
        if *byte == mark {
            let (front, rest) = bytes.split_at(place);
            let (_, rest) = rest.split_at(1);
            return Cut {
                front,
                rest: Some(rest),
            };
        }
    }
    Cut {
        front: bytes,
        rest: None,
    }
}

// The number, up to 255, before the first mark, and the bytes after the mark.
fn number_before(mark: u8, word: &[u8]) -> Option<(u32, &[u8])>
    requires { mark < 48 }
    ensures some { IfSome result (λ r. word.now ≡ decimal r.0 ++ mark ∷ r.1.now) }
    ensures within { IfSome result (λ r. r.0 ≤ 255) }
    ensures none { IfNone result ((n : ℕ) (rest : List ℕ) → n ≤ 255
        → word.now ≢ decimal n ++ mark ∷ rest) }
{
    let Cut { front, rest } = cut_at(mark, word);
    let number = read_number(front, 255)?;
    Some((number, rest?))
}

/// The prefix that the word spells: four numbers joined by points, a slash and the length. The answer is `None` exactly
/// where the word spells no prefix, or one with bits beyond its length.
pub fn read_prefix(word: &[u8]) -> Option<Prefix>
    ensures some { IfSome result (λ p. word.now ≡ prefix_text p) }
    ensures in_range { IfSome result (λ p. IsRange p) }
    ensures none { IfNone result ((p : Range) → IsRange p → word.now ≢ prefix_text p) }
{
    let (a, word) = number_before(b'.', word)?;
    let (b, word) = number_before(b'.', word)?;
    let (c, word) = number_before(b'.', word)?;
    let (d, word) = number_before(b'/', word)?;
    let len = read_number(word, 32)? as u8;
    let bits = ((a * 256 + b) * 256 + c) * 256 + d;
    let size = 1u64 << (32 - len);
    if u64::from(bits) % size != 0 {
        return None;
    }
    Some(Prefix { bits, len })
}
