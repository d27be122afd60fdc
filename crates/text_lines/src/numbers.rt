//! Numbers.
ghost use Rattle.std.specs.Prelude.{ℕ, ◌≡◌, ◌≢◌, ◌≤◌, IfSome, IfNone};
ghost use Rattle.std.specs.Fmt.{decimal};

/// The number that the word spells in decimal, without sign and leading zeros. The answer is `None` exactly where the
/// word spells no number up to `max`.
pub fn read_number(word: &[u8], max: u32) -> Option<u32>
    ensures some { IfSome result (λ n. word.now ≡ decimal n) }
    ensures within { IfSome result (λ n. n ≤ max) }
    ensures none { IfNone result ((n : ℕ) → n ≤ max → word.now ≢ decimal n) }
{
    if word.is_empty() {
        return None;
    }
    if word[0] == b'0' && word.len() > 1 {
        return None;
    }
    let mut number: u64 = 0;
    for byte in word {
        if !byte.is_ascii_digit() {
            return None;
        }
        number = number * 10 + u64::from(*byte - b'0');
        if number > u64::from(max) {
            return None;
        }
    }
    Some(number as u32)
}
