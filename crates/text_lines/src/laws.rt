//! Laws of every text and line. A call of a law gives the caller's proof what the law says.
ghost use Rattle.std.specs.Prelude.{ℕ, ◌≡◌, ◌+◌, ◌<◌, ◌≤◌, ◌^◌, ◌==◌, ◌||◌, true, false, List, [], ◌∷◌, ◌++◌, length, take, slice_range};
ghost use Rattle.std.specs.List.{All, list_any, join_with_byte};
ghost use Rattle.std.specs.Fmt.{decimal};
ghost use Rattle.text_lines.specs.Lines.{lines_of, left_of, line_at, start_of};
ghost use Rattle.text_lines.specs.Words.{separates, words_of, IsWord};
ghost use Rattle.text_lines.specs.Readings.{Reading, lines_left};

/// A text is the lines that were given, followed by those that are left. Each line stands where it begins, and the next
/// one begins after its newline.
#[tactic(auto, using(crate::proofs::Placed::given_and_left, crate::proofs::Placed::line_there, crate::proofs::Placed::line_inside, crate::proofs::Placed::next_start))]
pub fn lines_stand_in_order()
    ensures parts { (reading : Reading)
        → take reading.given (lines_of reading.text) ++ lines_left reading ≡ lines_of reading.text }
    ensures next { (text : List ℕ) (k : ℕ) → k < length (lines_of text)
        → start_of text (k + 1) ≡ start_of text k + length (line_at text k) + 1 }
    ensures inside { (text : List ℕ) (k : ℕ) → k < length (lines_of text)
        → start_of text k + length (line_at text k) ≤ length text }
    ensures there { (text : List ℕ) (k : ℕ) → k < length (lines_of text)
        → let start = start_of text k in
        slice_range text start (start + length (line_at text k)) ≡ line_at text k }
{}

/// A text is cut after each newline, and no line contains one. The last newline may be missing.
#[tactic(auto, using(crate::proofs::Placed::line_cut, crate::proofs::Placed::last_line, crate::proofs::Placed::lines_lack))]
pub fn lines_are_cut()
    ensures line { (line rest : List ℕ) → list_any (λ b. b == 10) line ≡ false
        → lines_of (line ++ 10 ∷ rest) ≡ line ∷ lines_of rest }
    ensures last { (b : ℕ) (line : List ℕ) → list_any (λ b. b == 10) (b ∷ line) ≡ false
        → lines_of (b ∷ line) ≡ (b ∷ line) ∷ [] }
    ensures none { (text : List ℕ) → All (λ line. list_any (λ b. b == 10) line ≡ false) (lines_of text) }
{}

/// What is left of a line is a prefix of it; all of it, without a comment and a carriage return. The text of a comment
/// does not matter.
#[tactic(auto, using(crate::proofs::Leaving::front_is_left, crate::proofs::Leaving::left_plain, crate::proofs::Leaving::left_of_comment))]
pub fn fronts_are_left()
    ensures front { (line : List ℕ) → take (length (left_of line)) line ≡ left_of line }
    ensures all { (line : List ℕ) → list_any (λ b. b == 35 || b == 13) line ≡ false → left_of line ≡ line }
    ensures comment { (line comment : List ℕ) → left_of (line ++ 35 ∷ comment) ≡ left_of line }
{}

/// A line is cut at its separators, and each of its words is one word.
#[tactic(auto, using(crate::proofs::Joined::no_words, crate::proofs::Runs::words_of_separator, crate::proofs::Joined::word_cut, crate::proofs::Joined::last_word, crate::proofs::Joined::words_are_words))]
pub fn words_are_cut()
    ensures none { words_of [] ≡ [] }
    ensures separator { (b : ℕ) (line : List ℕ) → separates b ≡ true → words_of (b ∷ line) ≡ words_of line }
    ensures word { (word line : List ℕ) (b : ℕ) → IsWord word → separates b ≡ true
        → words_of (word ++ b ∷ line) ≡ word ∷ words_of line }
    ensures last { (word : List ℕ) → IsWord word → words_of word ≡ word ∷ [] }
    ensures words { (line : List ℕ) → All IsWord (words_of line) }
{}

/// Words joined by spaces are read back as these words, so two different lists of words are joined differently.
#[tactic(auto, using(crate::proofs::Joined::joined_words, crate::proofs::Joined::same_words))]
pub fn joined_words_are_read()
    ensures read { (words : List (List ℕ)) → All IsWord words
        → words_of (join_with_byte 32 words) ≡ words }
    ensures equal { (words others : List (List ℕ)) → All IsWord words → All IsWord others
        → join_with_byte 32 words ≡ join_with_byte 32 others → words ≡ others }
{}

/// A number is one word, and different numbers are different words.
#[tactic(auto, using(crate::proofs::Joined::decimal_is_word, crate::proofs::Joined::same_number))]
pub fn numbers_are_words()
    ensures word { (n : ℕ) → n < 2 ^ 64 → IsWord (decimal n) }
    ensures equal { (m n : ℕ) → m < 2 ^ 64 → n < 2 ^ 64 → decimal m ≡ decimal n → m ≡ n }
{}
