//! Laws of the spellings of frames. A call of a law gives the caller's proof what the law says.
ghost use Rattle.std.specs.Prelude.{◌≡◌, ◌++◌, ℕ, List, [], true, length};
ghost use Rattle.wire_frames.specs.declared.frames.Frame.{Frame};
ghost use Rattle.wire_frames.specs.Formats.{IsBytes};
ghost use Rattle.wire_frames.specs.Frames.{fits, spell};
ghost use Rattle.wire_frames.specs.Reading.{Whole, found};

/// A frame is found at the front of bytes exactly where they begin with its spelling.
#[tactic(auto, using(crate::proofs::Found::spelled_found))]
pub fn frames_are_found()
    ensures spelled { (f : Frame) (rest : List ℕ) → fits f ≡ true → found (spell f ++ rest)
        ≡ Whole f (length (spell f)) }
{}

/// No spelling is the beginning of another one.
#[tactic(auto, using(crate::proofs::Found::no_front))]
pub fn no_spelling_begins_another()
    ensures { (f g : Frame) (rest : List ℕ) → fits f ≡ true → fits g ≡ true → spell f ++ rest
        ≡ spell g
        → (f ≡ g) × (rest ≡ []) }
{}
