//! Finds the frame at the front of some bytes.
ghost use Rattle.std.specs.Prelude.{◌≡◌, ◌++◌, List, ℕ, true, length};
ghost use Rattle.wire_frames.specs.declared.frames.Frame.{Frame as AnyFrame};
ghost use Rattle.wire_frames.specs.Frames.{fits, spell};
ghost use Rattle.wire_frames.specs.Reading.{found, behind_version as found_behind_version, behind_kind as found_behind_kind};
ghost use Rattle.wire_frames.specs.Reading.{of_kind};
ghost use Rattle.wire_frames.specs.Formats.{word_at};
ghost use Rattle.wire_frames.specs.Shown.{Answers, Decodes, Spelled};
ghost use Rattle.std.specs.Int.{w32};

use crate::bodies::read_body;
use crate::reading::{are_bytes, u32_at};
use crate::tags::Tag;
use crate::{Decoded, FrameKind};

// What follows the byte of the kind.
fn behind_kind(tag: Tag, bytes: &[u8]) -> Decoded<'_>
    ensures { Answers result (found_behind_kind tag (word_at w32 bytes.now)) }
{
    let Ok((length, rest)) = u32_at(bytes) else {
        return Decoded::More;
    };
    if length > tag.limit() {
        return Decoded::Bad(FrameKind::Length);
    }
    let length = length as usize;
    if rest.len() < length {
        return Decoded::More;
    }
    let (body, _) = rest.split_at(length);
    match read_body(tag, body) {
        Ok(frame) => Decoded::Frame(frame, length + 6),
        Err(wrong) => Decoded::Bad(wrong),
    }
}

// What follows the byte of this version.
fn behind_version(version: u8, bytes: &[u8]) -> Decoded<'_>
    ensures { Answers result (found_behind_version version bytes.now) }
{
    match bytes {
        [] => Decoded::More,
        [byte, rest @ ..] => match Tag::with_number(version, *byte) {
            Some(tag) => behind_kind(tag, rest),
            None => Decoded::Bad(FrameKind::Kind),
        },
    }
}

// What is at the front of the input.
#[tactic(auto, unfolding(crate::specs::Reading::found))]
fn front(input: &[u8]) -> Decoded<'_>
    ensures { Answers result (found input.now) }
{
    match input {
        [] => Decoded::More,
        [1, rest @ ..] => behind_version(1, rest),
        [2, rest @ ..] => behind_version(2, rest),
        [_, ..] => Decoded::Bad(FrameKind::Version),
    }
}

/// What is at the front of the input: a frame and its number of bytes, the beginning of a possible frame, or the first
/// fault from left to right. Takes no memory.
pub fn decode(input: &[u8]) -> Decoded<'_>
    ensures answer { Answers result (found input.now) }
    ensures frame { Spelled input.now result }
    ensures only { (f : AnyFrame) (rest : List ℕ) → fits f ≡ true → input.now ≡ spell f ++ rest
        → Decodes result f (length (spell f)) }
{
    are_bytes(input);
    front(input)
}
