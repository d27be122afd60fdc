//! The counts in front of lists.
ghost use Rattle.std.specs.Prelude.{◌≡◌, ◌++◌, IfOk, IsTrue, OnOk};
ghost use Rattle.std.specs.Int.{w8, w16, to_be_bytes};
ghost use Rattle.wire_frames.specs.Formats.{word_at};
ghost use Rattle.wire_frames.specs.Counts.{counted, width_of, IsWithin};
ghost use Rattle.wire_frames.specs.Shown.{Gives};

use crate::FrameKind;
use crate::reading::Fields;
use crate::writing::{put_u8, put_u16};
use topology::NoMemory;
use topology::limits::{MOST_MARKS, MOST_TRIGGERS, MOST_UPDATES};

/// How a list tells how many elements it has, and how many it may have.
#[derive(Clone, Copy)]
pub(crate) enum Count {
    /// One byte, up to this number.
    Few(usize),
    /// Two bytes, up to this number.
    Many(u32),
    /// The items of a row, in two bytes, after rows with so many items in all.
    Items(u32),
    /// At least so many triggers, in two bytes, after lists with so many triggers in all.
    Triggers(u16, u32),
}

// A count in one byte. Everything with a spelling has few enough elements.
fn put_few(out: &mut Vec<u8>, count: usize) -> Result<(), NoMemory>
    ensures { OnOk result (out.new.items ≡ out.old.items ++ to_be_bytes w8 count) }
{
    put_u8(out, (count % 256) as u8)
}

// A count in two bytes, in the same way.
fn put_many(out: &mut Vec<u8>, count: usize) -> Result<(), NoMemory>
    ensures { OnOk result (out.new.items ≡ out.old.items ++ to_be_bytes w16 count) }
{
    put_u16(out, (count % 65_536) as u16)
}

impl Count {
    // The count, before it is tested.
    #[inline(always)]
    fn word(self, fields: &mut Fields<'_>) -> Result<u16, FrameKind>
        ensures { Gives (λ n. (n, fields.new)) result (word_at (width_of self) fields.old) }
    {
        match self {
            Count::Few(_) => Ok(u16::from(fields.word8()?)),
            Count::Many(_) => fields.word16(),
            Count::Items(_) => fields.word16(),
            Count::Triggers(_, _) => fields.word16(),
        }
    }

    /// Whether a list may have so many elements.
    #[tactic(auto, unfolding(crate::specs::Fields::few, crate::specs::Fields::many, crate::specs::Fields::more_items, crate::specs::Listing::more_triggers))]
    #[inline(always)]
    pub(crate) fn allows(self, count: usize) -> bool
        ensures fits { result ≡ (counted self).fits count }
        ensures within { IsTrue result → IsWithin self count }
    {
        match self {
            Count::Few(most) => count <= most,
            Count::Many(most) => count <= most as usize,
            Count::Items(before) => before <= MOST_UPDATES
                && count <= (MOST_UPDATES - before) as usize,
            Count::Triggers(low, before) => {
                if count < low as usize || count > MOST_TRIGGERS as usize {
                    return false;
                }
                before <= MOST_MARKS && count <= (MOST_MARKS - before) as usize
            }
        }
    }

    /// Reads the count.
    #[inline(always)]
    pub(crate) fn read(self, fields: &mut Fields<'_>) -> Result<u16, FrameKind>
        ensures number { Gives (λ n. (n, fields.new)) result ((counted self).reads fields.old) }
        ensures within { IfOk result (λ n. IsWithin self n) }
    {
        let count = self.word(fields)?;
        if !self.allows(count as usize) {
            return Err(FrameKind::Value);
        }
        Ok(count)
    }

    /// Writes the count at the end.
    #[tactic(auto, unfolding(crate::specs::Fields::few, crate::specs::Fields::many, crate::specs::Fields::more_items, crate::specs::Listing::more_triggers))]
    pub(crate) fn put(self, count: usize, out: &mut Vec<u8>) -> Result<(), NoMemory>
        ensures { OnOk result (out.new.items ≡ out.old.items ++ (counted self).spells count) }
    {
        match self {
            Count::Few(_) => put_few(out, count),
            Count::Many(_) => put_many(out, count),
            Count::Items(_) => put_many(out, count),
            Count::Triggers(_, _) => put_many(out, count),
        }
    }
}
