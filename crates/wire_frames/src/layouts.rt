//! How the parts of a frame are spelled: a part is skipped, read, tested and written by the same type.
ghost use Rattle.std.specs.Prelude.{◌≡◌, ◌++◌, ◌-◌, true, length, take, IfOk, OnOk};
ghost use Rattle.wire_frames.specs.Formats.{Format, IsFormat};
ghost use Rattle.wire_frames.specs.Shown.{Passes, Cuts};

use crate::FrameKind;
use crate::faults::ReadError;
use crate::reading::Fields;
use std::alloc::Global;
use topology::NoMemory;

/// The layout of a part: how its value is spelled, and which values have a spelling.
pub(crate) trait Layout {
    type Value: Drop;

    ghost format: { Format Self.Value };

    /// Skips the part. Takes no memory.
    fn skip(fields: &mut Fields<'_>) -> Result<(), FrameKind>
        ensures { Passes format fields.old result fields.new };

    /// Reads the value into memory.
    fn read(alloc: Global, fields: &mut Fields<'_>) -> Result<Self::Value, ReadError>
        ensures { IfOk result (λ x. format.reads fields.old ≡ Ok (x, fields.new)) };

    /// Whether the value has a spelling. Takes no memory.
    fn fits(value: &Self::Value) -> bool
        ensures { result ≡ format.fits value.now };

    /// Writes the value at the end.
    fn put(value: &Self::Value, out: &mut Vec<u8>) -> Result<(), NoMemory>
        ensures { OnOk result (out.new.items ≡ out.old.items ++ format.spells value.now) };

    /// Says that a value has one spelling, and bytes have one reading. A call gives this to the caller's proof.
    fn is_format()
        ensures { IsFormat format };
}

// The bytes before the rest.
fn front_of<'a>(bytes: &'a [u8], rest: &[u8]) -> &'a [u8]
    ensures { result.now ≡ take (length bytes.now - length rest.now) bytes.now }
{
    let (front, _) = bytes.split_at(bytes.len().saturating_sub(rest.len()));
    front
}

impl<'a> Fields<'a> {
    /// The part of this layout. Takes no memory.
    pub(crate) fn part<L: Layout>(&mut self) -> Result<&'a [u8], FrameKind>
        ensures { Cuts L.format self.old result self.new }
    {
        L::is_format();
        let before = self.rest();
        L::skip(self)?;
        Ok(front_of(before, self.rest()))
    }
}

/// The value that the part spells.
pub(crate) fn owned<L: Layout>(alloc: Global, part: &[u8]) -> Result<L::Value, ReadError>
    ensures { IfOk result (λ x. (y : L.Value) → L.format.fits y ≡ true → part.now
        ≡ L.format.spells y → x ≡ y) }
{
    L::is_format();
    let mut fields = Fields::new(part);
    L::read(alloc, &mut fields)
}
