//! Numbers in text.
ghost use Rattle.std.specs.Prelude.{◌≡◌, ◌++◌, decimal, OnOk};
ghost use Rattle.std.specs.String.{string_bytes};

use itoa::Buffer;
use std::alloc::AllocError;
use topology::NodeId;

/// Adds the decimal digits of a number. Most have one digit, which needs no buffer.
pub fn push_number(out: &mut String, number: u32) -> Result<(), AllocError>
    ensures { OnOk result (string_bytes out.new ≡ string_bytes out.old ++ decimal number) }
{
    if number < 10 {
        return out.push(char::from(b'0' + number as u8));
    }
    let mut digits = Buffer::new();
    out.push_str(digits.format(number))
}

/// Adds the decimal digits of a number that may be wide.
pub fn push_wide(out: &mut String, number: u64) -> Result<(), AllocError>
    ensures { OnOk result (string_bytes out.new ≡ string_bytes out.old ++ decimal number) }
{
    let mut digits = Buffer::new();
    out.push_str(digits.format(number))
}

// Adds the number of a node.
pub(crate) fn push_node(out: &mut String, node: NodeId) -> Result<(), AllocError>
    ensures { OnOk result (string_bytes out.new ≡ string_bytes out.old ++ decimal node) }
{
    push_number(out, u32::from(node.number()))
}
