//! The words of walks.
ghost use Rattle.std.specs.Prelude.{◌≡◌, ◌++◌, Some, None, codes, OnOk};
ghost use Rattle.std.specs.String.{string_bytes};
ghost use Rattle.view_words.specs.Lines.{ended};
ghost use Rattle.view_words.specs.Walks.{end_text, mode_text, visit_text, walk_head, walk_line};

use crate::numbers::{push_node, push_number};
use epoch_packet::{End, Mode, Visit};
use std::alloc::AllocError;
use topology::Epoch;

// Adds the epoch by whose tables the packet is forwarded, or `t` where it is in a transient mode.
fn mode_words(out: &mut String, mode: Mode, epoch: Epoch) -> Result<(), AllocError>
    ensures { OnOk result (string_bytes out.new ≡ string_bytes out.old ++ mode_text mode epoch) }
{
    match mode {
        Mode::Stable => push_number(out, epoch.number()),
        Mode::Transient => out.push('t'),
    }
}

/// Adds a visit: the node, and how the packet is forwarded there.
pub fn visit_words(out: &mut String, visit: &Visit) -> Result<(), AllocError>
    ensures { OnOk result (string_bytes out.new ≡ string_bytes out.old ++ visit_text visit.now) }
{
    out.push(' ')?;
    push_node(out, visit.node)?;
    out.push('@')?;
    mode_words(out, visit.mode, visit.epoch)
}

/// Adds how the walk ended, and the end of its line.
pub fn end_words(out: &mut String, end: Option<End>) -> Result<(), AllocError>
    ensures { OnOk result (string_bytes out.new ≡ string_bytes out.old ++ ended (codes " " ++ end_text end)) }
{
    out.push_str(match end {
        None => " moving",
        Some(End::Delivered) => " delivered",
        Some(End::Expired) => " expired",
        Some(End::Stuck) => " stuck",
    })?;
    out.push('\n')
}

/// Adds what the line of a walk begins with: the number of the packet.
pub fn head_words(out: &mut String, packet: u32) -> Result<(), AllocError>
    ensures { OnOk result (string_bytes out.new ≡ string_bytes out.old ++ walk_head packet) }
{
    out.push_str("walk ")?;
    push_number(out, packet)?;
    out.push(':')
}

/// Adds the line of a packet that never entered the network.
pub fn unknown_words(out: &mut String, packet: u32) -> Result<(), AllocError>
    ensures { OnOk result (string_bytes out.new ≡ string_bytes out.old ++ walk_line packet None) }
{
    head_words(out, packet)?;
    out.push_str(" unknown")?;
    out.push('\n')
}
