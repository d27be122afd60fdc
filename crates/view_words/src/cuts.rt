//! The words of cuts and recordings.
ghost use Rattle.std.specs.Prelude.{◌≡◌, ◌<◌, ◌++◌, codes, decimal, OnOk};
ghost use Rattle.std.specs.List.{range_with_len};
ghost use Rattle.std.specs.String.{string_bytes};
ghost use Rattle.view_words.specs.Cuts.{entries_text, cut_line, numbers_text, state_text, recording_line, recording_of};

use crate::entries::session_words;
use crate::numbers::{push_node, push_number, push_wide};
use marker_snapshot::Recording;
use std::alloc::AllocError;
use topology::{Epoch, NodeId};

// A word, the node and the epoch.
fn epoch_words(out: &mut String, word: &str, id: NodeId, epoch: Epoch) -> Result<(), AllocError>
    ensures { OnOk result (string_bytes out.new
        ≡ string_bytes out.old ++ word.now ++ decimal id ++ codes " " ++ decimal epoch) }
{
    out.push_str(word)?;
    push_node(out, id)?;
    out.push(' ')?;
    push_number(out, epoch.number())
}

/// Adds the line of a cut with so many entries, or of none.
pub fn cut_line(
    out: &mut String,
    id: NodeId,
    epoch: Epoch,
    entries: Option<u32>,
) -> Result<(), AllocError>
    ensures { OnOk result (string_bytes out.new ≡ string_bytes out.old ++ cut_line id epoch entries) }
{
    epoch_words(out, "cut ", id, epoch)?;
    out.push_str(": ")?;
    entries_words(out, entries)?;
    out.push('\n')
}

fn entries_words(out: &mut String, entries: Option<u32>) -> Result<(), AllocError>
    ensures { OnOk result (string_bytes out.new ≡ string_bytes out.old ++ entries_text entries) }
{
    match entries {
        None => out.push_str("none"),
        Some(count) => push_number(out, count),
    }
}

/// Adds the line of the recording of a session with a neighbour.
pub fn recording_line(
    out: &mut String,
    id: NodeId,
    epoch: Epoch,
    nbr: NodeId,
    recording: &Recording,
) -> Result<(), AllocError>
    ensures { OnOk result (string_bytes out.new
        ≡ string_bytes out.old ++ recording_line id epoch (recording_of nbr recording.now)) }
{
    epoch_words(out, "recorded ", id, epoch)?;
    session_words(out, " ", nbr, recording.session)?;
    out.push_str(": ")?;
    numbers_words(out, recording.first, recording.count)?;
    out.push_str(state_words(recording.done))?;
    out.push('\n')
}

// So many numbers from the first on.
#[tactic(auto, using(crate::proofs::Listed::some_listed))]
fn numbers_words(out: &mut String, first: u32, count: u32) -> Result<(), AllocError>
    ensures { OnOk result (string_bytes out.new ≡ string_bytes out.old ++ numbers_text (range_with_len first count)) }
{
    if count == 0 {
        return out.push_str("- ");
    }
    for place in 0..count {
        push_wide(out, u64::from(first) + u64::from(place))?;
        out.push(' ')?;
    }
    Ok(())
}

fn state_words(done: bool) -> &'static str
    ensures { result.now ≡ state_text done }
{
    if done { "done" } else { "waiting" }
}
