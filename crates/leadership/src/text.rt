//! The lines of a run.
ghost use Rattle.std.specs.Prelude.{ℕ, ◌≡◌, ◌++◌, decimal, OnOk};
ghost use Rattle.std.specs.String.{string_bytes};
ghost use Rattle.leadership.specs.Run.{Step, run};
ghost use Rattle.leadership.specs.Holding.{reason_of};
ghost use Rattle.leadership.specs.Text.{all_chosen, ballot_text, chosen_text, idle_line, reason_words, step_text};

use crate::reasons::LeadReason;
use crate::world::LeadWorld;
use itoa::Buffer;
use std::alloc::AllocError;
use topology::limits::HIGHEST_EPOCH;
use topology::{Ballot, Epoch};

// Adds the decimal digits of a number.
fn push_number(out: &mut String, number: u32) -> Result<(), AllocError>
    ensures { OnOk result (string_bytes out.new ≡ string_bytes out.old ++ decimal number) }
{
    let mut digits = Buffer::new();
    out.push_str(digits.format(number))
}

// Adds a ballot.
fn ballot_words(out: &mut String, ballot: &Ballot) -> Result<(), AllocError>
    ensures { OnOk result (string_bytes out.new ≡ string_bytes out.old ++ ballot_text ballot.now) }
{
    push_number(out, ballot.round)?;
    out.push('/')?;
    push_number(out, u32::from(ballot.node.number()))
}

// Adds the words of a reason.
fn reason_words(out: &mut String, reason: &LeadReason) -> Result<(), AllocError>
    ensures { OnOk result (string_bytes out.new ≡ string_bytes out.old ++ reason_words reason.now) }
{
    match reason {
        LeadReason::Crashed => out.push_str("crashed"),
        LeadReason::NotCrashed => out.push_str("not crashed"),
        LeadReason::NoSuchMessage => out.push_str("no such message"),
        LeadReason::Promised(ballot) => {
            out.push_str("promised ")?;
            ballot_words(out, ballot)
        }
        LeadReason::StaleBallot => out.push_str("stale ballot"),
        LeadReason::Duplicate => out.push_str("duplicate"),
        LeadReason::NotLeader => out.push_str("not leader"),
        LeadReason::Below => out.push_str("below"),
        LeadReason::Offered => out.push_str("offered"),
    }
}

// Adds the line of an event that did nothing.
fn idle_line(out: &mut String, line: u32, reason: &LeadReason) -> Result<(), AllocError>
    ensures { OnOk result (string_bytes out.new ≡ string_bytes out.old ++ idle_line line reason.now) }
{
    push_number(out, line)?;
    out.push_str(": idle ")?;
    reason_words(out, reason)?;
    out.push('\n')
}

/// Adds what is written for an event: its line if it did nothing.
pub(crate) fn event_line(
    out: &mut String,
    line: u32,
    reason: &Option<LeadReason>,
) -> Result<(), AllocError>
    ensures { (step : Step) → reason.now ≡ reason_of step →
        OnOk result (string_bytes out.new ≡ string_bytes out.old ++ step_text line step) }
{
    match reason {
        None => Ok(()),
        Some(why) => idle_line(out, line, why),
    }
}

// Adds the line of an epoch, if it has a chosen value.
fn chosen_line(out: &mut String, epoch: u32, chosen: Option<u32>) -> Result<(), AllocError>
    ensures { OnOk result (string_bytes out.new ≡ string_bytes out.old ++ chosen_text epoch chosen) }
{
    let Some(value) = chosen else {
        return Ok(());
    };
    out.push_str("chosen ")?;
    push_number(out, epoch)?;
    out.push_str(": ")?;
    push_number(out, value)?;
    out.push('\n')
}

/// Adds a line for each epoch with a chosen value.
pub(crate) fn chosen_lines(out: &mut String, world: &LeadWorld) -> Result<(), AllocError>
    ensures { OnOk result (string_bytes out.new ≡ string_bytes out.old ++ all_chosen world.now.members world.now.events) }
{
    for i in 0..HIGHEST_EPOCH {
        let epoch = i + 1;
        chosen_line(out, epoch, world.chosen(Epoch::new(epoch)))?;
    }
    Ok(())
}
