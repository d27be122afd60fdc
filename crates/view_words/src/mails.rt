//! The words of control messages.
ghost use Rattle.std.specs.Prelude.{◌≡◌, ◌<◌, ◌++◌, codes, decimal, OnOk};
ghost use Rattle.std.specs.String.{string_bytes};
ghost use Rattle.consolidator.specs.Seen.{message_seen};
ghost use Rattle.view_words.specs.Mails.{about, mail_line, message_text, named_text};
ghost use Rattle.view_words.specs.Reasons.{ballot_text};

use crate::numbers::{push_node, push_number};
use crate::reasons::ballot_words;
use crate::values::value_words;
use consolidator::{Mail, Message};
use incomplete_closure::Value;
use std::alloc::AllocError;
use topology::{Ballot, Epoch, NodeId};

// A word, and an epoch.
fn about(out: &mut String, word: &str, epoch: Epoch) -> Result<(), AllocError>
    ensures { OnOk result (string_bytes out.new ≡ string_bytes out.old ++ about word.now epoch) }
{
    out.push_str(word)?;
    push_number(out, epoch.number())
}

// A word, an epoch and a ballot.
fn about_ballot(
    out: &mut String,
    word: &str,
    epoch: Epoch,
    ballot: Ballot,
) -> Result<(), AllocError>
    ensures { OnOk result (string_bytes out.new
        ≡ string_bytes out.old ++ about word.now epoch ++ codes " " ++ ballot_text ballot) }
{
    about(out, word, epoch)?;
    out.push(' ')?;
    ballot_words(out, ballot)
}

// What was accepted last, or none.
fn named_words(out: &mut String, named: &Option<(Ballot, Value)>) -> Result<(), AllocError>
    ensures { OnOk result (string_bytes out.new ≡ string_bytes out.old ++ named_text named.now) }
{
    let Some((ballot, value)) = named else {
        return out.push_str("none");
    };
    ballot_words(out, *ballot)?;
    out.push(' ')?;
    value_words(out, value)
}

// What a control message says.
fn message_words(out: &mut String, message: &Message) -> Result<(), AllocError>
    ensures { OnOk result (string_bytes out.new ≡ string_bytes out.old ++ message_text (message_seen message.now)) }
{
    match message {
        Message::Report(report) => about(out, "report ", report.epoch),
        Message::Prepare { epoch, ballot } => about_ballot(out, "prepare ", *epoch, *ballot),
        Message::Promise {
            epoch,
            ballot,
            named,
        } => {
            about_ballot(out, "promise ", *epoch, *ballot)?;
            out.push(' ')?;
            named_words(out, named)
        }
        Message::Accept {
            epoch,
            ballot,
            value,
        } => {
            about_ballot(out, "accept ", *epoch, *ballot)?;
            out.push(' ')?;
            value_words(out, value)
        }
        Message::Accepted { epoch, ballot } => about_ballot(out, "accepted ", *epoch, *ballot),
        Message::Decision { epoch, value } => {
            about(out, "decision ", *epoch)?;
            out.push(' ')?;
            value_words(out, value)
        }
    }
}

// The number of a message, and between whom it goes.
fn ends_words(out: &mut String, number: u32, from: NodeId, to: NodeId) -> Result<(), AllocError>
    ensures { OnOk result (string_bytes out.new ≡ string_bytes out.old
        ++ codes "ctl " ++ decimal number ++ codes ": " ++ decimal from ++ codes ">" ++ decimal to ++ codes " ") }
{
    out.push_str("ctl ")?;
    push_number(out, number)?;
    out.push_str(": ")?;
    push_node(out, from)?;
    out.push('>')?;
    push_node(out, to)?;
    out.push(' ')
}

/// Adds the line of the message with this number: its sender and addressee, what it says, and how often it was delivered.
pub fn mail_words(
    out: &mut String,
    number: u32,
    from: NodeId,
    mail: &Mail,
    deliveries: u32,
) -> Result<(), AllocError>
    ensures { OnOk result (string_bytes out.new ≡ string_bytes out.old
        ++ mail_line number (record { from = from; to = mail.now.to; message = message_seen mail.now.message }) deliveries) }
{
    ends_words(out, number, from, mail.to)?;
    message_words(out, &mail.message)?;
    out.push_str(" x")?;
    push_number(out, deliveries)?;
    out.push('\n')
}
