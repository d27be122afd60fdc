//! The chosen values, as a world stores them.
ghost use Rattle.std.specs.Prelude.{◌≡◌, OnOk};
ghost use Rattle.leadership.specs.Choices.{value_of, vote_in, vote_of, vote_where, with_vote};

use crate::events::LeadEvent;
use crate::mails::{Letter, letter_at};
use crate::messages::Message;
use crate::reasons::LeadReason;
use crate::sites::Site;
use crate::votes::{Vote, has_won};
use topology::{Epoch, NoMemory};

/// The chosen value of an epoch.
#[derive(Clone, Copy, Debug)]
pub struct Choice {
    pub epoch: Epoch,
    pub value: u32,
}

/// The chosen value of the epoch. Takes no memory.
pub(crate) fn value_of(choices: &[Choice], epoch: Epoch) -> Option<u32>
    ensures { result ≡ value_of epoch choices.now }
{
    for one in choices {
        if one.epoch == epoch {
            return Some(one.value);
        }
    }
    None
}

// The vote that the message asks for, if any.
fn vote_in(message: &Message) -> Option<Vote>
    ensures { result ≡ vote_in message.now }
{
    match message {
        Message::Accept {
            epoch,
            ballot,
            value,
        } => Some(Vote {
            epoch: *epoch,
            ballot: *ballot,
            value: *value,
        }),
        _ => None,
    }
}

/// The vote that the event may add to, if any.
pub(crate) fn vote_of(mails: &[Letter], event: &LeadEvent) -> Option<Vote>
    ensures { result ≡ vote_of mails.now event.now }
{
    match event {
        LeadEvent::Control { number } => {
            let Some(letter) = letter_at(mails, *number) else {
                return None;
            };
            vote_in(&letter.message)
        }
        _ => None,
    }
}

/// The vote, if the event did something.
pub(crate) fn vote_where(reason: &Option<LeadReason>, vote: Option<Vote>) -> Option<Vote>
    ensures { result ≡ vote_where reason.now vote }
{
    match reason {
        None => vote,
        Some(_) => None,
    }
}

/// Adds the value of the vote, if it is won and nothing is chosen for its epoch yet.
pub(crate) fn decide(
    choices: &mut Vec<Choice>,
    sites: &[Site],
    vote: Option<Vote>,
) -> Result<(), NoMemory>
    ensures { OnOk result (choices.new.items ≡ with_vote sites.now vote choices.old.items) }
{
    let Some(vote) = vote else {
        return Ok(());
    };
    if let Some(_value) = value_of(choices, vote.epoch) {
        return Ok(());
    }
    if has_won(sites, &vote) {
        choices.push(Choice {
            epoch: vote.epoch,
            value: vote.value,
        })?;
    }
    Ok(())
}
