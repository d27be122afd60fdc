//! Events from their words, and their results as text.
use super::super::words::{epoch, node, number, word, words_of};
use std::alloc::Global;
use std::test::Fail;
use topology::{NodeId, PrefixId};
use world_core::{Effect, Event, Outcome};

// What happens at a node.
fn at_node(words: &[&str]) -> Result<Event, Fail> {
    let at = node(words, 1)?;
    let prefix = PrefixId::new(0);
    Ok(match word(words, 0)? {
        "originate" => Event::Originate { node: at, prefix },
        "withdraw" => Event::Withdraw { node: at, prefix },
        "snap" => Event::Snap { node: at },
        "crash" => Event::Crash { node: at },
        _ => Event::Restart { node: at },
    })
}

// What happens between two nodes.
fn between(words: &[&str]) -> Result<Event, Fail> {
    let a = node(words, 1)?;
    let b = node(words, 2)?;
    Ok(match word(words, 0)? {
        "deliver" => Event::Deliver { from: a, to: b },
        "fail" => Event::Fail { a, b },
        "restore" => Event::Restore { a, b },
        "notice" => Event::Notice { node: a, nbr: b },
        "flush" => Event::Flush { node: a, nbr: b },
        "open" => Event::OpenSession { node: a, nbr: b },
        _ => Event::Prefer {
            node: a,
            nbr: b,
            value: number(words, 3)?,
        },
    })
}

// What happens with a control message or a packet of this number.
fn numbered(words: &[&str]) -> Result<Event, Fail> {
    let number = number(words, 1)?;
    Ok(match word(words, 0)? {
        "ctl" => Event::Control { number },
        "hop" => Event::Hop { packet: number },
        _ => Event::Inject {
            packet: number,
            node: node(words, 2)?,
            prefix: PrefixId::new(0),
        },
    })
}

// A ballot for an epoch.
fn proposal(words: &[&str]) -> Result<Event, Fail> {
    Ok(Event::Propose {
        node: node(words, 1)?,
        epoch: epoch(words, 2)?,
    })
}

/// The event that the text gives, with the first prefix.
pub fn event_of(alloc: Global, text: &str) -> Result<Event, Fail> {
    let words = words_of(alloc, text)?;
    match word(&words, 0)? {
        "ctl" | "hop" | "inject" => numbered(&words),
        "propose" => proposal(&words),
        "originate" | "withdraw" | "snap" | "crash" | "restart" => at_node(&words),
        _ => between(&words),
    }
}

fn effect_text(alloc: Global, effect: &Effect) -> Result<String, Fail> {
    Ok(match effect {
        Effect::Logged { node, index } => format!(in alloc; "{} logged {index}", node.number())?,
        Effect::Cut { node, epoch } => {
            format!(in alloc; "{} cut {}", node.number(), epoch.number())?
        }
        Effect::Queued { from, to } => format!(in alloc; "{}>{}", from.number(), to.number())?,
        Effect::Lost { from, to } => format!(in alloc; "{}>{} lost", from.number(), to.number())?,
        Effect::Mailed { number } => format!(in alloc; "mailed {number}")?,
        Effect::Published { node, epoch } => {
            format!(in alloc; "{} published {}", node.number(), epoch.number())?
        }
        Effect::Visited { packet, visit } => {
            format!(in alloc; "{packet} at {}", visit.node.number())?
        }
        Effect::Ended { packet, end } => format!(in alloc; "{packet} {end:?}")?,
    })
}

fn effects_text(alloc: Global, effects: &[Effect]) -> Result<String, Fail> {
    let mut text = String::new(alloc);
    for effect in effects {
        if !text.is_empty() {
            text.push_str("; ")?;
        }
        text.push_str(&effect_text(alloc, effect)?)?;
    }
    Ok(text)
}

/// What an event did, or why it did nothing.
pub fn outcome_text(alloc: Global, outcome: &Outcome) -> Result<String, Fail> {
    match outcome {
        Outcome::Did(effects) => effects_text(alloc, effects.as_slice()),
        Outcome::Idle(reason) => Ok(format!(in alloc; "idle {reason:?}")?),
    }
}

/// A way, as in `1>2`, or `-` for none.
pub fn way_text(alloc: Global, way: Option<(NodeId, NodeId)>) -> Result<String, Fail> {
    Ok(match way {
        None => format!(in alloc; "-")?,
        Some((from, to)) => format!(in alloc; "{}>{}", from.number(), to.number())?,
    })
}

/// A number, or `-` for none.
pub fn number_text(alloc: Global, number: Option<u32>) -> Result<String, Fail> {
    Ok(match number {
        None => format!(in alloc; "-")?,
        Some(number) => format!(in alloc; "{number}")?,
    })
}
