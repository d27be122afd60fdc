//! The inputs of a node, from their words.
use super::super::words::{epoch, node, nodes, number, prefix, session, word};
use super::messages::control;
use epoch_packet::{Mode, NodeList, Packet};
use node_core::Input;
use std::alloc::Global;
use std::test::Fail;
use topology::{Item, Path, PrefixId, Trigger, Triggers};

// An update of the first prefix: its number, and the path, or none.
fn update_of(alloc: Global, words: &[&str]) -> Result<Item, Fail> {
    let seq = number(words, 3)?;
    let trigger = Trigger {
        node: node(words, 1)?,
        count: 1,
    };
    let path = Path::new(nodes(alloc, words, 4)?)?;
    Ok(Item::Update {
        prefix: PrefixId::new(0),
        seq,
        triggers: Triggers::one(trigger),
        path,
    })
}

// What a neighbour sends in a session: an update, or a mark with its epoch.
fn arrival(alloc: Global, words: &[&str]) -> Result<Input, Fail> {
    let from = node(words, 1)?;
    let session = session(words, 2)?;
    let item = match word(words, 0)? {
        "marker" => Item::Marker(epoch(words, 3)?),
        "hello" => Item::Hello(epoch(words, 3)?),
        _ => update_of(alloc, words)?,
    };
    Ok(Input::Arrive {
        from,
        session,
        item,
    })
}

// A packet off the tables: its number, its prefix, its stamp and its trail.
fn packet_of(alloc: Global, words: &[&str]) -> Result<Packet, Fail> {
    Ok(Packet {
        id: number(words, 1)?,
        prefix: prefix(words, 2)?,
        epoch: epoch(words, 3)?,
        mode: Mode::Transient,
        budget: 1,
        reached: false,
        visited: 0,
        trail: NodeList::new(nodes(alloc, words, 4)?),
        route: NodeList::new(Vec::new(alloc)),
    })
}

// Such a packet, and the nodes whose links are up.
fn hop(alloc: Global, words: &[&str]) -> Result<Input, Fail> {
    let up = nodes(alloc, words, 5)?;
    let packet = Box::new(alloc, packet_of(alloc, words)?)?;
    Ok(Input::Hop { packet, up })
}

// An input from the layer that knows the links, or from a user who names a neighbour.
fn beside(words: &[&str]) -> Result<Input, Fail> {
    let nbr = node(words, 1)?;
    Ok(match word(words, 0)? {
        "notice" => Input::Notice(nbr),
        "flush" => Input::Flush(nbr),
        "prefer" => Input::Prefer {
            nbr,
            value: number(words, 2)?,
        },
        _ => Input::OpenSession {
            nbr,
            session: session(words, 2)?,
        },
    })
}

// An input from a user.
fn asked(words: &[&str]) -> Result<Input, Fail> {
    Ok(match word(words, 0)? {
        "originate" => Input::Originate(prefix(words, 1)?),
        "withdraw" => Input::Withdraw(prefix(words, 1)?),
        "propose" => Input::Propose(epoch(words, 1)?),
        "inject" => Input::Inject {
            id: number(words, 1)?,
            prefix: prefix(words, 2)?,
        },
        _ => Input::Snap,
    })
}

/// The input that these words give.
pub fn input_of(alloc: Global, words: &[&str]) -> Result<Input, Fail> {
    match word(words, 0)? {
        "update" | "marker" | "hello" => arrival(alloc, words),
        "notice" | "flush" | "prefer" | "open" => beside(words),
        "control" => control(alloc, words),
        "packet" => hop(alloc, words),
        _ => asked(words),
    }
}
