//! The outputs of a node as text.
use consolidator::Message;
use epoch_packet::{Mode, Packet};
use incomplete_closure::Value;
use stable_table::Table;
use std::alloc::Global;
use std::test::Fail;
use topology::{Ballot, Item, NodeId, PrefixId};
use trigger_log::Outgoing;

/// An item: its neighbour, its session, and its number or its epoch.
pub fn item_text(alloc: Global, out: &Outgoing) -> Result<String, Fail> {
    let to = out.to.number();
    let session = out.session.number();
    Ok(match &out.item {
        Item::Update { seq, .. } => format!(in alloc; "update {to} {session} {seq}")?,
        Item::Marker(epoch) => format!(in alloc; "marker {to} {session} {}", epoch.number())?,
        Item::Hello(epoch) => format!(in alloc; "hello {to} {session} {}", epoch.number())?,
    })
}

fn ballot_text(alloc: Global, ballot: Ballot) -> Result<String, Fail> {
    Ok(format!(in alloc; "{}/{}", ballot.round, ballot.node.number())?)
}

// The nodes of a value.
fn value_text(alloc: Global, value: &Value) -> Result<String, Fail> {
    let mut text = String::new(alloc);
    for node in value.responding.as_slice() {
        text.push_str(&format!(in alloc; "{}", node.number())?)?;
    }
    Ok(text)
}

/// A message: its kind, its epoch, and what it says of a ballot, a value or a report.
pub fn message_text(alloc: Global, message: &Message) -> Result<String, Fail> {
    let epoch = message.epoch().number();
    Ok(match message {
        Message::Report(report) => {
            let rows = report.rows.as_slice().len();
            format!(in alloc; "report {epoch} of {} with {rows}", report.node.number())?
        }
        Message::Prepare { ballot, .. } => {
            format!(in alloc; "prepare {epoch} {}", ballot_text(alloc, *ballot)?)?
        }
        Message::Promise { ballot, named, .. } => {
            let named = if named.is_some() { "+" } else { "-" };
            format!(in alloc; "promise {epoch} {} {named}", ballot_text(alloc, *ballot)?)?
        }
        Message::Accept { ballot, value, .. } => {
            let value = value_text(alloc, value)?;
            format!(in alloc; "accept {epoch} {} {value}", ballot_text(alloc, *ballot)?)?
        }
        Message::Accepted { ballot, .. } => {
            format!(in alloc; "accepted {epoch} {}", ballot_text(alloc, *ballot)?)?
        }
        Message::Decision { value, .. } => {
            format!(in alloc; "decision {epoch} {}", value_text(alloc, value)?)?
        }
    })
}

/// A table: its epoch, and the length of its path for the first prefix.
pub fn table_text(alloc: Global, table: &Table) -> Result<String, Fail> {
    let path = table.path(PrefixId::new(0));
    let length = path.map_or(0, |path| path.len());
    Ok(format!(in alloc; "published {} with {length}", table.epoch().number())?)
}

/// A packet: the next node, its stamp, whether it is on the tables, and how many moves it has left off them.
pub fn packet_text(alloc: Global, next: NodeId, packet: &Packet) -> Result<String, Fail> {
    let mode = match packet.mode {
        Mode::Stable => "on",
        Mode::Transient => "off",
    };
    Ok(format!(in alloc;
        "forward {} to {} with {} {mode} {}",
        packet.id,
        next.number(),
        packet.epoch.number(),
        packet.budget
    )?)
}
