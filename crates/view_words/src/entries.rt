//! The words of the entries of a log.
ghost use Rattle.std.specs.Prelude.{◌≡◌, ◌<◌, ◌-◌, ◌++◌, codes, decimal, OnOk};
ghost use Rattle.std.specs.List.{flat_map};
ghost use Rattle.std.specs.String.{string_bytes};
ghost use Rattle.path_vector.specs.History.{change};
ghost use Rattle.path_vector.specs.declared.causes.Cause.TheVariants.{Recv};
ghost use Rattle.view_words.specs.Lines.{further};
ghost use Rattle.view_words.specs.Entries.{trigger_text, triggers_text, scope_text, received_nodes, further_nodes, session_text, cause_text, item_text, line_of};

use crate::numbers::{push_node, push_number};
use crate::routes::prefix_words;
use path_vector::Cause;
use std::alloc::AllocError;
use topology::{NodeId, Path, Scope, SentItems, SentRef, Session, Topology, Trigger};
use trigger_log::Entry;

/// Adds the line of the entry at this place, from 1, of the log of a node.
pub fn entry_line(
    out: &mut String,
    topology: &Topology,
    node: NodeId,
    index: u32,
    entry: &Entry,
) -> Result<(), AllocError>
    ensures { OnOk result (string_bytes out.new ≡ string_bytes out.old
        ++ line_of topology.now node index entry.now.triggers (change entry.now.scope entry.now.cause) entry.now.sent) }
{
    place_words(out, node, index)?;
    triggers_words(out, entry.triggers.as_slice())?;
    change_words(out, topology, &entry.scope, &entry.cause)?;
    sent_words(out, &entry.sent)?;
    out.push('\n')
}

// The node, and the place of the entry in its log.
fn place_words(out: &mut String, node: NodeId, index: u32) -> Result<(), AllocError>
    ensures { OnOk result (string_bytes out.new
        ≡ string_bytes out.old ++ codes "log " ++ decimal node ++ codes " " ++ decimal index ++ codes ": ") }
{
    out.push_str("log ")?;
    push_node(out, node)?;
    out.push(' ')?;
    push_number(out, index)?;
    out.push_str(": ")?;
    Ok(())
}

// The scope and the cause, each after a space.
fn change_words(
    out: &mut String,
    topology: &Topology,
    scope: &Scope,
    cause: &Cause,
) -> Result<(), AllocError>
    ensures { OnOk result (string_bytes out.new
        ≡ string_bytes out.old ++ codes " " ++ scope_text topology.now scope.now ++ codes " " ++ cause_text cause.now) }
{
    out.push(' ')?;
    scope_words(out, topology, scope)?;
    out.push(' ')?;
    cause_words(out, cause)
}

fn trigger_words(out: &mut String, trigger: &Trigger) -> Result<(), AllocError>
    ensures { OnOk result (string_bytes out.new ≡ string_bytes out.old ++ trigger_text trigger.now) }
{
    push_node(out, trigger.node)?;
    out.push('.')?;
    push_number(out, trigger.count)
}

// Triggers, each after a comma.
fn further_triggers(out: &mut String, triggers: &[Trigger]) -> Result<(), AllocError>
    ensures { OnOk result (string_bytes out.new ≡ string_bytes out.old ++ further trigger_text triggers.now) }
{
    for trigger in triggers {
        out.push(',')?;
        trigger_words(out, trigger)?;
    }
    Ok(())
}

// Adds triggers, with commas between them; a hyphen where there are none.
pub(crate) fn triggers_words(out: &mut String, triggers: &[Trigger]) -> Result<(), AllocError>
    ensures { OnOk result (string_bytes out.new ≡ string_bytes out.old ++ triggers_text triggers.now) }
{
    let [first, rest @ ..] = triggers else {
        return out.push('-');
    };
    trigger_words(out, first)?;
    further_triggers(out, rest)
}

fn scope_words(out: &mut String, topology: &Topology, scope: &Scope) -> Result<(), AllocError>
    ensures { OnOk result (string_bytes out.new ≡ string_bytes out.old ++ scope_text topology.now scope.now) }
{
    match scope {
        Scope::All => out.push_str("all")?,
        Scope::Nothing => out.push('-')?,
        Scope::One(id) => {
            if let Some(prefix) = topology.prefix(*id) {
                prefix_words(out, &prefix)?;
            }
        }
    }
    Ok(())
}

fn cause_words(out: &mut String, cause: &Cause) -> Result<(), AllocError>
    ensures { OnOk result (string_bytes out.new ≡ string_bytes out.old ++ cause_text cause.now) }
{
    match cause {
        Cause::Originate => out.push_str("originate")?,
        Cause::Withdraw => out.push_str("withdraw")?,
        Cause::Recv {
            from,
            session,
            seq,
            path,
        } => received_words(out, *from, *session, *seq, path)?,
        Cause::Down { nbr, session } => session_words(out, "down ", *nbr, *session)?,
        Cause::Up { nbr, session } => session_words(out, "up ", *nbr, *session)?,
        Cause::Ready { nbr, session } => session_words(out, "ready ", *nbr, *session)?,
        Cause::Prefer { nbr, value } => {
            out.push_str("prefer ")?;
            push_node(out, *nbr)?;
            out.push(' ')?;
            push_number(out, *value)?;
        }
        Cause::Flush { nbr } => {
            out.push_str("flush ")?;
            push_node(out, *nbr)?;
        }
    }
    Ok(())
}

// Adds a word, and a neighbour with a session.
pub(crate) fn session_words(
    out: &mut String,
    word: &str,
    nbr: NodeId,
    session: Session,
) -> Result<(), AllocError>
    ensures { OnOk result (string_bytes out.new ≡ string_bytes out.old ++ word.now ++ session_text nbr session) }
{
    out.push_str(word)?;
    push_node(out, nbr)?;
    out.push('/')?;
    push_number(out, session.number())
}

fn received_words(
    out: &mut String,
    from: NodeId,
    session: Session,
    seq: u32,
    path: &Option<Path>,
) -> Result<(), AllocError>
    ensures { OnOk result (string_bytes out.new ≡ string_bytes out.old ++ cause_text (Recv from session seq path.now)) }
{
    session_words(out, "recv ", from, session)?;
    out.push('/')?;
    push_number(out, seq)?;
    out.push(' ')?;
    match path {
        None => out.push_str("none")?,
        Some(path) => path_words(out, path.nodes())?,
    }
    Ok(())
}

// The nodes of a path, joined by hyphens.
fn path_words(out: &mut String, nodes: &[NodeId]) -> Result<(), AllocError>
    ensures { OnOk result (string_bytes out.new ≡ string_bytes out.old ++ received_nodes nodes.now) }
{
    let [first, further @ ..] = nodes else {
        return Ok(());
    };
    push_node(out, *first)?;
    further_words(out, further)
}

fn further_words(out: &mut String, nodes: &[NodeId]) -> Result<(), AllocError>
    ensures { OnOk result (string_bytes out.new ≡ string_bytes out.old ++ further_nodes nodes.now) }
{
    for node in nodes {
        out.push('-')?;
        push_node(out, *node)?;
    }
    Ok(())
}

// An item: its neighbour, its session and its number.
fn item_words(out: &mut String, item: &SentRef<'_>) -> Result<(), AllocError>
    ensures { OnOk result (string_bytes out.new ≡ string_bytes out.old ++ item_text item.now) }
{
    session_words(out, " > ", item.to, item.session)?;
    out.push('/')?;
    push_number(out, item.seq)
}

fn sent_words(out: &mut String, items: &SentItems) -> Result<(), AllocError>
    ensures { OnOk result (string_bytes out.new ≡ string_bytes out.old ++ flat_map item_text items.now) }
{
    for place in 0..items.len() {
        item_words(out, &items.at(place).unwrap())?;
    }
    Ok(())
}
