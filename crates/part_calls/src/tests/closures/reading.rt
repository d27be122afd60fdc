//! Reports as words. `1.2:P>2/1/3` is a row of trigger 1.2 for prefix P (or Q, `*` for all, `-` for none), with an item
//! to node 2 in session 1 with number 3, for the trigger of the row. `1.1+1.2:P>2/1/3/1.1` is a row of two triggers,
//! whose item lists only the first. `=2/1/3` is a session row of neighbour 2 and session 1 with 3 updates received, and
//! `=2/1/3/1.2` one whose `Down` has trigger 1.2. `~2/1/1.1+1.2` is an update that is held back from node 2 in session
//! 1.
ghost use Rattle.std.specs.Prelude.{◌≡◌, IfOk};

use crate::tests::making::{node, number, split};
use incomplete_closure::{PendingRows, Report, Row, Rows, SessionRow, SessionRows};
use std::alloc::Global;
use std::rc::Rc;
use std::test::Fail;
use topology::{
    Epoch, NodeId, Pending, PrefixId, Scope, Sent, SentItems, Session, Trigger, Triggers,
};

pub(super) fn trigger_in(word: &str) -> Result<Trigger, Fail> {
    let (of, count) = split(word, '.')?;
    Ok(Trigger {
        node: node(of)?,
        count: number(count)?,
    })
}

// The triggers of a word such as `1.1+1.2`, which must ascend.
fn list_in(alloc: Global, word: &str) -> Result<Triggers, Fail> {
    let mut list = Vec::new(alloc);
    for of in word.split('+') {
        list.push(trigger_in(of)?)?;
    }
    let triggers = Triggers::new(list)?;
    Ok(triggers.ok_or("triggers that rise")?)
}

fn scope(word: &str) -> Scope {
    match word {
        "P" => Scope::One(PrefixId::new(0)),
        "Q" => Scope::One(PrefixId::new(1)),
        "-" => Scope::Nothing,
        _ => Scope::All,
    }
}

// The item of a word, in a row that lists these triggers.
fn item(alloc: Global, word: &str, listed: &str) -> Result<Sent, Fail> {
    let (to, rest) = split(word, '/')?;
    let (session, rest) = split(rest, '/')?;
    let (seq, triggers) = rest.split_once('/').unwrap_or((rest, listed));
    Ok(Sent {
        to: node(to)?,
        session: Session::new(number(session)?),
        seq: number(seq)?,
        triggers: list_in(alloc, triggers)?,
    })
}

// The items of words with `>` between them.
fn items(alloc: Global, text: &str, listed: &str) -> Result<SentItems, Fail> {
    let mut sent = Vec::new(alloc);
    for word in text.split('>') {
        if !word.is_empty() {
            sent.push(item(alloc, word, listed)?)?;
        }
    }
    Ok(SentItems::of(alloc, &sent)?)
}

fn row(alloc: Global, word: &str) -> Result<Row, Fail> {
    let (head, sent) = word.split_once('>').unwrap_or((word, ""));
    let (listed, concerns) = split(head, ':')?;
    Ok(Row {
        triggers: list_in(alloc, listed)?,
        scope: scope(concerns),
        sent: items(alloc, sent, listed)?,
    })
}

fn pending_row(alloc: Global, word: &str) -> Result<Pending, Fail> {
    let (to, rest) = split(word, '/')?;
    let (session, triggers) = split(rest, '/')?;
    Ok(Pending {
        to: node(to)?,
        prefix: PrefixId::new(0),
        session: Session::new(number(session)?),
        triggers: list_in(alloc, triggers)?,
    })
}

fn down(word: &str) -> Result<Option<Trigger>, Fail> {
    if word.is_empty() {
        return Ok(None);
    }
    Ok(Some(trigger_in(word)?))
}

fn push_session_row(rows: &mut Vec<SessionRow>, word: &str) -> Result<(), Fail> {
    let (nbr, rest) = split(word, '/')?;
    let (session, rest) = split(rest, '/')?;
    let (received, end) = rest.split_once('/').unwrap_or((rest, ""));
    rows.push(SessionRow {
        nbr: node(nbr)?,
        session: Session::new(number(session)?),
        received: number(received)?,
        down: down(end)?,
    })?;
    Ok(())
}

fn rows(alloc: Global, text: &str) -> Result<Rows, Fail> {
    let mut rows = Vec::new(alloc);
    for word in text.split_whitespace() {
        if !word.starts_with('=') && !word.starts_with('~') {
            rows.push(row(alloc, word)?)?;
        }
    }
    Ok(Rows::new(rows))
}

fn pending_rows(alloc: Global, text: &str) -> Result<PendingRows, Fail> {
    let mut rows = Vec::new(alloc);
    for word in text.split_whitespace() {
        if let Some(word) = word.strip_prefix('~') {
            rows.push(pending_row(alloc, word)?)?;
        }
    }
    Ok(PendingRows::new(rows))
}

fn session_rows(alloc: Global, text: &str) -> Result<SessionRows, Fail> {
    let mut rows = Vec::new(alloc);
    for word in text.split_whitespace() {
        if let Some(word) = word.strip_prefix('=') {
            push_session_row(&mut rows, word)?;
        }
    }
    Ok(SessionRows::new(rows))
}

/// The report of this node, of epoch 1.
pub(super) fn report(alloc: Global, node: u16, text: &str) -> Result<Rc<Report>, Fail>
    ensures node { IfOk result (λ report. report.value.node ≡ node) }
    ensures epoch { IfOk result (λ report. report.value.epoch ≡ 1) }
{
    let rows = rows(alloc, text)?;
    let sessions = session_rows(alloc, text)?;
    let pending = pending_rows(alloc, text)?;
    let report = Report {
        node: NodeId::new(node),
        epoch: Epoch::new(1),
        rows,
        sessions,
        pending,
    };
    Ok(Rc::new(alloc, report)?)
}
