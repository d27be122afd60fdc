//! Which ballots and control messages a node admits.
ghost use Rattle.std.specs.Prelude.{◌≡◌, ◌+◌, ◌<◌, ◌^◌, ◌&&◌, nat_lt, nat_le, length, map, IfNone, IfSome};
ghost use Rattle.std.specs.List.{list_all};
ghost use Rattle.topology.specs.Lists.{has};
ghost use Rattle.topology.specs.Triggers.{earlier};
ghost use Rattle.incomplete_closure.specs.Seen.{report_seen, row_seen, session_seen};
ghost use Rattle.consolidator.specs.Messages.{Reports, epoch_of};
ghost use Rattle.consolidator.specs.Seen.{message_seen};
ghost use Rattle.message_fitting.specs.Marks.{item_marks};
ghost use Rattle.message_fitting.specs.ControlFits.{all_fit, ballot_fits, body_fits, down_fits, epoch_fits, in_order, incomplete_fits, items_of, listed_fits, marks_of_row, marks_of_rows, message_fits, named_fits, nodes_fit, pending_fits, report_fits, report_marks, row_fits, row_lists_fit, rows_are_few, rows_fit, scope_fits, sender_fits, session_fits, sessions_ascend, sessions_fit, sooner, value_fits, waiting_ascends, waiting_fits, waits_sooner};
ghost use Rattle.message_fitting.specs.Names.{is_number, list_fits, trigger_fits};

use crate::marks::{less, less_pending};
use crate::names::{
    are_nodes, are_triggers, is_among, is_node, is_number, list_fits, trigger_fits,
};
use consolidator::Message;
use incomplete_closure::{Report, Row, SessionRow, Value};
use topology::limits::{
    MOST_ENTRIES, MOST_EPOCHS, MOST_MARKS, MOST_PENDING, MOST_SESSIONS, MOST_TRIGGERS, MOST_UPDATES,
};
use topology::{
    Ballot, Epoch, NodeId, Pending, Scope, SentItems, SentRef, Topology, Trigger, Triggers,
};

/// Whether a cut may be of the epoch.
pub fn epoch_fits(epoch: Epoch) -> bool
    ensures { result ≡ epoch_fits epoch }
{
    epoch.number() >= 1 && epoch.number() <= MOST_EPOCHS
}

fn is_lower(a: &NodeId, b: &NodeId) -> bool
    ensures { result ≡ nat_lt a.now b.now }
{
    a < b
}

// Whether the nodes ascend.
pub(crate) fn nodes_ascend(nodes: &[NodeId]) -> bool
    ensures { result ≡ in_order nat_lt nodes.now }
{
    for place in 1..nodes.len() {
        if !is_lower(&nodes[place - 1], &nodes[place]) {
            return false;
        }
    }
    true
}

fn nodes_fit(topology: &Topology, nodes: &[NodeId]) -> bool
    ensures { result ≡ nodes_fit topology.now nodes.now }
{
    are_nodes(topology, nodes) && nodes_ascend(nodes)
}

// Whether the triggers ascend.
fn triggers_ascend(triggers: &[Trigger]) -> bool
    ensures { result ≡ in_order earlier triggers.now }
{
    for place in 1..triggers.len() {
        if !triggers[place - 1].is_earlier(triggers[place]) {
            return false;
        }
    }
    true
}

fn all_fit(topology: &Topology, triggers: &[Trigger]) -> bool
    ensures { result ≡ all_fit topology.now triggers.now }
{
    are_triggers(topology, triggers) && triggers_ascend(triggers)
}

fn incomplete_fits(topology: &Topology, triggers: &[Trigger]) -> bool
    ensures { result ≡ incomplete_fits topology.now triggers.now }
{
    all_fit(topology, triggers) && triggers.len() <= MOST_TRIGGERS as usize
}

// Whether a value names what the network has, in order.
fn value_fits(topology: &Topology, value: &Value) -> bool
    ensures { result ≡ value_fits topology.now value.now }
{
    nodes_fit(topology, value.responding.as_slice())
        && incomplete_fits(topology, value.incomplete.as_slice())
}

// Whether it is a ballot of a node of the network.
fn ballot_fits(topology: &Topology, ballot: Ballot) -> bool
    ensures { result ≡ ballot_fits topology.now ballot }
{
    is_number(ballot.round) && is_node(topology, ballot.node)
}

// Whether what a promise names fits.
fn named_fits(topology: &Topology, named: &Option<(Ballot, Value)>) -> bool
    ensures { result ≡ named_fits topology.now named.now }
{
    match named {
        None => true,
        Some((ballot, value)) => ballot_fits(topology, *ballot) && value_fits(topology, value),
    }
}

// Whether the node is a consolidator.
fn is_consolidator(topology: &Topology, node: NodeId) -> bool
    ensures { result ≡ has topology.now.consolidators node }
{
    is_among(topology.consolidators(), node)
}

// Whether the node may send a message of the ballot.
fn sender_fits(topology: &Topology, from: NodeId, ballot: Ballot) -> bool
    ensures { result ≡ sender_fits topology.now from ballot }
{
    is_consolidator(topology, from) && ballot_fits(topology, ballot)
}

// Whether the scope is a prefix of the network, all prefixes, or nothing.
fn scope_fits(topology: &Topology, scope: &Scope) -> bool
    ensures { result ≡ scope_fits topology.now scope.now }
{
    match scope {
        Scope::One(prefix) => prefix.place() < topology.prefix_count(),
        Scope::All => true,
        Scope::Nothing => true,
    }
}

// Whether an item is numbered from 1 and lists what it may.
fn is_listed(topology: &Topology, item: &SentRef<'_>) -> bool
    ensures { result ≡ (is_number item.now.seq && list_fits topology.now item.now.triggers) }
{
    is_number(item.seq) && list_fits(topology, item.triggers)
}

fn is_in_session(topology: &Topology, item: &SentRef<'_>) -> bool
    ensures { result ≡ (is_number item.now.session && (is_number item.now.seq && list_fits topology.now item.now.triggers)) }
{
    is_number(item.session.number()) && is_listed(topology, item)
}

// Whether an item is for a node of the network, numbered from 1, and lists what it may.
fn sent_fits(topology: &Topology, item: &SentRef<'_>) -> bool
    ensures { result ≡ listed_fits topology.now item.now }
{
    is_node(topology, item.to) && is_in_session(topology, item)
}

// Whether all items of an entry do.
fn items_fit(topology: &Topology, sent: &SentItems) -> bool
    ensures { result ≡ list_all (listed_fits topology.now) sent.now }
{
    for place in 0..sent.len() {
        if !sent_fits(topology, &sent.at(place).unwrap()) {
            return false;
        }
    }
    true
}

// Whether a row lists what one of its scope may.
fn row_lists_fit(topology: &Topology, scope: &Scope, triggers: &Triggers) -> bool
    ensures { result ≡ row_lists_fit topology.now scope.now triggers.now }
{
    match scope {
        Scope::One(_) => list_fits(topology, triggers.as_slice()),
        Scope::All => list_fits(topology, triggers.as_slice()),
        Scope::Nothing => triggers.is_empty(),
    }
}

// Whether the scope and the items of a row name what the network has.
fn entry_fits(topology: &Topology, row: &Row) -> bool
    ensures { result ≡ (scope_fits topology.now row.now.scope && list_all (listed_fits topology.now) row.now.sent) }
{
    scope_fits(topology, &row.scope) && items_fit(topology, &row.sent)
}

// Whether the row of an entry names what the network has.
fn row_fits(topology: &Topology, row: &Row) -> bool
    ensures { result ≡ row_fits topology.now (row_seen row.now) }
{
    row_lists_fit(topology, &row.scope, &row.triggers) && entry_fits(topology, row)
}

// Whether the rows of all entries name what the network has.
fn all_rows_fit(topology: &Topology, rows: &[Row]) -> bool
    ensures { result ≡ list_all (row_fits topology.now) (map row_seen rows.now) }
{
    for row in rows {
        if !row_fits(topology, row) {
            return false;
        }
    }
    true
}

// Whether the items of the rows are no more than a node may have.
fn items_are_few(rows: &[Row]) -> bool
    ensures { result ≡ nat_le (length (items_of (map row_seen rows.now))) MOST_UPDATES }
{
    let mut left = MOST_UPDATES as usize;
    for row in rows {
        let count = row.sent.len();
        if count > left {
            return false;
        }
        left -= count;
    }
    true
}

fn rows_are_few(rows: &[Row]) -> bool
    ensures { result ≡ rows_are_few (map row_seen rows.now) }
{
    rows.len() <= MOST_ENTRIES as usize && items_are_few(rows)
}

// Whether the rows of entries fit, and are no more than a node may have.
fn rows_fit(topology: &Topology, rows: &[Row]) -> bool
    ensures { result ≡ rows_fit topology.now (map row_seen rows.now) }
{
    all_rows_fit(topology, rows) && rows_are_few(rows)
}

fn down_fits(topology: &Topology, row: &SessionRow) -> bool
    ensures { result ≡ down_fits topology.now (session_seen row.now).down }
{
    match &row.down {
        None => true,
        Some(trigger) => trigger_fits(topology, trigger),
    }
}

fn ending_fits(topology: &Topology, row: &SessionRow) -> bool
    ensures { result ≡ (is_number row.now.session && (nat_lt row.now.received (2 ^ 32)
        && down_fits topology.now (session_seen row.now).down)) }
{
    // that it has four bytes is said where it is read
    let _received = row.received;
    is_number(row.session.number()) && down_fits(topology, row)
}

// Whether the row of a session names what the network has.
fn session_fits(topology: &Topology, row: &SessionRow) -> bool
    ensures { result ≡ session_fits topology.now (session_seen row.now) }
{
    is_node(topology, row.nbr) && ending_fits(topology, row)
}

// Whether all rows of sessions name what the network has.
fn all_sessions_fit(topology: &Topology, rows: &[SessionRow]) -> bool
    ensures { result ≡ list_all (session_fits topology.now) (map session_seen rows.now) }
{
    for row in rows {
        if !session_fits(topology, row) {
            return false;
        }
    }
    true
}

// Whether the one row stands before the other.
fn is_sooner(a: &SessionRow, b: &SessionRow) -> bool
    ensures { result ≡ sooner (session_seen a.now) (session_seen b.now) }
{
    a.nbr < b.nbr || (a.nbr == b.nbr && a.session < b.session)
}

// Whether the rows of sessions stand in order.
fn are_in_order(rows: &[SessionRow]) -> bool
    ensures { result ≡ in_order sooner (map session_seen rows.now) }
{
    for place in 1..rows.len() {
        if !is_sooner(&rows[place - 1], &rows[place]) {
            return false;
        }
    }
    true
}

fn sessions_ascend(rows: &[SessionRow]) -> bool
    ensures { result ≡ sessions_ascend (map session_seen rows.now) }
{
    are_in_order(rows) && rows.len() <= MOST_SESSIONS as usize
}

// Whether the rows of sessions fit, and ascend.
fn sessions_fit(topology: &Topology, rows: &[SessionRow]) -> bool
    ensures { result ≡ sessions_fit topology.now (map session_seen rows.now) }
{
    all_sessions_fit(topology, rows) && sessions_ascend(rows)
}

// Whether a row of updates held back has a session from 1, and lists what it may.
fn is_held_back(topology: &Topology, row: &Pending) -> bool
    ensures { result ≡ (is_number row.now.session && list_fits topology.now row.now.triggers) }
{
    is_number(row.session.number()) && list_fits(topology, row.triggers.as_slice())
}

fn is_placed(topology: &Topology, row: &Pending) -> bool
    ensures { result ≡ (nat_lt row.now.prefix (length topology.now.prefixes)
        && (is_number row.now.session && list_fits topology.now row.now.triggers)) }
{
    row.prefix.place() < topology.prefix_count() && is_held_back(topology, row)
}

// Whether a row of updates held back names what the network has.
fn waiting_fits(topology: &Topology, row: &Pending) -> bool
    ensures { result ≡ waiting_fits topology.now row.now }
{
    is_node(topology, row.to) && is_placed(topology, row)
}

// Whether all rows of updates held back name what the network has.
fn all_waiting_fit(topology: &Topology, rows: &[Pending]) -> bool
    ensures { result ≡ list_all (waiting_fits topology.now) rows.now }
{
    rows.iter().all(|row| waiting_fits(topology, row))
}

// Whether the one row stands before the other.
fn waits_sooner(a: &Pending, b: &Pending) -> bool
    ensures { result ≡ waits_sooner a.now b.now }
{
    a.to < b.to || (a.to == b.to && a.prefix < b.prefix)
}

// Whether the rows of updates held back stand in order.
fn wait_in_order(rows: &[Pending]) -> bool
    ensures { result ≡ in_order waits_sooner rows.now }
{
    for place in 1..rows.len() {
        if !waits_sooner(&rows[place - 1], &rows[place]) {
            return false;
        }
    }
    true
}

fn waiting_ascends(rows: &[Pending]) -> bool
    ensures { result ≡ waiting_ascends rows.now }
{
    wait_in_order(rows) && rows.len() <= MOST_PENDING as usize
}

// Whether the rows of updates held back fit, and ascend.
fn pending_fits(topology: &Topology, rows: &[Pending]) -> bool
    ensures { result ≡ pending_fits topology.now rows.now }
{
    all_waiting_fit(topology, rows) && waiting_ascends(rows)
}

// What is left of a number after the triggers that the row lists. None where it lists more.
fn less_row(number: usize, row: &Row) -> Option<usize>
    ensures some { IfSome result (λ left. left + marks_of_row (row_seen row.now) ≡ number) }
    ensures none { IfNone result (number < marks_of_row (row_seen row.now)) }
{
    let Some(left) = less(number, row.triggers.len()) else {
        return None;
    };
    less_sent(left, &row.sent)
}

// What is left of a number after the triggers that the items list. None where they list more.
#[tactic(auto, using(crate::proofs::ListedMarks::same_marks))]
fn less_sent(number: usize, sent: &SentItems) -> Option<usize>
    ensures some { IfSome result (λ left. left + item_marks sent.now ≡ number) }
    ensures none { IfNone result (number < item_marks sent.now) }
{
    let Some(marks) = sent.marks() else {
        return None;
    };
    less(number, marks)
}

// The number less the count of triggers that the rows list. None where the rows list more.
fn less_rows(number: usize, rows: &[Row]) -> Option<usize>
    ensures some { IfSome result (λ left. left + marks_of_rows (map row_seen rows.now) ≡ number) }
    ensures none { IfNone result (number < marks_of_rows (map row_seen rows.now)) }
{
    let mut left = number;
    for row in rows {
        let Some(rest) = less_row(left, row) else {
            return None;
        };
        left = rest;
    }
    Some(left)
}

// Whether a report lists no more triggers than it may.
fn lists_few(report: &Report) -> bool
    ensures { result ≡ nat_le (report_marks (report_seen report.now)) MOST_MARKS }
{
    let Some(left) = less_rows(MOST_MARKS as usize, report.rows.as_slice()) else {
        return false;
    };
    let Some(_) = less_pending(left, report.pending.as_slice()) else {
        return false;
    };
    true
}

fn end_fits(topology: &Topology, report: &Report) -> bool
    ensures { result ≡ (pending_fits topology.now report.now.pending
        && nat_le (report_marks (report_seen report.now)) MOST_MARKS) }
{
    pending_fits(topology, report.pending.as_slice()) && lists_few(report)
}

fn rest_fits(topology: &Topology, report: &Report) -> bool
    ensures { result ≡ (sessions_fit topology.now (report_seen report.now).sessions
        && (pending_fits topology.now report.now.pending
        && nat_le (report_marks (report_seen report.now)) MOST_MARKS)) }
{
    sessions_fit(topology, report.sessions.as_slice()) && end_fits(topology, report)
}

fn parts_fit(topology: &Topology, report: &Report) -> bool
    ensures { result ≡ report_fits topology.now (report_seen report.now) }
{
    rows_fit(topology, report.rows.as_slice()) && rest_fits(topology, report)
}

// Whether the report is of its sender, and fits.
fn report_fits(topology: &Topology, from: NodeId, report: &Report) -> bool
    ensures { result ≡ body_fits topology.now from (Reports (report_seen report.now)) }
{
    report.node == from && parts_fit(topology, report)
}

fn promise_fits(
    topology: &Topology,
    from: NodeId,
    ballot: Ballot,
    named: &Option<(Ballot, Value)>,
) -> bool
    ensures { result ≡ (sender_fits topology.now from ballot && named_fits topology.now named.now) }
{
    sender_fits(topology, from, ballot) && named_fits(topology, named)
}

fn accept_fits(topology: &Topology, from: NodeId, ballot: Ballot, value: &Value) -> bool
    ensures { result ≡ (sender_fits topology.now from ballot && value_fits topology.now value.now) }
{
    sender_fits(topology, from, ballot) && value_fits(topology, value)
}

// Whether the node may send what the message says.
fn body_fits(topology: &Topology, from: NodeId, message: &Message) -> bool
    ensures { result ≡ body_fits topology.now from (message_seen message.now) }
{
    match message {
        Message::Report(report) => report_fits(topology, from, report),
        Message::Prepare { ballot, .. } => sender_fits(topology, from, *ballot),
        Message::Promise { ballot, named, .. } => promise_fits(topology, from, *ballot, named),
        Message::Accept { ballot, value, .. } => accept_fits(topology, from, *ballot, value),
        Message::Accepted { ballot, .. } => sender_fits(topology, from, *ballot),
        Message::Decision { value, .. } => value_fits(topology, value),
    }
}

fn content_fits(topology: &Topology, from: NodeId, message: &Message) -> bool
    ensures { result ≡ (epoch_fits (epoch_of (message_seen message.now))
        && body_fits topology.now from (message_seen message.now)) }
{
    epoch_fits(message.epoch()) && body_fits(topology, from, message)
}

/// Whether it is a message that the node may send.
pub fn message_fits(topology: &Topology, from: NodeId, message: &Message) -> bool
    ensures { result ≡ message_fits topology.now from (message_seen message.now) }
{
    is_node(topology, from) && content_fits(topology, from, message)
}
