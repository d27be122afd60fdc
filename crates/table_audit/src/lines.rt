//! What a line of a text means for the audit.
ghost use Rattle.std.specs.Prelude.{ℕ, ◌≡◌, ◌≤◌, ◌++◌, [], ◌∷◌, List, Some, None, bytes_eq, codes, drop, length, slice_range, option_map, IfOk, IfSome, IfNone};
ghost use Rattle.text_lines.specs.Words.{words_of};
ghost use Rattle.text_lines.specs.Readings.{words_left};
ghost use Rattle.schedule_file.specs.Words.{word_at};
ghost use Rattle.table_audit.specs.Tables.{before_colon, is_unpublished, path_in, says};
ghost use Rattle.table_audit.specs.Reading.{nodes_behind};

use crate::rows::{AuditRow, RowNodes};
use schedule_file::words::{epoch_of, node_of, prefix_of};
use std::alloc::Global;
use text_lines::{Line, Tokens};
use topology::limits::MOST_NODES;
use topology::{NoMemory, NodeId};

/// What a line means for the audit.
#[derive(Debug, Drop)]
pub(crate) enum Says {
    /// The line is not one of a table, or says that a table was not published.
    Nothing,
    /// The line is a row.
    Row(AuditRow),
    /// The line begins with the word `table`, but is not a line of a table.
    Misspelled,
}

// The next word; empty if there is none.
fn next_word<'a>(text: &'a [u8], tokens: &mut Tokens<'a>) -> &'a [u8]
    requires { tokens.old.text ≡ text.now }
    ensures word { result.now ≡ word_at 0 (words_left tokens.old) }
    ensures left { words_left tokens.new ≡ drop 1 (words_left tokens.old) }
    ensures text { tokens.new.text ≡ text.now }
{
    match tokens.next() {
        Some(token) => &text[token.start..token.end],
        None => &[],
    }
}

// Whether the line is one of a table, by its first word.
fn is_table(word: &[u8]) -> bool
    ensures { result ≡ bytes_eq word.now (codes "table") }
{
    word == b"table".as_slice()
}

// Whether the word says that there is no path.
fn is_none(word: &[u8]) -> bool
    ensures { result ≡ bytes_eq word.now (codes "none") }
{
    word == b"none".as_slice()
}

// The word without the colon at its end; `None` if it has none.
fn before_colon(word: &[u8]) -> Option<&[u8]>
    ensures some { IfSome result (λ front. before_colon word.now ≡ Some front.now) }
    ensures none { IfNone result (before_colon word.now ≡ None) }
{
    if word.is_empty() {
        return None;
    }
    let last = word.len() - 1;
    if word[last] != b':' {
        return None;
    }
    let (front, _) = word.split_at(last);
    Some(front)
}

// Whether the words are an epoch with a colon, and the word for a table that was not published.
fn is_unpublished(epoch: &[u8], word: &[u8]) -> bool
    ensures { result ≡ is_unpublished epoch.now word.now }
{
    let Some(front) = before_colon(epoch) else {
        return false;
    };
    let Ok(_) = epoch_of(front) else {
        return false;
    };
    word == b"unpublished".as_slice()
}

// The node, followed by the nodes that the remaining words spell. The answer is `None` if a word spells no node, or
// there are more nodes than a path may have.
fn read_nodes<'a>(
    alloc: Global,
    text: &'a [u8],
    tokens: &mut Tokens<'a>,
    first: NodeId,
) -> Result<Option<Vec<NodeId>>, NoMemory>
    requires { tokens.old.text ≡ text.now }
    ensures { IfOk result (λ path.
        option_map (λ nodes. nodes.items) path ≡ nodes_behind (first ∷ []) (words_left tokens.old)) }
{
    let mut nodes = Vec::new(alloc);
    nodes.push(first)?;
    while let Some(token) = tokens.next() {
        let Ok(node) = node_of(&text[token.start..token.end]) else {
            return Ok(None);
        };
        if nodes.len() >= MOST_NODES {
            return Ok(None);
        }
        nodes.push(node)?;
    }
    Ok(Some(nodes))
}

// The path that the remaining words spell; `None` if they spell none.
fn read_path<'a>(
    alloc: Global,
    text: &'a [u8],
    tokens: &mut Tokens<'a>,
) -> Result<Option<Vec<NodeId>>, NoMemory>
    requires { tokens.old.text ≡ text.now }
    ensures { IfOk result (λ path. option_map (λ nodes. nodes.items) path ≡ path_in (words_left tokens.old)) }
{
    let first = next_word(text, tokens);
    if is_none(first) {
        if tokens.next().is_some() {
            return Ok(None);
        }
        return Ok(Some(Vec::new(alloc)));
    }
    let Ok(node) = node_of(first) else {
        return Ok(None);
    };
    let nodes = read_nodes(alloc, text, tokens, node)?;
    Ok(nodes)
}

/// What the line means.
pub(crate) fn read_line(alloc: Global, text: &[u8], line: Line) -> Result<Says, NoMemory>
    requires ordered { line.start ≤ line.end }
    requires inside { line.end ≤ length text.now }
    ensures { IfOk result (λ said. said ≡ says line.number (words_of (slice_range text.now line.start line.end))) }
{
    let mut tokens = Tokens::new(text, line);
    let first = next_word(text, &mut tokens);
    if !is_table(first) {
        return Ok(Says::Nothing);
    }
    let node = next_word(text, &mut tokens);
    let epoch = next_word(text, &mut tokens);
    let word = next_word(text, &mut tokens);
    let Ok(node) = node_of(node) else {
        return Ok(Says::Misspelled);
    };
    if is_unpublished(epoch, word) {
        if tokens.next().is_some() {
            return Ok(Says::Misspelled);
        }
        return Ok(Says::Nothing);
    }
    let Ok(epoch) = epoch_of(epoch) else {
        return Ok(Says::Misspelled);
    };
    let Some(word) = before_colon(word) else {
        return Ok(Says::Misspelled);
    };
    let Ok(prefix) = prefix_of(word) else {
        return Ok(Says::Misspelled);
    };
    let Some(nodes) = read_path(alloc, text, &mut tokens)? else {
        return Ok(Says::Misspelled);
    };
    Ok(Says::Row(AuditRow {
        line: line.number,
        node,
        epoch,
        prefix,
        path: RowNodes::new(nodes),
    }))
}
