//! The words of a line, and the values that single words spell.
ghost use Rattle.std.specs.Prelude.{ℕ, ◌≡◌, ◌≢◌, ◌≤◌, ◌<◌, ◌+◌, false, true, List, None, Some, IfOk, OnOk, OnErr, IfErr, IfSome, IfNone, length, slice_range, drop};
ghost use Rattle.text_lines.specs.Words.{words_of};
ghost use Rattle.text_lines.specs.Readings.{words_left};
ghost use Rattle.topology.specs.declared.status.BadKind.TheVariants.{UnknownWord, BadNumber, BadPrefix};
ghost use Rattle.schedule_file.specs.Words.{word_at, number_of, spells_number, prefix_of, relation_of};
ghost use Rattle.schedule_file.specs.Table.{Field, spells_field, keyword_in, view_in, scheme_in, relations};
ghost use Rattle.schedule_file.specs.Table.Field.{NodeNumber, Value, HopLimit, Times, MessageNumber, PacketNumber, Masked, OneOf, EpochNumber};
ghost use Rattle.schedule_file.specs.Standing.{Holds};

use crate::prefixes::read_prefix;
use crate::table::{
    Keyword, SchemeName, View, keyword_named, relation_named, scheme_named, view_named,
};
use text_lines::{Line as Span, Tokens, read_number};
use topology::limits::{
    HIGHEST_EPOCH, HIGHEST_HOPS, HIGHEST_MESSAGE, HIGHEST_NODE, HIGHEST_PACKET, HIGHEST_PREFERENCE,
    MOST_TIMES,
};
use topology::{BadKind, Epoch, NodeId, Prefix, Relation};

/// The words of one line: their number, and the first four. A missing word is empty.
#[derive(Clone, Copy, Debug)]
pub struct Words<'a> {
    pub count: usize,
    pub first: &'a [u8],
    pub second: &'a [u8],
    pub third: &'a [u8],
    pub fourth: &'a [u8],
}

// How many words are left.
fn count_left(tokens: &mut Tokens<'_>) -> usize
    requires { tokens.old.from ≤ tokens.old.end }
    ensures count { result ≡ length (words_left tokens.old) }
    ensures few { result + tokens.old.from ≤ tokens.old.end }
{
    let mut count = 0;
    while let Some(_token) = tokens.next() {
        count += 1;
    }
    count
}

// The next word, which is counted; empty if there is none.
fn next_word<'a>(text: &'a [u8], tokens: &mut Tokens<'a>, count: &mut usize) -> &'a [u8]
    requires text { tokens.old.text ≡ text.now }
    requires inside { tokens.old.from ≤ tokens.old.end }
    requires few { count.old < 4 }
    ensures word { result.now ≡ word_at 0 (words_left tokens.old) }
    ensures left { words_left tokens.new ≡ drop 1 (words_left tokens.old) }
    ensures text { tokens.new.text ≡ text.now }
    ensures end { tokens.new.end ≡ tokens.old.end }
    ensures inside { tokens.new.from ≤ tokens.new.end }
    ensures count { count.new + length (words_left tokens.new) ≡ count.old + length (words_left tokens.old) }
    ensures few { count.new ≤ count.old + 1 }
    ensures behind { count.new + tokens.old.from ≤ count.old + tokens.new.from }
{
    match tokens.next() {
        Some(token) => {
            *count += 1;
            &text[token.start..token.end]
        }
        None => &[],
    }
}

/// The words of the line.
pub fn words_of<'a>(text: &'a [u8], line: Span) -> Words<'a>
    requires ordered { line.start ≤ line.end }
    requires inside { line.end ≤ length text.now }
    ensures { Holds result (words_of (slice_range text.now line.start line.end)) }
{
    let mut count = 0;
    let mut tokens = Tokens::new(text, line);
    let first = next_word(text, &mut tokens, &mut count);
    let second = next_word(text, &mut tokens, &mut count);
    let third = next_word(text, &mut tokens, &mut count);
    let fourth = next_word(text, &mut tokens, &mut count);
    let count = count + count_left(&mut tokens);
    Words {
        count,
        first,
        second,
        third,
        fourth,
    }
}

/// The kind of line that begins with the word.
pub fn keyword_of(word: &[u8]) -> Result<Keyword, BadKind>
    ensures ok { IfOk result (λ keyword. keyword_in word.now ≡ Some keyword) }
    ensures err { OnErr result (keyword_in word.now ≡ None) }
    ensures kind { IfErr result (λ kind. kind ≡ UnknownWord) }
{
    match keyword_named(word) {
        Some(keyword) => Ok(keyword),
        None => Err(BadKind::UnknownWord),
    }
}

/// The view that the word after `show` names.
pub fn view_of(word: &[u8]) -> Result<View, BadKind>
    ensures ok { IfOk result (λ view. view_in word.now ≡ Some view) }
    ensures err { OnErr result (view_in word.now ≡ None) }
    ensures kind { IfErr result (λ kind. kind ≡ UnknownWord) }
{
    match view_named(word) {
        Some(view) => Ok(view),
        None => Err(BadKind::UnknownWord),
    }
}

/// The scheme that the word after `transient` names.
pub fn scheme_of(word: &[u8]) -> Result<SchemeName, BadKind>
    ensures ok { IfOk result (λ name. scheme_in word.now ≡ Some name) }
    ensures err { OnErr result (scheme_in word.now ≡ None) }
    ensures kind { IfErr result (λ kind. kind ≡ UnknownWord) }
{
    match scheme_named(word) {
        Some(name) => Ok(name),
        None => Err(BadKind::UnknownWord),
    }
}

// A number from 0 to `high`.
fn number_to(word: &[u8], high: u32) -> Result<u32, BadKind>
    ensures ok { IfOk result (λ number. number ≡ number_of word.now) }
    ensures fine { OnOk result (spells_number 0 high word.now ≡ true) }
    ensures within { IfOk result (λ number. number ≤ high) }
    ensures err { OnErr result (spells_number 0 high word.now ≡ false) }
    ensures kind { IfErr result (λ kind. kind ≡ BadNumber) }
{
    match read_number(word, high) {
        Some(number) => Ok(number),
        None => Err(BadKind::BadNumber),
    }
}

// A number from 1 to `high`.
fn number_of(word: &[u8], high: u32) -> Result<u32, BadKind>
    ensures ok { IfOk result (λ number. number ≡ number_of word.now) }
    ensures fine { OnOk result (spells_number 1 high word.now ≡ true) }
    ensures within { IfOk result (λ number. (1 ≤ number) × (number ≤ high)) }
    ensures err { OnErr result (spells_number 1 high word.now ≡ false) }
    ensures kind { IfErr result (λ kind. kind ≡ BadNumber) }
{
    let Some(number) = read_number(word, high) else {
        return Err(BadKind::BadNumber);
    };
    if number == 0 {
        return Err(BadKind::BadNumber);
    }
    Ok(number)
}

/// The number of a node, at least 1.
pub fn node_of(word: &[u8]) -> Result<NodeId, BadKind>
    ensures ok { IfOk result (λ node. node ≡ number_of word.now) }
    ensures fine { OnOk result (spells_field NodeNumber word.now ≡ true) }
    ensures err { OnErr result (spells_field NodeNumber word.now ≡ false) }
    ensures kind { IfErr result (λ kind. kind ≡ BadNumber) }
{
    let number = number_of(word, HIGHEST_NODE)?;
    Ok(NodeId::new(number as u16))
}

/// A preference.
pub fn value_of(word: &[u8]) -> Result<u32, BadKind>
    ensures ok { IfOk result (λ value. value ≡ number_of word.now) }
    ensures fine { OnOk result (spells_field Value word.now ≡ true) }
    ensures err { OnErr result (spells_field Value word.now ≡ false) }
    ensures kind { IfErr result (λ kind. kind ≡ BadNumber) }
{
    number_to(word, HIGHEST_PREFERENCE)
}

/// How many moves a packet may make.
pub fn hops_of(word: &[u8]) -> Result<u16, BadKind>
    ensures ok { IfOk result (λ hops. hops ≡ number_of word.now) }
    ensures fine { OnOk result (spells_field HopLimit word.now ≡ true) }
    ensures err { OnErr result (spells_field HopLimit word.now ≡ false) }
    ensures kind { IfErr result (λ kind. kind ≡ BadNumber) }
{
    let hops = number_to(word, HIGHEST_HOPS)?;
    Ok(hops as u16)
}

/// A number of times, at least 1.
pub fn times_of(word: &[u8]) -> Result<u32, BadKind>
    ensures ok { IfOk result (λ times. times ≡ number_of word.now) }
    ensures fine { OnOk result (spells_field Times word.now ≡ true) }
    ensures err { OnErr result (spells_field Times word.now ≡ false) }
    ensures kind { IfErr result (λ kind. kind ≡ BadNumber) }
{
    number_of(word, MOST_TIMES)
}

/// The number of a control message, at least 1.
pub fn message_of(word: &[u8]) -> Result<u32, BadKind>
    ensures ok { IfOk result (λ number. number ≡ number_of word.now) }
    ensures fine { OnOk result (spells_field MessageNumber word.now ≡ true) }
    ensures err { OnErr result (spells_field MessageNumber word.now ≡ false) }
    ensures kind { IfErr result (λ kind. kind ≡ BadNumber) }
{
    number_of(word, HIGHEST_MESSAGE)
}

/// The number of a packet, at least 1.
pub fn packet_of(word: &[u8]) -> Result<u32, BadKind>
    ensures ok { IfOk result (λ packet. packet ≡ number_of word.now) }
    ensures fine { OnOk result (spells_field PacketNumber word.now ≡ true) }
    ensures err { OnErr result (spells_field PacketNumber word.now ≡ false) }
    ensures kind { IfErr result (λ kind. kind ≡ BadNumber) }
{
    number_of(word, HIGHEST_PACKET)
}

/// The number of an epoch, at least 1.
pub fn epoch_of(word: &[u8]) -> Result<Epoch, BadKind>
    ensures ok { IfOk result (λ epoch. epoch ≡ number_of word.now) }
    ensures fine { OnOk result (spells_field EpochNumber word.now ≡ true) }
    ensures err { OnErr result (spells_field EpochNumber word.now ≡ false) }
    ensures kind { IfErr result (λ kind. kind ≡ BadNumber) }
{
    let epoch = number_of(word, HIGHEST_EPOCH)?;
    Ok(Epoch::new(epoch))
}

/// A prefix.
pub fn prefix_of(word: &[u8]) -> Result<Prefix, BadKind>
    ensures ok { IfOk result (λ p. p ≡ prefix_of word.now) }
    ensures fine { OnOk result (spells_field Masked word.now ≡ true) }
    ensures err { OnErr result (spells_field Masked word.now ≡ false) }
    ensures kind { IfErr result (λ kind. kind ≡ BadPrefix) }
{
    let Some(prefix) = read_prefix(word) else {
        return Err(BadKind::BadPrefix);
    };
    Ok(prefix)
}

/// The relation of the second end of a link to the first.
pub fn relation_of(word: &[u8]) -> Result<Relation, BadKind>
    ensures ok { IfOk result (λ relation. relation ≡ relation_of word.now) }
    ensures fine { OnOk result (spells_field (OneOf relations) word.now ≡ true) }
    ensures err { OnErr result (spells_field (OneOf relations) word.now ≡ false) }
    ensures kind { IfErr result (λ kind. kind ≡ UnknownWord) }
{
    match relation_named(word) {
        Some(relation) => Ok(relation),
        None => Err(BadKind::UnknownWord),
    }
}
