//! The words of a line, and the values that they name.
use std::alloc::Global;
use std::test::Fail;
use topology::{Ballot, Epoch, NodeId, PrefixId, Session};

/// The words of a text, which stand one space apart.
pub fn words_of<'a>(alloc: Global, text: &'a str) -> Result<Vec<&'a str>, Fail> {
    Ok(text.split(' ').collect(alloc)?)
}

/// The word at a place, from 0.
pub fn word<'a>(words: &[&'a str], place: usize) -> Result<&'a str, Fail> {
    Ok(*words.get(place).ok_or("a word")?)
}

pub fn number(words: &[&str], place: usize) -> Result<u32, Fail> {
    Ok(word(words, place)?.parse::<u32>()?)
}

pub fn node(words: &[&str], place: usize) -> Result<NodeId, Fail> {
    Ok(NodeId::new(word(words, place)?.parse::<u16>()?))
}

pub fn prefix(words: &[&str], place: usize) -> Result<PrefixId, Fail> {
    Ok(PrefixId::new(word(words, place)?.parse::<u16>()?))
}

pub fn epoch(words: &[&str], place: usize) -> Result<Epoch, Fail> {
    Ok(Epoch::new(number(words, place)?))
}

pub fn session(words: &[&str], place: usize) -> Result<Session, Fail> {
    Ok(Session::new(number(words, place)?))
}

/// A round and a node, as in `1/2`.
pub fn ballot(words: &[&str], place: usize) -> Result<Ballot, Fail> {
    let (round, node) = word(words, place)?.split_once('/').ok_or("a ballot")?;
    Ok(Ballot {
        round: round.parse::<u32>()?,
        node: NodeId::new(node.parse::<u16>()?),
    })
}

/// Nodes below 10, each as one digit; `-` for none.
pub fn nodes(alloc: Global, words: &[&str], place: usize) -> Result<Vec<NodeId>, Fail> {
    let mut nodes = Vec::new(alloc);
    let digits = word(words, place)?;
    if digits == "-" {
        return Ok(nodes);
    }
    for digit in digits.bytes() {
        nodes.push(NodeId::new((digit as u16).saturating_sub(48)))?;
    }
    Ok(nodes)
}
