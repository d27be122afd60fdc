//! Makes small networks and other values for the tests of several libraries.
use std::alloc::Global;
use std::process::Abort;
use std::test::Fail;
use topology::{Ballot, NodeId, Path, Prefix, Relation, SentItems, Session, Topology, Trigger};

/// Neighbour, session and number of each item.
pub(super) type Items = &'static [(u16, u32, u32)];

/// Two nodes, and the relation of the second to the first.
pub(super) type AnyLink = (u16, u16, Relation);

/// The links of node 2 with its neighbours.
pub(super) const STAR: [AnyLink; 3] = [
    (2, 1, Relation::Any),
    (2, 3, Relation::Any),
    (2, 4, Relation::Any),
];

// None of the nodes is a consolidator.
fn add_nodes(net: &mut Topology, numbers: &[u16]) -> Result<(), Fail> {
    for number in numbers {
        if *number == 0 {
            return Err(Fail::from("nodes are numbered from 1"));
        }
        net.add_node(NodeId::new(*number), false)?;
    }
    Ok(())
}

fn add_links(net: &mut Topology, links: &[AnyLink]) -> Result<(), Fail> {
    for (a, b, relation) in links {
        net.add_link(NodeId::new(*a), NodeId::new(*b), *relation)?;
    }
    Ok(())
}

// None, one or two.
fn add_prefixes(net: &mut Topology, count: u8) -> Result<(), Fail> {
    if count > 0 {
        net.add_prefix(Prefix { bits: 0, len: 0 })?;
    }
    if count > 1 {
        net.add_prefix(Prefix { bits: 0, len: 1 })?;
    }
    Ok(())
}

fn fill(net: &mut Topology, nodes: &[u16], links: &[AnyLink], prefixes: u8) -> Result<(), Fail> {
    add_nodes(net, nodes)?;
    add_links(net, links)?;
    add_prefixes(net, prefixes)
}

/// The network of these nodes, in this order, and these links, with at most two prefixes.
pub(super) fn network(
    alloc: Global,
    nodes: &[u16],
    links: &[AnyLink],
    prefixes: u8,
) -> Result<Box<Topology>, Fail> {
    let mut net = Box::new(alloc, Topology::empty(alloc))?;
    fill(&mut net, nodes, links, prefixes)?;
    Ok(net)
}

pub(super) fn ids(alloc: Global, numbers: &[u16]) -> Result<Vec<NodeId>, Fail> {
    let mut nodes = Vec::with_capacity(alloc, numbers.len())?;
    for number in numbers {
        nodes.push(NodeId::new(*number))?;
    }
    Ok(nodes)
}

/// The path of these nodes; none if there are no nodes.
pub(super) fn path_of(alloc: Global, numbers: &[u16]) -> Result<Option<Path>, Fail> {
    Ok(Path::new(ids(alloc, numbers)?)?)
}

/// The paths of these lists, each of which has nodes, all different.
pub(super) fn paths(alloc: Global, lists: &[&[u16]]) -> Result<Vec<Path>, Fail> {
    let mut paths = Vec::new(alloc);
    for numbers in lists {
        paths.push(path_of(alloc, *numbers)?.ok_or("a path")?)?;
    }
    Ok(paths)
}

pub(super) fn trigger(node: u16, count: u32) -> Trigger {
    Trigger {
        node: NodeId::new(node),
        count,
    }
}

pub(super) fn ballot(round: u32, node: u16) -> Ballot {
    Ballot {
        round,
        node: NodeId::new(node),
    }
}

/// The text before the mark, and the text after it.
pub(super) fn split(text: &str, mark: char) -> Result<(&str, &str), Fail> {
    Ok(text.split_once(mark).ok_or("a further word")?)
}

pub(super) fn number(word: &str) -> Result<u32, Fail> {
    Ok(word.parse::<u32>()?)
}

pub(super) fn node(word: &str) -> Result<NodeId, Fail> {
    Ok(NodeId::new(word.parse::<u16>()?))
}

/// The nodes of a word such as `1,2,9`; `-` for none.
pub(super) fn nodes_in(alloc: Global, word: &str) -> Result<Vec<NodeId>, Fail> {
    let mut nodes = Vec::new(alloc);
    for of in word.split(',') {
        if of != "-" {
            nodes.push(node(of)?)?;
        }
    }
    Ok(nodes)
}

/// Checks that the list has exactly this trigger.
pub(super) fn is_alone(rt: &impl Abort, triggers: &[Trigger], trigger: &Trigger) {
    assert!(rt; triggers == [*trigger].as_slice());
}

fn is_item(
    rt: &impl Abort,
    sent: &SentItems,
    place: usize,
    (to, session, seq): (u16, u32, u32),
    trigger: &Trigger,
) {
    match sent.at(place) {
        None => assert!(rt; false),
        Some(item) => {
            assert!(rt; item.to == NodeId::new(to));
            assert!(rt; item.session == Session::new(session));
            assert!(rt; item.seq == seq);
            is_alone(rt, item.triggers, trigger);
        }
    }
}

/// Checks that these items were sent, each for this trigger.
pub(super) fn are_items(rt: &impl Abort, sent: &SentItems, items: Items, trigger: &Trigger) {
    assert!(rt; sent.len() == items.len());
    for i in 0..items.len() {
        is_item(rt, sent, i, items[i], trigger);
    }
}
