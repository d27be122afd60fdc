//! Calls of `deflect_delivery`: whole walks over networks that do not change.
use super::making::{AnyLink, network, node, nodes_in, split};
use deflect_delivery::{Orders, Still, StillWalk, UpLinks, still_walk};
use epoch_packet::{End, NodeList};
use std::alloc::Global;
use std::process::Abort;
use std::test::Fail;
use topology::{NodeId, PrefixId, Relation, Topology};

// A star around node 1; node 5 has no link.
const LINKS: [AnyLink; 3] = [
    (1, 2, Relation::Any),
    (1, 3, Relation::Any),
    (1, 4, Relation::Any),
];

fn star(alloc: Global) -> Result<Box<Topology>, Fail> {
    network(alloc, &[1, 2, 3, 4, 5], &LINKS, 1)
}

fn link_in(word: &str) -> Result<(NodeId, NodeId), Fail> {
    let (a, b) = split(word, ':')?;
    Ok((node(a)?, node(b)?))
}

// The links of a word such as `2:1,1:3`; `-` for none.
fn up_links(alloc: Global, word: &str) -> Result<UpLinks, Fail> {
    let mut up = Vec::new(alloc);
    for link in word.split(',') {
        if link != "-" {
            up.push(link_in(link)?)?;
        }
    }
    Ok(UpLinks::new(up))
}

// The orders of words such as `2,3,4 1 1 1 -`.
fn orders(alloc: Global, text: &str) -> Result<Orders, Fail> {
    let mut orders = Vec::new(alloc);
    for word in text.split(' ') {
        orders.push(NodeList::new(nodes_in(alloc, word)?))?;
    }
    Ok(Orders::new(orders))
}

// The links that are up, the owners of the prefix, and the order of the neighbours of each node.
fn still(alloc: Global, text: &str) -> Result<Box<Still>, Fail> {
    let (up, rest) = split(text, ' ')?;
    let (owners, rest) = split(rest, ' ')?;
    let up = up_links(alloc, up)?;
    let owners = NodeList::new(nodes_in(alloc, owners)?);
    let orders = orders(alloc, rest)?;
    Ok(Box::new(alloc, Still { up, owners, orders })?)
}

// The walk from node 2.
fn walk(rt: &impl Abort, alloc: Global, net: &Topology, still: &Still) -> Result<StillWalk, Fail> {
    let from = NodeId::new(2);
    assert!(rt; still.fits(net));
    assert!(rt; net.rank_of(from).is_some());
    Ok(still_walk(alloc, net, still, PrefixId::new(0), from)?)
}

fn is(
    rt: &impl Abort,
    alloc: Global,
    walk: &StillWalk,
    visits: &str,
    end: End,
) -> Result<(), Fail> {
    let visits = nodes_in(alloc, visits)?;
    assert!(rt; walk.visits.as_slice() == visits.as_slice());
    assert!(rt; walk.end == end);
    Ok(())
}

fn walks(rt: &impl Abort, alloc: Global, text: &str, visits: &str, end: End) -> Result<(), Fail> {
    let net = star(alloc)?;
    let still = still(alloc, text)?;
    let walk = walk(rt, alloc, &net, &still)?;
    is(rt, alloc, &walk, visits, end)
}

// The owner is tried last, after a way back.
#[test]
fn a_walk_is_delivered(rt: HostRuntime) -> Result<(), Fail> {
    let still = "2:1,1:3,1:4 4 2,3,4 1 1 1 -";
    walks(&rt, rt.alloc(), still, "2,1,3,1,4", End::Delivered)
}

// The link to one owner is down, and the other owner has no link: the walk ends where it began.
#[test]
fn a_walk_is_stuck(rt: HostRuntime) -> Result<(), Fail> {
    let still = "2:1,1:3 4,5 4,3,2 1 1 1 -";
    walks(&rt, rt.alloc(), still, "2,1,3,1,2", End::Stuck)
}

// Whether the value fits, and its links, owners and orders. In turn: two that fit; a link that is not in the network;
// an owner that is not in it; orders of node 1 that leave out a neighbour, or have one twice; one order too few.
const WORLDS: &str = "yes 2:1 4 4,2,3 1 1 1 -
yes - - 2,3,4 1 1 1 -
no 2:3 4 2,3,4 1 1 1 -
no 2:1 6 2,3,4 1 1 1 -
no 2:1 4 2,3 1 1 1 -
no 2:1 4 2,3,3 1 1 1 -
no 2:1 4 2,3,4 1 1 1";

fn fits(rt: &impl Abort, alloc: Global, net: &Topology, line: &str) -> Result<(), Fail> {
    let (wanted, text) = split(line, ' ')?;
    let still = still(alloc, text)?;
    assert!(rt; still.fits(net) == (wanted == "yes"), "{line}");
    Ok(())
}

#[test]
fn what_fits_a_network(rt: HostRuntime) -> Result<(), Fail> {
    let net = star(rt.alloc())?;
    for line in WORLDS.lines() {
        fits(&rt, rt.alloc(), &net, line)?;
    }
    Ok(())
}
