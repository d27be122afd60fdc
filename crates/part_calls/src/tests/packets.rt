//! Calls of `epoch_packet`: what a packet carries, and its way along the stable tables.
use super::making::{ids, network};
use epoch_packet::{Mode, NodeList, Packet, StableStep, has_visited, stable_hop, stamp};
use std::alloc::Global;
use std::process::Abort;
use std::test::Fail;
use topology::{Epoch, NoMemory, NodeId, PrefixId, Relation, Scheme, Topology};

// The line 5 2 9; in ascending order the nodes are 2 5 9.
fn line(alloc: Global) -> Result<Box<Topology>, Fail> {
    let links = [(5, 2, Relation::Any), (2, 9, Relation::Any)];
    network(alloc, &[5, 2, 9], &links, 0)
}

// What a node does if this is its path in the table, and the links to these neighbours are up.
fn hops(
    rt: &impl Abort,
    alloc: Global,
    path: &[u16],
    up: &[u16],
    wanted: StableStep,
) -> Result<(), Fail> {
    let path = ids(alloc, path)?;
    let up = ids(alloc, up)?;
    assert!(rt; stable_hop(Some(path.as_slice()), &up) == wanted);
    Ok(())
}

#[test]
fn a_packet_goes_along_the_path_of_its_table(rt: HostRuntime) -> Result<(), Fail> {
    let alloc = rt.alloc();
    let [two, five, nine] = [NodeId::new(2), NodeId::new(5), NodeId::new(9)];
    // the node is the end of the path, whatever is up
    hops(&rt, alloc, &[5], &[], StableStep::Arrived)?;
    hops(&rt, alloc, &[5], &[2], StableStep::Arrived)?;
    // the link to the second node is up, or down
    hops(&rt, alloc, &[9, 2, 5], &[2], StableStep::Next(two))?;
    hops(&rt, alloc, &[2, 5], &[5, 9], StableStep::Next(five))?;
    hops(&rt, alloc, &[2, 5], &[9], StableStep::Turn)?;
    hops(&rt, alloc, &[9, 2, 5], &[], StableStep::Turn)?;
    // no table of the epoch, or no path in it
    assert!(rt; stable_hop(None, &[five, nine]) == StableStep::Turn);
    Ok(())
}

// Mode, stamp, budget and what counts as visited; nothing else was carried.
fn is(packet: &Packet, mode: Mode, epoch: u32, budget: u16, visited: u64) -> bool {
    packet.mode == mode
        && packet.epoch == Epoch::new(epoch)
        && packet.budget == budget
        && !packet.reached
        && packet.visited == visited
        && packet.trail.as_slice().is_empty()
        && packet.route.as_slice().is_empty()
}

// The walk 9@2 2@2 2@t, and what counts as visited at its end.
fn goes_and_turns(rt: &impl Abort, alloc: Global, net: &Topology, hops: u16, visited: u64) {
    let [two, nine] = [NodeId::new(2), NodeId::new(9)];
    let mut packet = stamp(alloc, net, 1, PrefixId::new(0), nine, Some(Epoch::new(2)));
    assert!(rt; is(&packet, Mode::Stable, 2, hops, 0b100));
    packet.move_to(net, two);
    assert!(rt; is(&packet, Mode::Stable, 2, hops, 0b101));
    packet.turn(net, two);
    assert!(rt; is(&packet, Mode::Transient, 2, hops, visited));
}

// The walk 5@t where nothing was published, and the nodes that it visited.
fn is_off_at_once(rt: &impl Abort, alloc: Global, net: &Topology, hops: u16) {
    let packet = stamp(alloc, net, 2, PrefixId::new(0), NodeId::new(5), None);
    assert!(rt; is(&packet, Mode::Transient, 0, hops, 0b010));
    for node in [2, 5, 9, 7].as_slice() {
        assert!(rt; has_visited(net, packet.visited, NodeId::new(*node)) == (*node == 5));
    }
}

// Under backups all nodes of the walk count.
fn goes_under_backups(rt: &impl Abort, alloc: Global, net: &mut Topology) -> Result<(), Fail> {
    net.set_hops(3);
    net.set_scheme(Scheme::Backup)?;
    goes_and_turns(rt, alloc, net, 3, 0b101);
    Ok(())
}

#[test]
fn a_packet_carries_what_it_did(rt: HostRuntime) -> Result<(), Fail> {
    let mut net = line(rt.alloc())?;
    goes_and_turns(&rt, rt.alloc(), &net, 128, 0b001);
    is_off_at_once(&rt, rt.alloc(), &net, 128);
    goes_under_backups(&rt, rt.alloc(), &mut net)
}

// Nodes are added at the end, and removed at both ends.
fn change(nodes: &mut NodeList) -> Result<(), NoMemory> {
    nodes.replace(&[NodeId::new(1), NodeId::new(2)])?;
    nodes.push(NodeId::new(3))?;
    nodes.drop_last();
    nodes.push(NodeId::new(4))?;
    nodes.drop_first();
    Ok(())
}

#[test]
fn lists_are_changed_at_both_ends(rt: HostRuntime) {
    let mut nodes = NodeList::new(Vec::new(rt.alloc()));
    nodes.drop_last();
    nodes.drop_first();
    assert!(rt; change(&mut nodes) == Ok(()));
    assert!(rt; nodes.last() == Some(NodeId::new(4)));
    assert!(rt; nodes.into_vec().as_slice() == [NodeId::new(2), NodeId::new(4)].as_slice());
}
