//! Calls of `transient_mode`: where a packet off the stable tables goes.
use super::making::{network, paths};
use epoch_packet::{End, Packet, stamp};
use std::alloc::Global;
use std::process::Abort;
use std::test::Fail;
use topology::{NoMemory, NodeId, Path, PrefixId, Scheme, Topology};
use transient_mode::{Move, View, transient_hop};

// The nodes 1 to 4; a packet has three moves under this scheme.
fn three_moves(alloc: Global, scheme: Scheme) -> Result<Box<Topology>, Fail> {
    let mut net = network(alloc, &[1, 2, 3, 4], &[], 0)?;
    net.set_hops(3);
    net.set_scheme(scheme)?;
    Ok(net)
}

// A packet that is off the tables at node 1.
fn packet_at_one(alloc: Global, net: &Topology) -> Packet {
    stamp(alloc, net, 1, PrefixId::new(0), NodeId::new(1), None)
}

// The view of a node that is no origin and published nothing.
fn sees<'a>(at: u16, order: &'a [NodeId], up: &'a [NodeId]) -> View<'a> {
    View {
        at: NodeId::new(at),
        owns: false,
        order,
        up,
        stable: None,
        backups: &[],
    }
}

// The view of node 1, which published these backups.
fn sees_backups<'a>(up: &'a [NodeId], backups: &'a [Path]) -> View<'a> {
    View {
        at: NodeId::new(1),
        owns: false,
        order: &[],
        up,
        stable: None,
        backups,
    }
}

// The packet after a hop to a node.
fn goes(
    rt: &impl Abort,
    net: &Topology,
    packet: Packet,
    view: View<'_>,
    node: u16,
) -> Result<Packet, NoMemory> {
    let (packet, to) = transient_hop(net, packet, view)?;
    assert!(rt; to == Move::Next(NodeId::new(node)));
    Ok(packet)
}

// The packet after a hop that is its last.
fn ends(
    rt: &impl Abort,
    net: &Topology,
    packet: Packet,
    view: View<'_>,
    end: End,
) -> Result<Packet, NoMemory> {
    let (packet, to) = transient_hop(net, packet, view)?;
    assert!(rt; to == Move::Ended(end));
    Ok(packet)
}

// How many moves are left, which nodes were visited, and the last node of the way back.
fn is(packet: &Packet, budget: u16, visited: u64, last: Option<u16>) -> bool {
    packet.budget == budget
        && packet.visited == visited
        && packet.trail.last() == last.map(|node| NodeId::new(node))
}

// 1@t 3@t 1@t 2@t: the better neighbour first, back from there, and then the other one.
fn is_deflected(rt: &impl Abort, net: &Topology, packet: Packet) -> Result<Packet, NoMemory> {
    let [one, two, three] = [NodeId::new(1), NodeId::new(2), NodeId::new(3)];
    let (order, up, back) = ([three, two], [two, three], [one]);
    let packet = goes(rt, net, packet, sees(1, &order, &up), 3)?;
    assert!(rt; is(&packet, 2, 0b101, Some(1)));
    // the link to 2 is down, and 1 was visited
    let packet = goes(rt, net, packet, sees(3, &up, &back), 1)?;
    assert!(rt; is(&packet, 1, 0b101, None));
    goes(rt, net, packet, sees(1, &order, &up), 2)
}

// No move is left at node 2. There the packet has expired, but at an origin it is delivered.
fn is_at_its_end(rt: &impl Abort, net: &Topology, packet: Packet) -> Result<(), NoMemory> {
    let back = [NodeId::new(1)];
    let packet = ends(rt, net, packet, sees(2, &back, &back), End::Expired)?;
    assert!(rt; is(&packet, 0, 0b111, Some(1)));
    let mut origin = sees(2, &back, &back);
    origin.owns = true;
    ends(rt, net, packet, origin, End::Delivered)?;
    Ok(())
}

fn ends_at_two(rt: &impl Abort, net: &Topology, packet: Packet) -> Result<(), NoMemory> {
    let packet = is_deflected(rt, net, packet)?;
    is_at_its_end(rt, net, packet)
}

#[test]
fn a_deflected_packet_goes_on_and_back(rt: HostRuntime) -> Result<(), Fail> {
    let net = three_moves(rt.alloc(), Scheme::Deflect)?;
    ends_at_two(&rt, &net, packet_at_one(rt.alloc(), &net))?;
    Ok(())
}

// 1@t 3@t 4@t by 3, which published the path 3 4 2. At 4 the link to 2 is down.
fn makes_a_detour(rt: &impl Abort, net: &Topology, packet: Packet) -> Result<(), NoMemory> {
    let [two, three, four] = [NodeId::new(2), NodeId::new(3), NodeId::new(4)];
    let (only_three, only_four, path) = ([three], [four], [three, four, two]);
    let packet = goes(rt, net, packet, sees(1, &only_three, &only_three), 3)?;
    let mut here = sees(3, &[], &only_four);
    here.stable = Some(&path);
    let packet = goes(rt, net, packet, here, 4)?;
    assert!(rt; is(&packet, 1, 0b1101, Some(1)) && packet.reached);
    let packet = ends(
        rt,
        net,
        packet,
        sees(4, &only_three, &only_three),
        End::Stuck,
    )?;
    assert!(rt; packet.route.as_slice() == [two].as_slice());
    Ok(())
}

#[test]
fn a_detour_follows_the_path_of_its_node(rt: HostRuntime) -> Result<(), Fail> {
    let net = three_moves(rt.alloc(), Scheme::Detour(NodeId::new(3)))?;
    makes_a_detour(&rt, &net, packet_at_one(rt.alloc(), &net))?;
    Ok(())
}

// 1@t 3@t 4@t: it takes the backup 1 3 4 2, because the link to 2 is down, and goes along it.
fn goes_by_backup(
    rt: &impl Abort,
    net: &Topology,
    backups: &[Path],
    packet: Packet,
) -> Result<(), NoMemory> {
    let (only_three, only_four) = ([NodeId::new(3)], [NodeId::new(4)]);
    let packet = goes(rt, net, packet, sees_backups(&only_three, backups), 3)?;
    let packet = goes(rt, net, packet, sees(3, &[], &only_four), 4)?;
    assert!(rt; is(&packet, 1, 0b1101, None));
    let packet = ends(rt, net, packet, sees(4, &[], &only_three), End::Stuck)?;
    assert!(rt; packet.route.as_slice() == [NodeId::new(2)].as_slice());
    Ok(())
}

fn takes_a_backup(rt: &impl Abort, alloc: Global, net: &Topology) -> Result<(), Fail> {
    let backups = paths(alloc, &[&[1, 2, 4], &[1, 3, 4, 2]])?;
    goes_by_backup(rt, net, &backups, packet_at_one(alloc, net))?;
    Ok(())
}

#[test]
fn a_packet_takes_a_backup_and_follows_it(rt: HostRuntime) -> Result<(), Fail> {
    let net = three_moves(rt.alloc(), Scheme::Backup)?;
    takes_a_backup(&rt, rt.alloc(), &net)
}
