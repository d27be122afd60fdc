//! Writes a schedule as a file.
ghost use Rattle.std.specs.Prelude.{ℕ, ◌≡◌, List, ◌++◌, map, codes, decimal, IfOk, OnOk};
ghost use Rattle.std.specs.List.{flat_map};
ghost use Rattle.std.specs.String.{string_bytes};
ghost use Rattle.topology.specs.Lists.{ascending};
ghost use Rattle.topology.specs.Net.{neighbours};
ghost use Rattle.schedule_file.specs.Grammar.{IsFile};
ghost use Rattle.schedule_file.specs.Printing.{line_text, node_line, link_line, prefix_line, pref_line, hold_line, packet_lines, added, sorted_preferences, held, sorted_holds, prefix_at, prefixed, directive_line, network_lines, printed, IsFileAgain};

use crate::directives::{Directive, Rest};
use crate::lines::{Declaration, Line, Schedule};
use crate::spelling::push_line;
use std::alloc::{AllocError, Global};
use topology::{NoMemory, NodeId, Prefix, PrefixId, Topology};

// The nodes, in file order.
fn node_lines(out: &mut String, topology: &Topology) -> Result<(), AllocError>
    ensures { OnOk result (string_bytes out.new
        ≡ string_bytes out.old ++ flat_map line_text (map (node_line topology.now) topology.now.nodes)) }
{
    // brings in the invariant of the topology: at most 64
    let _few = topology.nodes();
    let mut place = 0;
    while let Some(node) = topology.node_at(place) {
        let (id, consolidator) = node;
        push_line(out, &Line::Declares(Declaration::Node { id, consolidator }))?;
        place += 1;
    }
    Ok(())
}

// The links, in file order.
fn link_lines(out: &mut String, topology: &Topology) -> Result<(), AllocError>
    ensures { OnOk result (string_bytes out.new
        ≡ string_bytes out.old ++ flat_map line_text (map link_line topology.now.links)) }
{
    // brings in the invariant of the topology: at most 512
    let _few = topology.nodes();
    let mut place = 0;
    while let Some(link) = topology.link_at(place) {
        let (a, b, relation) = link;
        push_line(out, &Line::Declares(Declaration::Link { a, b, relation }))?;
        place += 1;
    }
    Ok(())
}

// The prefixes, in file order.
fn prefix_lines(out: &mut String, topology: &Topology) -> Result<(), AllocError>
    ensures { OnOk result (string_bytes out.new
        ≡ string_bytes out.old ++ flat_map line_text (map prefix_line topology.now.prefixes)) }
{
    // brings in the invariant of the topology: at most 256
    let _few = topology.nodes();
    let mut place = 0;
    while let Some(prefix) = topology.prefix(PrefixId::new(place)) {
        push_line(out, &Line::Declares(Declaration::Prefix { prefix }))?;
        place += 1;
    }
    Ok(())
}

// The preference of `a` for `b`, if one was added.
fn added_line(out: &mut String, topology: &Topology, a: NodeId, b: NodeId) -> Result<(), AllocError>
    ensures { OnOk result (string_bytes out.new
        ≡ string_bytes out.old ++ flat_map line_text (map pref_line (added topology.now a b))) }
{
    match topology.added_pref(a, b) {
        Some(value) => push_line(out, &Line::Declares(Declaration::Pref { a, b, value })),
        None => Ok(()),
    }
}

// The preferences of one node, ascending by neighbour.
fn added_lines(out: &mut String, topology: &Topology, node: NodeId) -> Result<(), AllocError>
    ensures { OnOk result (string_bytes out.new ≡ string_bytes out.old
        ++ flat_map line_text (map pref_line (flat_map (added topology.now node) (neighbours topology.now node)))) }
{
    let nbrs = topology.neighbours(node);
    for nbr in nbrs {
        added_line(out, topology, node, *nbr)?;
    }
    Ok(())
}

// The preferences, ascending by node and then by neighbour.
fn pref_lines(out: &mut String, topology: &Topology) -> Result<(), AllocError>
    ensures { OnOk result (string_bytes out.new
        ≡ string_bytes out.old ++ flat_map line_text (map pref_line (sorted_preferences topology.now))) }
{
    let nodes = topology.nodes();
    for node in nodes {
        added_lines(out, topology, *node)?;
    }
    Ok(())
}

// The hold of `a` towards `b`, if there is one.
fn held_line(out: &mut String, topology: &Topology, a: NodeId, b: NodeId) -> Result<(), AllocError>
    ensures { OnOk result (string_bytes out.new
        ≡ string_bytes out.old ++ flat_map line_text (map hold_line (held topology.now a b))) }
{
    if topology.holds(a, b) {
        push_line(out, &Line::Declares(Declaration::Hold { a, b }))
    } else {
        Ok(())
    }
}

// The holds of one node, ascending by neighbour.
fn held_lines(out: &mut String, topology: &Topology, node: NodeId) -> Result<(), AllocError>
    ensures { OnOk result (string_bytes out.new ≡ string_bytes out.old
        ++ flat_map line_text (map hold_line (flat_map (held topology.now node) (neighbours topology.now node)))) }
{
    let nbrs = topology.neighbours(node);
    for nbr in nbrs {
        held_line(out, topology, node, *nbr)?;
    }
    Ok(())
}

// The holds, ascending by node and then by neighbour.
fn hold_lines(out: &mut String, topology: &Topology) -> Result<(), AllocError>
    ensures { OnOk result (string_bytes out.new
        ≡ string_bytes out.old ++ flat_map line_text (map hold_line (sorted_holds topology.now))) }
{
    let nodes = topology.nodes();
    for node in nodes {
        held_lines(out, topology, *node)?;
    }
    Ok(())
}

// The hop limit and the scheme for packets off the stable tables.
fn packet_lines(out: &mut String, topology: &Topology) -> Result<(), AllocError>
    ensures { OnOk result (string_bytes out.new
        ≡ string_bytes out.old ++ flat_map line_text (packet_lines topology.now)) }
{
    let hops = topology.hops();
    push_line(out, &Line::Declares(Declaration::Hops { hops }))?;
    let scheme = topology.scheme();
    push_line(out, &Line::Declares(Declaration::Transient { scheme }))
}

// The lines up to `begin`.
fn network_text(out: &mut String, topology: &Topology) -> Result<(), AllocError>
    ensures { OnOk result (string_bytes out.new
        ≡ string_bytes out.old ++ flat_map line_text (network_lines topology.now)) }
{
    node_lines(out, topology)?;
    link_lines(out, topology)?;
    prefix_lines(out, topology)?;
    pref_lines(out, topology)?;
    hold_lines(out, topology)?;
    packet_lines(out, topology)
}

// The prefix at a place. If there is none, the answer does not matter.
fn prefix_at(topology: &Topology, place: PrefixId) -> Prefix
    ensures { result ≡ prefix_at topology.now place }
{
    match topology.prefix(place) {
        Some(prefix) => prefix,
        None => Prefix { bits: 0, len: 0 },
    }
}

// The directive with the prefix itself.
fn prefixed(topology: &Topology, directive: &Directive) -> Directive<Prefix>
    ensures { result ≡ prefixed topology.now directive.now }
{
    let place = match directive.spelling() {
        (_, Rest::Origin(_, place) | Rest::Inject(_, _, place)) => place,
        // there is no prefix, and the place does not matter
        _ => PrefixId::new(0),
    };
    directive.with_prefix(prefix_at(topology, place))
}

// The lines after `begin`.
fn directive_lines(out: &mut String, schedule: &Schedule) -> Result<(), AllocError>
    ensures { OnOk result (string_bytes out.new ≡ string_bytes out.old
        ++ flat_map line_text (map (directive_line schedule.now.topology) schedule.now.lines.items)) }
{
    for numbered in &schedule.lines {
        let directive = prefixed(&schedule.topology, &numbered.directive);
        push_line(out, &Line::Directs(directive))?;
    }
    Ok(())
}

/// The schedule as a file, one line each: the nodes, links and prefixes in file order; the preferences and then the
/// holds, each by ascending node and neighbour; `hops` and `transient`, even if the file had no such line; `begin`; and
/// the directives. The result is a file of the same schedule, except for the line numbers.
pub fn print(alloc: Global, schedule: &Schedule) -> Result<Vec<u8>, NoMemory>
    ensures text { IfOk result (λ text. text.items ≡ printed schedule.now.topology schedule.now.lines.items) }
    // a schedule that was read is printed so that it is read back
    ensures again { (bytes : List ℕ) → IsFile bytes schedule.now
        → IfOk result (λ text. IsFileAgain text.items schedule.now) }
{
    // brings in the invariant of the topology
    let _valid = schedule.topology.nodes();
    let mut out = String::new(alloc);
    network_text(&mut out, &schedule.topology)?;
    push_line(&mut out, &Line::Begin)?;
    directive_lines(&mut out, schedule)?;
    Ok(out.into_bytes())
}
