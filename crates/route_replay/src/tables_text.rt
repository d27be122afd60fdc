//! The text of tables.
ghost use Rattle.std.specs.Prelude.{◌≡◌, ◌++◌, Some, None, option_map, IfErr, IfOk, OnOk};
ghost use Rattle.std.specs.String.{string_bytes};
ghost use Rattle.route_replay.specs.Gathering.{Gathers, Breaks, page_view};
ghost use Rattle.route_replay.specs.TablesText.{last_of, published_for, table_in, table_text, tables_text};
ghost use Rattle.route_replay.specs.Past.{past_of};

use crate::ends::RunEnd;
use crate::page::Page;
use path_vector::Policy;
use route_io::Sink;
use std::alloc::Global;
use topology::{Epoch, NoMemory, NodeId, PrefixId, Topology};
use view_words::table_names::TableNames;
use view_words::tables::{head_of, table_words, unpublished_words};
use world_core::{Publication, World};

// What was published for the epoch, the oldest first. The tables are shared.
fn published_in<P: Policy + Copy>(
    alloc: Global,
    world: &World<P>,
    epoch: Epoch,
) -> Result<Vec<Publication>, NoMemory>
    ensures { IfOk result (λ list. list.items ≡ published_for epoch (past_of (P.rules world.now.policy) world.now)) }
{
    let mut list = Vec::new(alloc);
    for publication in world.publications() {
        if publication.epoch() == epoch {
            list.push(publication.share()?)?;
        }
    }
    Ok(list)
}

// What the node published last of these.
fn last_of(publications: &[Publication], node: NodeId) -> Option<&Publication>
    ensures { option_map (λ publication. publication.now) result ≡ last_of node publications.now }
{
    let mut last = None;
    for publication in publications {
        if publication.node() == node {
            last = Some(publication);
        }
    }
    last
}

// Adds the line of a node that published no table of the epoch.
fn add_unpublished<O: Sink>(
    page: &mut Page<'_, String, O>,
    topology: &Topology,
    node: NodeId,
    epoch: Epoch,
) -> Result<(), RunEnd>
    ensures gathers { OnOk result (Gathers (page_view O.seen page.old) (page_view O.seen page.new)
        (table_text topology.now node epoch None)) }
    ensures breaks { IfErr result (Breaks (O.seen page.old.sink.now) (O.seen page.new.sink.now)
        (string_bytes page.old.text ++ table_text topology.now node epoch None)) }
    ensures same_sink { page.new.sink.ghost_name ≡ page.old.sink.ghost_name }
{
    unpublished_words(&mut page.text, node, epoch)?;
    page.spill()
}

// Adds the lines of the table of a node.
fn add_table<O: Sink>(
    page: &mut Page<'_, String, O>,
    alloc: Global,
    names: &TableNames<'_>,
    node: NodeId,
    publication: &Publication,
) -> Result<(), RunEnd>
    ensures gathers { OnOk result (Gathers (page_view O.seen page.old) (page_view O.seen page.new)
        (table_text names.now.topology.now node names.now.epoch (Some (table_in publication.now)))) }
    ensures breaks { IfErr result (Breaks (O.seen page.old.sink.now) (O.seen page.new.sink.now)
        (string_bytes page.old.text ++ table_text names.now.topology.now node names.now.epoch (Some (table_in publication.now)))) }
    ensures same_sink { page.new.sink.ghost_name ≡ page.old.sink.ghost_name }
{
    let head = head_of(alloc, node, names.epoch)?;
    for place in 0..names.topology.prefix_count() {
        let path = publication.path(PrefixId::new(place));
        table_words(&mut page.text, head.as_str(), names.name(place), path)?;
        page.spill()?;
    }
    Ok(())
}

// Adds the lines of a node.
fn one_table<O: Sink>(
    page: &mut Page<'_, String, O>,
    alloc: Global,
    names: &TableNames<'_>,
    publications: &[Publication],
    node: NodeId,
) -> Result<(), RunEnd>
    ensures gathers { OnOk result (Gathers (page_view O.seen page.old) (page_view O.seen page.new)
        (table_text names.now.topology.now node names.now.epoch (option_map table_in (last_of node publications.now)))) }
    ensures breaks { IfErr result (Breaks (O.seen page.old.sink.now) (O.seen page.new.sink.now)
        (string_bytes page.old.text
        ++ table_text names.now.topology.now node names.now.epoch (option_map table_in (last_of node publications.now)))) }
    ensures same_sink { page.new.sink.ghost_name ≡ page.old.sink.ghost_name }
{
    match last_of(publications, node) {
        None => add_unpublished(page, names.topology, node, names.epoch),
        Some(publication) => add_table(page, alloc, names, node, publication),
    }
}

// Adds the lines of all nodes, ascending, by what was published for the epoch.
#[tactic(auto, unfolding(crate::specs::TablesText::tables_text))]
fn all_tables<P: Policy + Copy, O: Sink>(
    page: &mut Page<'_, String, O>,
    alloc: Global,
    world: &World<P>,
    epoch: Epoch,
    publications: &[Publication],
) -> Result<(), RunEnd>
    requires { publications.now ≡ published_for epoch (past_of (P.rules world.now.policy) world.now) }
    ensures gathers { let past = past_of (P.rules world.now.policy) world.now in
        OnOk result (Gathers (page_view O.seen page.old) (page_view O.seen page.new)
        (tables_text world.now.net past epoch)) }
    ensures breaks { let past = past_of (P.rules world.now.policy) world.now in
        IfErr result (Breaks (O.seen page.old.sink.now) (O.seen page.new.sink.now)
        (string_bytes page.old.text ++ tables_text world.now.net past epoch)) }
    ensures same_sink { page.new.sink.ghost_name ≡ page.old.sink.ghost_name }
{
    let topology = world.topology();
    let names = TableNames::new(alloc, topology, epoch)?;
    for node in topology.nodes() {
        one_table(page, alloc, &names, publications, *node)?;
    }
    Ok(())
}

/// Adds the lines of all nodes, ascending: their tables of the epoch.
pub fn add_tables<P: Policy + Copy, O: Sink>(
    page: &mut Page<'_, String, O>,
    alloc: Global,
    world: &World<P>,
    epoch: Epoch,
) -> Result<(), RunEnd>
    ensures gathers { let past = past_of (P.rules world.now.policy) world.now in
        OnOk result (Gathers (page_view O.seen page.old) (page_view O.seen page.new)
        (tables_text world.now.net past epoch)) }
    ensures breaks { let past = past_of (P.rules world.now.policy) world.now in
        IfErr result (Breaks (O.seen page.old.sink.now) (O.seen page.new.sink.now)
        (string_bytes page.old.text ++ tables_text world.now.net past epoch)) }
    ensures same_sink { page.new.sink.ghost_name ≡ page.old.sink.ghost_name }
{
    let publications = published_in(alloc, world, epoch)?;
    all_tables(page, alloc, world, epoch, &publications)
}
