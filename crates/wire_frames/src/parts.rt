//! The layouts of the parts of frames, but for reports.
ghost use Rattle.std.specs.Prelude.{◌≡◌, ◌≤◌, ◌+◌, ◌++◌, [], List, IfOk, OnOk, length, true};
ghost use Rattle.std.specs.List.{flat_map};
ghost use Rattle.std.specs.Int.{w16, to_be_bytes};
ghost use Rattle.topology.specs.declared.limits.TheConstants.{MOST_MARKS};
ghost use Rattle.topology.specs.declared.names.Trigger.{Trigger as AnyTrigger};
ghost use Rattle.wire_frames.specs.Shown.{Gives, PassesAs};
ghost use Rattle.wire_frames.specs.Formats.{passed, listed, reached, many_at, many_fit};
ghost use Rattle.wire_frames.specs.Counts.{counted, IsWithin};
ghost use Rattle.wire_frames.specs.Fields.{different, rising_triggers, no_trigger, trigger, is_one, named, path, paths, nodes, links, one_trigger, value, carried, packet};
ghost use Rattle.wire_frames.specs.Listing.{triggers, triggers_fit, spelled_triggers, update_version, only_of};

use crate::FrameKind;
use crate::counts::Count;
use crate::faults::ReadError;
use crate::fitting::*;
use crate::layouts::{Layout, owned};
use crate::paths::Paths;
use crate::plain::{first_of, no_trigger};
use crate::reading::Fields;
use crate::series::{
    AnyOrder, PathRun, Rising, RisingTriggers, fit_list, put_list, read_list, skip_list,
};
use crate::writing::*;
use epoch_packet::{NodeList, Packet};
use incomplete_closure::{RespondingNodes, Value};
use std::alloc::Global;
use topology::limits::{MOST_NODES, MOST_PREFIXES, MOST_TRAIL, MOST_TRIGGERS};
use topology::{Ballot, NoMemory, NodeId, Path, Trigger, Triggers};

// Skips `count` different nodes.
fn skip_different(count: u16, fields: &mut Fields<'_>) -> Result<(), FrameKind>
    requires { count ≤ MOST_NODES }
    ensures { Gives (λ _. fields.new) result (passed different [] count fields.old) }
{
    let mut seen = [NodeId::new(0); MOST_NODES];
    for i in 0..count {
        let node = fields.node()?;
        let place = i as usize;
        if seen[..place].contains(&node) {
            return Err(FrameKind::Order);
        }
        seen[place] = node;
    }
    Ok(())
}

// Reads `count` different nodes.
fn read_different(
    alloc: Global,
    count: u16,
    fields: &mut Fields<'_>,
) -> Result<Vec<NodeId>, ReadError>
    ensures { IfOk result (λ list. many_at different [] count fields.old
        ≡ Ok (list.items, fields.new)) }
{
    let mut list = Vec::new(alloc);
    for _ in 0..count {
        let node = fields.node()?;
        if list.contains(&node) {
            return Err(ReadError::Bad(FrameKind::Order));
        }
        list.push(node)?;
    }
    Ok(list)
}

// Whether all numbers are those of nodes, and none occurs twice.
fn different_fit(list: &[NodeId]) -> bool
    ensures { result ≡ many_fit different [] list.now }
{
    for (place, node) in list.iter().enumerate() {
        if !node_fits(*node) || list[..place].contains(node) {
            return false;
        }
    }
    true
}

/// A path, or none.
#[tactic(auto, unfolding(crate::specs::Fields::path, crate::specs::Fields::few))]
impl Layout for Option<Path> {
    type Value = Option<Path>;

    ghost format = { path };

    fn skip(fields: &mut Fields<'_>) -> Result<(), FrameKind> {
        let count = Count::Few(MOST_NODES).read(fields)?;
        skip_different(count, fields)
    }

    fn read(alloc: Global, fields: &mut Fields<'_>) -> Result<Option<Path>, ReadError> {
        let count = Count::Few(MOST_NODES).read(fields)?;
        let list = read_different(alloc, count, fields)?;
        Ok(Path::new(list)?)
    }

    fn fits(way: &Option<Path>) -> bool {
        match way {
            None => true,
            Some(way) => {
                let list = way.nodes();
                Count::Few(MOST_NODES).allows(list.len()) && different_fit(list)
            }
        }
    }

    fn put(way: &Option<Path>, out: &mut Vec<u8>) -> Result<(), NoMemory> {
        match way {
            None => Count::Few(MOST_NODES).put(0, out),
            Some(way) => put_list::<AnyOrder>(Count::Few(MOST_NODES), way.nodes(), out),
        }
    }

    #[tactic(auto, using(crate::proofs::Fields::path_law))]
    fn is_format() {}
}

#[tactic(auto, unfolding(crate::specs::Fields::paths))]
impl Layout for Paths {
    type Value = Paths;

    ghost format = { paths };

    fn skip(fields: &mut Fields<'_>) -> Result<(), FrameKind> {
        skip_list::<PathRun>(Count::Many(MOST_PREFIXES as u32), &mut 0, fields)?;
        Ok(())
    }

    fn read(alloc: Global, fields: &mut Fields<'_>) -> Result<Paths, ReadError> {
        let count = Count::Many(MOST_PREFIXES as u32);
        Ok(Paths::new(read_list::<PathRun>(count, &mut 0, alloc, fields)?))
    }

    fn fits(table: &Paths) -> bool {
        fit_list::<PathRun>(Count::Many(MOST_PREFIXES as u32), &mut 0, table.as_slice())
    }

    fn put(table: &Paths, out: &mut Vec<u8>) -> Result<(), NoMemory> {
        put_list::<PathRun>(Count::Many(MOST_PREFIXES as u32), table.as_slice(), out)
    }

    #[tactic(auto, using(crate::proofs::Fields::paths_law))]
    fn is_format() {}
}

/// The nodes that a packet carries.
pub(crate) struct Nodes;

#[tactic(auto, unfolding(crate::specs::Fields::nodes))]
impl Layout for Nodes {
    type Value = NodeList;

    ghost format = { nodes };

    fn skip(fields: &mut Fields<'_>) -> Result<(), FrameKind> {
        skip_list::<AnyOrder>(Count::Few(MOST_TRAIL), &mut 0, fields)?;
        Ok(())
    }

    fn read(alloc: Global, fields: &mut Fields<'_>) -> Result<NodeList, ReadError> {
        let list = read_list::<AnyOrder>(Count::Few(MOST_TRAIL), &mut 0, alloc, fields)?;
        Ok(NodeList::new(list))
    }

    fn fits(list: &NodeList) -> bool {
        fit_list::<AnyOrder>(Count::Few(MOST_TRAIL), &mut 0, list.as_slice())
    }

    fn put(list: &NodeList, out: &mut Vec<u8>) -> Result<(), NoMemory> {
        put_list::<AnyOrder>(Count::Few(MOST_TRAIL), list.as_slice(), out)
    }

    #[tactic(auto, using(crate::proofs::Fields::nodes_law))]
    fn is_format() {}
}

/// The neighbours whose link is up.
pub(crate) struct Links;

#[tactic(auto, unfolding(crate::specs::Fields::links))]
impl Layout for Links {
    type Value = NodeList;

    ghost format = { links };

    fn skip(fields: &mut Fields<'_>) -> Result<(), FrameKind> {
        skip_list::<Rising>(Count::Few(63), &mut NodeId::new(0), fields)?;
        Ok(())
    }

    fn read(alloc: Global, fields: &mut Fields<'_>) -> Result<NodeList, ReadError> {
        let list = read_list::<Rising>(Count::Few(63), &mut NodeId::new(0), alloc, fields)?;
        Ok(NodeList::new(list))
    }

    fn fits(list: &NodeList) -> bool {
        fit_list::<Rising>(Count::Few(63), &mut NodeId::new(0), list.as_slice())
    }

    fn put(list: &NodeList, out: &mut Vec<u8>) -> Result<(), NoMemory> {
        put_list::<Rising>(Count::Few(63), list.as_slice(), out)
    }

    #[tactic(auto, using(crate::proofs::Fields::links_law))]
    fn is_format() {}
}

/// The only trigger of an update.
pub(crate) struct OneTrigger;

#[tactic(auto, unfolding(crate::specs::Fields::one_trigger))]
impl Layout for OneTrigger {
    type Value = Triggers;

    ghost format = { one_trigger };

    fn skip(fields: &mut Fields<'_>) -> Result<(), FrameKind> {
        fields.trigger()?;
        Ok(())
    }

    fn read(_: Global, fields: &mut Fields<'_>) -> Result<Triggers, ReadError> {
        Ok(Triggers::one(fields.trigger()?))
    }

    fn fits(triggers: &Triggers) -> bool {
        match triggers.as_slice() {
            [trigger] => trigger_fits(*trigger),
            _ => false,
        }
    }

    fn put(triggers: &Triggers, out: &mut Vec<u8>) -> Result<(), NoMemory> {
        put_trigger(out, first_of(triggers))
    }

    #[tactic(auto, using(crate::proofs::Fields::one_trigger_law))]
    fn is_format() {}
}

// The trigger of a list if it has just one; `last` is the list's last trigger.
fn only_seen(count: u16, last: Trigger) -> Option<Trigger>
    ensures { (ts : List AnyTrigger) → length ts ≡ count
        → reached rising_triggers no_trigger ts ≡ last → result ≡ only_of ts }
{
    if count == 1 {
        return Some(last);
    }
    None
}

/// Skips a list of at least `low` triggers, after lists with `before` triggers in all. Returns how many it has, and
/// its trigger if it has just one.
pub(crate) fn skip_triggers(
    low: u16,
    before: u32,
    fields: &mut Fields<'_>,
) -> Result<(u32, Option<Trigger>), FrameKind>
    ensures list { PassesAs (λ ts. (length ts, only_of ts)) (triggers low before) fields.old result
        fields.new }
    ensures few { IfOk result (λ seen. before + seen.0 ≤ MOST_MARKS) }
{
    let mut last = no_trigger();
    let count = skip_list::<RisingTriggers>(Count::Triggers(low, before), &mut last, fields)?;
    Ok((count as u32, only_seen(count, last)))
}

/// Reads a list of triggers.
pub(crate) fn read_triggers(
    count: Count,
    alloc: Global,
    fields: &mut Fields<'_>,
) -> Result<Triggers, ReadError>
    ensures list { IfOk result (λ x. (listed (counted count) rising_triggers no_trigger).reads fields.old
        ≡ Ok (x, fields.new)) }
    ensures within { IfOk result (λ x. IsWithin count (length x)) }
{
    let list = read_list::<RisingTriggers>(count, &mut no_trigger(), alloc, fields)?;
    Ok(Triggers::from_ascending(list)?)
}

/// Writes a list of triggers at the end.
#[tactic(auto, unfolding(crate::specs::Fields::many))]
pub(crate) fn put_triggers(list: &[Trigger], out: &mut Vec<u8>) -> Result<(), NoMemory>
    ensures { OnOk result (out.new.items ≡ out.old.items
        ++ (to_be_bytes w16 (length list.now) ++ flat_map trigger.spells list.now)) }
{
    put_list::<RisingTriggers>(Count::Many(MOST_TRIGGERS), list, out)
}

/// The triggers of an update, which are two or more.
pub(crate) struct SeveralTriggers;

#[tactic(auto, unfolding(crate::specs::Listing::triggers, crate::specs::Listing::more_triggers))]
impl Layout for SeveralTriggers {
    type Value = Triggers;

    ghost format = { triggers 2 0 };

    fn skip(fields: &mut Fields<'_>) -> Result<(), FrameKind> {
        skip_triggers(2, 0, fields)?;
        Ok(())
    }

    fn read(alloc: Global, fields: &mut Fields<'_>) -> Result<Triggers, ReadError> {
        read_triggers(Count::Triggers(2, 0), alloc, fields)
    }

    fn fits(list: &Triggers) -> bool {
        let count = Count::Triggers(2, 0);
        fit_list::<RisingTriggers>(count, &mut no_trigger(), list.as_slice())
    }

    fn put(list: &Triggers, out: &mut Vec<u8>) -> Result<(), NoMemory> {
        put_triggers(list.as_slice(), out)
    }

    #[tactic(auto, using(crate::proofs::Listing::triggers_law))]
    fn is_format() {}
}

fn is_one(triggers: &Triggers) -> bool
    ensures { result ≡ is_one triggers.now }
{
    match triggers.as_slice() {
        [_] => true,
        _ => false,
    }
}

/// Whether the triggers may stand in an update.
pub(crate) fn update_triggers_fit(triggers: &Triggers) -> bool
    ensures { result ≡ triggers_fit triggers.now }
{
    if is_one(triggers) {
        return OneTrigger::fits(triggers);
    }
    SeveralTriggers::fits(triggers)
}

/// Writes the triggers of an update at the end.
pub(crate) fn put_update_triggers(triggers: &Triggers, out: &mut Vec<u8>) -> Result<(), NoMemory>
    ensures { OnOk result (out.new.items ≡ out.old.items ++ spelled_triggers triggers.now) }
{
    if is_one(triggers) {
        return OneTrigger::put(triggers, out);
    }
    SeveralTriggers::put(triggers, out)
}

/// The triggers of an update of this version that the part spells.
pub(crate) fn owned_triggers(alloc: Global, version: u8, part: &[u8]) -> Result<Triggers, ReadError>
    ensures { IfOk result (λ x. (ts : List AnyTrigger) → triggers_fit ts ≡ true → version
        ≡ update_version ts → part.now ≡ spelled_triggers ts → x ≡ ts) }
{
    if version == 1 {
        return owned::<OneTrigger>(alloc, part);
    }
    owned::<SeveralTriggers>(alloc, part)
}

#[tactic(auto, unfolding(crate::specs::Fields::value, crate::specs::Fields::many))]
impl Layout for Value {
    type Value = Value;

    ghost format = { value };

    fn skip(fields: &mut Fields<'_>) -> Result<(), FrameKind> {
        skip_list::<Rising>(Count::Few(MOST_NODES), &mut NodeId::new(0), fields)?;
        skip_list::<RisingTriggers>(Count::Many(MOST_TRIGGERS), &mut no_trigger(), fields)?;
        Ok(())
    }

    fn read(alloc: Global, fields: &mut Fields<'_>) -> Result<Value, ReadError> {
        let responding = read_list::<Rising>(
            Count::Few(MOST_NODES),
            &mut NodeId::new(0),
            alloc,
            fields,
        )?;
        let incomplete = read_triggers(Count::Many(MOST_TRIGGERS), alloc, fields)?;
        Ok(Value {
            responding: RespondingNodes::new(responding),
            incomplete,
        })
    }

    fn fits(agreed: &Value) -> bool {
        let responding = agreed.responding.as_slice();
        let incomplete = agreed.incomplete.as_slice();
        fit_list::<Rising>(Count::Few(MOST_NODES), &mut NodeId::new(0), responding)
            && fit_list::<RisingTriggers>(Count::Many(MOST_TRIGGERS), &mut no_trigger(), incomplete)
    }

    fn put(agreed: &Value, out: &mut Vec<u8>) -> Result<(), NoMemory> {
        put_list::<Rising>(Count::Few(MOST_NODES), agreed.responding.as_slice(), out)?;
        put_triggers(agreed.incomplete.as_slice(), out)
    }

    #[tactic(auto, using(crate::proofs::Fields::value_law))]
    fn is_format() {}
}

/// Whether the ballot and the value that a promise names, if any, have a spelling.
#[tactic(auto, unfolding(crate::specs::Fields::named))]
pub(crate) fn named_fits(accepted: &Option<(Ballot, Value)>) -> bool
    ensures { result ≡ named.fits accepted.now }
{
    match accepted {
        None => true,
        Some((attempt, agreed)) => ballot_fits(*attempt) && Value::fits(agreed),
    }
}

/// Writes the ballot and the value that a promise names, if any.
#[tactic(auto, unfolding(crate::specs::Fields::named))]
pub(crate) fn put_named(
    accepted: &Option<(Ballot, Value)>,
    out: &mut Vec<u8>,
) -> Result<(), NoMemory>
    ensures { OnOk result (out.new.items ≡ out.old.items ++ named.spells accepted.now) }
{
    match accepted {
        None => put_u8(out, 0),
        Some((attempt, agreed)) => {
            put_u8(out, 1)?;
            put_ballot(out, *attempt)?;
            Value::put(agreed, out)
        }
    }
}

// Whether what a packet carries after its mode has a spelling.
#[tactic(auto, unfolding(crate::specs::Fields::any16, crate::specs::Fields::any64, crate::specs::Fields::flag))]
fn carried_fits(of: &Packet) -> bool
    ensures { result ≡ carried.fits
        (of.now.budget, (of.now.reached, (of.now.visited, (of.now.trail, of.now.route)))) }
{
    let _budget = of.budget;
    let _visited = of.visited;
    Nodes::fits(&of.trail) && Nodes::fits(&of.route)
}

// Writes what a packet carries after its mode.
#[tactic(auto, unfolding(crate::specs::Fields::any16, crate::specs::Fields::any64))]
fn put_carried(of: &Packet, out: &mut Vec<u8>) -> Result<(), NoMemory>
    ensures { OnOk result (out.new.items ≡ out.old.items
        ++ carried.spells (of.now.budget, (of.now.reached, (of.now.visited, (of.now.trail, of.now.route))))) }
{
    put_u16(out, of.budget)?;
    put_flag(out, of.reached)?;
    put_u64(out, of.visited)?;
    Nodes::put(&of.trail, out)?;
    Nodes::put(&of.route, out)
}

#[tactic(auto, unfolding(crate::specs::Fields::packet))]
impl Layout for Packet {
    type Value = Packet;

    ghost format = { packet };

    fn skip(fields: &mut Fields<'_>) -> Result<(), FrameKind> {
        fields.positive()?;
        fields.prefix()?;
        fields.epoch_or_none()?;
        fields.mode()?;
        fields.any16()?;
        fields.flag()?;
        fields.any64()?;
        Nodes::skip(fields)?;
        Nodes::skip(fields)
    }

    fn read(alloc: Global, fields: &mut Fields<'_>) -> Result<Packet, ReadError> {
        Ok(Packet {
            id: fields.positive()?,
            prefix: fields.prefix()?,
            epoch: fields.epoch_or_none()?,
            mode: fields.mode()?,
            budget: fields.any16()?,
            reached: fields.flag()?,
            visited: fields.any64()?,
            trail: Nodes::read(alloc, fields)?,
            route: Nodes::read(alloc, fields)?,
        })
    }

    #[tactic(auto, unfolding(crate::specs::Fields::packet, crate::specs::Fields::mode))]
    fn fits(of: &Packet) -> bool {
        positive_fits(of.id)
            && prefix_fits(of.prefix)
            && epoch_or_none_fits(of.epoch)
            && carried_fits(of)
    }

    fn put(of: &Packet, out: &mut Vec<u8>) -> Result<(), NoMemory> {
        put_positive(out, of.id)?;
        put_prefix(out, of.prefix)?;
        put_epoch_or_none(out, of.epoch)?;
        put_mode(out, of.mode)?;
        put_carried(of, out)
    }

    #[tactic(auto, using(crate::proofs::Fields::packet_law))]
    fn is_format() {}
}
