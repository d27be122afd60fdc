//! The elements of lists, read and written one after another.
ghost use Rattle.std.specs.Prelude.{◌≡◌, ◌++◌, ◌-◌, ◌^◌, OnOk, IfOk, IsTrue, length, min};
ghost use Rattle.std.specs.List.{flat_map};
ghost use Rattle.wire_frames.specs.Shown.{Gives};
ghost use Rattle.wire_frames.specs.Formats.{Series, stepped, reached, skipped, many_at, many_fit, listed};
ghost use Rattle.wire_frames.specs.Counts.{counted, IsWithin, PassesList};
ghost use Rattle.wire_frames.specs.Fields.{items, in_any_order, rising, rising_triggers, rows, session_rows, paths_in_order};

use crate::FrameKind;
use crate::counts::Count;
use crate::faults::ReadError;
use crate::fitting::*;
use crate::layouts::Layout;
use crate::parts::OneTrigger;
use crate::plain::{first_of, is_alone};
use crate::reading::Fields;
use crate::sent_runs::{SentRun, fit_items, length_items, put_items};
use crate::writing::*;
use incomplete_closure::{Row, SessionRow};
use std::alloc::Global;
use topology::{NoMemory, NodeId, Path, Sent, SentItems, SentRef, Session, Trigger, Triggers};

/// Elements of one sort. The state holds what must be known of the elements before.
pub(crate) trait Run {
    type State;

    type Item: Drop;

    ghost series: { Series Self.State Self.Item };

    /// Skips one element. Takes no memory.
    fn skip(state: &mut Self::State, fields: &mut Fields<'_>) -> Result<(), FrameKind>
        ensures { Gives (λ _. (state.new, fields.new)) result
            (stepped series state.old fields.old) };

    /// Reads one element into memory.
    fn read(
        state: &mut Self::State,
        alloc: Global,
        fields: &mut Fields<'_>,
    ) -> Result<Self::Item, ReadError>
        ensures read { IfOk result (λ x. (series.at state.old).reads fields.old
            ≡ Ok (x, fields.new)) }
        ensures step { IfOk result (λ x. state.new ≡ series.step state.old x) };
}

/// Elements that stand in slices.
pub(crate) trait Told: Run {
    /// Whether the element has a spelling after those before it. Takes no memory.
    fn fits(state: &mut Self::State, item: &Self::Item) -> bool
        ensures fits { result ≡ (Self.series.at state.old).fits item.now }
        ensures step { IsTrue result → state.new ≡ Self.series.step state.old item.now };

    /// Writes one element at the end.
    fn write(item: &Self::Item, out: &mut Vec<u8>) -> Result<(), NoMemory>
        ensures { OnOk result (out.new.items ≡ out.old.items ++ Self.series.spells item.now) };
}

/// Elements whose lengths can be added up.
pub(crate) trait Measured: Told {
    /// The number of bytes of the element, up to the highest number.
    fn length(item: &Self::Item) -> usize
        ensures { result ≡ min (length (Self.series.spells item.now)) (2 ^ 64 - 1) };
}

// Reads `count` elements into memory.
fn read_many<R: Run>(
    state: &mut R::State,
    alloc: Global,
    count: u16,
    fields: &mut Fields<'_>,
) -> Result<Vec<R::Item>, ReadError>
    ensures read { IfOk result (λ list. many_at R.series state.old count fields.old
        ≡ Ok (list.items, fields.new)) }
    ensures reached { IfOk result (λ list. state.new ≡ reached R.series state.old list.items) }
{
    let mut list = Vec::new(alloc);
    for _ in 0..count {
        let item = R::read(state, alloc, fields)?;
        list.push(item)?;
    }
    Ok(list)
}

// Whether the elements have a spelling, one after another. Takes no memory.
fn fit_many<R: Told>(state: &mut R::State, items: &[R::Item]) -> bool
    ensures fits { result ≡ many_fit R.series state.old items.now }
    ensures reached { IsTrue result → state.new ≡ reached R.series state.old items.now }
{
    for item in items {
        if !R::fits(state, item) {
            return false;
        }
    }
    true
}

// Writes the elements at the end, one after another.
fn write_many<R: Told>(items: &[R::Item], out: &mut Vec<u8>) -> Result<(), NoMemory>
    ensures { OnOk result (out.new.items ≡ out.old.items ++ flat_map R.series.spells items.now) }
{
    for item in items {
        R::write(item, out)?;
    }
    Ok(())
}

/// The number of bytes of the elements, up to the highest number.
pub(crate) fn length_many<R: Measured>(items: &[R::Item]) -> usize
    ensures { result ≡ min (length (flat_map R.series.spells items.now)) (2 ^ 64 - 1) }
{
    let mut total: usize = 0;
    for item in items {
        total = total.saturating_add(R::length(item));
    }
    total
}

// Skips `count` elements. Takes no memory.
#[inline(always)]
fn skip_many<R: Run>(
    state: &mut R::State,
    count: u16,
    fields: &mut Fields<'_>,
) -> Result<(), FrameKind>
    ensures { Gives (λ _. (state.new, fields.new)) result
        (skipped R.series state.old count fields.old) }
{
    for _ in 0..count {
        R::skip(state, fields)?;
    }
    Ok(())
}

/// Skips a list. Returns how many elements it has. Takes no memory.
#[inline(always)]
pub(crate) fn skip_list<R: Run>(
    count: Count,
    state: &mut R::State,
    fields: &mut Fields<'_>,
) -> Result<u16, FrameKind>
    ensures list { PassesList (counted count) R.series state.old fields.old result state.new fields.new }
    ensures within { IfOk result (λ n. IsWithin count n) }
{
    let number = count.read(fields)?;
    skip_many::<R>(state, number, fields)?;
    Ok(number)
}

/// Reads a list into memory.
#[inline(always)]
pub(crate) fn read_list<R: Run>(
    count: Count,
    state: &mut R::State,
    alloc: Global,
    fields: &mut Fields<'_>,
) -> Result<Vec<R::Item>, ReadError>
    ensures read { IfOk result (λ list. (listed (counted count) R.series state.old).reads fields.old
        ≡ Ok (list.items, fields.new)) }
    ensures reached { IfOk result (λ list. state.new ≡ reached R.series state.old list.items) }
    ensures within { IfOk result (λ list. IsWithin count (length list.items)) }
{
    let number = count.read(fields)?;
    let list = read_many::<R>(state, alloc, number, fields)?;
    Ok(list)
}

/// Whether the list has a spelling. Takes no memory.
pub(crate) fn fit_list<R: Told>(count: Count, state: &mut R::State, list: &[R::Item]) -> bool
    ensures fits { result ≡ (listed (counted count) R.series state.old).fits list.now }
    ensures reached { IsTrue result → state.new ≡ reached R.series state.old list.now }
    ensures within { IsTrue result → IsWithin count (length list.now) }
{
    count.allows(list.len()) && fit_many::<R>(state, list)
}

/// Writes the list at the end.
pub(crate) fn put_list<R: Told>(
    count: Count,
    list: &[R::Item],
    out: &mut Vec<u8>,
) -> Result<(), NoMemory>
    ensures { OnOk result (out.new.items ≡ out.old.items
        ++ ((counted count).spells (length list.now) ++ flat_map R.series.spells list.now)) }
{
    count.put(list.len(), out)?;
    write_many::<R>(list, out)
}

/// Nodes in any order. The state says nothing.
pub(crate) struct AnyOrder;

impl Run for AnyOrder {
    type State = u8;

    type Item = NodeId;

    ghost series = { in_any_order };

    fn skip(_state: &mut u8, fields: &mut Fields<'_>) -> Result<(), FrameKind> {
        fields.node()?;
        Ok(())
    }

    fn read(_state: &mut u8, _: Global, fields: &mut Fields<'_>) -> Result<NodeId, ReadError> {
        Ok(fields.node()?)
    }
}

impl Told for AnyOrder {
    fn fits(_state: &mut u8, item: &NodeId) -> bool {
        node_fits(*item)
    }

    fn write(item: &NodeId, out: &mut Vec<u8>) -> Result<(), NoMemory> {
        put_node(out, *item)
    }
}

/// Nodes in strictly ascending order. The state is the last node.
pub(crate) struct Rising;

impl Run for Rising {
    type State = NodeId;

    type Item = NodeId;

    ghost series = { rising };

    fn skip(state: &mut NodeId, fields: &mut Fields<'_>) -> Result<(), FrameKind> {
        let node = fields.node()?;
        if node <= *state {
            return Err(FrameKind::Order);
        }
        *state = node;
        Ok(())
    }

    fn read(state: &mut NodeId, _: Global, fields: &mut Fields<'_>) -> Result<NodeId, ReadError> {
        let node = fields.node()?;
        if node <= *state {
            return Err(ReadError::Bad(FrameKind::Order));
        }
        *state = node;
        Ok(node)
    }
}

impl Told for Rising {
    fn fits(state: &mut NodeId, item: &NodeId) -> bool {
        if !node_fits(*item) || *item <= *state {
            return false;
        }
        *state = *item;
        true
    }

    fn write(item: &NodeId, out: &mut Vec<u8>) -> Result<(), NoMemory> {
        put_node(out, *item)
    }
}

/// Triggers in strictly ascending order. The state is the last trigger.
pub(crate) struct RisingTriggers;

impl Run for RisingTriggers {
    type State = Trigger;

    type Item = Trigger;

    ghost series = { rising_triggers };

    fn skip(state: &mut Trigger, fields: &mut Fields<'_>) -> Result<(), FrameKind> {
        let Trigger { node, count } = fields.trigger()?;
        if !state.is_earlier(Trigger { node, count }) {
            return Err(FrameKind::Order);
        }
        *state = Trigger { node, count };
        Ok(())
    }

    fn read(state: &mut Trigger, _: Global, fields: &mut Fields<'_>) -> Result<Trigger, ReadError> {
        let Trigger { node, count } = fields.trigger()?;
        if !state.is_earlier(Trigger { node, count }) {
            return Err(ReadError::Bad(FrameKind::Order));
        }
        *state = Trigger { node, count };
        Ok(Trigger { node, count })
    }
}

impl Told for RisingTriggers {
    fn fits(state: &mut Trigger, item: &Trigger) -> bool {
        let Trigger { node, count } = *item;
        if !trigger_fits(Trigger { node, count }) || !state.is_earlier(Trigger { node, count }) {
            return false;
        }
        *state = Trigger { node, count };
        true
    }

    fn write(item: &Trigger, out: &mut Vec<u8>) -> Result<(), NoMemory> {
        put_trigger(out, *item)
    }
}

impl Measured for RisingTriggers {
    #[tactic(auto, using(crate::proofs::Short::trigger_wide))]
    fn length(_item: &Trigger) -> usize {
        6
    }
}

/// Items of an entry that lists one trigger, each of which lists exactly this trigger. The state is the trigger.
pub(crate) struct Items;

impl Run for Items {
    type State = Trigger;

    type Item = Sent;

    ghost series = { items };

    fn skip(state: &mut Trigger, fields: &mut Fields<'_>) -> Result<(), FrameKind> {
        fields.sent(*state)?;
        Ok(())
    }

    fn read(state: &mut Trigger, _: Global, fields: &mut Fields<'_>) -> Result<Sent, ReadError> {
        Ok(fields.sent(*state)?)
    }
}

impl SentRun for Items {
    ghost lent = { items };

    #[tactic(auto, unfolding(crate::specs::Fields::sent))]
    fn fits(state: &mut Trigger, item: &SentRef<'_>) -> bool {
        is_alone(item.triggers, *state)
            && node_fits(item.to)
            && session_fits(item.session)
            && positive_fits(item.seq)
    }

    #[tactic(auto, unfolding(crate::specs::Fields::sent))]
    fn write(item: &SentRef<'_>, out: &mut Vec<u8>) -> Result<(), NoMemory> {
        put_node(out, item.to)?;
        put_session(out, item.session)?;
        put_positive(out, item.seq)
    }

    #[tactic(auto, using(crate::proofs::Short::item_wide))]
    fn length(item: &SentRef<'_>) -> usize {
        let _to = item.to;
        10
    }
}

/// The rows of a report. The state is the number of items so far.
pub(crate) struct ReportRows;

impl Measured for ReportRows {
    #[tactic(auto, using(crate::proofs::Short::row_wide))]
    fn length(item: &Row) -> usize {
        length_items::<Items>(&item.sent).saturating_add(10)
    }
}

impl Run for ReportRows {
    type State = u32;

    type Item = Row;

    ghost series = { rows };

    #[tactic(auto, unfolding(crate::specs::Fields::row))]
    fn skip(state: &mut u32, fields: &mut Fields<'_>) -> Result<(), FrameKind> {
        let mut trigger = fields.trigger()?;
        fields.scope()?;
        let more = Count::Items(*state);
        let count = skip_list::<Items>(more, &mut trigger, fields)?;
        *state += count as u32;
        Ok(())
    }

    #[tactic(auto, unfolding(crate::specs::Fields::row))]
    fn read(state: &mut u32, alloc: Global, fields: &mut Fields<'_>) -> Result<Row, ReadError> {
        let trigger = fields.trigger()?;
        let scope = fields.scope()?;
        let mut each = trigger;
        let more = Count::Items(*state);
        let sent = read_list::<Items>(more, &mut each, alloc, fields)?;
        *state += sent.len() as u32;
        Ok(Row {
            triggers: Triggers::one(trigger),
            scope,
            sent: SentItems::of(alloc, &sent)?,
        })
    }
}

impl Told for ReportRows {
    #[tactic(auto, unfolding(crate::specs::Fields::row, crate::specs::Fields::one_trigger))]
    fn fits(state: &mut u32, item: &Row) -> bool {
        if !OneTrigger::fits(&item.triggers) || !scope_fits(item.scope) {
            return false;
        }
        let mut trigger = first_of(&item.triggers);
        if !fit_items::<Items>(&mut trigger, &item.sent, *state) {
            return false;
        }
        *state += item.sent.len() as u32;
        true
    }

    #[tactic(auto, unfolding(crate::specs::Fields::row, crate::specs::Fields::more_items))]
    fn write(item: &Row, out: &mut Vec<u8>) -> Result<(), NoMemory> {
        put_trigger(out, first_of(&item.triggers))?;
        put_scope(out, item.scope)?;
        put_items::<Items>(&item.sent, out)
    }
}

/// The session rows of a report, in strictly ascending order. The state is the neighbour and the session of the last row.
pub(crate) struct ReportSessions;

impl Measured for ReportSessions {
    fn length(item: &SessionRow) -> usize {
        match item.down {
            None => 11,
            Some(_) => 17,
        }
    }
}

impl Run for ReportSessions {
    type State = (NodeId, Session);

    type Item = SessionRow;

    ghost series = { session_rows };

    #[tactic(auto, unfolding(crate::specs::Fields::session_row))]
    fn skip(state: &mut (NodeId, Session), fields: &mut Fields<'_>) -> Result<(), FrameKind> {
        let (nbr, session) = fields.session_key(state.0, state.1)?;
        fields.any32()?;
        fields.optional_trigger()?;
        state.0 = nbr;
        state.1 = session;
        Ok(())
    }

    #[tactic(auto, unfolding(crate::specs::Fields::session_row))]
    fn read(
        state: &mut (NodeId, Session),
        _: Global,
        fields: &mut Fields<'_>,
    ) -> Result<SessionRow, ReadError> {
        let (nbr, session) = fields.session_key(state.0, state.1)?;
        let received = fields.any32()?;
        let down = fields.optional_trigger()?;
        state.0 = nbr;
        state.1 = session;
        Ok(SessionRow {
            nbr,
            session,
            received,
            down,
        })
    }
}

impl Told for ReportSessions {
    #[tactic(auto, unfolding(crate::specs::Fields::session_row))]
    fn fits(state: &mut (NodeId, Session), item: &SessionRow) -> bool {
        if !session_key_fits(item.nbr, item.session, state.0, state.1) {
            return false;
        }
        *state = (item.nbr, item.session);
        any32_fits(item.received) && down_fits(item.down)
    }

    #[tactic(auto, unfolding(crate::specs::Fields::session_row))]
    fn write(item: &SessionRow, out: &mut Vec<u8>) -> Result<(), NoMemory> {
        put_node(out, item.nbr)?;
        put_session(out, item.session)?;
        put_any32(out, item.received)?;
        put_down(out, item.down)
    }
}

/// Paths, each of which may be none. The state says nothing.
pub(crate) struct PathRun;

impl Run for PathRun {
    type State = u8;

    type Item = Option<Path>;

    ghost series = { paths_in_order };

    fn skip(_state: &mut u8, fields: &mut Fields<'_>) -> Result<(), FrameKind> {
        <Option<Path>>::skip(fields)
    }

    fn read(
        _state: &mut u8,
        alloc: Global,
        fields: &mut Fields<'_>,
    ) -> Result<Option<Path>, ReadError> {
        <Option<Path>>::read(alloc, fields)
    }
}

impl Told for PathRun {
    fn fits(_state: &mut u8, item: &Option<Path>) -> bool {
        <Option<Path>>::fits(item)
    }

    fn write(item: &Option<Path>, out: &mut Vec<u8>) -> Result<(), NoMemory> {
        <Option<Path>>::put(item, out)
    }
}
