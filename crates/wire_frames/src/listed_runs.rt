//! The items, rows and pending rows of reports whose lists may have any number of triggers.
ghost use Rattle.std.specs.Prelude.{◌≡◌, ◌+◌, ◌≤◌, List, length};
ghost use Rattle.topology.specs.declared.limits.TheConstants.{MOST_MARKS, MOST_UPDATES};
ghost use Rattle.topology.specs.declared.names.Trigger.{Trigger as AnyTrigger};
ghost use Rattle.wire_frames.specs.Listing.{begun, listed_items, no_rows, nothing_pending, only_of, with_row, listed_rows, pending_rows};

use crate::FrameKind;
use crate::counts::Count;
use crate::faults::ReadError;
use crate::fitting::*;
use crate::parts::{put_triggers, read_triggers, skip_triggers};
use crate::plain::{no_trigger, only_of, stands_alone};
use crate::reading::Fields;
use crate::sent_runs::{SentRun, fit_items, length_items, put_items};
use crate::series::{
    Measured, RisingTriggers, Run, Told, fit_list, length_many, read_list, skip_list,
};
use crate::writing::*;
use incomplete_closure::Row;
use std::alloc::Global;
use std::marker::Model;
use topology::{NoMemory, NodeId, Pending, PrefixId, Sent, SentItems, SentRef, Trigger};

/// What must be known while the items of a row are read: the only trigger of the row, if it has just one; how many
/// triggers the report has listed so far; and whether the row and the items so far list the same one trigger.
#[derive(Drop)]
pub(crate) struct ListedItems {
    only: Option<Trigger>,
    marks: u32,
    plain: bool,
}

impl Model for ListedItems {
    ghost use Rattle.wire_frames.specs.Listing.{RowSoFar};

    ghost Value = { RowSoFar };

    ghost view = { λ i. record { only = i.only; marks = i.marks; plain = i.plain } };
}

impl ListedItems {
    /// The value before the items of a row with these triggers, after rows that list `before` triggers.
    pub(crate) fn begun(before: u32, triggers: &[Trigger]) -> ListedItems
        requires { before + length triggers.now ≤ MOST_MARKS }
        ensures { result ≡ begun before triggers.now }
    {
        let only = only_of(triggers);
        ListedItems {
            only,
            marks: before + triggers.len() as u32,
            plain: only.is_some(),
        }
    }

    /// The value after a list of `count` triggers; `only` is its trigger if it has just one.
    fn behind(before: u32, count: u32, only: Option<Trigger>) -> ListedItems
        requires { before + count ≤ MOST_MARKS }
        ensures { (ts : List AnyTrigger) → count ≡ length ts → only ≡ only_of ts → result
            ≡ begun before ts }
    {
        ListedItems {
            only,
            marks: before + count,
            plain: only.is_some(),
        }
    }
}

impl Run for ListedItems {
    type State = ListedItems;

    type Item = Sent;

    ghost series = { listed_items };

    #[tactic(auto, unfolding(crate::specs::Listing::item))]
    fn skip(state: &mut ListedItems, fields: &mut Fields<'_>) -> Result<(), FrameKind> {
        fields.node()?;
        fields.session()?;
        fields.positive()?;
        let (count, only) = skip_triggers(1, state.marks, fields)?;
        state.marks += count;
        state.plain = state.plain && stands_alone(state.only, only);
        Ok(())
    }

    #[tactic(auto, unfolding(crate::specs::Listing::item, crate::specs::Listing::triggers))]
    fn read(
        state: &mut ListedItems,
        alloc: Global,
        fields: &mut Fields<'_>,
    ) -> Result<Sent, ReadError> {
        let to = fields.node()?;
        let session = fields.session()?;
        let seq = fields.positive()?;
        let list = Count::Triggers(1, state.marks);
        let triggers = read_triggers(list, alloc, fields)?;
        state.marks += triggers.len() as u32;
        state.plain = state.plain && stands_alone(state.only, only_of(triggers.as_slice()));
        Ok(Sent {
            to,
            session,
            seq,
            triggers,
        })
    }
}

impl SentRun for ListedItems {
    ghost lent = { listed_items };

    #[tactic(auto, unfolding(crate::specs::Listing::item, crate::specs::Listing::triggers))]
    fn fits(state: &mut ListedItems, item: &SentRef<'_>) -> bool {
        let list = Count::Triggers(1, state.marks);
        if !node_fits(item.to) || !session_fits(item.session) || !positive_fits(item.seq) {
            return false;
        }
        if !fit_list::<RisingTriggers>(list, &mut no_trigger(), item.triggers) {
            return false;
        }
        state.marks += item.triggers.len() as u32;
        state.plain = state.plain && stands_alone(state.only, only_of(item.triggers));
        true
    }

    #[tactic(auto, unfolding(crate::specs::Listing::item, crate::specs::Listing::triggers, crate::specs::Listing::more_triggers))]
    fn write(item: &SentRef<'_>, out: &mut Vec<u8>) -> Result<(), NoMemory> {
        put_node(out, item.to)?;
        put_session(out, item.session)?;
        put_positive(out, item.seq)?;
        put_triggers(item.triggers, out)
    }

    #[tactic(auto, using(crate::proofs::Short::listed_item_wide))]
    fn length(item: &SentRef<'_>) -> usize {
        length_many::<RisingTriggers>(item.triggers).saturating_add(12)
    }
}

/// What must be known while the rows of a report are read: how many items and triggers the rows so far have, and
/// whether each row and its items list the same one trigger.
#[derive(Drop)]
pub(crate) struct ListedRows {
    items: u32,
    marks: u32,
    plain: bool,
}

impl Model for ListedRows {
    ghost use Rattle.wire_frames.specs.Listing.{RowsSoFar};

    ghost Value = { RowsSoFar };

    ghost view = { λ r. record { items = r.items; marks = r.marks; plain = r.plain } };
}

impl ListedRows {
    /// The value before the first row.
    pub(crate) fn first() -> ListedRows
        ensures { result ≡ no_rows }
    {
        ListedRows {
            items: 0,
            marks: 0,
            plain: true,
        }
    }

    // Counts a row with so many items.
    fn pass(&mut self, items: u32, row: &ListedItems)
        requires { self.old.items + items ≤ MOST_UPDATES }
        ensures { self.new ≡ with_row self.old items row.now }
    {
        self.items += items;
        self.marks = row.marks;
        self.plain = self.plain && row.plain;
    }

    /// How many triggers the rows and their items list.
    pub(crate) fn marks(&self) -> u32
        ensures { result ≡ self.now.marks }
    {
        self.marks
    }

    /// Whether each row and its items list the same one trigger.
    pub(crate) fn are_plain(&self) -> bool
        ensures { result ≡ self.now.plain }
    {
        self.plain
    }
}

impl Measured for ListedRows {
    #[tactic(auto, using(crate::proofs::Short::listed_row_wide))]
    fn length(item: &Row) -> usize {
        let triggers = length_many::<RisingTriggers>(item.triggers.as_slice());
        let items = length_items::<ListedItems>(&item.sent);
        triggers.saturating_add(items).saturating_add(6)
    }
}

impl Run for ListedRows {
    type State = ListedRows;

    type Item = Row;

    ghost series = { listed_rows };

    #[tactic(auto, unfolding(crate::specs::Listing::listed_row))]
    fn skip(state: &mut ListedRows, fields: &mut Fields<'_>) -> Result<(), FrameKind> {
        let (count, only) = skip_triggers(0, state.marks, fields)?;
        fields.scope_beside(count == 0)?;
        let more = Count::Items(state.items);
        let mut row = ListedItems::behind(state.marks, count, only);
        let items = skip_list::<ListedItems>(more, &mut row, fields)?;
        state.pass(items as u32, &row);
        Ok(())
    }

    #[tactic(auto, unfolding(crate::specs::Listing::listed_row, crate::specs::Listing::triggers))]
    fn read(
        state: &mut ListedRows,
        alloc: Global,
        fields: &mut Fields<'_>,
    ) -> Result<Row, ReadError> {
        let list = Count::Triggers(0, state.marks);
        let triggers = read_triggers(list, alloc, fields)?;
        let scope = fields.scope_beside(triggers.is_empty())?;
        let more = Count::Items(state.items);
        let mut row = ListedItems::begun(state.marks, triggers.as_slice());
        let sent = read_list::<ListedItems>(more, &mut row, alloc, fields)?;
        state.pass(sent.len() as u32, &row);
        Ok(Row {
            triggers,
            scope,
            sent: SentItems::of(alloc, &sent)?,
        })
    }
}

impl Told for ListedRows {
    #[tactic(auto, unfolding(crate::specs::Listing::listed_row, crate::specs::Listing::triggers))]
    fn fits(state: &mut ListedRows, item: &Row) -> bool {
        let triggers = item.triggers.as_slice();
        let list = Count::Triggers(0, state.marks);
        if !fit_list::<RisingTriggers>(list, &mut no_trigger(), triggers) {
            return false;
        }
        if !scope_fits_beside(item.scope, triggers.is_empty()) {
            return false;
        }
        let mut row = ListedItems::begun(state.marks, triggers);
        if !fit_items::<ListedItems>(&mut row, &item.sent, state.items) {
            return false;
        }
        state.pass(item.sent.len() as u32, &row);
        true
    }

    #[tactic(auto, unfolding(crate::specs::Fields::scope, crate::specs::Fields::more_items, crate::specs::Listing::listed_row, crate::specs::Listing::scope_beside, crate::specs::Listing::triggers, crate::specs::Listing::more_triggers))]
    fn write(item: &Row, out: &mut Vec<u8>) -> Result<(), NoMemory> {
        put_triggers(item.triggers.as_slice(), out)?;
        put_scope(out, item.scope)?;
        put_items::<ListedItems>(&item.sent, out)
    }
}

/// What must be known while pending rows are read: the key of the last row, and how many triggers the report has listed
/// so far. The keys must ascend.
#[derive(Drop)]
pub(crate) struct PendingRun {
    nbr: NodeId,
    prefix: PrefixId,
    marks: u32,
}

impl Model for PendingRun {
    ghost use Rattle.wire_frames.specs.Listing.{PendingSoFar};

    ghost Value = { PendingSoFar };

    ghost view = { λ p. record { last = (p.nbr, p.prefix); marks = p.marks } };
}

impl PendingRun {
    /// The value before the first pending row, after lists with `marks` triggers in all.
    pub(crate) fn behind(marks: u32) -> PendingRun
        ensures { result ≡ nothing_pending marks }
    {
        PendingRun {
            nbr: NodeId::new(0),
            prefix: PrefixId::new(0),
            marks,
        }
    }
}

impl Measured for PendingRun {
    #[tactic(auto, using(crate::proofs::Short::pending_wide))]
    fn length(item: &Pending) -> usize {
        length_many::<RisingTriggers>(item.triggers.as_slice()).saturating_add(10)
    }
}

impl Run for PendingRun {
    type State = PendingRun;

    type Item = Pending;

    ghost series = { pending_rows };

    #[tactic(auto, unfolding(crate::specs::Listing::pending_row))]
    fn skip(state: &mut PendingRun, fields: &mut Fields<'_>) -> Result<(), FrameKind> {
        let (nbr, prefix) = fields.pending_key(state.nbr, state.prefix)?;
        fields.session()?;
        let (count, _) = skip_triggers(1, state.marks, fields)?;
        state.nbr = nbr;
        state.prefix = prefix;
        state.marks += count;
        Ok(())
    }

    #[tactic(auto, unfolding(crate::specs::Listing::pending_row, crate::specs::Listing::triggers))]
    fn read(
        state: &mut PendingRun,
        alloc: Global,
        fields: &mut Fields<'_>,
    ) -> Result<Pending, ReadError> {
        let (to, prefix) = fields.pending_key(state.nbr, state.prefix)?;
        let session = fields.session()?;
        let list = Count::Triggers(1, state.marks);
        let triggers = read_triggers(list, alloc, fields)?;
        state.nbr = to;
        state.prefix = prefix;
        state.marks += triggers.len() as u32;
        Ok(Pending {
            to,
            prefix,
            session,
            triggers,
        })
    }
}

impl Told for PendingRun {
    #[tactic(auto, unfolding(crate::specs::Listing::pending_row, crate::specs::Listing::triggers))]
    fn fits(state: &mut PendingRun, item: &Pending) -> bool {
        let list = Count::Triggers(1, state.marks);
        if !pending_key_fits(item.to, item.prefix, state.nbr, state.prefix) {
            return false;
        }
        if !session_fits(item.session) {
            return false;
        }
        if !fit_list::<RisingTriggers>(list, &mut no_trigger(), item.triggers.as_slice()) {
            return false;
        }
        state.nbr = item.to;
        state.prefix = item.prefix;
        state.marks += item.triggers.len() as u32;
        true
    }

    #[tactic(auto, unfolding(crate::specs::Listing::pending_row, crate::specs::Listing::triggers, crate::specs::Listing::more_triggers))]
    fn write(item: &Pending, out: &mut Vec<u8>) -> Result<(), NoMemory> {
        put_node(out, item.to)?;
        put_prefix(out, item.prefix)?;
        put_session(out, item.session)?;
        put_triggers(item.triggers.as_slice(), out)
    }
}
