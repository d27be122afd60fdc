//! The rows of held-back updates, in order.
ghost use Rattle.std.specs.Prelude.{ℕ, ◌≡◌, ◌<◌, ◌≤◌, [], ◌∷◌, length, slice_set, slice_index_or, IfOk, IfErr, OnOk, OnErr};
ghost use Rattle.std.specs.List.{insert};
ghost use Rattle.topology.specs.declared.items.Pending.{Pending};
ghost use Rattle.trigger_log.specs.HeldLists.{is_row};
ghost use Rattle.trigger_log.specs.Putting.{is_behind, is_to, put_row, rows_without, with_more, RowsRise};

use std::alloc::Global;
use std::marker::Model;
use topology::{NoMemory, NodeId, Pending, PrefixId, Session, Triggers};

/// The held-back updates: a row for each neighbour and prefix of which one is held back, by neighbour, then by prefix
/// in file order.
#[derive(Drop)]
pub struct PendingList {
    list: Vec<Pending>,
}

impl Model for PendingList {
    ghost use Rattle.std.specs.Prelude.{List};
    ghost use Rattle.topology.specs.declared.items.Pending.{Pending};
    ghost use Rattle.trigger_log.specs.Putting.{RowsRise};

    ghost Value = { List Pending };

    ghost view = { λ r. r.list.items };

    ghost invariant = { λ r. RowsRise r.list.items };
}

// Whether the row is that of the prefix and the neighbour.
fn is_row(row: &Pending, to: NodeId, prefix: PrefixId) -> bool
    ensures { result ≡ is_row to prefix row.now }
{
    row.to == to && row.prefix == prefix
}

// Whether the row comes after the place of a row for the prefix and the neighbour.
fn is_behind(row: &Pending, to: NodeId, prefix: PrefixId) -> bool
    ensures { result ≡ is_behind to prefix row.now }
{
    to < row.to || (to == row.to && prefix < row.prefix)
}

/// Whether the row is one of the neighbour.
pub fn is_to(row: &Pending, to: NodeId) -> bool
    ensures { result ≡ is_to to row.now }
{
    row.to == to
}

// The place of the row of the prefix and the neighbour, or the place where it would be inserted.
fn place_for(rows: &[Pending], to: NodeId, prefix: PrefixId) -> Result<usize, usize>
    requires rise { RowsRise rows.now }
    ensures there { IfOk result (λ place. (place < length rows.now) × ((x : Pending) → x.to ≡ to → x.prefix ≡ prefix →
        put_row x rows.now ≡ slice_set rows.now place (with_more x.triggers (slice_index_or rows.now place x)))) }
    ensures free { IfErr result (λ place. (place ≤ length rows.now) × ((x : Pending) → x.to ≡ to → x.prefix ≡ prefix →
        put_row x rows.now ≡ insert rows.now place x)) }
{
    let mut low = 0;
    let mut high = rows.len();
    while low < high {
        let middle = low + (high - low) / 2;
        let row = &rows[middle];
        if is_row(row, to, prefix) {
            return Ok(middle);
        }
        if is_behind(row, to, prefix) {
            high = middle;
        } else {
            low = middle + 1;
        }
    }
    Err(low)
}

// Adds that an update of the prefix is held back from the neighbour for these triggers.
fn put_in(
    list: &mut Vec<Pending>,
    to: NodeId,
    session: Session,
    prefix: PrefixId,
    triggers: &Triggers,
) -> Result<(), NoMemory>
    requires rise { RowsRise list.old.items }
    ensures ok { OnOk result (list.new.items
        ≡ put_row (record { to = to; prefix = prefix; session = session; triggers = triggers.now }) list.old.items) }
    ensures err { OnErr result (list.new.items ≡ list.old.items) }
{
    match place_for(list, to, prefix) {
        Ok(place) => {
            let alloc = *list.allocator();
            let more = triggers.union(alloc, &list[place].triggers)?;
            list[place].triggers = more;
        }
        Err(place) => {
            let triggers = triggers.copy()?;
            list.insert(
                place,
                Pending {
                    to,
                    prefix,
                    session,
                    triggers,
                },
            )?;
        }
    }
    Ok(())
}

impl PendingList {
    /// No rows.
    pub fn new(alloc: Global) -> PendingList
        ensures { result ≡ [] }
    {
        PendingList {
            list: Vec::new(alloc),
        }
    }

    pub fn as_slice(&self) -> &[Pending]
        ensures { result.now ≡ self.now }
    {
        &self.list
    }

    /// Removes the rows of the neighbour.
    pub fn forget(&mut self, nbr: NodeId)
        ensures { self.new ≡ rows_without nbr self.old }
    {
        self.list.retain(|row| !is_to(row, nbr));
    }

    /// Adds that an update of the prefix is held back from the neighbour for these triggers.
    pub fn put(
        &mut self,
        to: NodeId,
        session: Session,
        prefix: PrefixId,
        triggers: &Triggers,
    ) -> Result<(), NoMemory>
        ensures { OnOk result (self.new
            ≡ put_row (record { to = to; prefix = prefix; session = session; triggers = triggers.now }) self.old) }
    {
        Ok(put_in(&mut self.list, to, session, prefix, triggers)?)
    }
}
