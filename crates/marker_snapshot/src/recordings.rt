//! The recordings of a node.
ghost use Rattle.std.specs.Prelude.{ℕ, ◌≡◌, ◌++◌, ◌∷◌, [], Option, map, IfSome, IfNone, IfOk, OnOk, OnErr};
ghost use Rattle.std.specs.List.{Contains};
ghost use Rattle.std.specs.List.Sorted.{IsPermutation};
ghost use Rattle.marker_snapshot.specs.declared.recording.Row.{Row as Kept};
ghost use Rattle.marker_snapshot.specs.Rows.{AreSettled, begun_by, met, heard};

use crate::recording::{Recording, Row};
use std::alloc::Global;
use std::marker::Model;
use topology::{Epoch, NoMemory, NodeId, Session};

/// A row for each session that a cut holds. The finished rows come first, and only the others are looked at when
/// something arrives.
#[derive(Drop)]
pub struct Recordings {
    rows: Vec<Row>,
    settled: usize,
}

impl Model for Recordings {
    ghost use Rattle.std.specs.Prelude.{List};
    ghost use Rattle.marker_snapshot.specs.declared.recording.Row.{Row};
    ghost use Rattle.marker_snapshot.specs.Rows.{AreSettled};

    ghost Value = { List Row };

    ghost view = { λ r. r.rows.items };

    ghost invariant = { λ r. AreSettled r.settled r.rows.items };
}

// A mark arrived: it may end the recording of each row. The rows before `settled` are finished.
fn meet_each(rows: &mut [Row], settled: usize, nbr: NodeId, session: Session, epoch: Epoch)
    requires { AreSettled settled rows.old }
    ensures { rows.new ≡ map (met nbr session epoch) rows.old }
{
    for place in settled..rows.len() {
        rows[place].meet(nbr, session, epoch);
    }
}

// An update arrived: each row may record it. The rows before `settled` are finished.
fn hear_each(rows: &mut [Row], settled: usize, nbr: NodeId, session: Session, seq: u32)
    requires { AreSettled settled rows.old }
    ensures { rows.new ≡ map (heard nbr session seq) rows.old }
{
    for place in settled..rows.len() {
        rows[place].hear(nbr, session, seq);
    }
}

// Moves the finished rows to the front; the first `settled` rows are known to be finished. Returns how many
// finished rows are then in front.
fn settle(rows: &mut [Row], settled: usize) -> usize
    requires { AreSettled settled rows.old }
    ensures settled { AreSettled result rows.new }
    ensures same_rows { IsPermutation rows.old rows.new }
{
    let mut settled = settled;
    for place in settled..rows.len() {
        if rows[place].recording.done {
            rows.swap(settled, place);
            settled += 1;
        }
    }
    settled
}

impl Recordings {
    /// No rows. Takes no memory.
    pub fn new(alloc: Global) -> Recordings
        ensures { result ≡ [] }
    {
        Recordings {
            rows: Vec::new(alloc),
            settled: 0,
        }
    }

    /// Begins a recording, if a session is held with the neighbour.
    pub fn begin(
        &mut self,
        epoch: Epoch,
        nbr: NodeId,
        held: Option<Session>,
    ) -> Result<(), NoMemory>
        ensures { OnOk result (self.new ≡ self.old ++ begun_by epoch nbr held) }
    {
        let Some(session) = held else {
            return Ok(());
        };
        self.rows.push(Row {
            epoch,
            nbr,
            recording: Recording {
                session,
                first: 0,
                count: 0,
                done: false,
            },
        })?;
        Ok(())
    }

    /// A mark arrived in a session. Takes no memory.
    pub fn meet(&mut self, nbr: NodeId, session: Session, epoch: Epoch)
        ensures { IsPermutation (map (met nbr session epoch) self.old) self.new }
    {
        meet_each(&mut self.rows, self.settled, nbr, session, epoch);
        self.settled = settle(&mut self.rows, self.settled);
    }

    /// An update arrived in a session. Takes no memory.
    pub fn hear(&mut self, nbr: NodeId, session: Session, seq: u32)
        ensures { self.new ≡ map (heard nbr session seq) self.old }
    {
        hear_each(&mut self.rows, self.settled, nbr, session, seq);
    }

    /// The row of an epoch and a neighbour. Takes no memory.
    pub fn find(&self, epoch: Epoch, nbr: NodeId) -> Option<&Row>
        ensures some { IfSome result (λ row. Contains self.now row.now × (row.now.epoch ≡ epoch) × (row.now.nbr ≡ nbr)) }
        ensures none { IfNone result ((row : Kept) → Contains self.now row → row.epoch ≡ epoch → row.nbr ≡ nbr → ⊥) }
    {
        self.rows
            .iter()
            .find(|row| row.epoch == epoch && row.nbr == nbr)
    }
}
