//! The snapshots of a node.
ghost use Rattle.std.specs.Prelude.{ℕ, ◌≡◌, ◌<◌, ◌++◌, ◌∷◌, [], true, List, None, length, option_map, IfOk, IfSome, IfNone, OnOk};
ghost use Rattle.std.specs.List.{flat_map};
ghost use Rattle.topology.specs.Lists.{has};
ghost use Rattle.topology.specs.Net.{Net, neighbours};
ghost use Rattle.path_vector.specs.History.{held};
ghost use Rattle.trigger_log.specs.Entries.{Entry, reads};
ghost use Rattle.trigger_log.specs.Standing.{StandsFor as LogStandsFor};
ghost use Rattle.marker_snapshot.specs.Acts.{SnapshotActs, Takes, Meets, Hears};
ghost use Rattle.marker_snapshot.specs.Cuts.{epoch_of, cut_of, recorded_session, Continues};
ghost use Rattle.marker_snapshot.specs.Rows.{begun_by};
ghost use Rattle.marker_snapshot.specs.Standing.{StandsFor, Shows};

use crate::recording::{Cut, Recording};
use crate::recordings::Recordings;
use path_vector::Policy;
use std::alloc::Global;
use std::marker::Model;
use topology::{Epoch, NoMemory, NodeId, Session, Topology};
use trigger_log::NodeLog;

/// The epoch of a node, its cuts, and what it recorded after each of them.
#[derive(Drop)]
pub struct Snapshots {
    epoch: Epoch,
    cuts: Vec<Cut>,
    recordings: Recordings,
}

impl Model for Snapshots {
    ghost use Rattle.marker_snapshot.specs.Keeping.{Kept};

    ghost Value = { Kept };

    ghost view = { λ s. record { epoch = s.epoch; cuts = s.cuts.items; rows = s.recordings } };
}

// Begins a recording for each session that is held with one of these neighbours.
fn begin_each<P: Policy + Copy>(
    recordings: &mut Recordings,
    epoch: Epoch,
    log: &NodeLog<P>,
    near: &[NodeId],
) -> Result<(), NoMemory>
    ensures { OnOk result ((policy : P) (net : Net) (u : ℕ) (h : List Entry) →
        LogStandsFor policy (P.rules policy) net u log.now h → near.now ≡ neighbours net u →
        recordings.new ≡ recordings.old ++ flat_map (λ v. begun_by epoch v (held (reads h) v)) near.now) }
{
    for nbr in near {
        recordings.begin(epoch, *nbr, log.held(*nbr))?;
    }
    Ok(())
}

impl Snapshots {
    /// Epoch 0, and no cut. Takes no memory.
    pub fn new(alloc: Global) -> Snapshots
        ensures { (net : Net) (u : ℕ) → StandsFor net u result [] }
    {
        Snapshots {
            epoch: Epoch::new(0),
            cuts: Vec::new(alloc),
            recordings: Recordings::new(alloc),
        }
    }

    /// Raises the epoch and takes its cut, which is the number of entries of the log. From now on each held session is
    /// recorded. The epoch has to be above `epoch()`; else nothing is promised. If a mark raised the epoch, `on_marker`
    /// is called for it after this.
    pub fn take<P: Policy + Copy>(
        self,
        epoch: Epoch,
        log: &NodeLog<P>,
        topology: &Topology,
    ) -> Result<Snapshots, NoMemory>
        ensures { IfOk result (λ taken. (policy : P) (u : ℕ) (h : List Entry) (acts : SnapshotActs) →
            StandsFor topology.now u self acts → LogStandsFor policy (P.rules policy) topology.now u log.now h →
            epoch_of acts < epoch → StandsFor topology.now u taken (Takes epoch h ∷ acts)) }
    {
        let mut taken = self;
        let near = topology.neighbours(log.next_trigger().node);
        begin_each(&mut taken.recordings, epoch, log, near)?;
        taken.cuts.push(Cut {
            epoch,
            entries: log.len(),
        })?;
        taken.epoch = epoch;
        Ok(taken)
    }

    /// A marker or hello of an epoch arrived in a session. It ends the recordings of that session for this epoch and
    /// for earlier ones. Takes no memory.
    pub fn on_marker(&mut self, nbr: NodeId, session: Session, epoch: Epoch)
        ensures { (net : Net) (u : ℕ) (acts : SnapshotActs) → StandsFor net u self.old acts →
            StandsFor net u self.new (Meets nbr session epoch ∷ acts) }
    {
        self.recordings.meet(nbr, session, epoch);
    }

    /// The update with this number arrived in a session. Each unfinished recording of that session now includes it. The
    /// number has to be at least 1, and one above the last number in each of these recordings that is not empty (see
    /// `recorded`); else nothing is promised. Takes no memory.
    pub fn on_update(&mut self, nbr: NodeId, session: Session, seq: u32)
        ensures { (net : Net) (u : ℕ) (acts : SnapshotActs) → StandsFor net u self.old acts →
            Continues acts nbr session seq → StandsFor net u self.new (Hears nbr session seq ∷ acts) }
    {
        self.recordings.hear(nbr, session, seq);
    }

    /// The epoch of the last cut, 0 before the first one. Takes no memory.
    pub fn epoch(&self) -> Epoch
        ensures { (net : Net) (u : ℕ) (acts : SnapshotActs) → StandsFor net u self.now acts →
            result ≡ epoch_of acts }
    {
        self.epoch
    }

    /// How many entries the cut of an epoch has. The answer is `None` exactly where there is no cut of it. Takes no
    /// memory.
    pub fn cut_of(&self, epoch: Epoch) -> Option<u32>
        ensures { (net : Net) (u : ℕ) (acts : SnapshotActs) → StandsFor net u self.now acts →
            result ≡ option_map length (cut_of epoch acts) }
    {
        let cut = self.cuts.iter().find(|cut| cut.epoch == epoch)?;
        Some(cut.entries)
    }

    /// What was recorded, after the cut of an epoch, of the session with a neighbour that the cut holds. The answer is
    /// `None` exactly where there is no cut of that epoch, or the cut holds no session with the neighbour. Takes no
    /// memory.
    pub fn recorded(&self, epoch: Epoch, nbr: NodeId) -> Option<Recording>
        ensures some { IfSome result (λ recording. (net : Net) (u : ℕ) (acts : SnapshotActs) →
            StandsFor net u self.now acts → Shows acts epoch nbr recording) }
        ensures none { IfNone result ((net : Net) (u : ℕ) (acts : SnapshotActs) → StandsFor net u self.now acts →
            has (neighbours net u) nbr ≡ true → recorded_session epoch nbr acts ≡ None) }
    {
        let Some(row) = self.recordings.find(epoch, nbr) else {
            return None;
        };
        Some(row.recording)
    }
}
