//! The sessions that a node ever held.
ghost use Rattle.std.specs.Prelude.{ℕ, IsTrue, ◌≡◌, ◌<◌, ◌+◌, ◌^◌, suc, List, [], ◌∷◌, ◌++◌, Some, None, false, true, length, map, slice_get, slice_set, is_none, ◌&&◌, if◌then◌else◌, IfOk, IfSome, IfNone, OnOk, OnErr};
ghost use Rattle.std.specs.List.{AllByRecursion};
ghost use Rattle.trigger_log.specs.declared.sessions.SessionMark.{SessionMark};
ghost use Rattle.topology.specs.Lists.{Among, has};
ghost use Rattle.topology.specs.Net.{Net, IsValid, neighbours};
ghost use Rattle.trigger_log.specs.Rows.{EndsWith, joined, shifted};

use crate::counters::next_number;
use path_vector::LikelyPlaces;
use std::alloc::Global;
use std::marker::Model;
use topology::{NoMemory, NodeId, Session, Trigger};

/// A session that the node holds or held with a neighbour.
#[derive(Clone, Copy, Debug, PartialEq, Eq)]
pub struct SessionMark {
    pub nbr: NodeId,
    pub session: Session,
    /// Whether the other end has opened the session too.
    pub opened: bool,
    /// How many items the node has sent in the session, the `close` included.
    pub sent: u32,
    /// How many updates the node has received in the session.
    pub received: u32,
    /// The trigger of the entry that ended the session.
    pub down: Option<Trigger>,
}

impl SessionMark {
    /// The session if it is held; `None` if it has ended.
    pub fn held(&self) -> Option<Session>
        ensures { result ≡ (if is_none self.now.down then Some self.now.session else None) }
    {
        match self.down {
            None => Some(self.session),
            Some(_) => None,
        }
    }

    /// Whether the session is held and the other end has opened it too.
    pub fn is_ready(&self) -> bool
        ensures { result ≡ (is_none self.now.down && self.now.opened) }
    {
        self.down.is_none() && self.opened
    }
}

/// The sessions of a node: for each neighbour, by place, a row of marks, the oldest first. All rows stand in one list,
/// one after the other, and `newest` has the place of the last mark of each row.
#[derive(Drop)]
pub struct Sessions {
    near: Vec<NodeId>,
    likely: LikelyPlaces,
    marks: Vec<SessionMark>,
    newest: Vec<usize>,
}

impl Model for Sessions {
    ghost use Rattle.trigger_log.specs.Rows.{MarkRows, AreKept, cut};

    ghost Value = { MarkRows };

    ghost view = { λ s. record { near = s.near.items; rows = cut 0 s.newest.items s.marks.items } };

    ghost invariant = { λ s. AreKept s.near.items s.marks.items s.newest.items };
}

// Adds one to each number from this place on.
fn shift(places: &mut Vec<usize>, from: usize)
    requires { AllByRecursion (λ place. place + 1 < 2 ^ 64) places.old.items }
    ensures { places.new.items ≡ shifted from places.old.items }
{
    for i in from..places.len() {
        places[i] += 1;
    }
}

// A copy of the list.
fn copy_of(alloc: Global, near: &[NodeId]) -> Result<Vec<NodeId>, NoMemory>
    ensures { IfOk result (λ copy. copy.items ≡ near.now) }
{
    Ok(Vec::from_slice(alloc, near)?)
}

// Whether the neighbour is at this place.
fn is_at(near: &[NodeId], place: usize, nbr: NodeId) -> bool
    ensures { IsTrue result → slice_get near.now place ≡ Some nbr }
{
    near.get(place) == Some(&nbr)
}

impl Sessions {
    /// One row for each neighbour, with session 1, which both ends hold from the start.
    pub fn new(alloc: Global, near: &[NodeId]) -> Result<Sessions, NoMemory>
        ensures near { IfOk result (λ sessions. sessions.near ≡ near.now) }
        ensures rows { IfOk result (λ sessions. sessions.rows
            ≡ map (λ w. record { nbr = w; session = 1; opened = true; sent = 0; received = 0; down = None } ∷ []) near.now) }
    {
        let mut marks = Vec::with_capacity(alloc, near.len())?;
        let mut newest = Vec::with_capacity(alloc, near.len())?;
        for nbr in near {
            newest.push(marks.len())?;
            marks.push(SessionMark {
                nbr: *nbr,
                session: Session::new(1),
                opened: true,
                sent: 0,
                received: 0,
                down: None,
            })?;
        }
        Ok(Sessions {
            near: copy_of(alloc, near)?,
            likely: LikelyPlaces::of(near),
            marks,
            newest,
        })
    }

    /// How many neighbours there are.
    pub fn len(&self) -> usize
        ensures { result ≡ length self.now.rows }
    {
        self.newest.len()
    }

    /// The place of a neighbour. The guess is tried first, and is mostly right.
    pub fn place_of(&self, nbr: NodeId) -> Option<usize>
        ensures some { (net : Net) (u : ℕ) → IsValid net → self.now.near ≡ neighbours net u →
            IfSome result (λ place. slice_get (neighbours net u) place ≡ Some nbr) }
        ensures none { (net : Net) (u : ℕ) → IsValid net → self.now.near ≡ neighbours net u →
            IfNone result (has (neighbours net u) nbr ≡ false) }
        ensures within { IfSome result (λ place. place < length self.now.rows) }
    {
        let guess = self.likely.guess(nbr);
        if is_at(&self.near, guess, nbr) {
            return Some(guess);
        }
        self.searched(nbr)
    }

    // The place of a neighbour, by a search.
    fn searched(&self, nbr: NodeId) -> Option<usize>
        ensures some { (net : Net) (u : ℕ) → IsValid net → self.now.near ≡ neighbours net u →
            IfSome result (λ place. slice_get (neighbours net u) place ≡ Some nbr) }
        ensures none { (net : Net) (u : ℕ) → IsValid net → self.now.near ≡ neighbours net u →
            IfNone result (has (neighbours net u) nbr ≡ false) }
        ensures within { IfSome result (λ place. place < length self.now.rows) }
    {
        self.near.binary_search(&nbr).ok()
    }

    /// All marks: by neighbour, then by session.
    pub fn marks(&self) -> &[SessionMark]
        ensures { result.now ≡ joined self.now.rows }
    {
        &self.marks
    }

    /// The last mark of the row at this place.
    pub fn newest(&self, place: usize) -> &SessionMark
        requires { place < length self.now.rows }
        ensures { (row : List SessionMark) → slice_get self.now.rows place ≡ Some row → EndsWith row result.now }
    {
        &self.marks[self.newest[place]]
    }

    /// Replaces the last mark of the row.
    pub fn put(&mut self, place: usize, mark: SessionMark)
        requires { place < length self.old.rows }
        ensures put { (older : List SessionMark) (last : SessionMark) → slice_get self.old.rows place ≡ Some (older ++ last ∷ []) →
            self.new.rows ≡ slice_set self.old.rows place (older ++ mark ∷ []) }
        ensures near { self.new.near ≡ self.old.near }
        ensures width { length self.new.rows ≡ length self.old.rows }
    {
        let last = self.newest[place];
        self.marks[last] = mark;
    }

    /// Sets how many items were sent in the last session of the row.
    pub fn count(&mut self, place: usize, sent: u32)
        requires { place < length self.old.rows }
        ensures count { (older : List SessionMark) (last : SessionMark) → slice_get self.old.rows place ≡ Some (older ++ last ∷ []) →
            self.new.rows ≡ slice_set self.old.rows place (older ++ record last { sent = sent } ∷ []) }
        ensures near { self.new.near ≡ self.old.near }
        ensures width { length self.new.rows ≡ length self.old.rows }
    {
        let last = self.newest[place];
        self.marks[last].sent = sent;
    }

    /// Counts one more update received in the last session of the row.
    pub fn hear(&mut self, place: usize) -> Result<(), NoMemory>
        requires { place < length self.old.rows }
        ensures ok { OnOk result ((older : List SessionMark) (last : SessionMark) → slice_get self.old.rows place ≡ Some (older ++ last ∷ []) →
            self.new.rows ≡ slice_set self.old.rows place (older ++ record last { received = suc last.received } ∷ [])) }
        ensures near { self.new.near ≡ self.old.near }
        ensures width { length self.new.rows ≡ length self.old.rows }
        ensures err { OnErr result (self.new ≡ self.old) }
    {
        let last = self.newest[place];
        let mark = &mut self.marks[last];
        mark.received = next_number(mark.received)?;
        Ok(())
    }

    /// Adds a new session to the end of the row, with nothing sent or received.
    pub fn open(&mut self, place: usize, nbr: NodeId, session: Session) -> Result<(), NoMemory>
        requires { place < length self.old.rows }
        ensures ok { OnOk result ((row : List SessionMark) → slice_get self.old.rows place ≡ Some row →
            self.new.rows ≡ slice_set self.old.rows place (row ++ record { nbr = nbr; session = session; opened = false; sent = 0; received = 0; down = None } ∷ [])) }
        ensures near { self.new.near ≡ self.old.near }
        ensures err { OnErr result (self.new ≡ self.old) }
    {
        let last = self.newest[place];
        let mark = SessionMark {
            nbr,
            session,
            opened: false,
            sent: 0,
            received: 0,
            down: None,
        };
        self.marks.insert(last + 1, mark)?;
        shift(&mut self.newest, place);
        Ok(())
    }

    /// The mark of a session; `None` if it was never held.
    pub fn find(&self, nbr: NodeId, session: Session) -> Option<&SessionMark>
        ensures some { IfSome result (λ mark. (mark.now.nbr ≡ nbr) × (mark.now.session ≡ session) ×
            Among mark.now (joined self.now.rows)) }
        ensures none { IfNone result ((mark : SessionMark) →
            Among mark (joined self.now.rows) → mark.nbr ≡ nbr → mark.session ≡ session → ⊥) }
    {
        self.marks
            .iter()
            .find(|mark| mark.nbr == nbr && mark.session == session)
    }
}
