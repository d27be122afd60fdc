//! How an entry changes the sessions of its node.
ghost use Rattle.std.specs.Prelude.{ℕ, ◌≡◌, ◌∷◌, false, Some, List, slice_get, OnOk};
ghost use Rattle.topology.specs.declared.names.Scope.{Scope};
ghost use Rattle.topology.specs.Lists.{has};
ghost use Rattle.topology.specs.Net.{Net, IsValid, neighbours};
ghost use Rattle.path_vector.specs.Rules.{Rules};
ghost use Rattle.path_vector.specs.History.{last};
ghost use Rattle.path_vector.specs.Kept.{IsOfNeighbour, names};
ghost use Rattle.trigger_log.specs.Entries.{Entry, entry, reads};
ghost use Rattle.trigger_log.specs.Making.{making};
ghost use Rattle.trigger_log.specs.Fits.{Fits, ListsFor};
ghost use Rattle.trigger_log.specs.Sessions.{Says, AreRows};
ghost use Rattle.trigger_log.specs.Marked.{AreAllMarked, hears};

use crate::sessions::{SessionMark, Sessions};
use path_vector::Cause;
use topology::{NoMemory, NodeId, Triggers};

// The neighbour that an entry names.
fn named(cause: &Cause) -> Option<NodeId>
    ensures { result ≡ names cause.now }
{
    match cause {
        Cause::Originate => None,
        Cause::Withdraw => None,
        Cause::Recv { from, .. } => Some(*from),
        Cause::Down { nbr, .. } => Some(*nbr),
        Cause::Up { nbr, .. } => Some(*nbr),
        Cause::Ready { nbr, .. } => Some(*nbr),
        Cause::Prefer { nbr, .. } => Some(*nbr),
        Cause::Flush { nbr } => Some(*nbr),
    }
}

// The mark of a session after the entry that ends it. The mark keeps the first trigger of the entry.
fn ended(mark: &SessionMark, triggers: &Triggers) -> SessionMark
    ensures { result ≡ record mark.now { down = slice_get triggers.now 0 } }
{
    SessionMark {
        down: triggers.first(),
        ..*mark
    }
}

// The newest mark of the neighbour that the entry names, after the entry. The entry is not an update.
#[inline(always)]
fn turned(mark: &SessionMark, triggers: &Triggers, cause: &Cause) -> SessionMark
    ensures { (h : List Entry) (scope : Scope) (w n : ℕ) →
        Fits (entry triggers.now scope cause.now ∷ h) → ListsFor scope triggers.now → names cause.now ≡ Some w →
        hears cause.now ≡ false → Says h w (last (reads h) w) n mark.now →
        Says (entry triggers.now scope cause.now ∷ h) w (last (reads h) w) n result }
{
    match cause {
        Cause::Down { .. } => ended(mark, triggers),
        Cause::Ready { .. } => SessionMark {
            opened: true,
            ..*mark
        },
        _ => *mark,
    }
}

/// Marks in the sessions what the entry changes. The items that the entry sends are not counted here.
#[inline(always)]
pub fn mark(sessions: &mut Sessions, triggers: &Triggers, cause: &Cause) -> Result<(), NoMemory>
    ensures marked { OnOk result ((rules : Rules) (net : Net) (u : ℕ) (h : List Entry) (scope : Scope) →
        IsValid net → sessions.old.near ≡ neighbours net u →
        Fits (entry triggers.now scope cause.now ∷ h) → ListsFor scope triggers.now → IsOfNeighbour net u cause.now →
        AreRows rules net u h sessions.old.rows →
        AreAllMarked (making rules net u h (entry triggers.now scope cause.now)) sessions.new.rows) }
    ensures strangers { (net : Net) (u : ℕ) → IsValid net → sessions.old.near ≡ neighbours net u →
        ((w : ℕ) → names cause.now ≡ Some w → has (neighbours net u) w ≡ false) → sessions.new ≡ sessions.old }
    ensures near { sessions.new.near ≡ sessions.old.near }
{
    let Some(nbr) = named(cause) else {
        return Ok(());
    };
    let Some(place) = sessions.place_of(nbr) else {
        return Ok(());
    };
    match cause {
        Cause::Up { session, .. } => Ok(sessions.open(place, nbr, *session)?),
        Cause::Recv { .. } => Ok(sessions.hear(place)?),
        _ => {
            let mark = turned(sessions.newest(place), triggers, cause);
            sessions.put(place, mark);
            Ok(())
        }
    }
}
