//! What a new entry tells all neighbours.
ghost use Rattle.std.specs.Prelude.{ℕ, ◌≡◌, ◌<◌, ◌+◌, ◌∷◌, ◌++◌, [], suc, false, true, Some, List, length, map, slice_get, IfOk, OnOk, if◌then◌else◌};
ghost use Rattle.topology.specs.Lists.{has};
ghost use Rattle.topology.specs.Triggers.{union};
ghost use Rattle.topology.specs.Net.{Net, holds_back, neighbours};
ghost use Rattle.topology.specs.declared.items.Sent.{Sent};
ghost use Rattle.path_vector.specs.Rules.{Rules};
ghost use Rattle.path_vector.specs.History.{last, ready};
ghost use Rattle.trigger_log.specs.Entries.{Entry, flushes, reads};
ghost use Rattle.trigger_log.specs.Making.{making};
ghost use Rattle.trigger_log.specs.Sending.{sent_count};
ghost use Rattle.trigger_log.specs.Offered.{AreSame, prefixes_of};
ghost use Rattle.trigger_log.specs.HoldingBack.{HoldsBack};
ghost use Rattle.trigger_log.specs.Putting.{triggers_to};
ghost use Rattle.trigger_log.specs.Sessions.{Says};
ghost use Rattle.trigger_log.specs.Telling.{Speech, silence, speech_of};
ghost use Rattle.trigger_log.specs.Marked.{Enters, Spoken, ToldTo, close_row, ends_with, readies};

use crate::counters::next_number;
use crate::held_back::HeldBack;
use crate::listeners::{Listener, Said, Turn, tell, tell_held};
use crate::quiet_entries::is_quiet;
use crate::sessions::{SessionMark, Sessions};
use path_vector::{Cause, Policy, RouteState};
use topology::{NoMemory, NodeId, SentList, Triggers};

// Whether the entry ends a session with the neighbour.
fn ends_with(cause: &Cause, with: NodeId) -> bool
    ensures { result ≡ ends_with cause.now with }
{
    match cause {
        Cause::Down { nbr, .. } => *nbr == with,
        _ => false,
    }
}

/// Whether the entry makes a session with the neighbour ready.
pub fn readies(cause: &Cause, with: NodeId) -> bool
    ensures { result ≡ readies cause.now with }
{
    match cause {
        Cause::Ready { nbr, .. } => *nbr == with,
        _ => false,
    }
}

// Whether the entry sends the neighbour what was held back from it.
fn flushes(cause: &Cause, with: NodeId) -> bool
    ensures { result ≡ flushes cause.now with }
{
    match cause {
        Cause::Flush { nbr } => *nbr == with,
        _ => false,
    }
}

// Lists the close of a session, if the other end had opened it. Returns how many items were then sent in the session.
// The close lists the triggers of the entry, and those of all updates held back from the neighbour.
fn close(
    held: &HeldBack,
    mark: &SessionMark,
    triggers: &Triggers,
    sent: &mut SentList,
) -> Result<u32, NoMemory>
    ensures count { IfOk result (λ count. count ≡ mark.now.sent + (if mark.now.opened then 1 else 0)) }
    ensures sent { IfOk result (λ count. sent.new ≡ sent.old ++
        (if mark.now.opened then close_row (union triggers.now (triggers_to mark.now.nbr held.now.rows)) mark.now ∷ [] else [])) }
{
    if !mark.opened {
        return Ok(mark.sent);
    }
    let seq = next_number(mark.sent)?;
    let triggers = held.united(triggers, mark.nbr)?;
    sent.push(mark.nbr, mark.session, seq, &triggers)?;
    Ok(seq)
}

// If the entry flushes, lists the updates that were held back from the neighbour. Returns how many items were then sent
// in its session.
fn speak_held<P: Policy + Copy>(
    routes: &RouteState<P>,
    held: &HeldBack,
    turn: &Turn<'_>,
    mark: &SessionMark,
    said: &mut Said,
) -> Result<u32, NoMemory>
    ensures { IfOk result (λ count. (policy : P) (net : Net) (u : ℕ) (h : List Entry) (k : Entry) (w : ℕ) →
        Enters policy (making (P.rules policy) net u h k) routes.now turn.now → HoldsBack (P.rules policy) net u h held.now →
        has (neighbours net u) w ≡ true → holds_back net u w ≡ true → ends_with k.read.cause w ≡ false →
        ready (k.read ∷ reads h) w ≡ Some (last (reads (k ∷ h)) w) →
        Says (k ∷ h) w (last (reads (k ∷ h)) w) (sent_count (P.rules policy) net u h w (last (reads (k ∷ h)) w)) mark.now →
        Spoken (making (P.rules policy) net u h k) w (last (reads (k ∷ h)) w) (speech_of said.old) (speech_of said.new) count) }
{
    if !flushes(turn.cause, mark.nbr) {
        return Ok(mark.sent);
    }
    let listener = Listener {
        nbr: mark.nbr,
        session: mark.session,
        sent: mark.sent,
        knows: true,
    };
    Ok(tell_held(routes, turn.best, held.rows(), &listener, said)?)
}

// Lists what the entry tells the neighbour in its newest session. Returns how many items were then sent in it.
fn speak<P: Policy + Copy>(
    routes: &RouteState<P>,
    held: &HeldBack,
    turn: &Turn<'_>,
    mark: &SessionMark,
    said: &mut Said,
) -> Result<u32, NoMemory>
    requires same_prefixes { prefixes_of turn.now.before.now ≡ prefixes_of turn.now.after.now }
    requires same { AreSame turn.now.before.now turn.now.after.now turn.now.same.now }
    ensures { IfOk result (λ count. (policy : P) (net : Net) (u : ℕ) (h : List Entry) (k : Entry) (w : ℕ) →
        Enters policy (making (P.rules policy) net u h k) routes.now turn.now → HoldsBack (P.rules policy) net u h held.now →
        has (neighbours net u) w ≡ true →
        Says (k ∷ h) w (last (reads (k ∷ h)) w) (sent_count (P.rules policy) net u h w (last (reads (k ∷ h)) w)) mark.now →
        Spoken (making (P.rules policy) net u h k) w (last (reads (k ∷ h)) w) (speech_of said.old) (speech_of said.new) count) }
{
    if ends_with(turn.cause, mark.nbr) {
        return Ok(close(held, mark, turn.triggers, &mut said.sent)?);
    }
    if !mark.is_ready() {
        return Ok(mark.sent);
    }
    if held.holds(mark.nbr) {
        return Ok(speak_held(routes, held, turn, mark, said)?);
    }
    let listener = Listener {
        nbr: mark.nbr,
        session: mark.session,
        sent: mark.sent,
        knows: !readies(turn.cause, mark.nbr),
    };
    Ok(tell(routes, turn, &listener, said)?)
}

// Lists what the entry tells the neighbour at this place, and counts the items.
fn tell_at<P: Policy + Copy>(
    routes: &RouteState<P>,
    sessions: &mut Sessions,
    held: &HeldBack,
    place: usize,
    turn: &Turn<'_>,
    said: &mut Said,
) -> Result<(), NoMemory>
    requires same_prefixes { prefixes_of turn.now.before.now ≡ prefixes_of turn.now.after.now }
    requires same { AreSame turn.now.before.now turn.now.after.now turn.now.same.now }
    requires within { place < length sessions.old.rows }
    ensures told { OnOk result ((policy : P) (net : Net) (u : ℕ) (h : List Entry) (k : Entry) (w : ℕ) (first : Speech) →
        Enters policy (making (P.rules policy) net u h k) routes.now turn.now → HoldsBack (P.rules policy) net u h held.now →
        slice_get (neighbours net u) place ≡ Some w →
        ToldTo (making (P.rules policy) net u h k) place sessions.old.rows first (speech_of said.old) →
        ToldTo (making (P.rules policy) net u h k) (place + 1) sessions.new.rows first (speech_of said.new)) }
    ensures width { length sessions.new.rows ≡ length sessions.old.rows }
    ensures near { sessions.new.near ≡ sessions.old.near }
{
    let count = speak(routes, held, turn, sessions.newest(place), said)?;
    sessions.count(place, count);
    Ok(())
}

// Lists what the entry tells each neighbour, in ascending order, and counts the items.
fn tell_each<P: Policy + Copy>(
    routes: &RouteState<P>,
    sessions: &mut Sessions,
    held: &HeldBack,
    turn: &Turn<'_>,
    said: &mut Said,
) -> Result<(), NoMemory>
    requires same_prefixes { prefixes_of turn.now.before.now ≡ prefixes_of turn.now.after.now }
    requires same { AreSame turn.now.before.now turn.now.after.now turn.now.same.now }
    ensures told { OnOk result ((policy : P) (net : Net) (u : ℕ) (h : List Entry) (k : Entry) (first : Speech) →
        Enters policy (making (P.rules policy) net u h k) routes.now turn.now → HoldsBack (P.rules policy) net u h held.now →
        ToldTo (making (P.rules policy) net u h k) 0 sessions.old.rows first (speech_of said.old) →
        ToldTo (making (P.rules policy) net u h k) (length sessions.old.rows) sessions.new.rows first (speech_of said.new)) }
    ensures near { sessions.new.near ≡ sessions.old.near }
{
    for place in 0..sessions.len() {
        tell_at(routes, sessions, held, place, turn, said)?;
    }
    Ok(())
}

/// Lists what the entry tells each neighbour, in ascending order, and counts the items in their sessions. The lists are
/// those of the last entry, used again. If the entry has nothing to tell, no neighbour is looked at.
pub fn tell_all<P: Policy + Copy>(
    routes: &RouteState<P>,
    sessions: &mut Sessions,
    held: &HeldBack,
    turn: &Turn<'_>,
    said: &mut Said,
) -> Result<(), NoMemory>
    requires same_prefixes { prefixes_of turn.now.before.now ≡ prefixes_of turn.now.after.now }
    requires same { AreSame turn.now.before.now turn.now.after.now turn.now.same.now }
    ensures told { OnOk result ((policy : P) (net : Net) (u : ℕ) (h : List Entry) (k : Entry) →
        Enters policy (making (P.rules policy) net u h k) routes.now turn.now → HoldsBack (P.rules policy) net u h held.now →
        ToldTo (making (P.rules policy) net u h k) 0 sessions.old.rows silence silence →
        ToldTo (making (P.rules policy) net u h k) (length sessions.old.rows) sessions.new.rows silence (speech_of said.new)) }
    ensures near { sessions.new.near ≡ sessions.old.near }
{
    said.clear();
    if is_quiet(turn) {
        return Ok(());
    }
    Ok(tell_each(routes, sessions, held, turn, said)?)
}
