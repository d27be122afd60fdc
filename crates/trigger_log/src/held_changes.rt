//! How an entry changes what its node holds back.
ghost use Rattle.std.specs.Prelude.{ℕ, ◌≡◌, ◌<◌, ◌+◌, ◌∷◌, true, Some, None, List, length, slice_get, if◌then◌else◌, OnOk};
ghost use Rattle.topology.specs.Lists.{has};
ghost use Rattle.topology.specs.Net.{Net, neighbours};
ghost use Rattle.path_vector.specs.Rules.{Rules};
ghost use Rattle.path_vector.specs.Standing.{StandsFor};
ghost use Rattle.trigger_log.specs.declared.offers.Offer.{Offer};
ghost use Rattle.trigger_log.specs.Entries.{Entry, reads};
ghost use Rattle.trigger_log.specs.Making.{making};
ghost use Rattle.trigger_log.specs.Fits.{ListsFor};
ghost use Rattle.trigger_log.specs.Offered.{AreChosen, AreSame, differs, prefixes_of, updates_over};
ghost use Rattle.trigger_log.specs.Sessions.{AreRows};
ghost use Rattle.trigger_log.specs.Marked.{Enters};
ghost use Rattle.trigger_log.specs.Putting.{emptied, put_all, rows_without};
ghost use Rattle.trigger_log.specs.HoldingBack.{HoldsBack, HoldsPart};

use crate::announcements::readies;
use crate::held_back::HeldBack;
use crate::listeners::{Listener, Turn, known, same};
use crate::sessions::Sessions;
use path_vector::{Cause, Policy, RouteState};
use topology::{NoMemory, NodeId};

// The neighbour whose rows the entry removes.
fn emptied(cause: &Cause) -> Option<NodeId>
    ensures { result ≡ emptied cause.now }
{
    match cause {
        Cause::Down { nbr, .. } => Some(*nbr),
        Cause::Flush { nbr } => Some(*nbr),
        _ => None,
    }
}

// Removes the rows of the neighbour that the entry flushes, or whose session it ends.
fn let_go(cause: &Cause, held: &mut HeldBack)
    ensures none { emptied cause.now ≡ None → held.new.rows ≡ held.old.rows }
    ensures some { (v : ℕ) → emptied cause.now ≡ Some v → held.new.rows ≡ rows_without v held.old.rows }
    ensures from { held.new.from ≡ held.old.from }
{
    if let Some(nbr) = emptied(cause) {
        held.forget(nbr);
    }
}

// Whether the neighbour is offered a path of the prefix at this place that differs from the one it knows.
fn is_moved<P: Policy + Copy>(
    routes: &RouteState<P>,
    turn: &Turn<'_>,
    listener: &Listener,
    place: usize,
) -> bool
    requires same_prefixes { prefixes_of turn.now.before.now ≡ prefixes_of turn.now.after.now }
    requires same { AreSame turn.now.before.now turn.now.after.now turn.now.same.now }
    requires within { place < length turn.now.after.now }
    ensures { (policy : P) (net : Net) (u : ℕ) (h : List Entry) (k : Entry) (o : Offer) →
        StandsFor policy net u routes.now (k.read ∷ reads h) →
        AreChosen (P.rules policy) net u (reads h) turn.now.before.now →
        AreChosen (P.rules policy) net u (k.read ∷ reads h) turn.now.after.now →
        has (neighbours net u) listener.now.nbr ≡ true → slice_get turn.now.after.now place ≡ Some o →
        result ≡ differs (making (P.rules policy) net u h k) listener.now.knows listener.now.nbr o.prefix }
{
    if listener.knows && turn.same[place] {
        return false;
    }
    let to = routes.relation_to(listener.nbr);
    let offered = routes.path_for(&turn.after[place].chosen, to);
    !same(offered, known(routes, &turn.before[place], listener, to))
}

// Holds back an update of each prefix whose offer to the neighbour differs from the path that it knows.
fn gather<P: Policy + Copy>(
    routes: &RouteState<P>,
    turn: &Turn<'_>,
    listener: &Listener,
    held: &mut HeldBack,
) -> Result<(), NoMemory>
    requires same_prefixes { prefixes_of turn.now.before.now ≡ prefixes_of turn.now.after.now }
    requires same { AreSame turn.now.before.now turn.now.after.now turn.now.same.now }
    ensures rows { OnOk result ((policy : P) (net : Net) (u : ℕ) (h : List Entry) (k : Entry) →
        StandsFor policy net u routes.now (k.read ∷ reads h) → k.triggers ≡ turn.now.triggers.now →
        AreChosen (P.rules policy) net u (reads h) turn.now.before.now →
        AreChosen (P.rules policy) net u (k.read ∷ reads h) turn.now.after.now →
        has (neighbours net u) listener.now.nbr ≡ true →
        held.new.rows ≡ put_all listener.now.nbr listener.now.session
        (updates_over (making (P.rules policy) net u h k) listener.now.knows listener.now.nbr (prefixes_of turn.now.after.now))
        held.old.rows) }
    ensures from { held.new.from ≡ held.old.from }
{
    for place in 0..turn.after.len() {
        if !is_moved(routes, turn, listener, place) {
            continue;
        }
        held.put(
            listener.nbr,
            listener.session,
            turn.after[place].prefix,
            turn.triggers,
        )?;
    }
    Ok(())
}

// Holds back what changes for the neighbour at this place, if the node holds back from it.
fn gather_at<P: Policy + Copy>(
    routes: &RouteState<P>,
    sessions: &Sessions,
    place: usize,
    turn: &Turn<'_>,
    held: &mut HeldBack,
) -> Result<(), NoMemory>
    requires same_prefixes { prefixes_of turn.now.before.now ≡ prefixes_of turn.now.after.now }
    requires same { AreSame turn.now.before.now turn.now.after.now turn.now.same.now }
    requires within { place < length sessions.now.rows }
    ensures part { OnOk result ((policy : P) (net : Net) (u : ℕ) (h : List Entry) (k : Entry) →
        Enters policy (making (P.rules policy) net u h k) routes.now turn.now → ListsFor k.read.scope k.triggers →
        AreRows (P.rules policy) net u (k ∷ h) sessions.now.rows → place < length (neighbours net u) →
        HoldsPart (making (P.rules policy) net u h k) place held.old →
        HoldsPart (making (P.rules policy) net u h k) (place + 1) held.new) }
{
    let mark = sessions.newest(place);
    if !held.holds(mark.nbr) {
        return Ok(());
    }
    if !mark.is_ready() {
        return Ok(());
    }
    let listener = Listener {
        nbr: mark.nbr,
        session: mark.session,
        sent: mark.sent,
        knows: !readies(turn.cause, mark.nbr),
    };
    // the triggers ascend, as the list of a new row must
    let _rising = turn.triggers.as_slice();
    Ok(gather(routes, turn, &listener, held)?)
}

// Holds back what changes for each neighbour from which the node holds back.
fn gather_all<P: Policy + Copy>(
    routes: &RouteState<P>,
    sessions: &Sessions,
    turn: &Turn<'_>,
    held: &mut HeldBack,
) -> Result<(), NoMemory>
    requires same_prefixes { prefixes_of turn.now.before.now ≡ prefixes_of turn.now.after.now }
    requires same { AreSame turn.now.before.now turn.now.after.now turn.now.same.now }
    ensures kept { OnOk result ((policy : P) (net : Net) (u : ℕ) (h : List Entry) (k : Entry) →
        Enters policy (making (P.rules policy) net u h k) routes.now turn.now → ListsFor k.read.scope k.triggers →
        AreRows (P.rules policy) net u (k ∷ h) sessions.now.rows →
        HoldsPart (making (P.rules policy) net u h k) 0 held.old → HoldsBack (P.rules policy) net u (k ∷ h) held.new) }
{
    for place in 0..sessions.len() {
        gather_at(routes, sessions, place, turn, held)?;
    }
    Ok(())
}

/// Updates what is held back after an entry. The rows of the neighbour that the entry flushes, or whose session it
/// ends, are removed; for the other neighbours the changes of the entry are added. If the node holds back from nobody,
/// nothing is looked at.
pub fn hold_back<P: Policy + Copy>(
    routes: &RouteState<P>,
    sessions: &Sessions,
    turn: &Turn<'_>,
    held: &mut HeldBack,
) -> Result<(), NoMemory>
    requires same_prefixes { prefixes_of turn.now.before.now ≡ prefixes_of turn.now.after.now }
    requires same { AreSame turn.now.before.now turn.now.after.now turn.now.same.now }
    ensures kept { OnOk result ((policy : P) (net : Net) (u : ℕ) (h : List Entry) (k : Entry) →
        Enters policy (making (P.rules policy) net u h k) routes.now turn.now → ListsFor k.read.scope k.triggers →
        AreRows (P.rules policy) net u (k ∷ h) sessions.now.rows →
        HoldsBack (P.rules policy) net u h held.old → HoldsBack (P.rules policy) net u (k ∷ h) held.new) }
{
    if held.is_free() {
        return Ok(());
    }
    let_go(turn.cause, held);
    Ok(gather_all(routes, sessions, turn, held)?)
}
