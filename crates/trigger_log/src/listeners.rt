//! What an entry tells one neighbour.
ghost use Rattle.std.specs.Prelude.{ℕ, suc, ◌≡◌, ◌<◌, ◌∷◌, [], ◌++◌, true, None, length, map, option_map, if◌then◌else◌, List, IfOk};
ghost use Rattle.std.specs.Option.{option_copied};
ghost use Rattle.topology.specs.Lists.{has, same_nodes, same_path};
ghost use Rattle.topology.specs.Net.{Net, neighbours, relation};
ghost use Rattle.path_vector.specs.Standing.{StandsFor};
ghost use Rattle.path_vector.specs.History.{History};
ghost use Rattle.path_vector.specs.Selection.{best};
ghost use Rattle.path_vector.specs.Answers.{Copies};
ghost use Rattle.path_vector.specs.Offers.{offer};
ghost use Rattle.trigger_log.specs.BestRoutes.{KeepsRoutes};
ghost use Rattle.trigger_log.specs.Going.{going_of};
ghost use Rattle.trigger_log.specs.Entries.{Entry, reads};
ghost use Rattle.trigger_log.specs.Making.{making};
ghost use Rattle.trigger_log.specs.Offered.{AreChosen, AreSame, prefixes_of, updates_over};
ghost use Rattle.trigger_log.specs.HoldingBack.{ArePlacedRows, row_update, row_updates};
ghost use Rattle.trigger_log.specs.Telling.{TellsUpdates, silence, speech_of, update_going};

use crate::best_routes::BestRoutes;
use crate::counters::next_number;
use crate::offers::Offer;
use crate::outgoing::{Outgoing, forget};
use crate::pending_list::is_to;
use path_vector::{Cause, Policy, RouteState};
use std::alloc::Global;
use topology::{
    Item, NoMemory, NodeId, Path, Pending, PrefixId, Relation, SentList, Session, Triggers,
};

fn same_slice(a: &[NodeId], b: &[NodeId]) -> bool
    ensures { result ≡ same_nodes a.now b.now }
{
    match a {
        [] => b.is_empty(),
        [x, xs @ ..] => match b {
            [] => false,
            [y, ys @ ..] => *x == *y && same_slice(xs, ys),
        },
    }
}

/// Whether both are the same path, or both are `None`.
pub fn same(a: Option<&Path>, b: Option<&Path>) -> bool
    ensures { result ≡ same_path (option_copied a.entry) (option_copied b.entry) }
{
    match (a, b) {
        (None, None) => true,
        (None, Some(_)) => false,
        (Some(_), None) => false,
        (Some(a), Some(b)) => same_slice(a.nodes(), b.nodes()),
    }
}

fn copy(path: Option<&Path>) -> Result<Option<Path>, NoMemory>
    ensures { IfOk result (λ copy. copy ≡ option_copied path.entry) }
{
    match path {
        None => Ok(None),
        Some(path) => Ok(Some(path.copy()?)),
    }
}

/// What an entry tells: the items that it lists, and the messages that go out. The memory of both lists is used again
/// for the next entry.
#[derive(Drop)]
pub struct Said {
    pub sent: SentList,
    pub outgoing: Vec<Outgoing>,
    /// The path that was made last for a best route, to be used again where the next one is the same. No contract
    /// mentions it.
    pub made: Option<Path>,
}

impl Said {
    /// Empty lists. Takes no memory.
    pub fn new(alloc: Global) -> Said
        ensures { speech_of result ≡ silence }
    {
        Said {
            sent: SentList::new(alloc),
            outgoing: Vec::new(alloc),
            made: None,
        }
    }

    /// Empties both lists.
    pub fn clear(&mut self)
        ensures { speech_of self.new ≡ silence }
    {
        self.sent.clear();
        forget(&mut self.outgoing);
    }
}

/// A neighbour while an entry is made: the session that is ready with it after the entry, how many items were sent in
/// that session, and whether the neighbour knows the offers from before the entry.
#[derive(Clone, Copy)]
pub struct Listener {
    pub nbr: NodeId,
    pub session: Session,
    pub sent: u32,
    pub knows: bool,
}

/// An entry while it is made: its triggers and cause, the best routes of its prefixes before and after it, and for each
/// prefix whether the best route stays the same.
#[derive(Drop)]
pub struct Turn<'a> {
    pub triggers: &'a Triggers,
    pub cause: &'a Cause,
    pub before: &'a [Offer],
    pub after: &'a [Offer],
    pub same: &'a [bool],
    /// The best routes of all prefixes after the entry.
    pub best: &'a BestRoutes,
}

/// The path that the neighbour knows; `None` if it knows no offer. `to` is what the neighbour is to the node.
#[inline(always)]
pub fn known<'a, P: Policy + Copy>(
    routes: &RouteState<P>,
    before: &'a Offer,
    listener: &Listener,
    to: Option<Relation>,
) -> Option<&'a Path>
    ensures { (policy : P) (net : Net) (u : ℕ) (h now : History) → StandsFor policy net u routes.now now →
        Copies net u before.now.chosen (best (P.rules policy) net u h before.now.prefix) →
        to ≡ relation net u listener.now.nbr →
        option_map (λ path. path.now) result
        ≡ (if listener.now.knows then offer (P.rules policy) net u h before.now.prefix listener.now.nbr else None) }
{
    if !listener.knows {
        return None;
    }
    routes.path_for(&before.chosen, to)
}

// Lists one more update. Returns its number.
#[inline(always)]
fn say(
    listener: &Listener,
    count: u32,
    prefix: PrefixId,
    triggers: &Triggers,
    path: Option<&Path>,
    said: &mut Said,
) -> Result<u32, NoMemory>
    ensures count { IfOk result (λ seq. seq ≡ suc count) }
    ensures sent { IfOk result (λ seq. said.new.sent
        ≡ said.old.sent ++ record { to = listener.now.nbr; session = listener.now.session; seq = seq; triggers = triggers.now } ∷ []) }
    ensures outgoing { IfOk result (λ seq. map going_of said.new.outgoing.items
        ≡ map going_of said.old.outgoing.items ++ update_going listener.now seq (record { prefix = prefix; triggers = triggers.now; path = option_copied path.entry }) ∷ []) }
{
    let seq = next_number(count)?;
    let path = copy(path)?;
    let carried = triggers.copy()?;
    said.sent
        .push(listener.nbr, listener.session, seq, triggers)?;
    // Reserve first, as in `KeptEntries::push`.
    said.outgoing.reserve(1)?;
    said.outgoing.push_reserved(Outgoing {
        to: listener.nbr,
        session: listener.session,
        item: Item::Update {
            prefix,
            seq,
            triggers: carried,
            path,
        },
    });
    Ok(seq)
}

/// Lists an update of each prefix whose offer differs from the path that the neighbour knows. Returns how many items
/// were then sent in its session.
pub fn tell<P: Policy + Copy>(
    routes: &RouteState<P>,
    turn: &Turn<'_>,
    listener: &Listener,
    said: &mut Said,
) -> Result<u32, NoMemory>
    requires same_prefixes { prefixes_of turn.now.before.now ≡ prefixes_of turn.now.after.now }
    requires same { AreSame turn.now.before.now turn.now.after.now turn.now.same.now }
    ensures { IfOk result (λ count. (policy : P) (net : Net) (u : ℕ) (h : List Entry) (k : Entry) →
        StandsFor policy net u routes.now (k.read ∷ reads h) → k.triggers ≡ turn.now.triggers.now →
        AreChosen (P.rules policy) net u (reads h) turn.now.before.now →
        AreChosen (P.rules policy) net u (k.read ∷ reads h) turn.now.after.now →
        has (neighbours net u) listener.now.nbr ≡ true →
        TellsUpdates listener.now (updates_over (making (P.rules policy) net u h k) listener.now.knows listener.now.nbr (prefixes_of turn.now.after.now))
        (speech_of said.old) (speech_of said.new) count) }
{
    let to = routes.relation_to(listener.nbr);
    let mut count = listener.sent;
    for i in 0..turn.after.len() {
        if listener.knows && turn.same[i] {
            continue;
        }
        let offer = &turn.after[i];
        let before = &turn.before[i];
        let offered = routes.path_for(&offer.chosen, to);
        if same(offered, known(routes, before, listener, to)) {
            continue;
        }
        count = say(listener, count, offer.prefix, turn.triggers, offered, said)?;
    }
    Ok(count)
}

// The path that the neighbour is offered now.
fn offered_now<'a, P: Policy + Copy>(
    routes: &RouteState<P>,
    kept: &'a BestRoutes,
    prefix: PrefixId,
    nbr: NodeId,
) -> Option<&'a Path>
    ensures { (policy : P) (net : Net) (u : ℕ) (now : History) →
        StandsFor policy net u routes.now now → KeepsRoutes net u (best (P.rules policy) net u now) kept.now →
        has (neighbours net u) nbr ≡ true → prefix < length net.prefixes →
        option_map (λ path. path.now) result ≡ offer (P.rules policy) net u now prefix nbr }
{
    let offer = kept.get(prefix)?;
    routes.offered_path(&offer.chosen, nbr)
}

// Lists the update of one row that was held back. Returns its number.
fn tell_row<P: Policy + Copy>(
    routes: &RouteState<P>,
    kept: &BestRoutes,
    row: &Pending,
    listener: &Listener,
    count: u32,
    said: &mut Said,
) -> Result<u32, NoMemory>
    ensures count { IfOk result (λ seq. seq ≡ suc count) }
    ensures sent { IfOk result (λ seq. said.new.sent
        ≡ said.old.sent ++ record { to = listener.now.nbr; session = listener.now.session; seq = seq; triggers = row.now.triggers } ∷ []) }
    ensures outgoing { IfOk result (λ seq. (policy : P) (net : Net) (u : ℕ) (now : History) →
        StandsFor policy net u routes.now now → KeepsRoutes net u (best (P.rules policy) net u now) kept.now →
        has (neighbours net u) listener.now.nbr ≡ true → row.now.prefix < length net.prefixes →
        map going_of said.new.outgoing.items ≡ map going_of said.old.outgoing.items
        ++ update_going listener.now seq (row_update (P.rules policy) net u now row.now listener.now.nbr) ∷ []) }
{
    let offered = offered_now(routes, kept, row.prefix, listener.nbr);
    Ok(say(listener, count, row.prefix, &row.triggers, offered, said)?)
}

/// Lists an update for each row of the neighbour: what is offered now, for the triggers of the row. Returns how many
/// items were then sent in its session.
pub fn tell_held<P: Policy + Copy>(
    routes: &RouteState<P>,
    kept: &BestRoutes,
    rows: &[Pending],
    listener: &Listener,
    said: &mut Said,
) -> Result<u32, NoMemory>
    ensures { IfOk result (λ count. (policy : P) (net : Net) (u : ℕ) (now : History) →
        StandsFor policy net u routes.now now → KeepsRoutes net u (best (P.rules policy) net u now) kept.now →
        has (neighbours net u) listener.now.nbr ≡ true → ArePlacedRows net rows.now →
        TellsUpdates listener.now (row_updates (P.rules policy) net u now rows.now listener.now.nbr)
        (speech_of said.old) (speech_of said.new) count) }
{
    let mut count = listener.sent;
    for place in 0..rows.len() {
        let row = &rows[place];
        if !is_to(row, listener.nbr) {
            continue;
        }
        count = tell_row(routes, kept, row, listener, count, said)?;
    }
    Ok(count)
}
