//! The outputs of a node go to the links, the control network, the publications and the packets, and their effects to
//! the account.
ghost use Rattle.std.specs.Prelude.{◌≡◌, ◌∷◌, ◌++◌, [], ℕ, suc, Bool, true, is_some, List, Some, map, length, IfOk, OnOk, if◌then◌else◌};
ghost use Rattle.topology.specs.LinkStates.{carries};
ghost use Rattle.topology.specs.Lists.{has};
ghost use Rattle.topology.specs.Net.{Net, linked};
ghost use Rattle.trigger_log.specs.Going.{item_of};
ghost use Rattle.consolidator.specs.Seen.{message_seen};
ghost use Rattle.chronicle.specs.Control.{mailed};
ghost use Rattle.chronicle.specs.Facts.{Chronicle, Fact, Sent, Mail as Mailed, Visit as Came, End as Finished, happen};
ghost use Rattle.chronicle.specs.Links.{link};
ghost use Rattle.chronicle.specs.Walks.{standing, visit_of};
ghost use Rattle.node_core.specs.Entries.{first_of};
ghost use Rattle.node_core.specs.Firsts.{seen_first};
ghost use Rattle.node_core.specs.Outputs.{Hands, Output as OutputSeen, output_by, output_of};
ghost use Rattle.world_core.specs.Happening.{AreSending, KeepsNodes};
ghost use Rattle.world_core.specs.Matching.{AreLinks, AreMails, Counts};
ghost use Rattle.world_core.specs.Telling.{AreTold, IsTold, shown};
ghost use Rattle.run_record.specs.Walks.{AreWalksBut, IsPassing, still, still_after};
ghost use Rattle.run_record.specs.declared.outcomes.Effect.TheVariants.{Logged, Queued, Lost, Mailed as Shown, Published, Visited, Ended};

use crate::network::Network;
use consolidator::Mail;
use control_mail::Mails;
use epoch_packet::{End, Packet};
use link_model::Links;
use node_core::{First, Output};
use path_vector::Policy;
use run_record::{Account, Effect, Effects, Publication, Walks, Wanted, visit_of};
use stable_table::Table;
use std::alloc::Global;
use std::collections::VecDeque;
use std::rc::Rc;
use topology::{NoMemory, NodeId};
use trigger_log::Outgoing;

// Tells of an entry. Where no effects are wanted, none is made.
#[inline(always)]
fn tell_entry(node: NodeId, index: u32, account: &mut Account) -> Result<(), NoMemory>
    ensures wanted { OnOk result (account.new.wanted ≡ account.old.wanted) }
    ensures told { OnOk result (account.old.wanted ≡ Wanted.Effects → account.new.list ≡ account.old.list ++ Logged node index ∷ []) }
{
    if !account.wants_effects() {
        return Ok(());
    }
    account.tell(Effect::Logged { node, index })?;
    Ok(())
}

// The effect of an item that was sent.
fn shown(from: NodeId, to: NodeId, queued: bool) -> Effect
    ensures { result ≡ (if queued then Queued from to else Lost from to) }
{
    if queued {
        return Effect::Queued { from, to };
    }
    Effect::Lost { from, to }
}

// Tells of an item that was sent. Where no effects are wanted, none is made.
#[inline(always)]
fn tell_item(from: NodeId, to: NodeId, queued: bool, account: &mut Account) -> Result<(), NoMemory>
    ensures wanted { OnOk result (account.new.wanted ≡ account.old.wanted) }
    ensures told { OnOk result (account.old.wanted ≡ Wanted.Effects →
        account.new.list ≡ account.old.list ++ (if queued then Queued from to else Lost from to) ∷ []) }
{
    if !account.wants_effects() {
        return Ok(());
    }
    account.tell(shown(from, to, queued))?;
    Ok(())
}

// Sends an item. The item is queued where the link carries its session, and lost otherwise.
#[inline(always)]
fn send(
    from: NodeId,
    out: Outgoing,
    links: &mut Links,
    account: &mut Account,
) -> Result<(), NoMemory>
    ensures wanted { OnOk result (account.new.wanted ≡ account.old.wanted) }
    ensures done { OnOk result ((net : Net) (past : Chronicle) → linked net from out.to ≡ true → AreLinks net past links.old →
        let queued = carries (link from out.to past) out.session in
        AreLinks net (Sent from out.to out.session (item_of out.item) queued ∷ past) links.new
        × (account.old.wanted ≡ Wanted.Effects → account.new.list ≡ account.old.list ++ (if queued then Queued from out.to else Lost from out.to) ∷ [])) }
{
    let to = out.to;
    let queued = links.push(from, to, out.session, out.item)?;
    tell_item(from, to, queued, account)?;
    Ok(())
}

// Posts a control message under the next number.
fn post(from: NodeId, mail: Mail, mails: &mut Mails, account: &mut Account) -> Result<(), NoMemory>
    ensures wanted { OnOk result (account.new.wanted ≡ account.old.wanted) }
    ensures done { OnOk result ((net : Net) (past : Chronicle) (counts : Counts) → AreMails net past counts mails.old →
        has net.nodes from ≡ true → has net.nodes mail.to ≡ true →
        AreMails net (Mailed from mail.to (message_seen mail.message) ∷ past) counts mails.new
        × (account.old.wanted ≡ Wanted.Effects → account.new.list ≡ account.old.list ++ Shown (suc (length (mailed past))) ∷ [])) }
{
    mails.post(from, mail)?;
    let number = mails.count();
    account.tell(Effect::Mailed { number })?;
    Ok(())
}

// Keeps a table that a node published.
fn publish(
    alloc: Global,
    node: NodeId,
    table: Rc<Table>,
    publications: &mut Vec<Publication>,
    account: &mut Account,
) -> Result<(), NoMemory>
    ensures wanted { OnOk result (account.new.wanted ≡ account.old.wanted) }
    ensures kept { OnOk result (publications.new.items ≡ publications.old.items
        ++ record { node = node; epoch = table.value.epoch; value = table.value.value; paths = table.value.paths } ∷ []) }
    ensures shown { OnOk result (account.old.wanted ≡ Wanted.Effects → account.new.list ≡ account.old.list ++ Published node table.value.epoch ∷ []) }
{
    let epoch = table.epoch();
    publications.push(Publication::new(alloc, node, &table)?)?;
    account.tell(Effect::Published { node, epoch })?;
    Ok(())
}

// A packet comes to a node, or leaves the stable tables there.
fn forward(
    next: NodeId,
    packet: Box<Packet>,
    walks: &mut Walks,
    account: &mut Account,
) -> Result<(), NoMemory>
    ensures wanted { OnOk result (account.new.wanted ≡ account.old.wanted) }
    ensures done { OnOk result ((away : ℕ → Bool) (net : Net) (past : Chronicle) → AreWalksBut away net past walks.old → IsPassing net next packet.value →
        AreWalksBut (still (Came next packet.value) away) net (Came next packet.value ∷ past) walks.new
        × (account.old.wanted ≡ Wanted.Effects → account.new.list ≡ account.old.list ++ Visited packet.value.id (visit_of next packet.value) ∷ [])) }
{
    let number = packet.id;
    let visit = visit_of(next, &packet);
    walks.visit(next, packet)?;
    account.tell(Effect::Visited {
        packet: number,
        visit,
    })?;
    Ok(())
}

// The walk of a packet ended.
fn end(number: u32, end: End, walks: &mut Walks, account: &mut Account) -> Result<(), NoMemory>
    ensures wanted { OnOk result (account.new.wanted ≡ account.old.wanted) }
    ensures done { OnOk result ((away : ℕ → Bool) (net : Net) (past : Chronicle) → AreWalksBut away net past walks.old → is_some (standing number past) ≡ true →
        AreWalksBut (still (Finished number end) away) net (Finished number end ∷ past) walks.new
        × (account.old.wanted ≡ Wanted.Effects → account.new.list ≡ account.old.list ++ Ended number end ∷ [])) }
{
    walks.end(number, end);
    account.tell(Effect::Ended {
        packet: number,
        end,
    })?;
    Ok(())
}

impl<P: Policy + Copy> Network<P> {
    // Handles one output of a node, and adds its effect. It sends an item, posts a control message, keeps a table,
    // passes a packet on, or ends a walk. An entry and a cut change the account alone.
    #[inline(always)]
    fn hand(&mut self, node: NodeId, output: Output, account: &mut Account) -> Result<(), NoMemory>
        ensures kept { OnOk result (KeepsNodes self.old self.new) }
        ensures outputs { OnOk result (self.new.outputs ≡ self.old.outputs) }
        ensures wanted { OnOk result (account.new.wanted ≡ account.old.wanted) }
        ensures sending { OnOk result ((away : ℕ → Bool) (first past : Chronicle) (counts : Counts) (f : Fact) →
            IsTold self.old.topology.value node past f → output_by f past ≡ output_of output ∷ [] →
            AreSending away first past counts self.old account.old →
            AreSending (still f away) first (f ∷ past) counts self.new account.new) }
    {
        match output {
            Output::Logged { index } => tell_entry(node, index, account),
            Output::Cut { epoch } => account.tell(Effect::Cut { node, epoch }),
            Output::Send(out) => send(node, out, &mut self.links, account),
            Output::Mail(mail) => post(node, mail, &mut self.mails, account),
            Output::Published(table) => {
                publish(self.alloc, node, table, &mut self.publications, account)
            }
            Output::Forward { next, packet } => forward(next, packet, &mut self.walks, account),
            Output::Ended { id, end: how } => end(id, how, &mut self.walks, account),
        }
    }

    // Handles an entry, then the items that go out with it.
    #[inline(always)]
    fn hand_entry(
        &mut self,
        node: NodeId,
        index: u32,
        sent: Vec<Outgoing>,
        account: &mut Account,
    ) -> Result<(), NoMemory>
        ensures kept { OnOk result (KeepsNodes self.old self.new) }
        ensures outputs { OnOk result (self.new.outputs ≡ self.old.outputs) }
        ensures wanted { OnOk result (account.new.wanted ≡ account.old.wanted) }
        ensures sending { OnOk result ((away : ℕ → Bool) (first past : Chronicle) (counts : Counts) (facts : List Fact) →
            AreTold self.old.topology.value node past facts → map output_of (first_of (Some index) sent.items) ≡ shown past facts →
            AreSending away first past counts self.old account.old →
            AreSending (still_after facts away) first (happen past facts) counts self.new account.new) }
    {
        self.hand(node, Output::Logged { index }, account)?;
        let mut left = VecDeque::from_vec(sent);
        while let Some(out) = left.pop_front() {
            self.hand(node, Output::Send(out), account)?;
        }
        self.outputs.reuse(left.into_vec());
        Ok(())
    }

    // Handles the entry that stands first among the outputs, if one does.
    #[inline(always)]
    fn hand_first(
        &mut self,
        node: NodeId,
        leading: First,
        account: &mut Account,
    ) -> Result<(), NoMemory>
        ensures kept { OnOk result (KeepsNodes self.old self.new) }
        ensures outputs { OnOk result (self.new.outputs ≡ self.old.outputs) }
        ensures wanted { OnOk result (account.new.wanted ≡ account.old.wanted) }
        ensures sending { OnOk result ((away : ℕ → Bool) (first past : Chronicle) (counts : Counts) (facts : List Fact) →
            AreTold self.old.topology.value node past facts → map output_of (seen_first leading) ≡ shown past facts →
            AreSending away first past counts self.old account.old →
            AreSending (still_after facts away) first (happen past facts) counts self.new account.new) }
    {
        match leading {
            First::Nothing => Ok(()),
            First::Quiet(index) => self.hand(node, Output::Logged { index }, account),
            First::Telling(index, sent) => self.hand_entry(node, index, sent, account),
        }
    }

    // Handles the outputs behind the first entry, in their order. It is a call of its own, as most inputs have no such
    // outputs.
    #[inline(never)]
    fn hand_more(&mut self, node: NodeId, account: &mut Account) -> Result<(), NoMemory>
        ensures kept { OnOk result (KeepsNodes self.old self.new) }
        ensures wanted { OnOk result (account.new.wanted ≡ account.old.wanted) }
        ensures sending { OnOk result ((away : ℕ → Bool) (first past : Chronicle) (counts : Counts) (before : List OutputSeen) →
            ((fs : List Fact) → AreTold self.old.topology.value node past fs → before ≡ shown past fs →
            AreSending (still_after fs away) first (happen past fs) counts self.old account.old) →
            (facts : List Fact) → AreTold self.old.topology.value node past facts → before ++ map output_of self.old.outputs ≡ shown past facts →
            AreSending (still_after facts away) first (happen past facts) counts self.new account.new) }
    {
        let outputs = self.outputs.take_all()?;
        let mut left = VecDeque::from_vec(outputs);
        while let Some(output) = left.pop_front() {
            self.hand(node, output, account)?;
        }
        self.outputs.reuse_all(left.into_vec());
        Ok(())
    }

    /// Handles the outputs of a node, in their order, and returns their effects where the caller wants them. It is a call of its
    /// own, so that `Network::give` stays small enough to be inlined.
    #[inline(never)]
    pub fn hand_all(&mut self, node: NodeId, wanted: Wanted) -> Result<Effects, NoMemory>
        ensures kept { OnOk result (KeepsNodes self.old self.new) }
        ensures sending { IfOk result (λ effects. (away : ℕ → Bool) (first past : Chronicle) (counts : Counts) (facts : List Fact) →
            AreTold self.old.topology.value node past facts → Hands past self.old.outputs (happen past facts) →
            AreSending away first past counts self.old (record { wanted = wanted; list = [] }) →
            AreSending (still_after facts away) first (happen past facts) counts self.new (record { wanted = wanted; list = effects })) }
    {
        let mut account = Account::new(self.alloc, wanted);
        let leading = self.outputs.take_first();
        self.hand_first(node, leading, &mut account)?;
        if self.outputs.is_empty() {
            return Ok(account.into_effects());
        }
        self.hand_more(node, &mut account)?;
        Ok(account.into_effects())
    }
}
