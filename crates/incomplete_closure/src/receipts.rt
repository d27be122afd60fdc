//! Receipts: how many updates the other end of each session of a node has received.
ghost use Rattle.std.specs.Prelude.{ℕ, ◌≡◌, ◌+◌, ◌≤◌, ◌<◌, length, IfOk, IfSome, IsTrue};
ghost use Rattle.incomplete_closure.specs.declared.session_table.SessionTable.{SessionTable as AnyTable};
ghost use Rattle.incomplete_closure.specs.Receipts.{AreReceipts, IsReceipt, IsSettled};

use crate::reports::received_of;
use crate::session_table::SessionTable;
use crate::steps::Steps;
use crate::{Report, SessionRow};
use std::alloc::Global;
use std::marker::Model;
use std::sync::ledger::Ledger;
use topology::{NoMemory, NodeId, SentRef, Session};

// A session with a neighbour.
#[derive(Clone, Copy, Debug, PartialEq, Eq, PartialOrd, Ord)]
struct NbrSession {
    nbr: NodeId,
    session: Session,
}

/// What the reports tell of a session at its other end: how many updates that node has received there, or, where it has no
/// report, the greatest number.
#[derive(Clone, Copy, Debug)]
pub(crate) struct Receipt {
    with: NbrSession,
    received: u32,
}

/// The receipts of the sessions of a report, in the order of these.
#[derive(Drop)]
pub(crate) struct Receipts {
    list: Vec<Receipt>,
    likely: LikelyReceipts,
}

impl Model for Receipts {
    ghost use Rattle.std.specs.Prelude.{List};
    ghost use Rattle.incomplete_closure.specs.declared.receipts.Receipt.{Receipt};

    ghost Value = { List Receipt };

    ghost view = { λ r. r.list.items };
}

// The number of guesses.
const SLOTS: usize = 64;

// Guesses at the place of each receipt in a list. There is one for each neighbour, found by the low bits of its number: where the
// receipt of its session 0 would stand, if its sessions are numbered one after the other. The caller must check a guess, and search
// where it is wrong.
#[derive(Clone, Copy, Debug)]
struct LikelyReceipts {
    firsts: [usize; SLOTS],
}

// The index of the guess for a node.
fn slot_of(node: NodeId) -> usize
    ensures { result < 64 }
{
    node.number() as usize % SLOTS
}

impl LikelyReceipts {
    // The guesses for the receipts of a list. The last session of a neighbour counts.
    fn of(list: &[Receipt]) -> LikelyReceipts {
        let mut firsts = [0; SLOTS];
        for place in 0..list.len() {
            let with = list[place].with;
            firsts[slot_of(with.nbr)] = place.wrapping_sub(with.session.number() as usize);
        }
        LikelyReceipts { firsts }
    }

    // The place where the receipt of the session may be.
    fn guess(&self, nbr: NodeId, session: Session) -> usize {
        self.firsts[slot_of(nbr)].wrapping_add(session.number() as usize)
    }
}

// The receipt of a session of node `from`.
fn receipt_of(table: &SessionTable, from: NodeId, row: &SessionRow) -> Receipt
    ensures { IsReceipt table.now from result }
{
    let with = NbrSession {
        nbr: row.nbr,
        session: row.session,
    };
    if !table.has_node(row.nbr) {
        return Receipt {
            with,
            received: u32::MAX,
        };
    }
    let told = table.row(row.nbr, from, row.session);
    Receipt {
        with,
        received: received_of(&told),
    }
}

impl Receipts {
    /// The receipts of the sessions of a report.
    #[tactic(auto, using(crate::proofs::Settled::one_receipt_more))]
    pub(crate) fn of<L: Ledger>(
        alloc: Global,
        table: &SessionTable,
        report: &Report,
        steps: &mut Steps<L>,
    ) -> Result<Receipts, NoMemory>
        ensures receipts { IfOk result (λ receipts. AreReceipts table.now report.now.node receipts) }
        ensures most { steps.new ≤ steps.old + length report.now.sessions }
        ensures least { steps.old ≤ steps.new }
    {
        let mut list = Vec::new(alloc);
        for row in report.sessions.as_slice() {
            steps.take();
            list.push(receipt_of(table, report.node, row))?;
        }
        let likely = LikelyReceipts::of(&list);
        Ok(Receipts { list, likely })
    }

    // Whether the receipt at this place shows that nothing is open of the item. None, where it is of another session.
    #[tactic(auto, using(crate::proofs::Settled::receipt_settles))]
    fn settles_at(&self, place: usize, item: &SentRef<'_>) -> Option<bool>
        ensures { IfSome result (λ settled. IsTrue settled → (table : AnyTable) (from : ℕ) →
            AreReceipts table from self.now → IsSettled table from item.now) }
    {
        let Some(receipt) = self.list.get(place) else {
            return None;
        };
        if receipt.with.nbr != item.to {
            return None;
        }
        if receipt.with.session != item.session {
            return None;
        }
        Some(item.seq <= receipt.received)
    }

    // The place of the receipt of the session. The sessions of a report ascend, as a rule, so it is searched for by halves.
    #[inline(never)]
    fn search(&self, with: NbrSession) -> Option<usize> {
        self.list
            .binary_search_by_key(&with, |receipt| receipt.with)
            .ok()
    }

    // As `is_settled`, where the guess is wrong. Where no receipt is found, the table has to be asked.
    fn is_settled_elsewhere(&self, item: &SentRef<'_>) -> bool
        ensures { IsTrue result → (table : AnyTable) (from : ℕ) → AreReceipts table from self.now → IsSettled table from item.now }
    {
        let with = NbrSession {
            nbr: item.to,
            session: item.session,
        };
        let Some(place) = self.search(with) else {
            return false;
        };
        match self.settles_at(place, item) {
            Some(settled) => settled,
            None => false,
        }
    }

    /// Whether a receipt shows that nothing is open of the item: its receiver has it, or has no report.
    #[inline(always)]
    pub(crate) fn is_settled(&self, item: &SentRef<'_>) -> bool
        ensures { IsTrue result → (table : AnyTable) (from : ℕ) → AreReceipts table from self.now → IsSettled table from item.now }
    {
        match self.settles_at(self.likely.guess(item.to, item.session), item) {
            Some(settled) => settled,
            None => self.is_settled_elsewhere(item),
        }
    }
}
