//! For each member, up to which number all messages to it were delivered.
ghost use Rattle.std.specs.Prelude.{ℕ, ◌≡◌, ◌≤◌, List, length, IfOk};
ghost use Rattle.std.specs.BTreeSet.{BTreeSet as AnySet};
ghost use Rattle.topology.specs.declared.limits.TheConstants.{MOST_CONTROL};
ghost use Rattle.leadership.specs.Fronts.{AreFronts, IsFront, IsLow, front_of, passes};
ghost use Rattle.leadership.specs.declared.mails.Letter.{Letter as AnyLetter};

use crate::mails::Letter;
use crate::sites::Site;
use std::alloc::Global;
use std::collections::BTreeSet;
use topology::{NoMemory, NodeId};

/// Of the first `count` messages, all those to the member were delivered.
#[derive(Clone, Copy, Debug)]
pub struct Front {
    pub node: NodeId,
    pub count: usize,
}

// Whether the message with this number is for another member, or was delivered.
fn passes(numbers: &BTreeSet<u32>, node: NodeId, number: u32, letter: &Letter) -> bool
    ensures { result ≡ passes numbers.now node number letter.now }
{
    letter.to != node || numbers.contains(&number)
}

// How far the front of a member reaches, at least as far as `known`.
fn front_from(numbers: &BTreeSet<u32>, letters: &[Letter], node: NodeId, known: usize) -> usize
    requires few { length letters.now ≤ MOST_CONTROL }
    requires known { IsFront node numbers.now letters.now known }
    ensures { IsFront node numbers.now letters.now result }
{
    for i in known..letters.len() {
        let number = i as u32 + 1;
        if !passes(numbers, node, number, &letters[i]) {
            return i;
        }
    }
    letters.len()
}

/// The fronts of these members before any delivery.
pub(crate) fn fronts_of(alloc: Global, members: &[NodeId]) -> Result<Vec<Front>, NoMemory>
    ensures { IfOk result (λ fronts. (numbers : AnySet ℕ) (letters : List AnyLetter) → AreFronts fronts.items numbers letters) }
{
    let mut fronts = Vec::new(alloc);
    for node in members {
        fronts.push(Front {
            node: *node,
            count: 0,
        })?;
    }
    Ok(fronts)
}

/// Moves each front as far as it may go.
pub(crate) fn advance(fronts: &mut Vec<Front>, numbers: &BTreeSet<u32>, letters: &[Letter])
    requires few { length letters.now ≤ MOST_CONTROL }
    requires known { AreFronts fronts.old.items numbers.now letters.now }
    ensures { AreFronts fronts.new.items numbers.now letters.now }
{
    for i in 0..fronts.len() {
        let Front { node, count } = fronts[i];
        let count = front_from(numbers, letters, node, count);
        fronts[i] = Front { node, count };
    }
}

// How far the front of the member reaches.
fn front_of(fronts: &[Front], node: NodeId) -> usize
    ensures { result ≡ front_of node fronts.now }
{
    for front in fronts {
        if front.node == node {
            return front.count;
        }
    }
    0
}

/// How far the fronts of all running members reach, at most `count`.
pub(crate) fn lowest(fronts: &[Front], sites: &[Site], count: usize) -> usize
    ensures { IsLow fronts.now sites.now count result }
{
    let mut low = count;
    for site in sites {
        if !site.crashed {
            low = low.min(front_of(fronts, site.node));
        }
    }
    low
}
