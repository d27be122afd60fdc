//! The outcome of an event.
ghost use Rattle.std.specs.Prelude.{◌≡◌, ◌++◌, ◌∷◌, [], OnErr, OnOk};

use epoch_packet::{End, Visit};
use std::alloc::Global;
use std::marker::Model;
use std::slice;
use topology::{Epoch, NoMemory, NodeId, Reason};

/// One thing that an event did.
#[derive(Clone, Copy, Debug, PartialEq, Eq)]
pub enum Effect {
    /// The node made an entry. Its log has this many entries now.
    Logged { node: NodeId, index: u32 },
    /// An item was sent, and is on its way.
    Queued { from: NodeId, to: NodeId },
    /// An item was sent in a session that the link does not carry, and is lost.
    Lost { from: NodeId, to: NodeId },
    /// A control message was sent, with this number.
    Mailed { number: u32 },
    /// The epoch of the node rose to this one, and it took its cut.
    Cut { node: NodeId, epoch: Epoch },
    /// The node published its table of this epoch.
    Published { node: NodeId, epoch: Epoch },
    /// The packet came to a node, or left the stable tables there.
    Visited { packet: u32, visit: Visit },
    /// The walk of the packet ended.
    Ended { packet: u32, end: End },
}

// How many effects a list has room for when it is made.
const LIST_ROOM: usize = 4;

// The effects: none, one in place, or a list of two or more.
#[derive(Debug, Drop)]
enum Kept {
    Nothing,
    One(Effect),
    Many(Vec<Effect>),
}

/// The effects of an event, in their order. One effect takes no memory.
#[derive(Debug, Drop)]
pub struct Effects {
    kept: Kept,
}

impl Model for Effects {
    ghost use Rattle.std.specs.Prelude.{List};
    ghost use Rattle.run_record.specs.declared.outcomes.Effect.{Effect};
    ghost use Rattle.run_record.specs.EffectLists.{listed_effects};

    ghost Value = { List Effect };

    ghost view = { λ e. listed_effects e.kept };
}

impl Effects {
    /// No effect. Takes no memory.
    pub fn none() -> Effects
        ensures { result ≡ [] }
    {
        Effects {
            kept: Kept::Nothing,
        }
    }

    /// Adds an effect behind the others. After want of memory the effects are as they were.
    pub(crate) fn push(&mut self, alloc: Global, effect: Effect) -> Result<(), NoMemory>
        ensures ok { OnOk result (self.new ≡ self.old ++ effect ∷ []) }
        ensures err { OnErr result (self.new ≡ self.old) }
    {
        match &mut self.kept {
            Kept::Nothing => self.kept = Kept::One(effect),
            Kept::One(first) => {
                let mut list = Vec::with_capacity(alloc, LIST_ROOM)?;
                list.push(*first)?;
                list.push(effect)?;
                self.kept = Kept::Many(list);
            }
            Kept::Many(list) => {
                // Reserve first, which saves a copy.
                list.reserve(1)?;
                list.push_reserved(effect);
            }
        }
        Ok(())
    }

    /// The effects, the first one first.
    pub fn as_slice(&self) -> &[Effect]
        ensures { result.now ≡ self.now }
    {
        match &self.kept {
            Kept::Nothing => &[],
            Kept::One(effect) => slice::from_ref(effect),
            Kept::Many(list) => list,
        }
    }
}

/// The outcome of an event.
#[derive(Debug, Drop)]
pub enum Outcome {
    Did(Effects),
    /// The event did nothing, for this reason.
    Idle(Reason),
}
