//! What a node hands out.
ghost use Rattle.std.specs.Prelude.{◌≡◌, ◌↔◌, [], ◌∷◌, ◌++◌, Some, IsTrue, IfOk, OnOk};
ghost use Rattle.trigger_log.specs.Entries.{entry};
ghost use Rattle.trigger_log.specs.Standing.{dropped_of};
ghost use Rattle.node_core.specs.Entering.{AddsEntry, HandsEntry};
ghost use Rattle.node_core.specs.Entries.{first_of};
ghost use Rattle.node_core.specs.Firsts.{seen_first};
ghost use Rattle.node_core.specs.declared.outputs.Stop.TheVariants.{NoMemory};

use consolidator::Mail;
use epoch_packet::{End, Packet};
use path_vector::{Cause, Policy};
use stable_table::Table;
use std::alloc::Global;
use std::marker::Model;
use std::mem;
use std::rc::Rc;
use topology::{Epoch, LimitKind, NoMemory, NodeId, Reason, Scope, Topology, Triggers};
use trigger_log::{NodeLog, Outgoing};

/// One thing that a node did.
#[derive(Debug, Drop)]
pub enum Output {
    /// The node made an entry. The log has this many entries now.
    Logged { index: u32 },
    /// The epoch of the node rose, and it took its cut.
    Cut { epoch: Epoch },
    /// An item for a neighbour, in a session.
    Send(Outgoing),
    /// A control message for a node, which may be the node itself.
    Mail(Mail),
    /// The node published this table. It is the last output of its input.
    Published(Rc<Table>),
    /// A packet for a neighbour, as it leaves the node. It is for the node itself where it enters the network, and where
    /// it leaves the stable tables.
    Forward { next: NodeId, packet: Box<Packet> },
    /// The walk of the packet with this number ended here.
    Ended { id: u32, end: End },
}

/// The outputs of one input, the oldest first. Most inputs make one entry: it and the items that go out with it stand
/// first, in the log's own list, and all other outputs stand behind them. The next input uses the memory of the lists again.
#[derive(Debug, Drop)]
pub struct OutputList {
    alloc: Global,
    // The length of the log behind the entry that stands first. None where no entry stands first.
    logged: Option<u32>,
    // The items that go out with that entry. Where no entry stands first, the contents mean nothing.
    sent: Vec<Outgoing>,
    // The other outputs.
    more: Vec<Output>,
}

/// The entry that stands first in a list of outputs.
#[derive(Debug, Drop)]
pub enum First {
    /// No entry stands first.
    Nothing,
    /// An entry that sends no item, by the length of the log behind it.
    Quiet(u32),
    /// An entry, by the length of the log behind it, and the items that go out with it.
    Telling(u32, Vec<Outgoing>),
}

impl Model for OutputList {
    ghost use Rattle.std.specs.Prelude.{List, ◌++◌};
    ghost use Rattle.node_core.specs.declared.outputs.Output.{Output};
    ghost use Rattle.node_core.specs.Entries.{first_of};

    ghost Value = { List Output };

    ghost view = { λ o. first_of o.logged o.sent.items ++ o.more.items };
}

// Adds an entry, then the items that go out with it.
fn enter_all(index: u32, sent: Vec<Outgoing>, outputs: &mut Vec<Output>) -> Result<(), NoMemory>
    ensures { OnOk result (outputs.new.items ≡ outputs.old.items ++ first_of (Some index) sent.items) }
{
    outputs.push(Output::Logged { index })?;
    for out in sent {
        outputs.push(Output::Send(out))?;
    }
    Ok(())
}

impl OutputList {
    /// No outputs. Takes no memory.
    pub fn new(alloc: Global) -> OutputList
        ensures { result ≡ [] }
    {
        OutputList {
            alloc,
            logged: None,
            sent: Vec::new(alloc),
            more: Vec::new(alloc),
        }
    }

    /// Whether there are none. Takes no memory.
    #[inline(always)]
    pub fn is_empty(&self) -> bool
        ensures { IsTrue result ↔ (self.now ≡ []) }
    {
        self.logged.is_none() && self.more.is_empty()
    }

    /// Removes all outputs. Takes no memory.
    #[inline(always)]
    pub(crate) fn clear(&mut self)
        ensures { self.new ≡ [] }
    {
        if self.is_empty() {
            return;
        }
        self.logged = None;
        self.more.clear();
    }

    /// Adds an output.
    pub(crate) fn push(&mut self, output: Output) -> Result<(), NoMemory>
        ensures { OnOk result (self.new ≡ self.old ++ output ∷ []) }
    {
        self.more.push(output)?;
        Ok(())
    }

    /// Makes an entry in the log, and adds it and the items that go out with it. The entry must fit the log, and must list
    /// a trigger unless it concerns nothing.
    #[inline(always)]
    pub(crate) fn enter<P: Policy + Copy>(
        &mut self,
        log: Box<NodeLog<P>>,
        topology: &Topology,
        triggers: Triggers,
        scope: Scope,
        cause: Cause,
    ) -> Result<Box<NodeLog<P>>, NoMemory>
        ensures log { IfOk result (λ longer. AddsEntry P.rules topology.now (entry triggers scope cause) log.value longer.value) }
        ensures outputs { OnOk result (HandsEntry P.rules topology.now (entry triggers scope cause) log.value self.old self.new) }
        ensures dropped { IfOk result (λ longer. dropped_of longer.value ≡ dropped_of log.value) }
    {
        if !self.is_empty() {
            return Ok(self.enter_behind(log, topology, triggers, scope, cause)?);
        }
        let longer = NodeLog::append_boxed(log, topology, triggers, scope, cause, &mut self.sent)?;
        self.logged = Some(longer.len());
        Ok(longer)
    }

    // Does what `enter` does, behind other outputs.
    #[inline(never)]
    fn enter_behind<P: Policy + Copy>(
        &mut self,
        log: Box<NodeLog<P>>,
        topology: &Topology,
        triggers: Triggers,
        scope: Scope,
        cause: Cause,
    ) -> Result<Box<NodeLog<P>>, NoMemory>
        ensures log { IfOk result (λ longer. AddsEntry P.rules topology.now (entry triggers scope cause) log.value longer.value) }
        ensures outputs { OnOk result (HandsEntry P.rules topology.now (entry triggers scope cause) log.value self.old self.new) }
        ensures dropped { IfOk result (λ longer. dropped_of longer.value ≡ dropped_of log.value) }
    {
        let mut sent = Vec::new(self.alloc);
        let longer = NodeLog::append_boxed(log, topology, triggers, scope, cause, &mut sent)?;
        enter_all(longer.len(), sent, &mut self.more)?;
        Ok(longer)
    }

    /// Removes the entry that stands first, and answers it. Takes no memory.
    #[inline(always)]
    pub fn take_first(&mut self) -> First
        ensures { self.old ≡ seen_first result ++ self.new }
    {
        let Some(index) = self.logged else {
            return First::Nothing;
        };
        self.logged = None;
        if self.sent.is_empty() {
            return First::Quiet(index);
        }
        First::Telling(index, mem::replace(&mut self.sent, Vec::new(self.alloc)))
    }

    /// Keeps this list's memory for the items of the next entry. Its contents mean nothing.
    #[inline(always)]
    pub fn reuse(&mut self, list: Vec<Outgoing>)
        ensures { self.new ≡ self.old }
    {
        if self.logged.is_none() {
            self.sent = list;
        }
    }

    /// Removes all outputs, and answers them. Takes no memory where no entry stands first.
    #[inline(always)]
    pub fn take_all(&mut self) -> Result<Vec<Output>, NoMemory>
        ensures taken { IfOk result (λ list. list.items ≡ self.old) }
        ensures left { OnOk result (self.new ≡ []) }
    {
        if self.logged.is_some() {
            let alloc = self.alloc;
            let all = mem::replace(self, OutputList::new(alloc));
            return Ok(all.into_vec()?);
        }
        Ok(mem::replace(&mut self.more, Vec::new(self.alloc)))
    }

    /// Keeps the memory of this empty list for the outputs behind the next entry.
    #[inline(always)]
    pub fn reuse_all(&mut self, list: Vec<Output>)
        requires { list.items ≡ [] }
        ensures { self.new ≡ self.old }
    {
        if self.more.is_empty() {
            self.more = list;
        }
    }

    /// All outputs as one list.
    pub fn into_vec(self) -> Result<Vec<Output>, NoMemory>
        ensures { IfOk result (λ list. list.items ≡ self) }
    {
        let OutputList {
            alloc,
            logged,
            sent,
            mut more,
        } = self;
        let Some(index) = logged else {
            return Ok(more);
        };
        let mut list = Vec::new(alloc);
        enter_all(index, sent, &mut list)?;
        list.append(&mut more)?;
        Ok(list)
    }
}

/// A node's answer to an input.
#[derive(Debug, Drop)]
pub enum Outputs {
    Did(OutputList),
    /// The node did nothing, for this reason.
    Idle(Reason),
}

/// Why a step was not made.
#[derive(Clone, Copy, Debug, PartialEq, Eq)]
pub enum Stop {
    NoMemory,
    /// The step would take this count above this number.
    Limit(LimitKind, u32),
}

impl From<NoMemory> for Stop {
    ghost from_gives = { λ _ stop. stop ≡ NoMemory };

    fn from(_: NoMemory) -> Stop {
        Stop::NoMemory
    }
}
