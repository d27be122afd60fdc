//! The links of a network.
ghost use Rattle.std.specs.Prelude.{ℕ, ◌≡◌, ◌<◌, ◌≤◌, ◌-◌, ◌^◌, [], ◌∷◌, List, Some, true, false, not, length, slice_get, nat_lt, IfOk, OnErr, IfSome, IfNone};
ghost use Rattle.topology.specs.declared.items.Item.{Item as Carried};
ghost use Rattle.topology.specs.Net.{Net, linked};
ghost use Rattle.topology.specs.LinkStates.{carries, is_up, number_of};
ghost use Rattle.link_model.specs.declared.way_set.TheConstants.{MOST_WAYS};
ghost use Rattle.link_model.specs.Acts.{LinkActs, Push, Take, Fail, Restore};
ghost use Rattle.link_model.specs.Readings.{state, channel_after};
ghost use Rattle.link_model.specs.Tables.{ways_of};
ghost use Rattle.link_model.specs.Ways.{OneWay, emptied, unused, has_items, holds_some};
ghost use Rattle.link_model.specs.WaySets.{has_number};

use crate::channels::Channel;
use crate::way_set::WaySet;
use crate::way_table::WayTable;
use std::alloc::Global;
use topology::{Item, LinkState, NoMemory, NodeId, Session, Topology, Way};

/// The links of a network, with a channel for each way. A call that names two nodes promises nothing unless they have a
/// link.
#[derive(Drop)]
pub struct Links {
    table: WayTable,
    // The channel of each way, at the way's number.
    channels: Vec<Channel>,
    // The ways on which something is.
    busy: WaySet,
    // A guess at the number of the way of the next item that is sent: the items of an entry go to its neighbours in
    // ascending order.
    likely: usize,
    ghost sized: { length channels.items ≡ length table },
    ghost few: { length table ≤ MOST_WAYS },
    ghost marked: { (number : ℕ) → has_number busy number ≡ holds_some (slice_get channels.items number) },
}

// So many channels, each of a link that is up in session 1, with nothing on its way.
fn fresh_channels(alloc: Global, count: usize) -> Result<Vec<Channel>, NoMemory>
    ensures length { IfOk result (λ channels. length channels.items ≡ count) }
    ensures each { IfOk result (λ channels. (way : ℕ) (kept : OneWay) → slice_get channels.items way ≡ Some kept → kept ≡ unused) }
{
    let mut channels = Vec::with_capacity(alloc, count)?;
    for _way in 0..count {
        channels.push(Channel::new(alloc))?;
    }
    Ok(channels)
}

impl Links {
    ghost use Rattle.link_model.specs.Keeping.{Ways, Keeps, IsPlaced, replaced};
    ghost use Rattle.link_model.specs.Standing.{StandsFor, IsChannel};

    /// The links of a network, each up in session 1, with nothing on its way.
    pub fn new(alloc: Global, topology: &Topology) -> Result<Links, NoMemory>
        ensures { IfOk result (λ links. StandsFor topology.now links []) }
    {
        let _valid = topology.nodes();
        let table = WayTable::new(alloc, topology)?;
        let channels = fresh_channels(alloc, table.len())?;
        Ok(Links {
            table,
            channels,
            busy: WaySet::new(alloc)?,
            likely: 0,
        })
    }

    /// The number of the way from one node to another. Ways are numbered by sender, then by receiver. The answer is
    /// `None` where the two have no link. Takes no memory.
    #[inline(always)]
    pub fn way_of(&self, from: NodeId, to: NodeId) -> Option<usize>
        ensures some { IfSome result (λ way. IsPlaced self.now from to way) }
        ensures none { IfNone result ((net : Net) (ways : Ways) → Keeps net self.now ways →
            linked net from to ≡ false) }
        ensures few { IfSome result (λ way. way < MOST_WAYS) }
    {
        self.table.way_of(from, to)
    }

    // As `way_of`, and quicker where the guess at the number is right.
    #[inline(always)]
    fn way_near(&self, from: NodeId, to: NodeId, guess: usize) -> Option<usize>
        ensures some { IfSome result (λ way. IsPlaced self.now from to way) }
        ensures none { IfNone result ((net : Net) (ways : Ways) → Keeps net self.now ways →
            linked net from to ≡ false) }
        ensures few { IfSome result (λ way. way < MOST_WAYS) }
    {
        self.table.way_near(from, to, guess)
    }

    /// The way with this number. The answer is `None` exactly where no way has it.
    pub fn way(&self, number: usize) -> Option<Way>
        ensures { (net : Net) (acts : LinkActs) → StandsFor net self.now acts → result ≡ slice_get (ways_of net) number }
    {
        self.table.way(number)
    }

    /// The way from one node to another: the state of the link, and what is on its way. The answer is `None` where the
    /// two have no link. Takes no memory.
    pub fn channel(&self, from: NodeId, to: NodeId) -> Option<&Channel>
        ensures some { IfSome result (λ channel. (net : Net) (acts : LinkActs) → StandsFor net self.now acts →
            IsChannel acts from to channel.now) }
        ensures none { IfNone result ((net : Net) (acts : LinkActs) → StandsFor net self.now acts →
            linked net from to ≡ false) }
    {
        let way = self.way_of(from, to)?;
        Some(self.channel_at(way))
    }

    /// The way with this number: the state of the link, and what is on its way. Takes no memory.
    pub fn channel_at(&self, way: usize) -> &Channel
        requires { way < length self.now.table }
        ensures { (net : Net) (acts : LinkActs) (from to : ℕ) → StandsFor net self.now acts →
            IsPlaced self.now from to way → IsChannel acts from to result.now }
    {
        &self.channels[way]
    }

    /// All ways.
    pub fn all(&self, alloc: Global) -> Result<WaySet, NoMemory>
        ensures { IfOk result (λ ways. (way : ℕ) → has_number ways way ≡ nat_lt way (length self.now.table)) }
    {
        let mut ways = WaySet::new(alloc)?;
        for way in 0..self.table.len() {
            ways.put(way, true);
        }
        Ok(ways)
    }

    /// The ways on which something is. Takes no memory.
    pub fn busy(&self) -> &WaySet
        ensures placed { (net : Net) (acts : LinkActs) (from to way : ℕ) → StandsFor net self.now acts →
            IsPlaced self.now from to way → has_number result.now way ≡ has_items (channel_after from to acts) }
        ensures within { (way : ℕ) → length self.now.table ≤ way → has_number result.now way ≡ false }
    {
        &self.busy
    }

    /// Sends an item in a session. Returns true if the item is queued, and false if the link does not carry that
    /// session; then the item is lost.
    #[inline(always)]
    pub fn push(
        &mut self,
        from: NodeId,
        to: NodeId,
        session: Session,
        item: Item,
    ) -> Result<bool, NoMemory>
        ensures ok { IfOk result (λ queued. (net : Net) (acts : LinkActs) → StandsFor net self.old acts →
            linked net from to ≡ true → (queued ≡ carries (state from to acts) session) ×
            StandsFor net self.new (Push from to session item ∷ acts)) }
        ensures err { OnErr result (self.new ≡ self.old) }
    {
        let Some(way) = self.way_near(from, to, self.likely) else {
            return Ok(false);
        };
        let queued = self.channels[way].push(session, item)?;
        self.likely = way + 1;
        if queued {
            self.busy.put(way, true);
        }
        Ok(queued)
    }

    // Sets the state of the way's link, and loses what was on the way.
    fn restart(&mut self, way: usize, state: LinkState)
        requires { way < length self.old.table }
        ensures restarted { (net : Net) (ways : Ways) (from to : ℕ) → Keeps net self.old ways →
            IsPlaced self.old from to way → Keeps net self.new (replaced from to (emptied state) ways) }
        ensures table { self.new.table ≡ self.old.table }
    {
        self.channels[way].restart(state);
        self.busy.put(way, false);
    }

    /// Makes the link fail: what is on its way, in both directions, is lost. Returns false exactly where the link is
    /// down already. Takes no memory.
    pub fn fail(&mut self, a: NodeId, b: NodeId) -> bool
        ensures failed { (net : Net) (acts : LinkActs) → StandsFor net self.old acts → linked net a b ≡ true →
            (result ≡ is_up (state a b acts)) × StandsFor net self.new (Fail a b ∷ acts) }
        ensures unchanged { result ≡ false → self.new ≡ self.old }
    {
        let Some(way) = self.way_of(a, b) else {
            return false;
        };
        let Some(back) = self.way_of(b, a) else {
            return false;
        };
        let LinkState::Up(session) = self.channels[way].state() else {
            return false;
        };
        self.restart(way, LinkState::Down(session));
        self.restart(back, LinkState::Down(session));
        true
    }

    /// Brings the link up with the next session. Returns false exactly where it is up already, or its last session has
    /// the highest number. Takes no memory.
    pub fn restore(&mut self, a: NodeId, b: NodeId) -> bool
        ensures restored { (net : Net) (acts : LinkActs) → StandsFor net self.old acts → linked net a b ≡ true →
            number_of (state a b acts) < 2 ^ 32 - 1 →
            (is_up (state a b acts) ≡ not result) × StandsFor net self.new (Restore a b ∷ acts) }
        ensures last { (net : Net) (acts : LinkActs) → StandsFor net self.old acts → linked net a b ≡ true →
            number_of (state a b acts) ≡ 2 ^ 32 - 1 → result ≡ false }
        ensures unchanged { result ≡ false → self.new ≡ self.old }
    {
        let Some(way) = self.way_of(a, b) else {
            return false;
        };
        let Some(back) = self.way_of(b, a) else {
            return false;
        };
        let LinkState::Down(session) = self.channels[way].state() else {
            return false;
        };
        let Some(number) = session.number().checked_add(1) else {
            return false;
        };
        let next = Session::new(number);
        self.restart(way, LinkState::Up(next));
        self.restart(back, LinkState::Up(next));
        true
    }

    /// The state of the link of two nodes. Takes no memory.
    #[inline(always)]
    pub fn state(&self, a: NodeId, b: NodeId) -> LinkState
        ensures { (net : Net) (acts : LinkActs) → StandsFor net self.now acts → linked net a b ≡ true →
            result ≡ state a b acts }
    {
        match self.channel(a, b) {
            Some(channel) => channel.state(),
            None => LinkState::Down(Session::new(1)),
        }
    }

    /// As `state`, and quicker where the guess is right: it is one at the number of the way from the first node to the second.
    /// Sets the guess to the next number. So one guess serves for a node and its neighbours in ascending order. Takes no memory.
    #[inline(always)]
    pub fn state_near(&self, a: NodeId, b: NodeId, guess: &mut usize) -> LinkState
        ensures { (net : Net) (acts : LinkActs) → StandsFor net self.now acts → linked net a b ≡ true →
            result ≡ state a b acts }
    {
        let Some(way) = self.way_near(a, b, *guess) else {
            return LinkState::Down(Session::new(1));
        };
        *guess = way + 1;
        self.channel_at(way).state()
    }

    /// The oldest item on its way from one node to the other. Takes no memory.
    pub fn front(&self, from: NodeId, to: NodeId) -> Option<&Item>
        ensures some { IfSome result (λ item. (net : Net) (acts : LinkActs) → StandsFor net self.now acts →
            linked net from to ≡ true → (rest : List Carried) × (channel_after from to acts ≡ item.now ∷ rest)) }
        ensures none { IfNone result ((net : Net) (acts : LinkActs) → StandsFor net self.now acts →
            linked net from to ≡ true → channel_after from to acts ≡ []) }
    {
        let Some(channel) = self.channel(from, to) else {
            return None;
        };
        channel.front()
    }

    /// Removes and returns the oldest item on its way from one node to the other. Takes no memory.
    pub fn pop_front(&mut self, from: NodeId, to: NodeId) -> Option<Item>
        ensures some { IfSome result (λ item. (net : Net) (acts : LinkActs) → StandsFor net self.old acts →
            linked net from to ≡ true → (rest : List Carried) × (channel_after from to acts ≡ item ∷ rest) ×
            StandsFor net self.new (Take from to ∷ acts)) }
        ensures none { IfNone result ((net : Net) (acts : LinkActs) → StandsFor net self.old acts →
            linked net from to ≡ true → channel_after from to acts ≡ []) }
        ensures unchanged { IfNone result (self.new ≡ self.old) }
    {
        let Some(way) = self.way_of(from, to) else {
            return None;
        };
        self.pop_front_at(way)
    }

    /// Removes and returns the oldest item on the way with this number. Takes no memory.
    pub fn pop_front_at(&mut self, way: usize) -> Option<Item>
        requires { way < length self.old.table }
        ensures some { IfSome result (λ item. (net : Net) (acts : LinkActs) (from to : ℕ) → StandsFor net self.old acts →
            IsPlaced self.old from to way → (rest : List Carried) × (channel_after from to acts ≡ item ∷ rest) ×
            StandsFor net self.new (Take from to ∷ acts)) }
        ensures none { IfNone result ((net : Net) (acts : LinkActs) (from to : ℕ) → StandsFor net self.old acts →
            IsPlaced self.old from to way → channel_after from to acts ≡ []) }
        ensures unchanged { IfNone result (self.new ≡ self.old) }
    {
        let channel = &mut self.channels[way];
        let item = channel.pop_front()?;
        if !channel.is_empty() {
            return Some(item);
        }
        self.busy.put(way, false);
        Some(item)
    }
}
