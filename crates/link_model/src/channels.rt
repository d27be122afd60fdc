//! One direction of a link.
ghost use Rattle.std.specs.Prelude.{◌≡◌, ◌<◌, [], ◌∷◌, not, IfOk, OnOk, OnErr, IfSome, IfNone};
ghost use Rattle.std.specs.VecDeque.{deque_capacity, deque_len};
ghost use Rattle.topology.specs.LinkStates.{carries};
ghost use Rattle.link_model.specs.Readings.{behind_front};
ghost use Rattle.link_model.specs.Ways.{unused, emptied, after_push, has_items};

use std::alloc::Global;
use std::collections::VecDeque;
use std::marker::Model;
use topology::{Item, LinkState, NoMemory, Session};

/// One direction of a link, from a node to a neighbour: the state of the link, and the items on their way, the oldest
/// first.
#[derive(Drop)]
pub struct Channel {
    state: LinkState,
    items: VecDeque<Item>,
}

impl Model for Channel {
    ghost use Rattle.link_model.specs.Ways.{OneWay};

    ghost Value = { OneWay };

    ghost view = { λ c. record { state = c.state; items = c.items.items } };
}

// Makes room for one more item. Mostly there is room already.
#[inline(always)]
fn make_room(items: &mut VecDeque<Item>) -> Result<(), NoMemory>
    ensures items { items.new.items ≡ items.old.items }
    ensures room { OnOk result (deque_len items.new < deque_capacity items.new) }
{
    if items.len() < items.capacity() {
        return Ok(());
    }
    items.reserve(1)?;
    Ok(())
}

impl Channel {
    /// A link that is up in session 1, with nothing on its way. Takes no memory.
    pub fn new(alloc: Global) -> Channel
        ensures { result ≡ unused }
    {
        Channel {
            state: LinkState::Up(Session::new(1)),
            items: VecDeque::new(alloc),
        }
    }

    /// The state of the link.
    pub fn state(&self) -> LinkState
        ensures { result ≡ self.now.state }
    {
        self.state
    }

    /// Sends an item in a session. Returns true if the item is queued, and false if the link does not carry that
    /// session; then the item is lost.
    #[inline(always)]
    pub fn push(&mut self, session: Session, item: Item) -> Result<bool, NoMemory>
        ensures ok { IfOk result (λ queued. queued ≡ carries self.old.state session) }
        ensures new { IfOk result (λ queued. self.new ≡ after_push session item self.old) }
        ensures err { OnErr result (self.new ≡ self.old) }
    {
        if self.state != LinkState::Up(session) {
            return Ok(false);
        }
        // Reserve first: a push that may fail would have to be ready to give the item back.
        make_room(&mut self.items)?;
        self.items.push_back_reserved(item);
        Ok(true)
    }

    /// Sets the state of the link, and loses what was on its way. Takes no memory.
    pub fn restart(&mut self, state: LinkState)
        ensures { self.new ≡ emptied state }
    {
        self.state = state;
        self.items.clear();
    }

    /// Whether nothing is on its way. Takes no memory.
    pub fn is_empty(&self) -> bool
        ensures { result ≡ not (has_items self.now.items) }
    {
        self.items.is_empty()
    }

    /// The oldest item on its way. Takes no memory.
    pub fn front(&self) -> Option<&Item>
        ensures some { IfSome result (λ item. self.now.items ≡ item.now ∷ behind_front self.now.items) }
        ensures none { IfNone result (self.now.items ≡ []) }
    {
        self.items.front()
    }

    /// Removes and returns the oldest item on its way. Takes no memory.
    pub fn pop_front(&mut self) -> Option<Item>
        ensures some { IfSome result (λ item. self.old.items ≡ item ∷ self.new.items) }
        ensures state { self.new.state ≡ self.old.state }
        ensures none { IfNone result (self.old.items ≡ []) }
        ensures unchanged { IfNone result (self.new ≡ self.old) }
    {
        self.items.pop_front()
    }
}
