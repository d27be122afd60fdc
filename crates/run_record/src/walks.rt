//! The packets of a world, and their walks.
ghost use Rattle.std.specs.Prelude.{◌≡◌, ◌∷◌, ◌++◌, ◌==◌, [], ℕ, Bool, true, None, Some, find, length, is_some, position, OnOk, OnErr, IfOk, IfErr};
ghost use Rattle.std.specs.List.{list_any};
ghost use Rattle.std.specs.Option.{option_copied};
ghost use Rattle.topology.specs.Net.{Net};
ghost use Rattle.chronicle.specs.Facts.{Chronicle, Visit as Came, End as Finished};
ghost use Rattle.chronicle.specs.Run.{does};
ghost use Rattle.chronicle.specs.Steps.{Idle};
ghost use Rattle.chronicle.specs.Walks.{standing, visit_of};
ghost use Rattle.path_vector.specs.Rules.{Rules};
ghost use Rattle.run_record.specs.Finding.{IsFound};
ghost use Rattle.run_record.specs.Walks.{AreWalks, AreWalksBut, IsPassing, MayGo, Takes, is_of, still};

use chronicle::Event;
use epoch_packet::{End, Packet, Visit};
use indexmap::IndexSet;
use std::alloc::Global;
use std::marker::Model;
use topology::{NoMemory, NodeId, Reason};

/// The visit of a packet that comes to the node, or leaves the stable tables there.
pub fn visit_of(node: NodeId, packet: &Packet) -> Visit
    ensures { result ≡ visit_of node packet.now }
{
    Visit {
        node,
        mode: packet.mode,
        epoch: packet.epoch,
    }
}

/// A packet that entered the network: the node where it stands, its state there, its visits, and the end of its walk.
#[derive(Drop)]
pub struct Journey {
    number: u32,
    node: NodeId,
    // None while a node handles it, and after its walk has ended.
    packet: Option<Box<Packet>>,
    // The oldest first.
    visits: Vec<Visit>,
    end: Option<End>,
}

impl Model for Journey {
    ghost use Rattle.std.specs.Prelude.{option_map};
    ghost use Rattle.run_record.specs.Walks.{JourneyView};

    ghost Value = { JourneyView };

    ghost view = { λ j. record { number = j.number; node = j.node; packet = option_map (λ b. b.value) j.packet; visits = j.visits.items; ending = j.end } };
}

impl Journey {
    // The packet enters the network at the node.
    fn begin(alloc: Global, node: NodeId, packet: Box<Packet>) -> Result<Journey, NoMemory>
        ensures { IfOk result (λ journey. journey ≡ record { number = packet.value.id; node = node; packet = Some packet.value; visits = visit_of node packet.value ∷ []; ending = None }) }
    {
        let mut visits = Vec::new(alloc);
        visits.push(visit_of(node, &packet))?;
        Ok(Journey {
            number: packet.id,
            node,
            packet: Some(packet),
            visits,
            end: None,
        })
    }

    // The packet comes to the node, or leaves the stable tables there.
    fn go_on(&mut self, node: NodeId, packet: Box<Packet>) -> Result<(), NoMemory>
        ensures ok { OnOk result (self.new ≡ record self.old { node = node; packet = Some packet.value; visits = self.old.visits ++ visit_of node packet.value ∷ [] }) }
        ensures err { OnErr result (self.new ≡ self.old) }
    {
        self.visits.push(visit_of(node, &packet))?;
        self.node = node;
        self.packet = Some(packet);
        Ok(())
    }

    // Its walk ends.
    fn finish(&mut self, end: End)
        ensures { self.new ≡ record self.old { ending = Some end } }
    {
        self.end = Some(end);
    }

    /// The node where the packet stands, or stood when its walk ended.
    pub fn node(&self) -> NodeId
        ensures { result ≡ self.now.node }
    {
        self.node
    }

    // Takes the packet out, for a node that handles it.
    fn take(&mut self) -> Box<Packet>
        requires { is_some self.old.packet ≡ true }
        ensures packet { self.old.packet ≡ Some result.value }
        ensures journey { self.new ≡ record self.old { packet = None } }
    {
        self.packet.take().unwrap()
    }

    /// The visits of the walk, the oldest first.
    pub fn visits(&self) -> &[Visit]
        ensures { result.now ≡ self.now.visits }
    {
        &self.visits
    }

    /// The end of the walk. None while the walk goes on.
    pub fn end(&self) -> Option<End>
        ensures { result ≡ self.now.ending }
    {
        self.end
    }
}

// A packet that was found: its number, and its place among all packets.
#[derive(Clone, Copy)]
struct Found {
    number: u32,
    place: usize,
}

/// All packets, in the order in which they entered the network. They are found by their numbers.
#[derive(Drop)]
pub struct Walks {
    numbers: IndexSet<u32>,
    // At the place of its number.
    journeys: Vec<Journey>,
    // The packet that was found last, which is mostly the next one to be found.
    recent: Option<Found>,
}

impl Model for Walks {
    ghost use Rattle.std.specs.Prelude.{◌≡◌, List, map};
    ghost use Rattle.run_record.specs.Walks.{JourneyView, number_of};
    ghost use Rattle.run_record.specs.Finding.{IsFound};

    ghost Value = { List JourneyView };

    ghost view = { λ w. w.journeys.items };

    ghost invariant = { λ w. (w.numbers.keys ≡ map number_of w.journeys.items) × IsFound w.recent w.numbers.keys };
}

// The place of a number. The one that was found last is tried first.
#[inline(always)]
fn place_of(numbers: &IndexSet<u32>, recent: &Option<Found>, number: u32) -> Option<usize>
    requires { IsFound recent.now numbers.now.keys }
    ensures index { result ≡ position (λ n. number == n) numbers.now.keys }
    ensures found { is_some result ≡ list_any (λ n. number == n) numbers.now.keys }
{
    if let Some(found) = recent {
        if found.number == number {
            return Some(found.place);
        }
    }
    numbers.get_index_of(&number)
}

impl Walks {
    /// No packet.
    pub fn new(alloc: Global) -> Walks
        ensures { result ≡ [] }
    {
        Walks {
            numbers: IndexSet::new(alloc),
            journeys: Vec::new(alloc),
            recent: None,
        }
    }

    /// How many packets entered the network.
    pub fn count(&self) -> usize
        ensures { result ≡ length self.now }
    {
        self.journeys.len()
    }

    /// The packet with this number. None exactly where none entered the network.
    pub fn of(&self, number: u32) -> Option<&Journey>
        ensures { option_copied result ≡ find (is_of number) self.now }
    {
        let place = place_of(&self.numbers, &self.recent, number)?;
        Some(&self.journeys[place])
    }

    // A packet with a new number enters the network.
    fn enter(&mut self, node: NodeId, packet: Box<Packet>) -> Result<(), NoMemory>
        requires { find (is_of packet.value.id) self.old ≡ None }
        ensures ok { OnOk result (self.new ≡ self.old ++ record { number = packet.value.id; node = node; packet = Some packet.value; visits = visit_of node packet.value ∷ []; ending = None } ∷ []) }
        ensures err { OnErr result (self.new ≡ self.old) }
    {
        let number = packet.id;
        let journey = Journey::begin(*self.journeys.allocator(), node, packet)?;
        self.numbers.reserve(1)?;
        self.journeys.push(journey)?;
        self.numbers.insert(number).unwrap();
        self.recent = None;
        Ok(())
    }

    /// The packet comes to a node, or leaves the stable tables there. After want of memory the walks are as they were.
    pub fn visit(&mut self, node: NodeId, packet: Box<Packet>) -> Result<(), NoMemory>
        ensures ok { OnOk result ((away : ℕ → Bool) (net : Net) (past : Chronicle) → AreWalksBut away net past self.old →
            IsPassing net node packet.value →
            AreWalksBut (still (Came node packet.value) away) net (Came node packet.value ∷ past) self.new) }
        ensures err { OnErr result (self.new ≡ self.old) }
    {
        let number = packet.id;
        let Some(place) = place_of(&self.numbers, &self.recent, number) else {
            self.enter(node, packet)?;
            return Ok(());
        };
        self.journeys[place].go_on(node, packet)?;
        self.recent = Some(Found { number, place });
        Ok(())
    }

    /// Takes out the packet and the node where it stands, or returns the reason for which it does not go on. The packet
    /// is away until it comes to a node, or its walk ends.
    pub fn take(&mut self, number: u32) -> Result<(NodeId, Box<Packet>), Reason>
        requires { MayGo number self.old }
        ensures taken { IfOk result (λ r. (net : Net) (past : Chronicle) → AreWalks net past self.old →
            Takes net past number r.0 r.1.value self.new) }
        ensures reason { IfErr result (λ reason. (rules : Rules) (net : Net) (past : Chronicle) → AreWalks net past self.old →
            does rules net past (Event.Hop number) ≡ Idle reason) }
        ensures unchanged { OnErr result (self.new ≡ self.old) }
    {
        let Some(place) = place_of(&self.numbers, &self.recent, number) else {
            return Err(Reason::NoSuchPacket);
        };
        let journey = &self.journeys[place];
        if journey.end().is_some() {
            return Err(Reason::PacketEnded);
        }
        let node = journey.node();
        let packet = self.journeys[place].take();
        self.recent = Some(Found { number, place });
        Ok((node, packet))
    }

    /// The walk of the packet ends.
    pub fn end(&mut self, number: u32, end: End)
        ensures { (away : ℕ → Bool) (net : Net) (past : Chronicle) → AreWalksBut away net past self.old →
            is_some (standing number past) ≡ true →
            AreWalksBut (still (Finished number end) away) net (Finished number end ∷ past) self.new }
    {
        if let Some(place) = place_of(&self.numbers, &self.recent, number) {
            self.journeys[place].finish(end);
        }
    }
}
