//! The state of a world, which each step changes in place.
ghost use Rattle.std.specs.Prelude.{◌≡◌, ◌<◌, ◌≤◌, [], ◌∷◌, ◌++◌, Some, None, length, option_map, IsTrue, IfOk, IfErr, IfSome, IfNone, OnOk};
ghost use Rattle.topology.specs.declared.ways.Way.{Way};
ghost use Rattle.chronicle.specs.Deliveries.{next_delivery};
ghost use Rattle.chronicle.specs.Run.{run, step};
ghost use Rattle.topology.specs.declared.limits.TheConstants.{MOST_EVENTS};
ghost use Rattle.run_record.specs.Effects.{Tells};
ghost use Rattle.world_core.specs.Fits.{fits};
ghost use Rattle.world_core.specs.Holding.{AddsEvent, AddsDelivery, Holds, IsNext};
ghost use Rattle.node_core.specs.NodeLimits.{StopsAt};
ghost use Rattle.world_core.specs.Limits.{limit_of};
ghost use Rattle.world_core.specs.Sound.{IsNoStray};
ghost use Rattle.world_core.specs.Stepping.{IsStep};

use crate::laws;
use crate::network::Network;
use chronicle::Event;
use link_model::WaySet;
use node_core::Stop;
use path_vector::Policy;
use run_record::{Outcome, Wanted};
use topology::limits::MOST_EVENTS;
use topology::{LimitKind, NoMemory, NodeId};

/// A network, its open ways, and the events so far.
#[derive(Drop)]
pub struct WorldState<P: Policy + Copy> {
    pub network: Network<P>,
    /// The open ways. A way is open where the delivery of an item on it would not be idle.
    pub open_ways: WaySet,
    /// The events so far, the oldest first.
    pub events: Vec<Event>,
}

// Adds an event. Reserve first, which saves a copy.
#[inline(always)]
fn keep(events: &mut Vec<Event>, event: Event) -> Result<(), NoMemory>
    ensures { OnOk result (events.new.items ≡ events.old.items ++ event ∷ []) }
{
    events.reserve(1)?;
    events.push_reserved(event);
    Ok(())
}

impl<P: Policy + Copy> WorldState<P> {
    // Stops where the run has as many events as it may have.
    #[inline(always)]
    fn check_events(&self) -> Result<(), Stop>
        ensures ok { OnOk result (length self.now.events.items < MOST_EVENTS) }
        ensures stopped { IfErr result (λ stop. (stop ≡ Stop.Limit LimitKind.Events MOST_EVENTS) × (MOST_EVENTS ≤ length self.now.events.items)) }
    {
        if self.events.len() >= MOST_EVENTS as usize {
            return Err(Stop::Limit(LimitKind::Events, MOST_EVENTS));
        }
        Ok(())
    }

    /// Does the event, adds it to the events, and returns its outcome. After an `Err` the state is of no use.
    #[inline(always)]
    pub fn happen(&mut self, event: Event) -> Result<Outcome, Stop>
        requires holds { Holds P.rules self.old }
        requires fits { IsTrue (fits self.old.network.topology.value event) }
        ensures holds { OnOk result (Holds P.rules self.new) }
        ensures follows { OnOk result (AddsEvent event self.old self.new) }
        ensures outcome { IfOk result (λ outcome.
            let past = run (P.rules self.old.network.policy) self.old.network.topology.value self.old.events.items in
            Tells past (step (P.rules self.old.network.policy) self.old.network.topology.value past event) outcome) }
        ensures reasons { IfOk result IsNoStray }
        ensures step { OnOk result (IsStep (P.rules self.old.network.policy) self.old.network.topology.value self.old.events.items event) }
        ensures stopped { IfErr result (StopsAt
            (limit_of (P.rules self.old.network.policy) self.old.network.topology.value self.old.events.items event)) }
    {
        self.check_events()?;
        laws::a_step_is_lawful();
        let outcome = self.network.advance(&event, &self.open_ways)?;
        self.network.refresh(&event, &mut self.open_ways);
        keep(&mut self.events, event)?;
        Ok(outcome)
    }

    /// The number of the way of the next delivery: the first open way with an item on it. Takes no memory, and reads no
    /// channel.
    #[inline(always)]
    pub fn next(&self) -> Option<usize>
        requires { Holds P.rules self.now }
        ensures some { IfSome result (IsNext self.now.network.topology.value
            (run (P.rules self.now.network.policy) self.now.network.topology.value self.now.events.items)) }
        ensures none { IfNone result (next_delivery self.now.network.topology.value
            (run (P.rules self.now.network.policy) self.now.network.topology.value self.now.events.items) ≡ None) }
    {
        self.open_ways.first_common(self.network.links.busy())
    }

    /// Does the next delivery without effects, and returns its way, or None where there is no delivery. After an `Err`
    /// the state is of no use.
    #[inline(always)]
    pub fn deliver_next(&mut self) -> Result<Option<(NodeId, NodeId)>, Stop>
        requires { Holds P.rules self.old }
        ensures holds { OnOk result (Holds P.rules self.new) }
        ensures way { IfOk result (λ way. way ≡ option_map (λ (way : Way). (way.from, way.to)) (next_delivery self.old.network.topology.value
            (run (P.rules self.old.network.policy) self.old.network.topology.value self.old.events.items))) }
        ensures follows { IfOk result (λ way. AddsDelivery way self.old self.new) }
        ensures step { IfOk result (λ way. IfSome way (λ ends.
            IsStep (P.rules self.old.network.policy) self.old.network.topology.value self.old.events.items (Event.Deliver ends.0 ends.1))) }
        ensures stopped { IfErr result (λ stop. (way : Way)
            × (next_delivery self.old.network.topology.value
            (run (P.rules self.old.network.policy) self.old.network.topology.value self.old.events.items) ≡ Some way)
            × StopsAt (limit_of (P.rules self.old.network.policy) self.old.network.topology.value self.old.events.items
            (Event.Deliver way.from way.to)) stop) }
    {
        let Some(number) = self.next() else {
            return Ok(None);
        };
        let way = self.network.links.way(number).unwrap();
        self.check_events()?;
        laws::a_step_is_lawful();
        let (from, to) = (way.from, way.to);
        self.network.take(from, to, number, Wanted::NoEffects)?;
        keep(&mut self.events, Event::Deliver { from, to })?;
        Ok(Some((from, to)))
    }
}
