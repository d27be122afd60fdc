//! Deliveries over ways that are open.
ghost use Rattle.std.specs.Prelude.{◌≡◌, true, length, IsTrue, OnOk, IfOk, IfErr, IfSome};
ghost use Rattle.topology.specs.Net.{linked};
ghost use Rattle.link_model.specs.Keeping.{IsPlaced};
ghost use Rattle.chronicle.specs.Deliveries.{arrives};
ghost use Rattle.chronicle.specs.Facts.{Chronicle};
ghost use Rattle.chronicle.specs.Run.{chronicle_of, does};
ghost use Rattle.world_core.specs.Counting.{MayDeliver};
ghost use Rattle.world_core.specs.Fits.{fits};
ghost use Rattle.world_core.specs.Happening.{HappensNext, IsAfterStep, IsAsWas, IsRegular, Stops};
ghost use Rattle.world_core.specs.Matching.{Counts, Stands};
ghost use Rattle.world_core.specs.Places.{HasPlaces};
ghost use Rattle.world_core.specs.OpenWays.{AreOpen};
ghost use Rattle.world_core.specs.WaySets.{has_way};
ghost use Rattle.run_record.specs.Walks.{HasWalks};

use crate::network::Network;
use chronicle::Event;
use link_model::WaySet;
use node_core::{Input, Stop};
use path_vector::Policy;
use run_record::{Outcome, Wanted};
use topology::{LinkState, NodeId, Reason};

impl<P: Policy + Copy> Network<P> {
    // Delivers the oldest item on the way with this number, on which a delivery would not be idle. Lists its effects
    // where the caller wants them.
    #[inline(always)]
    pub(crate) fn take(
        &mut self,
        from: NodeId,
        to: NodeId,
        way: usize,
        wanted: Wanted,
    ) -> Result<Outcome, Stop>
        requires near { linked self.old.topology.value from to ≡ true }
        requires places { HasPlaces self.old.topology.value (length self.old.nodes.items) }
        requires placed { IsPlaced self.old.links from to way }
        ensures others { OnOk result (IsAsWas self.old self.new) }
        ensures stands { OnOk result ((past : Chronicle) (counts : Counts) →
            Stands (P.rules self.old.policy) past counts self.old → IsRegular self.old.topology.value past → arrives past from to ≡ true →
            Stands (P.rules self.old.policy)
            (chronicle_of past (does (P.rules self.old.policy) self.old.topology.value past (Event.Deliver from to))) counts self.new) }
        ensures comes { IfOk result (λ outcome. wanted ≡ Wanted.Effects → (past : Chronicle) (counts : Counts) →
            Stands (P.rules self.old.policy) past counts self.old → IsRegular self.old.topology.value past → arrives past from to ≡ true →
            IsAfterStep (P.rules self.old.policy) past counts (does (P.rules self.old.policy) self.old.topology.value past (Event.Deliver from to)) self.new outcome) }
        ensures stopped { IfErr result (λ stop. (past : Chronicle) (counts : Counts) →
            Stands (P.rules self.old.policy) past counts self.old → IsRegular self.old.topology.value past → arrives past from to ≡ true →
            Stops (P.rules self.old.policy) self.old.topology.value past
            (does (P.rules self.old.policy) self.old.topology.value past (Event.Deliver from to)) stop) }
    {
        let LinkState::Up(session) = self.links.channel_at(way).state() else {
            return Ok(Outcome::Idle(Reason::LinkDown));
        };
        let Some(item) = self.links.pop_front_at(way) else {
            return Ok(Outcome::Idle(Reason::EmptyChannel));
        };
        self.give(
            to,
            Input::Arrive {
                from,
                session,
                item,
            },
            wanted,
        )
    }

    // The number of the way, where it is open and has an item on it.
    #[inline(always)]
    fn waiting_way(&self, from: NodeId, to: NodeId, open_ways: &WaySet) -> Option<usize>
        ensures placed { IfSome result (IsPlaced self.now.links from to) }
        ensures waits { IfSome result (λ way. (past : Chronicle) (counts : Counts) → Stands (P.rules self.now.policy) past counts self.now →
            AreOpen self.now.topology.value past (has_way self.now.topology.value open_ways.now) → arrives past from to ≡ true) }
    {
        let way = self.links.way_of(from, to)?;
        if !open_ways.has(way) {
            return None;
        }
        if !self.links.busy().has(way) {
            return None;
        }
        Some(way)
    }

    // Delivers the oldest item on the way. Over an open way with an item on it, it reads the channel alone.
    fn pass_over(&mut self, from: NodeId, to: NodeId, open_ways: &WaySet) -> Result<Outcome, Stop>
        requires near { linked self.old.topology.value from to ≡ true }
        requires places { HasPlaces self.old.topology.value (length self.old.nodes.items) }
        requires flags { HasPlaces self.old.topology.value (length self.old.crashed.items) }
        requires mails { MayDeliver self.old.topology.value self.old.mails }
        requires walks { HasWalks self.old.topology.value self.old.walks }
        ensures { HappensNext (λ past. AreOpen self.old.topology.value past (has_way self.old.topology.value open_ways.now))
            (P.rules self.old.policy) self.old (Event.Deliver from to) self.new result }
    {
        let Some(way) = self.waiting_way(from, to, open_ways) else {
            return self.happen(&Event::Deliver { from, to });
        };
        self.take(from, to, way, Wanted::Effects)
    }

    /// Does the event, and returns its outcome. Reads the open ways, and does not update them. After an `Err` the
    /// network is of no use.
    pub fn advance(&mut self, event: &Event, open_ways: &WaySet) -> Result<Outcome, Stop>
        requires fits { IsTrue (fits self.old.topology.value event.now) }
        requires places { HasPlaces self.old.topology.value (length self.old.nodes.items) }
        requires flags { HasPlaces self.old.topology.value (length self.old.crashed.items) }
        requires mails { MayDeliver self.old.topology.value self.old.mails }
        requires walks { HasWalks self.old.topology.value self.old.walks }
        ensures { HappensNext (λ past. AreOpen self.old.topology.value past (has_way self.old.topology.value open_ways.now))
            (P.rules self.old.policy) self.old event.now self.new result }
    {
        if let Event::Deliver { from, to } = event {
            return self.pass_over(*from, *to, open_ways);
        }
        self.happen(event)
    }
}
