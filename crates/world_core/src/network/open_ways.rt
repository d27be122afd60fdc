//! Updates the set of open ways after an event.
ghost use Rattle.std.specs.Prelude.{◌≡◌, true, ◌∷◌, ◌++◌, [], List, IfSome, IsTrue, IfNone, if◌then◌else◌};
ghost use Rattle.topology.specs.declared.ways.Way.{Way as Direction};
ghost use Rattle.topology.specs.Net.{Net, linked};
ghost use Rattle.chronicle.specs.Facts.{Chronicle};
ghost use Rattle.world_core.specs.Fits.{fits};
ghost use Rattle.world_core.specs.Matching.{Counts, Stands};
ghost use Rattle.world_core.specs.Refreshing.{AreOpenBut, is_outage, link_ways, node_ways, ways_to, way};
ghost use Rattle.chronicle.specs.Run.{after};
ghost use Rattle.world_core.specs.OpenWays.{AreOpen, is_open};
ghost use Rattle.world_core.specs.WaySets.{has_way};

use crate::network::Network;
use crate::network::events::is_carried;
use chronicle::Event;
use link_model::WaySet;
use path_vector::Policy;
use topology::{NodeId, Way};

// The way that the event may open or close: over its link, to the node whose session it opens or closes. Where the
// event fails or restores the link, one of the two ways. None where the event changes neither link nor session.
fn way_of(event: &Event) -> Option<Way>
    ensures some { IfSome result (λ one. link_ways event.now ≡ one ∷ (if is_outage event.now then way one.to one.from ∷ [] else [])) }
    ensures none { IfNone result (link_ways event.now ≡ []) }
{
    let (from, to) = match event {
        Event::Deliver { .. } => return None,
        Event::Originate { .. } | Event::Withdraw { .. } => return None,
        Event::Prefer { .. } | Event::Snap { .. } => return None,
        Event::Propose { .. } | Event::Control { .. } | Event::Flush { .. } => return None,
        Event::Crash { .. } | Event::Restart { .. } => return None,
        Event::Inject { .. } | Event::Hop { .. } => return None,
        Event::Fail { a, b } => (*a, *b),
        Event::Restore { a, b } => (*a, *b),
        Event::Notice { node, nbr } => (*nbr, *node),
        Event::OpenSession { node, nbr } => (*nbr, *node),
    };
    Some(Way { from, to })
}

// Whether the event fails or restores its link.
fn is_outage(event: &Event) -> bool
    ensures { result ≡ is_outage event.now }
{
    matches!(event, Event::Fail { .. } | Event::Restore { .. })
}

// The node that the event crashes or restarts.
fn node_of(event: &Event) -> Option<NodeId>
    ensures some { IfSome result (λ node. (net : Net) → node_ways net event.now ≡ ways_to net node) }
    ensures none { IfNone result ((net : Net) → node_ways net event.now ≡ []) }
{
    match event {
        Event::Originate { .. } | Event::Withdraw { .. } => None,
        Event::Prefer { .. } | Event::Snap { .. } => None,
        Event::Propose { .. } | Event::Control { .. } | Event::Flush { .. } => None,
        Event::Deliver { .. } | Event::Fail { .. } | Event::Restore { .. } => None,
        Event::Notice { .. } | Event::OpenSession { .. } => None,
        Event::Inject { .. } | Event::Hop { .. } => None,
        Event::Crash { node } => Some(*node),
        Event::Restart { node } => Some(*node),
    }
}

impl<P: Policy + Copy> Network<P> {
    // Whether the way is open: the delivery of an item on it would not be idle.
    fn opens(&self, way: &Way) -> bool
        ensures { (past : Chronicle) (counts : Counts) → Stands (P.rules self.now.policy) past counts self.now →
            linked self.now.topology.value way.now.from way.now.to ≡ true →
            result ≡ is_open past way.now.from way.now.to }
    {
        if self.is_crashed(way.to) {
            return false;
        }
        is_carried(
            &self.links.state(way.from, way.to),
            self.held(way.to, way.from),
        )
    }

    // Updates the set for this way.
    fn look(&self, way: &Way, open_ways: &mut WaySet)
        ensures { (past : Chronicle) (counts : Counts) (turned : List Direction) → Stands (P.rules self.now.policy) past counts self.now →
            AreOpenBut self.now.topology.value past (way.now ∷ turned) (has_way self.now.topology.value open_ways.old) →
            AreOpenBut self.now.topology.value past turned (has_way self.now.topology.value open_ways.new) }
    {
        let Some(number) = self.links.way_of(way.from, way.to) else {
            return;
        };
        open_ways.put(number, self.opens(way));
    }

    // Updates the set for each way to the node.
    fn look_at_node(&self, node: NodeId, open_ways: &mut WaySet)
        ensures { (past : Chronicle) (counts : Counts) (turned : List Direction) → Stands (P.rules self.now.policy) past counts self.now →
            AreOpenBut self.now.topology.value past (ways_to self.now.topology.value node ++ turned) (has_way self.now.topology.value open_ways.old) →
            AreOpenBut self.now.topology.value past turned (has_way self.now.topology.value open_ways.new) }
    {
        for nbr in self.topology.neighbours(node) {
            let way = Way {
                from: *nbr,
                to: node,
            };
            self.look(&way, open_ways);
        }
    }

    // Updates the set for each way to the node that the event crashes or restarts.
    fn look_at_turned(&self, event: &Event, open_ways: &mut WaySet)
        ensures { (past : Chronicle) (counts : Counts) (turned : List Direction) → Stands (P.rules self.now.policy) past counts self.now →
            AreOpenBut self.now.topology.value past (node_ways self.now.topology.value event.now ++ turned) (has_way self.now.topology.value open_ways.old) →
            AreOpenBut self.now.topology.value past turned (has_way self.now.topology.value open_ways.new) }
    {
        let Some(node) = node_of(event) else {
            return;
        };
        self.look_at_node(node, open_ways);
    }

    // Updates the set for the ways over the link of the event that the event may have opened or closed.
    fn look_at_link(&self, event: &Event, open_ways: &mut WaySet)
        ensures { (past : Chronicle) (counts : Counts) → Stands (P.rules self.now.policy) past counts self.now →
            AreOpenBut self.now.topology.value past (link_ways event.now) (has_way self.now.topology.value open_ways.old) →
            AreOpenBut self.now.topology.value past [] (has_way self.now.topology.value open_ways.new) }
    {
        let Some(way) = way_of(event) else {
            return;
        };
        self.look(&way, open_ways);
        if is_outage(event) {
            let back = Way {
                from: way.to,
                to: way.from,
            };
            self.look(&back, open_ways);
        }
    }

    /// Updates the set of open ways after the event. It looks only at the ways that the event may have opened or
    /// closed: one way over its link, both ways where the link fails or is restored, and the ways to a node that
    /// crashes or restarts.
    pub fn refresh(&self, event: &Event, open_ways: &mut WaySet)
        requires { IsTrue (fits self.now.topology.value event.now) }
        ensures { (past : Chronicle) (counts : Counts) →
            Stands (P.rules self.now.policy) (after (P.rules self.now.policy) self.now.topology.value past event.now) counts self.now →
            AreOpen self.now.topology.value past (has_way self.now.topology.value open_ways.old) →
            AreOpen self.now.topology.value (after (P.rules self.now.policy) self.now.topology.value past event.now) (has_way self.now.topology.value open_ways.new) }
    {
        self.look_at_turned(event, open_ways);
        self.look_at_link(event, open_ways);
    }
}
