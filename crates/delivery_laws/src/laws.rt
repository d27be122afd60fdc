//! Laws of every run, about deflected packets. A call of a law gives the caller's proof what the law says.
ghost use Rattle.std.specs.Prelude.{ℕ, ◌≡◌, List, true};
ghost use Rattle.topology.specs.Lists.{has};
ghost use Rattle.topology.specs.Net.{Net, IsValid};
ghost use Rattle.topology.specs.declared.names.Scheme.TheVariants as scheme;
ghost use Rattle.path_vector.specs.Rules.{Rules};
ghost use Rattle.epoch_packet.specs.declared.packets.Packet.{Packet};
ghost use Rattle.transient_mode.specs.TransientHops.{hop_under};
ghost use Rattle.chronicle.specs.declared.events.Event.{Event};
ghost use Rattle.chronicle.specs.Facts.{Chronicle};
ghost use Rattle.chronicle.specs.Giving.{sight as live_sight};
ghost use Rattle.chronicle.specs.Run.{run, up_links};
ghost use Rattle.deflect_delivery.specs.Stills.{IsStill, sight};
ghost use Rattle.deflect_delivery.specs.Delivering.{WalkDelivers};
ghost use Rattle.delivery_laws.specs.Deflected.{DeflectionDelivers};
ghost use Rattle.delivery_laws.specs.Now.{still_now};

/// A deflected packet is delivered if three things hold. Since it left the tables no link failed or was restored, and
/// no node became an owner of its prefix or stopped being one. The hop limit is at least two for each other node. And links
/// that are up connect the node where it is to an owner. Then it makes at most two moves for each other node; after
/// that many, its next hop that does something delivers it; and if its walk has ended, it was delivered.
pub fn deflection_delivers()
    ensures { (rules : Rules) (net : Net) (events : List Event) → IsValid net →
        DeflectionDelivers rules net (run rules net events) }
{}

/// The present state of a run is a network that does not change: its links and owners are in the network, and each node
/// has an order of all its neighbours.
pub fn a_run_as_it_is_now_is_still()
    ensures { (rules : Rules) (net : Net) (past : Chronicle) (p : ℕ) → IsValid net →
        IsStill net (still_now rules net past p) }
{}

/// Over that network the walk from a node ends. It is delivered exactly if links that are up connect the node to an
/// owner, and stuck otherwise.
pub fn a_walk_over_it_delivers()
    ensures { (rules : Rules) (net : Net) (past : Chronicle) (p u : ℕ) → IsValid net →
        has net.nodes u ≡ true → WalkDelivers net (still_now rules net past p) p u }
{
    a_run_as_it_is_now_is_still();
    deflect_delivery::laws::a_whole_walk_delivers();
}

/// Over that network a node deflects a packet as it would now in the run.
pub fn a_deflection_over_it_is_that_of_the_run()
    ensures { (rules : Rules) (net : Net) (past : Chronicle) (packet : Packet) (p u : ℕ) → IsValid net →
        has net.nodes u ≡ true →
        hop_under scheme.Deflect net packet (sight net (still_now rules net past p) u)
        ≡ hop_under scheme.Deflect net packet (live_sight rules net u past p (up_links net u past)) }
{}
