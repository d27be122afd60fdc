//! Laws of deflection over a network that does not change. The order of the neighbours may differ at each hop. A call
//! of a law gives the caller's proof what the law says.
ghost use Rattle.std.specs.Prelude.{ℕ, ◌≡◌, ◌≤◌, ◌<◌, ◌*◌, ◌-◌, [], List, length, true};
ghost use Rattle.topology.specs.declared.limits.TheConstants.{MOST_NODES, MOST_TRAIL};
ghost use Rattle.topology.specs.Lists.{has};
ghost use Rattle.topology.specs.Net.{Net, IsValid};
ghost use Rattle.topology.specs.declared.names.Scheme.TheVariants as scheme;
ghost use Rattle.epoch_packet.specs.declared.packets.Packet.{Packet};
ghost use Rattle.epoch_packet.specs.declared.walks.End.{End as Ending};
ghost use Rattle.epoch_packet.specs.declared.walks.End.TheVariants.{Delivered};
ghost use Rattle.epoch_packet.specs.Visited.{bit};
ghost use Rattle.transient_mode.specs.Sights.{Sight};
ghost use Rattle.transient_mode.specs.TransientHops.{Ended, Next, hop_under};
ghost use Rattle.deflect_delivery.specs.Terrain.{Connects, Terrain, IsTerrain, Shows};
ghost use Rattle.deflect_delivery.specs.Touring.{EndsWell, IsTour, Trip};
ghost use Rattle.deflect_delivery.specs.declared.stills.Still.{Still};
ghost use Rattle.deflect_delivery.specs.Stills.{IsStill};
ghost use Rattle.deflect_delivery.specs.Delivering.{WalkDelivers};

/// A packet that has been at just one node since it left the tables, and has no way back, begins a tour there.
#[tactic(auto, using(crate::proofs::Touring::begins))]
pub fn a_packet_begins_a_tour()
    ensures { (net : Net) (terrain : Terrain) (u : ℕ) (packet : Packet) → has net.nodes u ≡ true →
        packet.visited ≡ bit net u → packet.trail ≡ [] →
        IsTour net terrain packet.budget (record { from = u; at = u; packet = packet }) }
{}

/// Each deflection continues the tour, for every order of the neighbours: to a node that the packet has not seen, or
/// back.
#[tactic(auto, using(crate::proofs::Touring::goes_on))]
pub fn a_deflection_goes_on_with_the_tour()
    ensures { (net : Net) (terrain : Terrain) (hops from w : ℕ) (packet moved : Packet) (view : Sight) →
        IsTerrain net terrain → Shows terrain view → length net.nodes ≤ MOST_NODES →
        IsTour net terrain hops (record { from = from; at = view.at; packet = packet }) →
        hop_under scheme.Deflect net packet view ≡ Next w moved →
        IsTour net terrain hops (record { from = from; at = w; packet = moved }) }
{}

/// On a tour a packet makes at most two moves for each node other than the first.
pub fn a_tour_has_few_moves()
    ensures { (net : Net) (terrain : Terrain) (hops : ℕ) (trip : Trip) (tour : IsTour net terrain hops trip) →
        tour.moves ≤ 2 * (length net.nodes - 1) }
{}

/// The way back is shorter than 64 nodes, so it always has room for one more.
pub fn a_tour_has_room()
    ensures { (net : Net) (terrain : Terrain) (hops : ℕ) (trip : Trip) → IsTour net terrain hops trip →
        length net.nodes ≤ MOST_NODES → length trip.packet.trail < MOST_TRAIL }
{}

/// The end of a walk on a tour is right: delivered only if its first node is connected to an owner, stuck only if it is
/// not, and expired only if it had too few moves.
#[tactic(auto, using(crate::proofs::Touring::ends_well))]
pub fn a_tour_ends_well()
    ensures { (net : Net) (terrain : Terrain) (hops from : ℕ) (packet : Packet) (view : Sight) (ending : Ending) →
        IsTerrain net terrain → Shows terrain view → length net.nodes ≤ MOST_NODES →
        IsTour net terrain hops (record { from = from; at = view.at; packet = packet }) →
        hop_under scheme.Deflect net packet view ≡ Ended ending →
        EndsWell net terrain hops (record { from = from; at = view.at; packet = packet }) ending }
{}

/// After two moves for each other node, at a node that is connected to an owner, the packet is delivered.
pub fn after_all_moves_a_tour_is_delivered()
    ensures { (net : Net) (terrain : Terrain) (hops from : ℕ) (packet : Packet) (view : Sight) →
        IsTerrain net terrain → Shows terrain view → length net.nodes ≤ MOST_NODES →
        (tour : IsTour net terrain hops (record { from = from; at = view.at; packet = packet })) →
        2 * (length net.nodes - 1) ≤ tour.moves → Connects terrain view.at →
        hop_under scheme.Deflect net packet view ≡ Ended Delivered }
{}

/// A walk over a network that does not change ends. It is delivered exactly if links that are up connect its first node
/// to an owner, and stuck otherwise. It never expires, and has at most two moves for each node other than the first.
#[tactic(auto, using(crate::proofs::WholeWalks::walk_delivers))]
pub fn a_whole_walk_delivers()
    ensures { (net : Net) (still : Still) (p u : ℕ) → IsValid net → IsStill net still →
        has net.nodes u ≡ true → WalkDelivers net still p u }
{}
