//! Laws of moves off the stable tables. A call of a law gives the caller's proof what the law says.
ghost use Rattle.std.specs.Prelude.{ℕ, true, false, ◌≡◌, ◌⊎◌, List};
ghost use Rattle.topology.specs.Lists.{Among};
ghost use Rattle.topology.specs.Paths.{differ};
ghost use Rattle.topology.specs.Net.{Net};
ghost use Rattle.topology.specs.declared.names.Scheme.{Scheme};
ghost use Rattle.topology.specs.declared.names.Scheme.TheVariants as scheme;
ghost use Rattle.epoch_packet.specs.declared.packets.Packet.{Packet};
ghost use Rattle.transient_mode.specs.Sights.{Sight};
ghost use Rattle.transient_mode.specs.TransientHops.{asks_for_order, Next, hop_under, transient_hop};
ghost use Rattle.transient_mode.specs.EachMove.{IsMove, IsForward, IsBack, RouteIsNew, LeadsOn};

/// Under each scheme a move uses up one of the moves left, and goes over a link that is up, to a node that counts as
/// visited from then on. The packet keeps its number, prefix, stamp and mode.
#[tactic(auto, using(crate::proofs::EachHop::is_move))]
pub fn a_move_spends_one_and_keeps_the_packet()
    ensures { (rule : Scheme) (net : Net) (packet moved : Packet) (view : Sight) (w : ℕ) →
        hop_under rule net packet view ≡ Next w moved → IsMove net packet view w moved }
{}

/// A hop that does not need the order of the neighbours is the same for every order.
#[tactic(auto, using(crate::proofs::Ordering::same_hop))]
pub fn a_hop_that_does_not_ask_is_the_same_for_each_order()
    ensures { (net : Net) (packet : Packet) (view : Sight) (order : List ℕ) →
        asks_for_order net packet view ≡ false →
        transient_hop net packet (record view { order = order }) ≡ transient_hop net packet view }
{}

/// A deflected packet goes to a node that it has not visited, or back to the last node of its trail.
#[tactic(auto, using(crate::proofs::EachHop::forward_or_back))]
pub fn a_deflection_goes_to_a_new_node_or_back()
    ensures { (net : Net) (packet moved : Packet) (view : Sight) (w : ℕ) →
        hop_under scheme.Deflect net packet view ≡ Next w moved →
        IsForward net packet view w moved ⊎ IsBack packet w moved }
{}

/// Under backups each move goes to a node that was not visited, if the nodes of the packet's route differ and were not
/// visited, and no backup repeats a node. The rest of the route still has that property.
pub fn a_backup_leads_to_new_nodes()
    ensures { (net : Net) (packet moved : Packet) (view : Sight) (w : ℕ) →
        ((path : List ℕ) → Among path view.backups → differ path ≡ true) → RouteIsNew net packet →
        hop_under scheme.Backup net packet view ≡ Next w moved → LeadsOn net packet w moved }
{}
