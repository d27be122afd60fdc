//! Backups: the packet goes along the first path of the newest table, by rank, that has no visited node ahead.
ghost use Rattle.std.specs.Prelude.{◌≡◌, IfOk, OnErr};
ghost use Rattle.topology.specs.declared.names.Scheme.TheVariants as scheme;
ghost use Rattle.transient_mode.specs.TransientHops.{answered, IsMove, new_backup, by_backup};
ghost use Rattle.transient_mode.specs.TransientHops.{hop_under};

use crate::moves::end_at;
use crate::routes::{after_first, along, next_up, start};
use crate::{Move, View};
use backup_routes::backup_for;
use epoch_packet::{End, Packet};
use topology::{NoMemory, Topology};

// Takes the first backup that qualifies, which becomes the packet's route, and moves along it.
fn new_backup(
    topology: &Topology,
    packet: Packet,
    view: &View<'_>,
) -> Result<(Packet, Move), NoMemory>
    ensures hop { IfOk result (λ pair.
        pair ≡ answered packet (new_backup topology.now packet view.now)) }
    ensures memory { OnErr result (IsMove (new_backup topology.now packet view.now)) }
{
    match backup_for(topology, view.backups, packet.visited, view.up) {
        Some(path) => start(topology, packet, view, after_first(path.nodes())),
        None => Ok((packet, Move::Ended(End::Stuck))),
    }
}

// A hop under backups of a packet that has moves left. A move along its present route takes no memory.
fn by_backup(
    topology: &Topology,
    packet: Packet,
    view: &View<'_>,
) -> Result<(Packet, Move), NoMemory>
    ensures hop { IfOk result (λ pair.
        pair ≡ answered packet (by_backup topology.now packet view.now)) }
    ensures memory { OnErr result (IsMove (by_backup topology.now packet view.now)) }
{
    match next_up(view, packet.route.as_slice()) {
        Some(next) => Ok(along(topology, packet, next)),
        None => new_backup(topology, packet, view),
    }
}

// A hop under backups.
#[tactic(auto, unfolding(crate::specs::TransientHops::hop_under))]
pub(crate) fn backup(
    topology: &Topology,
    packet: Packet,
    view: View<'_>,
) -> Result<(Packet, Move), NoMemory>
    ensures hop { IfOk result (λ pair.
        pair ≡ answered packet (hop_under scheme.Backup topology.now packet view.entry)) }
    ensures memory { OnErr result
        (IsMove (hop_under scheme.Backup topology.now packet view.entry)) }
{
    match end_at(&packet, &view) {
        Some(end) => Ok((packet, Move::Ended(end))),
        None => by_backup(topology, packet, &view),
    }
}
