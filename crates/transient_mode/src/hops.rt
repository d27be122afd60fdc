//! A hop under the scheme of the network.
ghost use Rattle.std.specs.Prelude.{◌≡◌, IfOk, OnErr};
ghost use Rattle.transient_mode.specs.TransientHops.{answered, IsMove, transient_hop};

use crate::backups::backup;
use crate::{Move, View, deflect, detour};
use epoch_packet::Packet;
use topology::{NoMemory, Scheme, Topology};

/// A hop of a packet that has left the stable tables. If the node owns the prefix, the packet is delivered. Otherwise,
/// with a budget of 0, it has expired. Otherwise the scheme of the network decides; for deflections and detours see
/// `deflect` and `detour`. Under backups the packet moves along its route, if the link to the next node is up. If not,
/// it takes the first backup whose link to the second node is up and whose nodes after the first do not count as
/// visited. These nodes become its route, and it moves along it. If there is no such backup, it is stuck. A packet
/// whose walk ends is returned as it was. The only error is `NoMemory`, and only if the packet moves.
pub fn transient_hop(
    topology: &Topology,
    packet: Packet,
    view: View<'_>,
) -> Result<(Packet, Move), NoMemory>
    ensures hop { IfOk result (λ pair.
        pair ≡ answered packet (transient_hop topology.now packet view.entry)) }
    ensures memory { OnErr result (IsMove (transient_hop topology.now packet view.entry)) }
{
    match topology.scheme() {
        Scheme::Deflect => deflect(topology, packet, view),
        Scheme::Detour(_) => detour(topology, packet, view),
        Scheme::Backup => backup(topology, packet, view),
    }
}
