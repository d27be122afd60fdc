//! What a packet does at a node while it follows the stable tables.
ghost use Rattle.std.specs.Prelude.{◌≡◌};
ghost use Rattle.std.specs.Option.{option_copied};
ghost use Rattle.epoch_packet.specs.StableHops.{stable_step, along};

use topology::NodeId;

/// The result of one hop along the tables.
#[derive(Clone, Copy, Debug, PartialEq, Eq)]
pub enum StableStep {
    /// The walk ends here: the path leads to this node.
    Arrived,
    /// It goes on to this neighbour.
    Next(NodeId),
    /// It leaves the tables here, and does not move.
    Turn,
}

// One hop along a path that begins at the present node.
fn along(up: &[NodeId], path: &[NodeId]) -> StableStep
    ensures { result ≡ along up.now path.now }
{
    match path {
        [] => StableStep::Turn,
        [_] => StableStep::Arrived,
        [_, next, ..] => {
            if !up.contains(next) {
                return StableStep::Turn;
            }
            StableStep::Next(*next)
        }
    }
}

/// What a packet does at a node. `path` is the node's path in the table of the packet's epoch, and `up` has the
/// neighbours whose link is up. Takes no memory.
pub fn stable_hop(path: Option<&[NodeId]>, up: &[NodeId]) -> StableStep
    ensures { result ≡ stable_step (option_copied path.entry) up.now }
{
    match path {
        Some(path) => along(up, path),
        None => StableStep::Turn,
    }
}
