//! What a node knows when a packet is there, off the stable tables.
use std::marker::Model;
use topology::{NodeId, Path};

/// What the node knows where the packet is.
#[derive(Drop)]
pub struct View<'a> {
    pub at: NodeId,
    /// Whether the node owns the prefix of the packet.
    pub owns: bool,
    /// The neighbours, in the order in which they are tried.
    pub order: &'a [NodeId],
    /// The neighbours whose link is up.
    pub up: &'a [NodeId],
    /// The node's path for the prefix in its newest published table.
    pub stable: Option<&'a [NodeId]>,
    /// The node's backups for the prefix in that table, by rank. The path is one of them, unless the node owns the
    /// prefix.
    pub backups: &'a [Path],
}

impl<'a> Model for View<'a> {
    ghost use Rattle.std.specs.Option.{option_copied};
    ghost use Rattle.transient_mode.specs.Sights.{Sight};

    ghost Value = { Sight };

    ghost view = { λ v. record {
      at = v.at;
      owns = v.owns;
      order = v.order.now;
      up = v.up.now;
      stable = option_copied v.stable;
      backups = v.backups.now;
    } };
}
