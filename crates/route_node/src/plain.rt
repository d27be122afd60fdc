//! A node over plain memory.
ghost use Rattle.route_node.specs.Attended.{endpoint};
ghost use Rattle.route_node.specs.Plain.{AttendedPlain};

use crate::attending::attend;
use route_io::{Link, PlainLink, PlainSource, Source};
use std::alloc::Global;
use topology::{NodeId, Status};

/// [`attend`] over memory without calls that are listed to fail: no read and no dial fails, and a write fails only if
/// the answers to the frames taken so far exceed the room.
pub fn attend_plain(
    alloc: Global,
    id: NodeId,
    address: &str,
    source: &mut PlainSource,
    link: &mut PlainLink,
) -> Status
    ensures { AttendedPlain (endpoint id address.now)
        (⟦<PlainSource as Source>⟧.seen source.old) (⟦<PlainSource as Source>⟧.seen source.new)
        (⟦<PlainLink as Link>⟧.seen link.old) (⟦<PlainLink as Link>⟧.seen link.new) result }
{
    attend(alloc, id, address, source, link)
}
