//! The words of probes.
ghost use Rattle.std.specs.Prelude.{◌≡◌, ◌++◌, reverse, slice_get, Some, OnOk};
ghost use Rattle.std.specs.String.{string_bytes};
ghost use Rattle.deflect_delivery.specs.Progress.{Over};
ghost use Rattle.view_words.specs.Entries.{known_prefix};
ghost use Rattle.view_words.specs.Probes.{probe_head, probe_line};

use crate::numbers::push_node;
use crate::routes::{path_words, prefix_words};
use crate::walks::end_words;
use deflect_delivery::StillWalk;
use std::alloc::AllocError;
use topology::{NodeId, PrefixId, Topology};

// The prefix, where there is one.
fn known_words(out: &mut String, topology: &Topology, prefix: PrefixId) -> Result<(), AllocError>
    ensures { OnOk result (string_bytes out.new
        ≡ string_bytes out.old ++ known_prefix (slice_get topology.now.prefixes prefix)) }
{
    if let Some(prefix) = topology.prefix(prefix) {
        prefix_words(out, &prefix)?;
    }
    Ok(())
}

// The node and the prefix.
fn head_words(
    out: &mut String,
    topology: &Topology,
    node: NodeId,
    prefix: PrefixId,
) -> Result<(), AllocError>
    ensures { OnOk result (string_bytes out.new
        ≡ string_bytes out.old ++ probe_head node (slice_get topology.now.prefixes prefix)) }
{
    out.push_str("probe ")?;
    push_node(out, node)?;
    out.push(' ')?;
    known_words(out, topology, prefix)?;
    out.push(':')
}

/// Adds the line of the walk that a packet has from a node, if nothing happens any more.
pub fn line_words(
    out: &mut String,
    topology: &Topology,
    node: NodeId,
    prefix: PrefixId,
    walk: &StillWalk,
) -> Result<(), AllocError>
    ensures { OnOk result (string_bytes out.new ≡ string_bytes out.old
        ++ probe_line node (slice_get topology.now.prefixes prefix) (Over (reverse walk.now.visits) walk.now.end)) }
{
    head_words(out, topology, node, prefix)?;
    path_words(out, walk.visits.as_slice())?;
    end_words(out, Some(walk.end))
}
