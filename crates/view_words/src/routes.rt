//! The words of routes.
ghost use Rattle.std.specs.Prelude.{◌≡◌, ◌<◌, ◌∷◌, [], ◌++◌, codes, decimal, OnOk};
ghost use Rattle.std.specs.String.{string_bytes};
ghost use Rattle.path_vector.specs.Selection.{Route, path_of};
ghost use Rattle.path_vector.specs.Answers.{Shows};
ghost use Rattle.schedule_file.specs.Spelling.{prefix_text};
ghost use Rattle.view_words.specs.Routes.{rib_line, path_text, nodes_text};

use crate::numbers::{push_node, push_number};
use path_vector::Best;
use std::alloc::AllocError;
use topology::{NodeId, Prefix};

/// Adds the line of the route of a node to a prefix.
pub fn route_line(
    out: &mut String,
    node: NodeId,
    prefix: &Prefix,
    best: &Best<'_>,
) -> Result<(), AllocError>
    ensures { (route : Route) → Shows node best.now route →
        OnOk result (string_bytes out.new ≡ string_bytes out.old ++ rib_line node prefix.now (path_of node route)) }
{
    out.push_str("rib ")?;
    push_node(out, node)?;
    out.push(' ')?;
    prefix_words(out, prefix)?;
    out.push(':')?;
    route_words(out, node, best)?;
    out.push('\n')
}

// Writes a prefix.
#[tactic(auto, unfolding(schedule_file::specs::Spelling::prefix_text))]
pub(crate) fn prefix_words(out: &mut String, prefix: &Prefix) -> Result<(), AllocError>
    ensures { OnOk result (string_bytes out.new ≡ string_bytes out.old ++ prefix_text prefix.now) }
{
    two_numbers(
        out,
        prefix.bits / 16_777_216 % 256,
        prefix.bits / 65_536 % 256,
    )?;
    out.push('.')?;
    two_numbers(out, prefix.bits / 256 % 256, prefix.bits % 256)?;
    out.push('/')?;
    push_number(out, u32::from(prefix.len))
}

// Two numbers, joined by a point.
fn two_numbers(out: &mut String, first: u32, second: u32) -> Result<(), AllocError>
    ensures { OnOk result (string_bytes out.new ≡ string_bytes out.old ++ decimal first ++ codes "." ++ decimal second) }
{
    push_number(out, first)?;
    out.push('.')?;
    push_number(out, second)
}

fn route_words(out: &mut String, node: NodeId, best: &Best<'_>) -> Result<(), AllocError>
    ensures { (route : Route) → Shows node best.now route →
        OnOk result (string_bytes out.new ≡ string_bytes out.old ++ path_text (path_of node route)) }
{
    match best {
        Best::None => out.push_str(" none")?,
        Best::Own => node_words(out, node)?,
        Best::Via(_, rest) => {
            node_words(out, node)?;
            path_words(out, rest)?;
        }
    }
    Ok(())
}

fn node_words(out: &mut String, node: NodeId) -> Result<(), AllocError>
    ensures { OnOk result (string_bytes out.new ≡ string_bytes out.old ++ nodes_text (node ∷ [])) }
{
    out.push(' ')?;
    push_node(out, node)
}

pub(crate) fn path_words(out: &mut String, nodes: &[NodeId]) -> Result<(), AllocError>
    ensures { OnOk result (string_bytes out.new ≡ string_bytes out.old ++ nodes_text nodes.now) }
{
    for node in nodes {
        node_words(out, *node)?;
    }
    Ok(())
}
