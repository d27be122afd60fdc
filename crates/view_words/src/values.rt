//! The words of values of epochs.
ghost use Rattle.std.specs.Prelude.{◌≡◌, ◌++◌, decimal, OnOk};
ghost use Rattle.std.specs.String.{string_bytes};
ghost use Rattle.view_words.specs.Values.{value_text};
ghost use Rattle.view_words.specs.Lines.{further, listed};

use crate::entries::triggers_words;
use crate::numbers::push_node;
use incomplete_closure::Value;
use std::alloc::AllocError;
use topology::NodeId;

// Nodes, each after a comma.
fn further_nodes(out: &mut String, nodes: &[NodeId]) -> Result<(), AllocError>
    ensures { OnOk result (string_bytes out.new ≡ string_bytes out.old ++ further decimal nodes.now) }
{
    for node in nodes {
        out.push(',')?;
        push_node(out, *node)?;
    }
    Ok(())
}

// Nodes, with commas between them.
fn node_words(out: &mut String, nodes: &[NodeId]) -> Result<(), AllocError>
    ensures { OnOk result (string_bytes out.new ≡ string_bytes out.old ++ listed decimal nodes.now) }
{
    let [first, rest @ ..] = nodes else {
        return out.push('-');
    };
    push_node(out, *first)?;
    further_nodes(out, rest)
}

/// Adds the nodes that responded and the incomplete triggers of a value.
pub fn value_words(out: &mut String, value: &Value) -> Result<(), AllocError>
    ensures { OnOk result (string_bytes out.new ≡ string_bytes out.old ++ value_text value.now) }
{
    out.push_str("S=")?;
    node_words(out, value.responding.as_slice())?;
    out.push_str(" I=")?;
    triggers_words(out, value.incomplete.as_slice())
}
