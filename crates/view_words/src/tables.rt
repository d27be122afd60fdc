//! The words of tables.
ghost use Rattle.std.specs.Prelude.{◌≡◌, ◌++◌, Some, None, option_map, IfOk, OnOk};
ghost use Rattle.std.specs.String.{string_bytes};
ghost use Rattle.view_words.specs.Lines.{ended};
ghost use Rattle.view_words.specs.Routes.{path_text};
ghost use Rattle.view_words.specs.Tables.{table_head, unpublished_line};

use crate::numbers::{push_node, push_number};
use crate::routes::path_words;
use std::alloc::{AllocError, Global};
use topology::{Epoch, NodeId};

// A node and an epoch.
fn head_words(out: &mut String, node: NodeId, epoch: Epoch) -> Result<(), AllocError>
    ensures { OnOk result (string_bytes out.new ≡ string_bytes out.old ++ table_head node epoch) }
{
    out.push_str("table ")?;
    push_node(out, node)?;
    out.push(' ')?;
    push_number(out, epoch.number())
}

/// Adds the line of a node that published no table of the epoch.
pub fn unpublished_words(out: &mut String, node: NodeId, epoch: Epoch) -> Result<(), AllocError>
    ensures { OnOk result (string_bytes out.new ≡ string_bytes out.old ++ unpublished_line node epoch) }
{
    head_words(out, node, epoch)?;
    out.push_str(": unpublished")?;
    out.push('\n')
}

// A path, or none.
fn table_path_words(out: &mut String, path: Option<&[NodeId]>) -> Result<(), AllocError>
    ensures { OnOk result (string_bytes out.new
        ≡ string_bytes out.old ++ path_text (option_map (λ nodes. nodes.now) path.entry)) }
{
    match path {
        None => out.push_str(" none"),
        Some(nodes) => path_words(out, nodes),
    }
}

/// What each line of the table of a node begins with.
pub fn head_of(alloc: Global, node: NodeId, epoch: Epoch) -> Result<String, AllocError>
    ensures { IfOk result (λ head. string_bytes head ≡ table_head node epoch) }
{
    let mut head = String::new(alloc);
    head_words(&mut head, node, epoch)?;
    Ok(head)
}

/// Adds the line of a prefix in the table of a node: what it begins with, the words of the prefix, and the path.
pub fn table_words(
    out: &mut String,
    head: &str,
    name: &str,
    path: Option<&[NodeId]>,
) -> Result<(), AllocError>
    ensures { OnOk result (string_bytes out.new ≡ string_bytes out.old
        ++ ended (head.now ++ name.now ++ path_text (option_map (λ nodes. nodes.now) path.entry))) }
{
    out.push_str(head)?;
    out.push_str(name)?;
    table_path_words(out, path)?;
    out.push('\n')
}
