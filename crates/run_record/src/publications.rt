//! The tables that nodes published.
ghost use Rattle.std.specs.Prelude.{◌≡◌, option_map, option_and_then, slice_get, IfOk};

use incomplete_closure::Value;
use stable_table::Table;
use std::alloc::Global;
use std::marker::Model;
use std::rc::Rc;
use topology::{Epoch, NoMemory, NodeId, Path, PrefixId};

// The part of a table that stays for the whole run. Its backups go when the node drops the table.
#[derive(Debug, Drop)]
struct Paths {
    epoch: Epoch,
    value: Value,
    paths: Vec<Option<Path>>,
}

/// A table that a node published, without its backups. Copies share it, and its paths share their nodes with the table.
#[derive(Debug, Drop)]
pub struct Publication {
    node: NodeId,
    table: Rc<Paths>,
}

impl Model for Publication {
    ghost use Rattle.run_record.specs.Publications.{PublicationView};

    ghost Value = { PublicationView };

    ghost view = { λ p. record {
      node = p.node;
      epoch = p.table.value.epoch;
      value = p.table.value.value;
      paths = p.table.value.paths.items;
    } };
}

impl Publication {
    /// The publication of this table by the node.
    pub fn new(alloc: Global, node: NodeId, table: &Table) -> Result<Publication, NoMemory>
        ensures { IfOk result (λ publication. publication
            ≡ record { node = node; epoch = table.now.epoch; value = table.now.value; paths = table.now.paths }) }
    {
        let paths = Paths {
            epoch: table.epoch(),
            value: table.value().copy()?,
            paths: table.paths(alloc)?,
        };
        Ok(Publication {
            node,
            table: Rc::new(alloc, paths)?,
        })
    }

    /// The same publication. The table is shared, not copied.
    pub fn share(&self) -> Result<Publication, NoMemory>
        ensures { IfOk result (λ publication. publication ≡ self.now) }
    {
        Ok(Publication {
            node: self.node,
            table: self.table.clone()?,
        })
    }

    /// The node that published it.
    pub fn node(&self) -> NodeId
        ensures { result ≡ self.now.node }
    {
        self.node
    }

    /// The epoch of the table.
    pub fn epoch(&self) -> Epoch
        ensures { result ≡ self.now.epoch }
    {
        self.table.epoch
    }

    /// The value from which the table was made.
    pub fn value(&self) -> &Value
        ensures { result.now ≡ self.now.value }
    {
        &self.table.value
    }

    /// The path of a prefix. None where the table has no path of it.
    pub fn path(&self, prefix: PrefixId) -> Option<&[NodeId]>
        ensures { option_map (λ nodes. nodes.now) result
            ≡ option_and_then (λ path. path) (slice_get self.now.paths prefix) }
    {
        let path = self.table.paths.get(prefix.place() as usize)?;
        Some(path.as_ref()?.nodes())
    }
}
