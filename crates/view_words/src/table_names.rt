//! What the lines of many tables have in common.
ghost use Rattle.std.specs.Prelude.{◌≡◌, ◌<◌, length, map, slice_get, IfOk, IfSome};
ghost use Rattle.std.specs.String.{string_bytes};
ghost use Rattle.view_words.specs.Tables.{prefix_name};

use crate::routes::prefix_words;
use std::alloc::{AllocError, Global};
use topology::{Epoch, NoMemory, Prefix, PrefixId, Topology};

/// The epoch of tables, and the words of each prefix, which are made once for the tables of all nodes.
#[derive(Drop)]
pub struct TableNames<'a> {
    pub topology: &'a Topology,
    pub epoch: Epoch,
    names: Vec<String>,
    ghost spelled: { map (λ name. string_bytes name) names.items ≡ map prefix_name topology.now.prefixes },
}

// The words of a prefix.
fn name_of(alloc: Global, prefix: &Prefix) -> Result<String, AllocError>
    ensures { IfOk result (λ name. string_bytes name ≡ prefix_name prefix.now) }
{
    let mut name = String::new(alloc);
    name.push(' ')?;
    prefix_words(&mut name, prefix)?;
    name.push(':')?;
    Ok(name)
}

// The words of all prefixes, in file order.
fn names_of(alloc: Global, topology: &Topology) -> Result<Vec<String>, NoMemory>
    ensures { IfOk result (λ names. map (λ name. string_bytes name) names.items ≡ map prefix_name topology.now.prefixes) }
{
    let mut names = Vec::new(alloc);
    for place in 0..topology.prefix_count() {
        let prefix = topology.prefix(PrefixId::new(place)).unwrap();
        names.push(name_of(alloc, &prefix)?)?;
    }
    Ok(names)
}

impl<'a> TableNames<'a> {
    /// Takes memory in proportion to the number of prefixes.
    pub fn new(
        alloc: Global,
        topology: &'a Topology,
        epoch: Epoch,
    ) -> Result<TableNames<'a>, NoMemory>
        ensures topology { IfOk result (λ names. names.topology.now ≡ topology.now) }
        ensures epoch { IfOk result (λ names. names.epoch ≡ epoch) }
    {
        let names = names_of(alloc, topology)?;
        Ok(TableNames {
            topology,
            epoch,
            names,
        })
    }

    /// The words of the prefix at a place, and what stands around them.
    pub fn name(&self, place: u16) -> &str
        requires { place < length self.now.topology.now.prefixes }
        ensures { IfSome (slice_get self.now.topology.now.prefixes place) (λ prefix. result.now ≡ prefix_name prefix) }
    {
        self.names[usize::from(place)].as_str()
    }
}
