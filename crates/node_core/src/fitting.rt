//! Which inputs a node admits.
ghost use Rattle.std.specs.Prelude.{◌≡◌, ℕ};
ghost use Rattle.topology.specs.Lists.{has};
ghost use Rattle.topology.specs.Net.{Net, neighbours};
ghost use Rattle.trigger_log.specs.Going.{item_of};
ghost use Rattle.chronicle.specs.Facts.{Chronicle};
ghost use Rattle.node_core.specs.Fits.{fits, item_fits, path_fits};
ghost use Rattle.node_core.specs.Inputs.{input_of};
ghost use Rattle.message_fitting.specs.Names.{are_nodes, is_number, list_fits};
ghost use Rattle.node_core.specs.Standing.{StandsFor};

use crate::inputs::Input;
use crate::node::Node;
use message_fitting::control_fitting::{epoch_fits, message_fits};
use message_fitting::names::{are_nodes, is_among, is_number, list_fits};
use message_fitting::packet_fitting::{are_links, packet_fits};
use path_vector::Policy;
use topology::limits::{HIGHEST_PREFERENCE, MOST_EPOCHS};
use topology::{Item, NodeId, Path, Topology};

// Whether a path begins with its sender and stays in the network.
fn path_fits(topology: &Topology, from: NodeId, path: &Option<Path>) -> bool
    ensures { result ≡ path_fits topology.now from path.now }
{
    let Some(path) = path else {
        return true;
    };
    path.nodes().first() == Some(&from) && are_nodes(topology, path.nodes())
}

// Whether an item of a neighbour has names of the network, and numbers in their ranges.
fn item_fits(topology: &Topology, from: NodeId, item: &Item) -> bool
    ensures { result ≡ item_fits topology.now from (item_of item.now) }
{
    match item {
        Item::Update {
            prefix,
            seq,
            triggers,
            path,
        } => {
            is_number(*seq)
                && prefix.place() < topology.prefix_count()
                && list_fits(topology, triggers.as_slice())
                && path_fits(topology, from, path)
        }
        Item::Marker(epoch) => epoch.number() >= 1 && epoch.number() <= MOST_EPOCHS,
        Item::Hello(epoch) => epoch.number() <= MOST_EPOCHS,
    }
}

impl<P: Policy + Copy> Node<P> {
    /// Whether the node admits the input. Its names are in the network. Its other node is a neighbour, and so are the
    /// nodes at the ends of the links that are up, which ascend. The path of an update begins with its sender, and an
    /// update lists 1 to 8,192 triggers. Each number is in its range: sessions, numbers of updates and numbers of
    /// packets from 1, preferences up to a million, epochs from 1 to 32, and from 0 in a greeting and on a packet. A
    /// packet carries lists of 64 nodes at most. Takes no memory.
    pub fn fits(&self, input: &Input) -> bool
        ensures fits { (policy : P) (net : Net) (u : ℕ) (past : Chronicle) →
            StandsFor policy (P.rules policy) net u self.now past → result ≡ fits net u (input_of input.now) }
    {
        match input {
            Input::Originate(prefix) => prefix.place() < self.parts.topology.prefix_count(),
            Input::Withdraw(prefix) => prefix.place() < self.parts.topology.prefix_count(),
            Input::Prefer { nbr, value } => self.is_near(*nbr) && *value <= HIGHEST_PREFERENCE,
            Input::Arrive {
                from,
                session,
                item,
            } => {
                self.is_near(*from)
                    && is_number(session.number())
                    && item_fits(&self.parts.topology, *from, item)
            }
            Input::Notice(nbr) => self.is_near(*nbr),
            Input::OpenSession { nbr, session } => self.is_near(*nbr)
                && is_number(session.number()),
            Input::Flush(nbr) => self.is_near(*nbr),
            Input::Snap => true,
            Input::Propose(epoch) => epoch_fits(*epoch),
            Input::Control { from, message } => message_fits(&self.parts.topology, *from, message),
            Input::Inject { id, prefix } => {
                is_number(*id) && prefix.place() < self.parts.topology.prefix_count()
            }
            Input::Hop { packet, up } => {
                packet_fits(&self.parts.topology, packet)
                    && are_links(&self.parts.topology, self.parts.id, up)
            }
        }
    }

    // Whether the node is a neighbour.
    fn is_near(&self, nbr: NodeId) -> bool
        ensures { (policy : P) (net : Net) (u : ℕ) (past : Chronicle) →
            StandsFor policy (P.rules policy) net u self.now past → result ≡ has (neighbours net u) nbr }
    {
        is_among(self.parts.topology.neighbours(self.parts.id), nbr)
    }
}
