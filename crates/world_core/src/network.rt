//! The network of a world: its nodes, links, control messages, publications and packets.
use control_mail::Mails;
use link_model::Links;
use node_core::{Node, OutputList};
use path_vector::Policy;
use run_record::{Publication, Walks};
use std::alloc::Global;
use std::rc::Rc;
use topology::Topology;

mod deliveries;
mod events;
mod inputs;
mod limits;
mod open_ways;
mod outputs;
pub(crate) mod packets;
mod start;
mod turns;

/// All nodes and links, all control messages, all tables that were published, and all packets.
#[derive(Drop)]
pub struct Network<P: Policy + Copy> {
    pub alloc: Global,
    pub topology: Rc<Topology>,
    pub policy: P,
    /// Each node at its rank.
    pub nodes: Vec<Node<P>>,
    /// At the rank of each node, whether it is crashed.
    pub crashed: Vec<bool>,
    pub links: Links,
    /// All control messages. They know which nodes are crashed, too.
    pub mails: Mails,
    /// All tables that were published, the oldest first.
    pub publications: Vec<Publication>,
    /// All packets.
    pub walks: Walks,
    /// The count of the triggers that all nodes gave.
    pub triggers: u32,
    /// The list of a node's outputs, used again for each input. It is empty between inputs.
    pub outputs: OutputList,
}
