//! The inputs of a node.
use consolidator::Message;
use epoch_packet::Packet;
use topology::{Epoch, Item, NodeId, PrefixId, Session};

/// An input comes from the user of the node, over a link, from the layer that knows the links, over the control
/// network, or with a packet.
#[derive(Debug, Drop)]
pub enum Input {
    /// The node is to originate the prefix.
    Originate(PrefixId),
    /// The node is to originate the prefix no longer.
    Withdraw(PrefixId),
    /// The node is to give the candidates of its neighbour this preference.
    Prefer {
        nbr: NodeId,
        value: u32,
    },
    /// An item of a neighbour arrives in a session.
    Arrive {
        from: NodeId,
        session: Session,
        item: Item,
    },
    /// The link no longer carries the session that the node holds with the neighbour.
    Notice(NodeId),
    /// The link carries this session with the neighbour.
    OpenSession {
        nbr: NodeId,
        session: Session,
    },
    /// The node is to send the updates that it holds back from the neighbour.
    Flush(NodeId),
    /// The node is to begin a snapshot.
    Snap,
    /// The node is to start a ballot for the value of the epoch.
    Propose(Epoch),
    /// A control message of a node, which may be the node itself.
    Control {
        from: NodeId,
        message: Message,
    },
    /// A packet with this number enters the network here, on its way to the prefix.
    Inject {
        id: u32,
        prefix: PrefixId,
    },
    /// A packet stands here; the links to these neighbours are up, ascending.
    Hop {
        packet: Box<Packet>,
        up: Vec<NodeId>,
    },
}
