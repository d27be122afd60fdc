//! A network that does not change.
use crate::orders::Orders;
use crate::up_links::UpLinks;
use epoch_packet::NodeList;

/// A network that does not change, as packets of one prefix meet it.
#[derive(Debug, Drop)]
pub struct Still {
    pub up: UpLinks,
    /// The nodes that own the prefix.
    pub owners: NodeList,
    pub orders: Orders,
}
