//! A stored message.
use consolidator::Mail;
use topology::NodeId;

/// A message with its sender and its addressee, and how often it was delivered.
#[derive(Debug, Drop)]
pub struct Kept {
    pub from: NodeId,
    pub mail: Mail,
    pub deliveries: u32,
}
