//! The control messages of a network. Each is stored for good, with the number of its deliveries; and one of them is
//! delivered next.
//!
//! Messages are numbered from 1 in the order in which they are sent. No message is ever dropped. Each may be delivered
//! any number of times, and each delivery is counted, even one that changes nothing. A delivery of a number without a
//! message is not counted. The next message is the lowest one that was never delivered and whose addressee is not
//! crashed. When a node crashes and comes back, the messages that wait for it keep waiting.
#![tactic(auto)]

pub mod inbox;
pub mod inboxes;
pub mod kept;
pub mod laws;
pub mod mails;

#[doc(hidden)]
pub use inbox::Inbox;
#[doc(hidden)]
pub use inboxes::Inboxes;
pub use kept::Kept;
pub use mails::Mails;
