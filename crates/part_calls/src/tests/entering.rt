//! Makes logs of nodes, and adds entries to them.
use path_vector::{Cause, Policy};
use std::alloc::Global;
use std::test::Fail;
use topology::{NodeId, Scope, Topology, Trigger, Triggers};
use trigger_log::{NodeLog, Outgoing};

/// The log of a node before its first entry.
pub(super) fn log_of<P: Policy + Copy>(
    alloc: Global,
    net: &Topology,
    node: u16,
    policy: P,
) -> Result<Box<NodeLog<P>>, Fail> {
    let log = NodeLog::new(alloc, net, NodeId::new(node), policy)?;
    Ok(Box::new(alloc, log)?)
}

/// The log with one more entry, which lists this trigger, and what goes out.
pub(super) fn appended<P: Policy + Copy>(
    alloc: Global,
    net: &Topology,
    log: Box<NodeLog<P>>,
    trigger: Trigger,
    scope: Scope,
    cause: Cause,
) -> Result<(Box<NodeLog<P>>, Vec<Outgoing>), Fail> {
    let triggers = Triggers::one(trigger);
    let (log, outgoing) = Box::into_inner(log).append(net, triggers, scope, cause)?;
    Ok((Box::new(alloc, log)?, outgoing))
}

/// The log after a flush, and what goes out.
pub(super) fn flushed<P: Policy + Copy>(
    alloc: Global,
    net: &Topology,
    log: Box<NodeLog<P>>,
    nbr: NodeId,
) -> Result<(Box<NodeLog<P>>, Vec<Outgoing>), Fail> {
    let cause = Cause::Flush { nbr };
    let log = Box::into_inner(log);
    let (log, outgoing) = log.append(net, Triggers::none(), Scope::Nothing, cause)?;
    Ok((Box::new(alloc, log)?, outgoing))
}

/// The log without the entries before this place.
pub(super) fn shorter<P: Policy + Copy>(
    alloc: Global,
    net: &Topology,
    log: Box<NodeLog<P>>,
    place: u32,
) -> Result<Box<NodeLog<P>>, Fail> {
    let log = Box::into_inner(log).drop_before(net, place)?;
    Ok(Box::new(alloc, log)?)
}
