//! What happens in a load.
ghost use Rattle.std.specs.Prelude.{◌≡◌, ◌++◌, ◌∷◌, [], ℕ, Some, length, IfOk, OnOk};
ghost use Rattle.schedule_file.specs.declared.directives.Directive.TheVariants as line;
ghost use Rattle.load_plan.specs.Draws.{state_after};
ghost use Rattle.load_plan.specs.LoadNetwork.{first_providers, load_net};
ghost use Rattle.load_plan.specs.LoadSchedule.{announcements, epoch_lines, failing_lines, further_epochs, load_directives, packets_lines};

use crate::draws::Draws;
use crate::load_network::{NODES, PREFIXES, load_network};
use schedule_file::Directive;
use std::alloc::{AllocError, Global};
use topology::limits::{MOST_CONTROL, MOST_TIMES};
use topology::{Epoch, NoMemory, NodeId, PrefixId, Topology};

/// As many deliveries as a line may ask for.
const ALL_DELIVERIES: u32 = MOST_TIMES;

/// As many control messages as a run may have.
const ALL_MESSAGES: u32 = MOST_CONTROL;

/// So many deliveries come between a failure and the epoch behind it.
const FEW_DELIVERIES: u32 = 20;

/// So many epochs come behind the first.
const FURTHER_EPOCHS: u32 = 3;

/// So many packets enter.
pub const PACKETS: u32 = 12;

/// At most so many moves of each.
const HOPS: u32 = 200;

/// A network, and what happens in it.
#[derive(Drop)]
pub struct Load {
    pub topology: Topology,
    pub directives: Vec<Directive>,
}

// Each prefix is announced by a node.
fn announce(lines: &mut Vec<Directive>, draws: &mut Draws) -> Result<(), AllocError>
    requires { lines.old.items ≡ [] }
    ensures { (number : ℕ) → draws.old.state ≡ state_after number 42 →
        OnOk result ((lines.new.items ≡ announcements number 12) × (draws.new.state ≡ state_after number 54)) }
{
    for place in 0..PREFIXES {
        let node = draws.draw(NODES) + 1;
        lines.push(Directive::Originate {
            node: NodeId::new(node),
            prefix: PrefixId::new(place),
        })?;
    }
    Ok(())
}

// Node 1 begins an epoch, and a node proposes its value.
fn agree(lines: &mut Vec<Directive>, proposer: u16, epoch: u32) -> Result<(), AllocError>
    ensures { OnOk result (lines.new.items ≡ lines.old.items ++ epoch_lines proposer epoch) }
{
    lines.extend_from_slice(&[
        Directive::Snap {
            node: NodeId::new(1),
        },
        Directive::Drain {
            times: ALL_DELIVERIES,
        },
        Directive::ControlAll {
            times: ALL_MESSAGES,
        },
        Directive::Propose {
            node: NodeId::new(proposer),
            epoch: Epoch::new(epoch),
        },
        Directive::ControlAll {
            times: ALL_MESSAGES,
        },
    ])
}

// The link of a node and its provider fails, and an epoch follows.
fn fail(
    lines: &mut Vec<Directive>,
    provider: NodeId,
    node: NodeId,
    epoch: u32,
) -> Result<(), AllocError>
    ensures { OnOk result (lines.new.items ≡ lines.old.items ++ failing_lines provider node epoch) }
{
    lines.extend_from_slice(&[
        Directive::Fail {
            a: provider,
            b: node,
        },
        Directive::Notice {
            node: provider,
            nbr: node,
        },
        Directive::Notice {
            node,
            nbr: provider,
        },
        Directive::Drain {
            times: FEW_DELIVERIES,
        },
    ])?;
    agree(lines, 2, epoch)
}

// Before each further epoch a node loses its first provider.
fn fail_links(
    lines: &mut Vec<Directive>,
    providers: &[NodeId],
    draws: &mut Draws,
) -> Result<(), AllocError>
    requires { length providers.now ≡ 21 }
    ensures { (number : ℕ) → providers.now ≡ first_providers number 21 → draws.old.state ≡ state_after number 54 →
        OnOk result ((lines.new.items ≡ lines.old.items ++ further_epochs number 3) × (draws.new.state ≡ state_after number 57)) }
{
    for before in 0..FURTHER_EPOCHS {
        let place = draws.draw(NODES - 3);
        let provider = providers[usize::from(place)];
        fail(lines, provider, NodeId::new(place + 4), before + 2)?;
    }
    Ok(())
}

// The lines of a packet.
fn send(lines: &mut Vec<Directive>, packet: u32, node: u16, prefix: u16) -> Result<(), AllocError>
    ensures { OnOk result (lines.new.items ≡ lines.old.items ++ line.Inject packet node prefix ∷ line.Hop packet (Some 200) ∷ []) }
{
    lines.extend_from_slice(&[
        Directive::Inject {
            packet,
            node: NodeId::new(node),
            prefix: PrefixId::new(prefix),
        },
        Directive::Hop {
            packet,
            times: Some(HOPS),
        },
    ])
}

// A packet for each prefix enters somewhere, and goes.
fn send_packets(lines: &mut Vec<Directive>, draws: &mut Draws) -> Result<(), AllocError>
    ensures { (number : ℕ) → draws.old.state ≡ state_after number 57 →
        OnOk result (lines.new.items ≡ lines.old.items ++ packets_lines number 12) }
{
    for place in 0..PREFIXES {
        let node = draws.draw(NODES) + 1;
        send(lines, u32::from(place) + 1, node, place)?;
    }
    Ok(())
}

// All that happens, where the links took the draws before.
fn directives_of(
    alloc: Global,
    providers: &[NodeId],
    draws: &mut Draws,
) -> Result<Vec<Directive>, AllocError>
    requires { length providers.now ≡ 21 }
    ensures { (number : ℕ) → providers.now ≡ first_providers number 21 → draws.old.state ≡ state_after number 42 →
        IfOk result (λ lines. lines.items ≡ load_directives number) }
{
    let mut lines = Vec::new(alloc);
    announce(&mut lines, draws)?;
    lines.push(Directive::Drain {
        times: ALL_DELIVERIES,
    })?;
    agree(&mut lines, 1, 1)?;
    fail_links(&mut lines, providers, draws)?;
    send_packets(&mut lines, draws)?;
    Ok(lines)
}

/// The network of this number, and what happens in it.
pub fn load_of(alloc: Global, number: u32) -> Result<Load, NoMemory>
    ensures topology { IfOk result (λ load. load.topology ≡ load_net number) }
    ensures directives { IfOk result (λ load. load.directives.items ≡ load_directives number) }
{
    let mut network = load_network(alloc, number)?;
    match directives_of(alloc, &network.first_providers, &mut network.draws) {
        Ok(directives) => Ok(Load {
            topology: network.topology,
            directives,
        }),
        Err(_) => {
            // a call, as in `load_network`
            drop(network);
            Err(NoMemory)
        }
    }
}
