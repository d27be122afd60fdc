//! The limit on the triggers of a run, beside the limits of one node.
ghost use Rattle.std.specs.Prelude.{◌≡◌, ◌≤◌, ◌<◌, ◌+◌, ◌-◌, IfOk, IfErr};
ghost use Rattle.node_core.specs.Inputs.{input_of};
ghost use Rattle.topology.specs.declared.limits.TheConstants.{MOST_TRIGGERS};
ghost use Rattle.world_core.specs.Limits.{makes_local, run_stop};

use node_core::{Input, Stop};
use topology::limits::MOST_TRIGGERS;
use topology::{Item, LimitKind};

/// Whether an entry of this input gets a trigger of its node. Entries of updates and of flushes do not.
pub fn is_local(input: &Input) -> bool
    ensures { result ≡ makes_local (input_of input.now) }
{
    !matches!(
        input,
        Input::Arrive {
            item: Item::Update { .. },
            ..
        } | Input::Flush(_)
    )
}

/// The number of triggers of all nodes, after the next trigger of one node went from the count `before` to the count
/// `after`. Stops where the number is above its limit.
pub fn counted(triggers: u32, before: u32, after: u32) -> Result<u32, Stop>
    ensures ok { IfOk result (λ total. (total ≡ triggers + (after - before)) × (total ≤ MOST_TRIGGERS)) }
    ensures stopped { IfErr result (λ stop. (stop ≡ Stop.Limit LimitKind.Triggers MOST_TRIGGERS) × (MOST_TRIGGERS < triggers + (after - before))) }
{
    let total = triggers.saturating_add(after.saturating_sub(before));
    if total > MOST_TRIGGERS {
        return Err(Stop::Limit(LimitKind::Triggers, MOST_TRIGGERS));
    }
    Ok(total)
}

/// The stop of the run where a node stops. The limit on the triggers of all nodes stands behind the epochs of a node
/// and before its entries, so a run may stop at its triggers where the node stops at its entries.
pub fn stop_of(triggers: u32, is_local: bool, stop: Stop) -> Stop
    ensures { result ≡ run_stop triggers is_local stop }
{
    match stop {
        Stop::NoMemory => Stop::NoMemory,
        Stop::Limit(kind, number) => {
            if !matches!(kind, LimitKind::Epochs) && is_local && triggers >= MOST_TRIGGERS {
                return Stop::Limit(LimitKind::Triggers, MOST_TRIGGERS);
            }
            Stop::Limit(kind, number)
        }
    }
}
