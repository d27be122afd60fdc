//! The line of the value that was shown last, which is shown again while nothing happens.
ghost use Rattle.std.specs.Prelude.{◌≡◌, List, Some, IfOk};
ghost use Rattle.topology.specs.Net.{Net};
ghost use Rattle.path_vector.specs.Rules.{Rules};
ghost use Rattle.chronicle.specs.declared.events.Event.{Event};
ghost use Rattle.route_replay.specs.ShownClosure.{IsCurrent, IsLineOf};
ghost use Rattle.route_replay.specs.Text.{Leads, course};

use crate::closure_text::closure_line;
use crate::tasks::Task;
use path_vector::Policy;
use std::alloc::Global;
use topology::{Epoch, NoMemory};
use world_core::World;

/// The line of the value of an epoch.
#[derive(Drop)]
pub struct ShownClosure {
    epoch: Epoch,
    pub(crate) line: String,
}

// The line of an epoch, made anew.
fn new_line<P: Policy + Copy>(
    alloc: Global,
    world: &World<P>,
    epoch: Epoch,
) -> Result<ShownClosure, NoMemory>
    ensures { IfOk result (λ line. IsLineOf (P.rules world.now.policy) world.now.net world.now.events epoch line) }
{
    let mut line = String::new(alloc);
    closure_line(&mut line, alloc, world, epoch)?;
    Ok(ShownClosure { epoch, line })
}

/// The line of an epoch: the one that is kept, where it is of this epoch.
pub(crate) fn line_of<P: Policy + Copy>(
    alloc: Global,
    world: &World<P>,
    kept: Option<ShownClosure>,
    epoch: Epoch,
) -> Result<ShownClosure, NoMemory>
    requires { IsCurrent (P.rules world.now.policy) world.now.net world.now.events kept }
    ensures { IfOk result (λ line. IsLineOf (P.rules world.now.policy) world.now.net world.now.events epoch line) }
{
    if let Some(line) = kept {
        if line.epoch == epoch {
            return Ok(line);
        }
    }
    new_line(alloc, world, epoch)
}

/// Drops the line that is kept, where the task may change the world.
pub(crate) fn keep_through(kept: &mut Option<ShownClosure>, task: &Task)
    ensures { (rules : Rules) (net : Net) (events now : List Event) → IsCurrent rules net events kept.old →
        course rules net events task.now ≡ Leads now → IsCurrent rules net now kept.new }
{
    match task {
        Task::Show(_) => {}
        _ => *kept = None,
    }
}
