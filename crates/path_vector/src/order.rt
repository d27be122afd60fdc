//! The order in which a node tries its neighbours.
ghost use Rattle.std.specs.Prelude.{◌≡◌, ◌++◌, IfOk, OnOk, map};
ghost use Rattle.path_vector.specs.Selection.{Choice};
ghost use Rattle.path_vector.specs.Order.{others_kept};
ghost use Rattle.path_vector.specs.Ranking.{kept_by_rank};

use crate::Policy;
use crate::neighbours::Neighbour;
use crate::ranked_candidates::put_by_rank;
use std::alloc::Global;
use topology::{NoMemory, NodeId, PrefixId};

// The neighbours with a candidate, by rank, then the others.
pub(crate) fn order<P: Policy>(
    alloc: Global,
    policy: &P,
    neighbours: &[Neighbour],
    prefix: PrefixId,
) -> Result<Vec<NodeId>, NoMemory>
    ensures { IfOk result (λ order. order.items ≡
        map (λ (c : Choice). c.nbr) (kept_by_rank (P.rules policy.now).before prefix neighbours.now)
        ++ others_kept prefix neighbours.now) }
{
    let mut sorted = Vec::new(alloc);
    put_by_rank(policy, neighbours, prefix, &mut sorted)?;
    let mut order = sorted.iter().map(|one| one.nbr()).collect(alloc)?;
    add_others(&mut order, neighbours, prefix)?;
    Ok(order)
}

// Adds the neighbours that have no candidate.
fn add_others(
    order: &mut Vec<NodeId>,
    neighbours: &[Neighbour],
    prefix: PrefixId,
) -> Result<(), NoMemory>
    ensures { OnOk result (order.new.items ≡ order.old.items ++ others_kept prefix neighbours.now) }
{
    for neighbour in neighbours {
        if neighbour.candidate(prefix).is_none() {
            order.push(neighbour.id)?;
        }
    }
    Ok(())
}
