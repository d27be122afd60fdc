//! Entries that tell no neighbour anything.
ghost use Rattle.std.specs.Prelude.{ℕ, ◌≡◌, ◌∷◌, ◌↔◌, List, IsTrue, IfOk};
ghost use Rattle.topology.specs.declared.names.Trigger.{Trigger};
ghost use Rattle.topology.specs.Net.{Net};
ghost use Rattle.path_vector.specs.Standing.{StandsFor};
ghost use Rattle.trigger_log.specs.Entries.{Entry, entry, reads};
ghost use Rattle.trigger_log.specs.Offered.{AreSame, IsPlaced, prefixes_of};
ghost use Rattle.trigger_log.specs.Quiet.{IsQuiet, Stays, turns_session};

use crate::listeners::{Turn, same};
use crate::offers::Offer;
use path_vector::{Cause, Policy, RouteState};
use std::alloc::Global;
use topology::{NoMemory, Scope};

// Whether the entry ends a session, makes one ready, or flushes.
fn turns_session(cause: &Cause) -> bool
    ensures { result ≡ turns_session cause.now }
{
    match cause {
        Cause::Down { .. } => true,
        Cause::Ready { .. } => true,
        Cause::Flush { .. } => true,
        _ => false,
    }
}

/// Whether both are the same best route of the same prefix.
pub fn same_offer(a: &Offer, b: &Offer) -> bool
    ensures { IsTrue result ↔ (a.now ≡ b.now) }
{
    if a.prefix != b.prefix || a.chosen.learned != b.chosen.learned {
        return false;
    }
    same(a.chosen.path.as_ref(), b.chosen.path.as_ref())
}

/// For each best route, whether it is the same before and after.
pub fn same_offers(alloc: Global, before: &[Offer], after: &[Offer]) -> Result<Vec<bool>, NoMemory>
    requires same_prefixes { prefixes_of before.now ≡ prefixes_of after.now }
    ensures { IfOk result (λ same. AreSame before.now after.now same.items) }
{
    let mut same = Vec::with_capacity(alloc, after.len())?;
    for i in 0..after.len() {
        same.push(same_offer(&before[i], &after[i]))?;
    }
    Ok(same)
}

/// Whether an entry leaves all best routes and the readiness of all sessions as they were. Then there is nothing to
/// tell.
pub fn is_quiet(turn: &Turn<'_>) -> bool
    requires same { AreSame turn.now.before.now turn.now.after.now turn.now.same.now }
    ensures { IsTrue result ↔ IsQuiet turn.now }
{
    !turns_session(turn.cause) && !turn.same.contains(&false)
}

/// Whether an entry is an update that leaves the best route of its prefix as it is. Then there is nothing to tell, and
/// nothing has to be compared.
pub fn stays<P: Policy + Copy>(routes: &RouteState<P>, scope: &Scope, cause: &Cause) -> bool
    ensures { (policy : P) (net : Net) (u : ℕ) (h : List Entry) (triggers : List Trigger) →
        StandsFor policy net u routes.now (reads h) → IsPlaced net scope.now → IsTrue result →
        Stays (P.rules policy) net u h (entry triggers scope.now cause.now) }
{
    let Scope::One(prefix) = scope else {
        return false;
    };
    let Cause::Recv { from, path, .. } = cause else {
        return false;
    };
    routes.stays(*prefix, *from, path)
}
