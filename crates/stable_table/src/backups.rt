//! The backups of a prefix.
ghost use Rattle.std.specs.Prelude.{◌≡◌, map, filter, IfOk};
ghost use Rattle.path_vector.specs.Selection.{Choice};
ghost use Rattle.stable_table.specs.Tables.{all_responded};

use crate::known_paths::KnownPaths;
use crate::responders::Responders;
use path_vector::RankedCandidate;
use std::alloc::Global;
use topology::{NoMemory, Path};

/// The paths of those candidates whose nodes all responded, in the order of the candidates. Those that are known are copied.
pub(crate) fn backups_of(
    alloc: Global,
    candidates: &[RankedCandidate<'_>],
    responders: &Responders<'_>,
    known: &KnownPaths<'_>,
) -> Result<Vec<Path>, NoMemory>
    ensures { IfOk result (λ backups. backups.items ≡ filter (all_responded responders.now.value.now)
        (map (λ (c : Choice). c.path) candidates.now)) }
{
    let mut backups = Vec::with_capacity(alloc, candidates.len())?;
    for candidate in candidates {
        if responders.all_on(candidate) {
            backups.push(candidate.path(known.by(candidate.nbr()))?)?;
        }
    }
    Ok(backups)
}
