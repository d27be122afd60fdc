//! Rows of a table: what it has for one prefix.
ghost use Rattle.std.specs.Prelude.{ℕ, ◌≡◌, ◌<◌, true, length, map, filter, option_and_then, IfOk};
ghost use Rattle.std.specs.List.{AllZip};
ghost use Rattle.topology.specs.Lists.{has};
ghost use Rattle.topology.specs.Net.{Net, places};
ghost use Rattle.path_vector.specs.History.{History};
ghost use Rattle.path_vector.specs.Ranking.{by_rank};
ghost use Rattle.path_vector.specs.Selection.{Choice, best, path_of};
ghost use Rattle.path_vector.specs.Standing.{StandsFor};
ghost use Rattle.stable_table.specs.Tables.{all_responded, answered};
ghost use Rattle.stable_table.specs.Rows.{IsRow, prefix_row};

use crate::backups::backups_of;
use crate::known_paths::KnownPaths;
use crate::responders::Responders;
use crate::tables::Table;
use path_vector::{Policy, RankedCandidate, RouteState};
use std::alloc::Global;
use std::rc::Rc;
use topology::{NoMemory, Path, PrefixId, Topology};
use trigger_log::NodeLog;

/// The path of a prefix, if there is one, and its backups.
#[derive(Debug, Drop)]
pub struct Row {
    pub path: Option<Path>,
    pub backups: Vec<Path>,
}

// The path of the best route, if all its nodes responded. It is that of the own node alone, or the first backup.
fn path_of<P: Policy + Copy>(
    state: &RouteState<P>,
    candidates: &[RankedCandidate<'_>],
    backups: &[Path],
    responders: &Responders<'_>,
    prefix: PrefixId,
) -> Result<Option<Path>, NoMemory>
    ensures { IfOk result (λ path. (policy : P) (net : Net) (u : ℕ) (h : History) →
        StandsFor policy net u state.now h → prefix < length net.prefixes →
        candidates.now ≡ by_rank (P.rules policy) net u h prefix →
        backups.now ≡ filter (all_responded responders.now.value.now) (map (λ (c : Choice). c.path) candidates.now) →
        has responders.now.value.now.responding u ≡ true →
        path ≡ option_and_then (answered responders.now.value.now u) (path_of u (best (P.rules policy) net u h prefix))) }
{
    if state.owns(prefix) {
        return Ok(Some(state.own_path()?));
    }
    let Some(first) = candidates.first() else {
        return Ok(None);
    };
    if !responders.all_on(first) {
        return Ok(None);
    }
    let Some(path) = backups.first() else {
        return Ok(None);
    };
    Ok(Some(path.copy()?))
}

// The row of a prefix. It is empty if the own node did not respond.
fn row_of<P: Policy + Copy>(
    alloc: Global,
    state: &RouteState<P>,
    candidates: &[RankedCandidate<'_>],
    responders: &Responders<'_>,
    prefix: PrefixId,
    known: &KnownPaths<'_>,
) -> Result<Row, NoMemory>
    ensures { IfOk result (λ row. (policy : P) (net : Net) (u : ℕ) (h : History) →
        StandsFor policy net u state.now h → prefix < length net.prefixes →
        candidates.now ≡ by_rank (P.rules policy) net u h prefix →
        IsRow (prefix_row (P.rules policy) net u responders.now.value.now h prefix) row) }
{
    if !responders.responded(state.node()) {
        return Ok(Row {
            path: None,
            backups: Vec::new(alloc),
        });
    }
    let backups = backups_of(alloc, candidates, responders, known)?;
    let path = path_of(state, candidates, &backups, responders, prefix)?;
    Ok(Row { path, backups })
}

/// A row for each prefix, in file order, in a list that tables may share. The log and the earlier table only serve to find
/// paths that are known.
pub(crate) fn rows_of<P: Policy + Copy>(
    alloc: Global,
    topology: &Topology,
    state: &RouteState<P>,
    responders: &Responders<'_>,
    log: &NodeLog<P>,
    earlier: Option<&Table>,
) -> Result<Rc<Vec<Row>>, NoMemory>
    ensures { IfOk result (λ rows. (policy : P) (u : ℕ) (h : History) →
        StandsFor policy topology.now u state.now h →
        AllZip (λ p. IsRow (prefix_row (P.rules policy) topology.now u responders.now.value.now h p))
        (places topology.now) rows.value.items) }
{
    let mut rows = Vec::with_capacity(alloc, topology.prefix_count() as usize)?;
    let mut candidates = Vec::new(alloc);
    for place in 0..topology.prefix_count() {
        let prefix = PrefixId::new(place);
        state.put_by_rank(prefix, &mut candidates)?;
        let known = KnownPaths::of(log, earlier, prefix);
        rows.push(row_of(alloc, state, &candidates, responders, prefix, &known)?)?;
    }
    let shared = Rc::new(alloc, rows)?;
    Ok(shared)
}
