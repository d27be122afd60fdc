//! Candidates: the paths that neighbours told, with the own node in front.
ghost use Rattle.std.specs.Prelude.{ℕ, List, ◌≡◌, ◌≤◌, ◌∷◌, Some, None, IfOk, IsTrue, length, if◌then◌else◌};
ghost use Rattle.topology.specs.Lists.{has};
ghost use Rattle.path_vector.specs.Kept.{led_by};

use crate::Cause;
use std::marker::Model;
use topology::{NoMemory, NodeId, Path};

/// A candidate: the own node, and the path that a neighbour told, which does not have the own node. That path shares its
/// nodes with the update that brought it. A path with the own node in front is made only of a candidate that is told on or
/// stands in a table.
#[derive(Drop)]
pub struct Candidate {
    node: NodeId,
    told: Path,
}

impl Model for Candidate {
    ghost use Rattle.std.specs.Prelude.{ℕ, List, ◌≡◌, ◌∷◌, false};
    ghost use Rattle.topology.specs.Lists.{has};

    ghost Value = { List ℕ };

    ghost view = { λ c. c.node ∷ c.told };

    ghost invariant = { λ c. has c.told c.node ≡ false };
}

// Whether the node is on the path. It is short, so a loop in place takes less than a call.
#[inline(always)]
fn is_on(nodes: &[NodeId], node: NodeId) -> bool
    ensures { result ≡ has nodes.now node }
{
    nodes.iter().any(|other| *other == node)
}

// Whether both lists have the same nodes. They are short, so a loop takes less than the comparison of slices.
fn are_same(nodes: &[NodeId], others: &[NodeId]) -> bool
    ensures { IsTrue result → nodes.now ≡ others.now }
{
    if nodes.len() != others.len() {
        return false;
    }
    for place in 0..nodes.len() {
        if nodes[place] != others[place] {
            return false;
        }
    }
    true
}

// Whether the nodes are this one, followed by those that were told. The last nodes are compared first, as two different
// paths mostly differ there.
fn leads(nodes: &[NodeId], node: NodeId, told: &[NodeId]) -> bool
    ensures { IsTrue result → nodes.now ≡ node ∷ told.now }
{
    if nodes.last() != told.last() {
        return false;
    }
    match nodes {
        [] => false,
        [first, rest @ ..] => *first == node && are_same(rest, told),
    }
}

impl Candidate {
    /// The candidate of this node by a path that it was told. The answer is `None` where the node is on the path.
    pub(crate) fn of(node: NodeId, path: &Path) -> Result<Option<Candidate>, NoMemory>
        ensures { IfOk result (λ c. c ≡ (if has path.now node then None else Some (node ∷ path.now))) }
    {
        if is_on(path.nodes(), node) {
            return Ok(None);
        }
        Ok(Some(Candidate {
            node,
            told: path.copy()?,
        }))
    }

    /// The own node.
    pub(crate) fn own(&self) -> NodeId
        ensures { (rest : List ℕ) × (self.now ≡ result ∷ rest) }
    {
        self.node
    }

    /// The nodes after the own one, which are those that the neighbour told.
    pub(crate) fn rest(&self) -> &[NodeId]
        ensures { (node : ℕ) × (self.now ≡ node ∷ result.now) }
    {
        self.told.nodes()
    }

    /// How many nodes the candidate has, the own node included.
    pub(crate) fn len(&self) -> usize
        ensures length { result ≡ length self.now }
        ensures short { result ≤ 65537 }
    {
        self.told.nodes().len() + 1
    }

    /// The path with the own node in front. It is a copy of the known path where that has the same nodes.
    pub(crate) fn path(&self, known: Option<&Path>) -> Result<Path, NoMemory>
        ensures { IfOk result (λ path. path ≡ self.now) }
    {
        if let Some(known) = known {
            if self.is(known) {
                return Ok(known.copy()?);
            }
        }
        Ok(self.told.led_by_other(self.node)?)
    }

    /// The path with the own node in front. It is a copy of the one that was made last where that has the same nodes; else
    /// the path is made, and takes its place.
    pub(crate) fn path_again(&self, made: &mut Option<Path>) -> Result<Path, NoMemory>
        ensures { IfOk result (λ path. path ≡ self.now) }
    {
        if let Some(known) = made {
            if self.is(known) {
                return Ok(known.copy()?);
            }
        }
        let path = self.path(None)?;
        *made = Some(path.copy()?);
        Ok(path)
    }

    // Whether this is the candidate's path.
    fn is(&self, path: &Path) -> bool
        ensures { IsTrue result → path.now ≡ self.now }
    {
        leads(path.nodes(), self.node, self.told.nodes())
    }

    /// An equal copy, which shares the nodes.
    pub(crate) fn copy(&self) -> Result<Candidate, NoMemory>
        ensures { IfOk result (λ copy. copy ≡ self.now) }
    {
        Ok(Candidate {
            node: self.node,
            told: self.told.copy()?,
        })
    }
}

/// The candidate that an update brings this node. It is `None` for a withdrawal, for a path with the node on it, and for a
/// cause that is no update.
pub(crate) fn candidate_by(cause: &Cause, node: NodeId) -> Result<Option<Candidate>, NoMemory>
    ensures { IfOk result (λ candidate. candidate ≡ led_by node cause.now) }
{
    match cause {
        Cause::Recv {
            path: Some(path),
            ..
        } => Ok(Candidate::of(node, path)?),
        _ => Ok(None),
    }
}
