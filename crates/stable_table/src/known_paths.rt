//! Paths that were made before, of which a row may be made.
use crate::tables::Table;
use path_vector::Policy;
use topology::{NodeId, Path, PrefixId};
use trigger_log::NodeLog;

/// Paths of a prefix that a node has made before: that of the best route by its log, and the backups of an earlier table.
/// A row gets copies of those that are its own, which take no memory. No contract rests on what they are.
#[derive(Clone, Copy)]
pub(crate) struct KnownPaths<'a> {
    best: Option<&'a Path>,
    backups: &'a [Path],
}

// Whether the path goes by the neighbour: whether that is its second node.
fn goes_by(path: &Path, nbr: NodeId) -> bool {
    path.nodes().get(1) == Some(&nbr)
}

impl<'a> KnownPaths<'a> {
    /// The known paths of a prefix.
    pub(crate) fn of<P: Policy + Copy>(
        log: &'a NodeLog<P>,
        earlier: Option<&'a Table>,
        prefix: PrefixId,
    ) -> KnownPaths<'a> {
        KnownPaths {
            best: log.best_path(prefix),
            backups: match earlier {
                None => &[],
                Some(table) => table.backups(prefix),
            },
        }
    }

    /// A known path by the neighbour.
    pub(crate) fn by(&self, nbr: NodeId) -> Option<&'a Path> {
        if let Some(best) = self.best {
            if goes_by(best, nbr) {
                return self.best;
            }
        }
        for backup in self.backups {
            if goes_by(backup, nbr) {
                return Some(backup);
            }
        }
        None
    }
}
