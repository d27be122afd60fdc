//! Lines and schedules.
use crate::directives::Directive;
use topology::{NodeId, Prefix, Relation, Scheme, Topology};

/// A line of the file as its words spell it. Names are not looked up.
#[derive(Clone, Copy, Debug, PartialEq, Eq)]
pub enum Line {
    /// A line without words.
    Blank,
    /// The line that ends the first part.
    Begin,
    /// A line of the first part.
    Declares(Declaration),
    /// A line of the second part. Its names are not looked up.
    Directs(Directive<Prefix>),
}

/// What a line adds to the network.
#[derive(Clone, Copy, Debug, PartialEq, Eq)]
pub enum Declaration {
    Node {
        id: NodeId,
        consolidator: bool,
    },
    /// `b` has this relation to `a`.
    Link {
        a: NodeId,
        b: NodeId,
        relation: Relation,
    },
    /// The preference of `a` for `b`.
    Pref {
        a: NodeId,
        b: NodeId,
        value: u32,
    },
    /// `a` holds back its updates to `b`.
    Hold {
        a: NodeId,
        b: NodeId,
    },
    Prefix {
        prefix: Prefix,
    },
    /// How many moves a packet may make off the stable tables.
    Hops {
        hops: u16,
    },
    /// How such a packet goes on.
    Transient {
        scheme: Scheme,
    },
}

/// A directive and the number of its line, from 1.
#[derive(Clone, Copy, Debug, PartialEq, Eq)]
pub struct Numbered {
    pub line: u32,
    pub directive: Directive,
}

/// A network and the directives of a run.
#[derive(Drop)]
pub struct Schedule {
    pub topology: Topology,
    pub lines: Vec<Numbered>,
}
