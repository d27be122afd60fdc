//! Directives, how their lines are spelled, and the events of a first word. `specs/Directives.antt` has the definitions.
//! docs/CONTRIBUTING.md says what a new line needs.
ghost use Rattle.std.specs.Prelude.{◌≡◌, ◌≢◌, IfSome, IfNone};
ghost use Rattle.std.specs.List.{AllByRecursion};
ghost use Rattle.schedule_file.specs.declared.directives.Rest.TheVariants as rest;
ghost use Rattle.schedule_file.specs.declared.table.Keyword.TheVariants as keyword;
ghost use Rattle.schedule_file.specs.Directives.{first_word, rest_of, renamed};
ghost use Rattle.schedule_file.specs.Table.{keyword_words};

use crate::table::{EpochView, PlainView};
use topology::{Epoch, NodeId, Prefix, PrefixId};

/// What a line after `begin` orders. `P` is what names a prefix: in a line the prefix itself, in a schedule its place in
/// the network.
#[derive(Clone, Copy, Debug, PartialEq, Eq)]
pub enum Directive<P = PrefixId> {
    Originate {
        node: NodeId,
        prefix: P,
    },
    Withdraw {
        node: NodeId,
        prefix: P,
    },
    /// Writes the walk that a packet for the prefix would have from the node if nothing else happened.
    Probe {
        node: NodeId,
        prefix: P,
    },
    Prefer {
        node: NodeId,
        nbr: NodeId,
        value: u32,
    },
    Deliver {
        from: NodeId,
        to: NodeId,
    },
    Fail {
        a: NodeId,
        b: NodeId,
    },
    Restore {
        a: NodeId,
        b: NodeId,
    },
    Notice {
        node: NodeId,
        nbr: NodeId,
    },
    OpenSession {
        node: NodeId,
        nbr: NodeId,
    },
    /// The node sends the updates that it held back from the neighbour.
    Flush {
        node: NodeId,
        nbr: NodeId,
    },
    Snap {
        node: NodeId,
    },
    Crash {
        node: NodeId,
    },
    Restart {
        node: NodeId,
    },
    /// The node starts a ballot on the value of the epoch.
    Propose {
        node: NodeId,
        epoch: Epoch,
    },
    /// At most this many deliveries, each of them the next one.
    Drain {
        times: u32,
    },
    /// The control message with this number arrives.
    Control {
        number: u32,
    },
    /// At most this many control messages, each of them the next one.
    ControlAll {
        times: u32,
    },
    /// A packet with this number, at least 1, starts at the node, for the prefix.
    Inject {
        packet: u32,
        node: NodeId,
        prefix: P,
    },
    /// The packet makes its next move. With `times` it makes at most so many.
    Hop {
        packet: u32,
        times: Option<u32>,
    },
    ShowRib,
    ShowLog,
    ShowControl,
    ShowCut(Epoch),
    ShowClosure(Epoch),
    ShowTables(Epoch),
    /// Writes the walk of the packet with this number.
    ShowWalk(u32),
}

/// What follows the first word of a directive's line. Lines of one variant have one shape.
#[derive(Clone, Copy)]
pub enum Rest<P> {
    /// A node and a prefix.
    Origin(NodeId, P),
    Single(NodeId),
    /// Two nodes with a link.
    Pair(NodeId, NodeId),
    /// A node, its neighbour and a preference.
    Prefer(NodeId, NodeId, u32),
    Propose(NodeId, Epoch),
    Drain(u32),
    Control(u32),
    ControlAll(u32),
    Inject(u32, NodeId, P),
    Hop(u32, Option<u32>),
    Show(PlainView),
    ShowEpoch(EpochView, Epoch),
    ShowWalk(u32),
}

impl<P: Copy> Directive<P> {
    /// The first word of its line, and what follows.
    pub fn spelling(&self) -> (&'static str, Rest<P>)
        ensures word { result.0.now ≡ first_word self.now }
        ensures rest { result.1 ≡ rest_of self.now }
    {
        match *self {
            Directive::Originate { node, prefix } => ("originate", Rest::Origin(node, prefix)),
            Directive::Withdraw { node, prefix } => ("withdraw", Rest::Origin(node, prefix)),
            Directive::Probe { node, prefix } => ("probe", Rest::Origin(node, prefix)),
            Directive::Prefer { node, nbr, value } => ("prefer", Rest::Prefer(node, nbr, value)),
            Directive::Deliver { from, to } => ("deliver", Rest::Pair(from, to)),
            Directive::Fail { a, b } => ("fail", Rest::Pair(a, b)),
            Directive::Restore { a, b } => ("restore", Rest::Pair(a, b)),
            Directive::Notice { node, nbr } => ("notice", Rest::Pair(node, nbr)),
            Directive::OpenSession { node, nbr } => ("open", Rest::Pair(node, nbr)),
            Directive::Flush { node, nbr } => ("flush", Rest::Pair(node, nbr)),
            Directive::Snap { node } => ("snap", Rest::Single(node)),
            Directive::Crash { node } => ("crash", Rest::Single(node)),
            Directive::Restart { node } => ("restart", Rest::Single(node)),
            Directive::Propose { node, epoch } => ("propose", Rest::Propose(node, epoch)),
            Directive::Drain { times } => ("drain", Rest::Drain(times)),
            Directive::Control { number } => ("ctl", Rest::Control(number)),
            Directive::ControlAll { times } => ("ctl", Rest::ControlAll(times)),
            Directive::Inject {
                packet,
                node,
                prefix,
            } => ("inject", Rest::Inject(packet, node, prefix)),
            Directive::Hop { packet, times } => ("hop", Rest::Hop(packet, times)),
            Directive::ShowRib => ("show", Rest::Show(PlainView::Rib)),
            Directive::ShowLog => ("show", Rest::Show(PlainView::Log)),
            Directive::ShowControl => ("show", Rest::Show(PlainView::Control)),
            Directive::ShowCut(epoch) => ("show", Rest::ShowEpoch(EpochView::Cut, epoch)),
            Directive::ShowClosure(epoch) => ("show", Rest::ShowEpoch(EpochView::Closure, epoch)),
            Directive::ShowTables(epoch) => ("show", Rest::ShowEpoch(EpochView::Tables, epoch)),
            Directive::ShowWalk(packet) => ("show", Rest::ShowWalk(packet)),
        }
    }

    /// The same directive, whose prefix has this name. A directive without a prefix has no use for the name.
    pub fn with_prefix<Q: Copy>(&self, prefix: Q) -> Directive<Q>
        ensures { result ≡ renamed (λ p. prefix) self.now }
    {
        match *self {
            Directive::Originate { node, .. } => Directive::Originate { node, prefix },
            Directive::Withdraw { node, .. } => Directive::Withdraw { node, prefix },
            Directive::Probe { node, .. } => Directive::Probe { node, prefix },
            Directive::Prefer { node, nbr, value } => Directive::Prefer { node, nbr, value },
            Directive::Deliver { from, to } => Directive::Deliver { from, to },
            Directive::Fail { a, b } => Directive::Fail { a, b },
            Directive::Restore { a, b } => Directive::Restore { a, b },
            Directive::Notice { node, nbr } => Directive::Notice { node, nbr },
            Directive::OpenSession { node, nbr } => Directive::OpenSession { node, nbr },
            Directive::Flush { node, nbr } => Directive::Flush { node, nbr },
            Directive::Snap { node } => Directive::Snap { node },
            Directive::Crash { node } => Directive::Crash { node },
            Directive::Restart { node } => Directive::Restart { node },
            Directive::Propose { node, epoch } => Directive::Propose { node, epoch },
            Directive::Drain { times } => Directive::Drain { times },
            Directive::Control { number } => Directive::Control { number },
            Directive::ControlAll { times } => Directive::ControlAll { times },
            Directive::Inject { packet, node, .. } => Directive::Inject {
                packet,
                node,
                prefix,
            },
            Directive::Hop { packet, times } => Directive::Hop { packet, times },
            Directive::ShowRib => Directive::ShowRib,
            Directive::ShowLog => Directive::ShowLog,
            Directive::ShowControl => Directive::ShowControl,
            Directive::ShowCut(epoch) => Directive::ShowCut(epoch),
            Directive::ShowClosure(epoch) => Directive::ShowClosure(epoch),
            Directive::ShowTables(epoch) => Directive::ShowTables(epoch),
            Directive::ShowWalk(packet) => Directive::ShowWalk(packet),
        }
    }
}

/// The event of a node and a prefix, or the probe, whose line begins with the word.
pub fn origin_event(word: &[u8], node: NodeId, prefix: Prefix) -> Option<Directive<Prefix>>
    ensures word { IfSome result (λ event. word.now ≡ first_word event) }
    ensures rest { IfSome result (λ event. rest_of event ≡ rest.Origin node prefix) }
    ensures none { IfNone result (AllByRecursion (λ text. word.now ≢ text) (keyword_words keyword.Origin)) }
{
    match word {
        b"originate" => Some(Directive::Originate { node, prefix }),
        b"withdraw" => Some(Directive::Withdraw { node, prefix }),
        b"probe" => Some(Directive::Probe { node, prefix }),
        _ => None,
    }
}

/// The event of one node whose line begins with the word.
pub fn node_event(word: &[u8], node: NodeId) -> Option<Directive<Prefix>>
    ensures word { IfSome result (λ event. word.now ≡ first_word event) }
    ensures rest { IfSome result (λ event. rest_of event ≡ rest.Single node) }
    ensures none { IfNone result (AllByRecursion (λ text. word.now ≢ text) (keyword_words keyword.Single)) }
{
    match word {
        b"snap" => Some(Directive::Snap { node }),
        b"crash" => Some(Directive::Crash { node }),
        b"restart" => Some(Directive::Restart { node }),
        _ => None,
    }
}

/// The event of two nodes whose line begins with the word.
pub fn pair_event(word: &[u8], a: NodeId, b: NodeId) -> Option<Directive<Prefix>>
    ensures word { IfSome result (λ event. word.now ≡ first_word event) }
    ensures rest { IfSome result (λ event. rest_of event ≡ rest.Pair a b) }
    ensures none { IfNone result (AllByRecursion (λ text. word.now ≢ text) (keyword_words keyword.Pair)) }
{
    match word {
        b"deliver" => Some(Directive::Deliver { from: a, to: b }),
        b"fail" => Some(Directive::Fail { a, b }),
        b"restore" => Some(Directive::Restore { a, b }),
        b"notice" => Some(Directive::Notice { node: a, nbr: b }),
        b"open" => Some(Directive::OpenSession { node: a, nbr: b }),
        b"flush" => Some(Directive::Flush { node: a, nbr: b }),
        _ => None,
    }
}
