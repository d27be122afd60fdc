//! Looks up the names of lines in the network.
ghost use Rattle.std.specs.Prelude.{◌≡◌, None, Some, IfOk, OnOk, IfErr};
ghost use Rattle.schedule_file.specs.declared.names.Refusal.TheVariants.{Bad};
ghost use Rattle.schedule_file.specs.Lines.{DeclaresInRange};
ghost use Rattle.schedule_file.specs.Grammar.{with_declaration, place_in, directive_of, origin_fault, node_fault, pair_fault, neighbour_fault, declared_fault, rest_fault, directed_fault};
ghost use Rattle.schedule_file.specs.Standing.{refusal_of, NamesFault, place_of};

use crate::directives::{Directive, Rest};
use crate::lines::Declaration;
use topology::laws::relations_are_converse;
use topology::{BadKind, BuildError, NodeId, Prefix, PrefixId, Topology};

/// Why a line is refused.
#[derive(Clone, Copy, Debug, PartialEq, Eq)]
pub enum Refusal {
    NoMemory,
    Bad(BadKind),
}

impl From<BuildError> for Refusal {
    ghost from_gives = { λ error why. why ≡ refusal_of error };

    fn from(error: BuildError) -> Refusal {
        match error {
            BuildError::DuplicateNode => Refusal::Bad(BadKind::DuplicateNode),
            BuildError::UnknownNode(_) => Refusal::Bad(BadKind::UnknownNode),
            BuildError::DuplicateLink => Refusal::Bad(BadKind::DuplicateLink),
            BuildError::SelfLink => Refusal::Bad(BadKind::SelfLink),
            BuildError::DuplicatePrefix => Refusal::Bad(BadKind::DuplicatePrefix),
            BuildError::TooMany => Refusal::Bad(BadKind::TooMany),
            BuildError::NoMemory => Refusal::NoMemory,
            BuildError::NoLink => Refusal::Bad(BadKind::NoLink),
        }
    }
}

impl From<BadKind> for Refusal {
    ghost from_gives = { λ kind why. why ≡ Bad kind };

    fn from(kind: BadKind) -> Refusal {
        Refusal::Bad(kind)
    }
}

/// Adds or sets what the line declares.
pub fn declare(topology: &mut Topology, declaration: &Declaration) -> Result<(), Refusal>
    requires { DeclaresInRange declaration.now }
    ensures ok { OnOk result (topology.new ≡ with_declaration declaration.now topology.old) }
    ensures fine { OnOk result (declared_fault topology.old declaration.now ≡ None) }
    ensures err { IfErr result (λ why. NamesFault why (declared_fault topology.old declaration.now)) }
{
    match declaration {
        Declaration::Node { id, consolidator } => topology.add_node(*id, *consolidator)?,
        Declaration::Link { a, b, relation } => topology.add_link(*a, *b, *relation)?,
        Declaration::Pref { a, b, value } => topology.add_pref(*a, *b, *value)?,
        Declaration::Hold { a, b } => topology.add_hold(*a, *b)?,
        Declaration::Prefix { prefix } => {
            topology.add_prefix(*prefix)?;
        }
        Declaration::Hops { hops } => topology.set_hops(*hops),
        Declaration::Transient { scheme } => topology.set_scheme(*scheme)?,
    }
    Ok(())
}

// The place of the prefix, if the node and the prefix are declared.
fn origin(topology: &Topology, node: NodeId, prefix: Prefix) -> Result<PrefixId, BadKind>
    ensures ok { IfOk result (λ place. place ≡ place_in prefix topology.now.prefixes) }
    ensures fine { OnOk result (origin_fault topology.now node prefix ≡ None) }
    ensures err { IfErr result
        (λ kind. origin_fault topology.now node prefix ≡ Some kind) }
{
    if topology.rank_of(node).is_none() {
        return Err(BadKind::UnknownNode);
    }
    // brings in the invariant of the topology: no prefix is there twice
    let _valid = topology.nodes();
    let Some(place) = topology.find_prefix(prefix) else {
        return Err(BadKind::UnknownPrefix);
    };
    Ok(place)
}

// Checks that the node is declared.
fn check_node(topology: &Topology, node: NodeId) -> Result<(), BadKind>
    ensures ok { OnOk result (node_fault topology.now node ≡ None) }
    ensures err { IfErr result (λ kind. node_fault topology.now node ≡ Some kind) }
{
    match topology.rank_of(node) {
        Some(_) => Ok(()),
        None => Err(BadKind::UnknownNode),
    }
}

// Checks that the two are different nodes with a link.
fn check_pair(topology: &Topology, a: NodeId, b: NodeId) -> Result<(), BadKind>
    ensures ok { OnOk result (pair_fault topology.now a b ≡ None) }
    ensures err { IfErr result (λ kind. pair_fault topology.now a b ≡ Some kind) }
{
    relations_are_converse();
    if topology.rank_of(a).is_none() || topology.rank_of(b).is_none() {
        return Err(BadKind::UnknownNode);
    }
    if a == b {
        return Err(BadKind::SelfLink);
    }
    if topology.relation(a, b).is_none() {
        return Err(BadKind::NoLink);
    }
    Ok(())
}

// Checks that the two are nodes with a link. A node has no link with itself.
fn check_neighbour(topology: &Topology, node: NodeId, nbr: NodeId) -> Result<(), BadKind>
    ensures ok { OnOk result (neighbour_fault topology.now node nbr ≡ None) }
    ensures err { IfErr result (λ kind. neighbour_fault topology.now node nbr ≡ Some kind) }
{
    relations_are_converse();
    if topology.rank_of(node).is_none() || topology.rank_of(nbr).is_none() {
        return Err(BadKind::UnknownNode);
    }
    if topology.relation(node, nbr).is_none() {
        return Err(BadKind::NoLink);
    }
    Ok(())
}

// The place of the prefix among these words, if all names are declared. Without a prefix the place does not matter.
fn look_up_rest(topology: &Topology, rest: &Rest<Prefix>) -> Result<PrefixId, BadKind>
    ensures ok { IfOk result (λ place. place ≡ place_of topology.now rest.now) }
    ensures fine { OnOk result (rest_fault topology.now rest.now ≡ None) }
    ensures err { IfErr result (λ kind. rest_fault topology.now rest.now ≡ Some kind) }
{
    match *rest {
        Rest::Origin(node, prefix) | Rest::Inject(_, node, prefix) => {
            return origin(topology, node, prefix);
        }
        Rest::Single(node) | Rest::Propose(node, _) => check_node(topology, node)?,
        Rest::Pair(a, b) => check_pair(topology, a, b)?,
        Rest::Prefer(node, nbr, _) => check_neighbour(topology, node, nbr)?,
        _ => {}
    }
    Ok(PrefixId::new(0))
}

/// The directive with its names looked up.
pub fn look_up(topology: &Topology, directive: &Directive<Prefix>) -> Result<Directive, BadKind>
    ensures ok { IfOk result (λ found. found ≡ directive_of topology.now directive.now) }
    ensures fine { OnOk result (directed_fault topology.now directive.now ≡ None) }
    ensures err { IfErr result (λ kind. directed_fault topology.now directive.now ≡ Some kind) }
{
    let (_, rest) = directive.spelling();
    let place = look_up_rest(topology, &rest)?;
    Ok(directive.with_prefix(place))
}
