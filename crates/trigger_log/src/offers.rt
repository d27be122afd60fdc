//! Best routes before and after an entry. Export decides which neighbours are offered them.
ghost use Rattle.std.specs.Prelude.{ℕ, ◌≡◌, ◌<◌, filter, length, IfOk};
ghost use Rattle.topology.specs.declared.names.Scope.TheVariants.{All};
ghost use Rattle.topology.specs.Net.{Net, places};
ghost use Rattle.path_vector.specs.Selection.{best};
ghost use Rattle.path_vector.specs.Answers.{Copies};
ghost use Rattle.path_vector.specs.History.{History};
ghost use Rattle.path_vector.specs.Standing.{StandsFor};
ghost use Rattle.trigger_log.specs.Offered.{AreChosen, ArePlaced, asked, goes_by, prefixes_of};

use path_vector::{Best, Cause, Chosen, Policy, RouteState};
use std::alloc::Global;
use topology::{NoMemory, NodeId, Path, PrefixId, Topology};

/// The best route of a prefix, not yet filtered by export.
#[derive(Drop)]
pub struct Offer {
    pub prefix: PrefixId,
    pub chosen: Chosen,
}

impl Offer {
    /// An equal copy, which shares the nodes of the path.
    pub fn copy(&self) -> Result<Offer, NoMemory>
        ensures { IfOk result (λ copy. copy ≡ self.now) }
    {
        Ok(Offer {
            prefix: self.prefix,
            chosen: self.chosen.copy()?,
        })
    }
}

/// The best routes of some prefixes before and after an entry, and for each whether it stayed the same.
#[derive(Clone, Copy)]
pub struct Offers<'a> {
    pub before: &'a [Offer],
    pub after: &'a [Offer],
    pub same: &'a [bool],
}

/// The best route of one prefix. `made` is as in `RouteState::chosen`.
#[inline(always)]
pub fn offer_of<P: Policy + Copy>(
    routes: &RouteState<P>,
    made: &mut Option<Path>,
    prefix: PrefixId,
) -> Result<Offer, NoMemory>
    ensures prefix { IfOk result (λ offer. offer.prefix ≡ prefix) }
    ensures chosen { IfOk result (λ offer. (policy : P) (net : Net) (u : ℕ) (h : History) →
        StandsFor policy net u routes.now h → prefix < length net.prefixes →
        Copies net u offer.chosen (best (P.rules policy) net u h prefix)) }
{
    let chosen = routes.chosen(prefix, made)?;
    Ok(Offer { prefix, chosen })
}

/// The best routes of all prefixes, in file order.
pub fn offers_of<P: Policy + Copy>(
    alloc: Global,
    routes: &RouteState<P>,
    made: &mut Option<Path>,
    topology: &Topology,
) -> Result<Vec<Offer>, NoMemory>
    ensures covers { IfOk result (λ offers. prefixes_of offers.items ≡ places topology.now) }
    ensures chosen { IfOk result (λ offers. (policy : P) (u : ℕ) (h : History) →
        StandsFor policy topology.now u routes.now h →
        AreChosen (P.rules policy) topology.now u h offers.items) }
{
    let mut offers = Vec::with_capacity(alloc, topology.prefix_count() as usize)?;
    for place in 0..topology.prefix_count() {
        offers.push(offer_of(routes, made, PrefixId::new(place))?)?;
    }
    Ok(offers)
}

// Whether the best route of a prefix goes by this neighbour.
#[inline(always)]
fn is_by<P: Policy + Copy>(routes: &RouteState<P>, prefix: PrefixId, nbr: NodeId) -> bool
    ensures { (policy : P) (net : Net) (u : ℕ) (h : History) →
        StandsFor policy net u routes.now h → prefix < length net.prefixes →
        result ≡ goes_by (P.rules policy) net u h nbr prefix }
{
    match routes.best(prefix) {
        Best::None => false,
        Best::Own => false,
        Best::Via(via, _) => via == nbr,
    }
}

/// The best routes that go by this neighbour, in file order of their prefixes.
pub fn offers_by<P: Policy + Copy>(
    alloc: Global,
    routes: &RouteState<P>,
    made: &mut Option<Path>,
    topology: &Topology,
    nbr: NodeId,
) -> Result<Vec<Offer>, NoMemory>
    ensures placed { IfOk result (λ offers. ArePlaced topology.now offers.items) }
    ensures covers { IfOk result (λ offers. (policy : P) (u : ℕ) (h : History) →
        StandsFor policy topology.now u routes.now h →
        prefixes_of offers.items ≡ filter (goes_by (P.rules policy) topology.now u h nbr) (places topology.now)) }
    ensures chosen { IfOk result (λ offers. (policy : P) (u : ℕ) (h : History) →
        StandsFor policy topology.now u routes.now h →
        AreChosen (P.rules policy) topology.now u h offers.items) }
{
    let mut offers = Vec::new(alloc);
    for place in 0..topology.prefix_count() {
        let prefix = PrefixId::new(place);
        if !is_by(routes, prefix, nbr) {
            continue;
        }
        offers.push(offer_of(routes, made, prefix)?)?;
    }
    Ok(offers)
}

/// The best routes now, for the prefixes of the given ones.
pub fn offers_again<P: Policy + Copy>(
    alloc: Global,
    routes: &RouteState<P>,
    made: &mut Option<Path>,
    offers: &[Offer],
) -> Result<Vec<Offer>, NoMemory>
    ensures covers { IfOk result (λ again. prefixes_of again.items ≡ prefixes_of offers.now) }
    ensures chosen { IfOk result (λ again. (policy : P) (net : Net) (u : ℕ) (h : History) →
        StandsFor policy net u routes.now h → ArePlaced net offers.now →
        AreChosen (P.rules policy) net u h again.items) }
{
    let mut again = Vec::with_capacity(alloc, offers.len())?;
    for i in 0..offers.len() {
        again.push(offer_of(routes, made, offers[i].prefix)?)?;
    }
    Ok(again)
}

/// The best routes that an entry of all prefixes may change. There are none for an entry that opens a session, which
/// leaves all offers as they were, and none for a flush, which concerns no prefix.
pub fn offers_for<P: Policy + Copy>(
    alloc: Global,
    routes: &RouteState<P>,
    made: &mut Option<Path>,
    topology: &Topology,
    cause: &Cause,
) -> Result<Vec<Offer>, NoMemory>
    ensures covers { IfOk result (λ offers. prefixes_of offers.items ≡ asked topology.now All cause.now) }
    ensures chosen { IfOk result (λ offers. (policy : P) (u : ℕ) (h : History) →
        StandsFor policy topology.now u routes.now h →
        AreChosen (P.rules policy) topology.now u h offers.items) }
{
    match cause {
        Cause::Up { .. } => Ok(Vec::new(alloc)),
        Cause::Flush { .. } => Ok(Vec::new(alloc)),
        _ => Ok(offers_of(alloc, routes, made, topology)?),
    }
}
