//! The best routes, kept from entry to entry.
ghost use Rattle.std.specs.Prelude.{ℕ, ◌≡◌, ◌≢◌, ◌<◌, ◌∷◌, [], false, true, length, IfOk, IfSome, IfNone, OnOk};
ghost use Rattle.std.specs.List.{AllByRecursion};
ghost use Rattle.topology.specs.Lists.{has};
ghost use Rattle.topology.specs.Net.{Net, places};
ghost use Rattle.path_vector.specs.History.{History};
ghost use Rattle.path_vector.specs.Selection.{Route, best};
ghost use Rattle.path_vector.specs.Standing.{StandsFor};
ghost use Rattle.path_vector.specs.Answers.{Copies};
ghost use Rattle.trigger_log.specs.BestRoutes.{KeepsRoutes};
ghost use Rattle.trigger_log.specs.Offered.{ArePlaced, prefixes_of};

use crate::offers::{Offer, offers_of};
use path_vector::{Chosen, Policy, RouteState};
use std::alloc::Global;
use std::mem;
use topology::{NoMemory, Path, PrefixId, Topology};

/// The best route of each prefix after the newest entry, in file order. So an entry that changes one of them knows the
/// one before without searching for it again.
#[derive(Drop)]
pub struct BestRoutes {
    offers: Vec<Offer>,
}

impl BestRoutes {
    /// The best routes of this state. `made` is as in `RouteState::chosen`.
    pub fn of<P: Policy + Copy>(
        alloc: Global,
        routes: &RouteState<P>,
        made: &mut Option<Path>,
        topology: &Topology,
    ) -> Result<BestRoutes, NoMemory>
        ensures { IfOk result (λ kept. (policy : P) (u : ℕ) (h : History) → StandsFor policy topology.now u routes.now h →
            KeepsRoutes topology.now u (best (P.rules policy) topology.now u h) kept) }
    {
        Ok(BestRoutes {
            offers: offers_of(alloc, routes, made, topology)?,
        })
    }

    /// Copies of all routes, in file order.
    pub fn copies(&self, alloc: Global) -> Result<Vec<Offer>, NoMemory>
        ensures { IfOk result (λ copies. copies.items ≡ self.now.offers.items) }
    {
        let mut copies = Vec::with_capacity(alloc, self.offers.len())?;
        for offer in &self.offers {
            copies.push(offer.copy()?)?;
        }
        Ok(copies)
    }

    /// The route of a prefix.
    pub fn get(&self, prefix: PrefixId) -> Option<&Offer>
        ensures some { IfSome result (λ offer. (net : Net) (u : ℕ) (route : ℕ → Route) → KeepsRoutes net u route self.now →
            Copies net u offer.now.chosen (route prefix)) }
        ensures none { IfNone result ((net : Net) (u : ℕ) (route : ℕ → Route) → KeepsRoutes net u route self.now →
            prefix < length net.prefixes → ⊥) }
    {
        self.offers.get(prefix.place() as usize)
    }

    /// The path of a prefix's route, with the own node in front. No contract mentions it.
    pub fn path(&self, prefix: PrefixId) -> Option<&Path> {
        self.get(prefix)?.chosen.path.as_ref()
    }

    /// Puts a copy of the route in the place of its prefix. Returns the route that was there; one without a path if
    /// there is no such prefix.
    pub fn put(&mut self, offer: &Offer) -> Result<Offer, NoMemory>
        ensures prefix { IfOk result (λ was. was.prefix ≡ offer.now.prefix) }
        ensures was { IfOk result (λ was. (net : Net) (u : ℕ) (route : ℕ → Route) → KeepsRoutes net u route self.old →
            offer.now.prefix < length net.prefixes → Copies net u was.chosen (route offer.now.prefix)) }
        ensures kept { OnOk result ((net : Net) (u : ℕ) (route next : ℕ → Route) → KeepsRoutes net u route self.old →
            Copies net u offer.now.chosen (next offer.now.prefix) →
            ((p : ℕ) → p ≢ offer.now.prefix → next p ≡ route p) → KeepsRoutes net u next self.new) }
    {
        let place = offer.prefix.place() as usize;
        let copy = offer.copy()?;
        if place >= self.offers.len() {
            return Ok(copy);
        }
        let Offer { chosen, .. } = mem::replace(&mut self.offers[place], copy);
        Ok(Offer {
            prefix: offer.prefix,
            chosen,
        })
    }

    /// Puts copies of the routes in the places of their prefixes.
    pub fn put_all(&mut self, offers: &[Offer]) -> Result<(), NoMemory>
        ensures { OnOk result ((net : Net) (u : ℕ) (route next : ℕ → Route) → KeepsRoutes net u route self.old →
            AllByRecursion (λ (o : Offer). Copies net u o.chosen (next o.prefix)) offers.now →
            ((p : ℕ) → has (places net) p ≡ true → has (prefixes_of offers.now) p ≡ false → next p ≡ route p) →
            KeepsRoutes net u next self.new) }
    {
        match offers {
            [] => Ok(()),
            [first, rest @ ..] => {
                self.put(first)?;
                self.put_all(rest)
            }
        }
    }
}
