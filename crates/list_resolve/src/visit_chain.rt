//! The chain of the elements that a walk is in.
ghost use Rattle.std.specs.Prelude.{◌≡◌, [], ◌∷◌};
ghost use Rattle.list_resolve.specs.ElementPlaces.{contains_place};

use crate::document_place::Place;
use std::marker::Model;

/// A chain, linked outwards, so that nothing is copied when a walk enters an element. Contracts
/// see the places, innermost first.
#[derive(Drop)]
#[cycle(chain)]
pub(crate) struct VisitChain<'a> {
    link: Link<'a>,
}

#[derive(Drop)]
#[cycle(chain)]
enum Link<'a> {
    End,
    // This place, and the chain before it.
    After(&'a Place, &'a VisitChain<'a>),
}

impl<'a> Model for VisitChain<'a> {
    ghost use Rattle.std.specs.Prelude.{List, length};
    ghost use Rattle.std.specs.Coded.{coded_list};
    ghost use Rattle.std.proofs.Common.{arith};
    ghost use Rattle.list_resolve.specs.inner.PlaceCodes.{place_code};
    ghost use Rattle.list_resolve.specs.declared.document_place.Place.{Place};

    ghost Value = { List Place };

    ghost coded = { coded_list place_code };

    ghost use Rattle.list_resolve.specs.inner.VisitChains.{chain_places};

    ghost view = { λ c. chain_places c.link };

    ghost size = { length };

    ghost size_decreases = { λ c h. Prim.grind arith };
}

impl<'a> VisitChain<'a> {
    /// The empty chain. Does not allocate.
    pub(crate) fn new() -> VisitChain<'a>
        ensures holds_no_places { result ≡ [] }
    {
        VisitChain { link: Link::End }
    }

    /// The chain with one more place, the innermost. Does not allocate.
    pub(crate) fn with(&'a self, place: &'a Place) -> VisitChain<'a>
        ensures adds_place { result ≡ place.now ∷ self.now }
    {
        VisitChain {
            link: Link::After(place, self),
        }
    }

    /// Whether a place is on the chain. Does not allocate.
    pub(crate) fn has(&self, place: &Place) -> bool
        ensures exact { result ≡ contains_place self.now place.now }
    {
        match &self.link {
            Link::End => false,
            Link::After(other, outer) => place.same(other) || outer.has(place),
        }
    }
}
