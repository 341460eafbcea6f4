//! Offers, and what is chosen among those that were found.

ghost use Rattle.std.specs.Prelude.{◌≡◌, ◌≤◌, ◌<◌, ◌+◌, ◌==◌, ◌++◌, ◌∷◌, [], length};
ghost use Rattle.nb_groups.specs.Quote.{least, group_at};

use crate::limits::MAX_GROUPS;
use std::marker::Model;

// For the members of a group a product has this price.
#[derive(Clone, Copy, Default)]
pub(crate) struct Offer {
    pub(crate) product: u32,
    pub(crate) group: u32,
    pub(crate) price: u32,
}

// Offers, at most four. It is seen as their list.
#[derive(Drop)]
pub(crate) struct Found {
    offers: [Offer; MAX_GROUPS],
    len: usize,
}

impl Model for Found {
    ghost use Rattle.std.specs.Prelude.{◌≤◌, List, take};
    ghost use Rattle.nb_groups.specs.declared.found.Offer.{Offer};
    ghost use Rattle.nb_groups.specs.declared.limits.TheConstants.{MAX_GROUPS};

    ghost Value = { List Offer };

    ghost view = { λ f. take f.len f.offers };

    ghost invariant = { λ f. f.len ≤ MAX_GROUPS };
}

impl Found {
    // No offer.
    pub(crate) fn new() -> Found
        ensures { result ≡ [] }
    {
        Found {
            offers: [Offer::default(); MAX_GROUPS],
            len: 0,
        }
    }

    // One offer more.
    pub(crate) fn push(&mut self, offer: Offer)
        requires { length self.old < 4 }
        ensures { self.new ≡ self.old ++ offer ∷ [] }
    {
        self.offers[self.len] = offer;
        self.len += 1;
    }

    // The offers.
    fn as_slice(&self) -> &[Offer]
        ensures { result.now ≡ self.now }
    {
        self.offers.split_at(self.len).0
    }

    // Whether there is none.
    pub(crate) fn is_empty(&self) -> bool
        ensures { result ≡ (length self.now == 0) }
    {
        self.as_slice().is_empty()
    }

    // The least of a price and those of the offers.
    pub(crate) fn least(&self, price: u64) -> u64
        ensures { result ≡ least price self.now }
    {
        let mut least = price;
        for offer in self.as_slice() {
            least = least.min(u64::from(offer.price));
        }
        least
    }

    // The group of the first offer of this price.
    pub(crate) fn group_at(&self, price: u64) -> Option<u32>
        ensures { result ≡ group_at price self.now }
    {
        for next in self.as_slice() {
            if u64::from(next.price) == price {
                return Some(next.group);
            }
        }
        None
    }
}
