ghost use Rattle.std.specs.Prelude.{◌≡◌, ◌≤◌, ◌++◌, ◌∷◌, [], length, None, OnOk, OnErr};
ghost use Rattle.std.specs.List.{IsDistinct};
ghost use Rattle.std.specs.Map.{lookup, keys_of};
ghost use Rattle.nb_groups.specs.declared.limits.TheConstants.{OFFERS_BYTES};
ghost use Rattle.nb_groups.specs.Offers.{AreApart, same_key, price_for, offers_for};
ghost use Rattle.nb_groups.specs.Prices.{AreFirstPrices};
ghost use Rattle.nb_groups.specs.Reads.{ReadsOffers, ReadsFront, ReadsLines, Adds};

use crate::fault::OffersFault;
use crate::found::{Found, Offer};
use crate::line::{keeper_of, offer_of};
use nb_price::LINE_FEED;
use nb_units::{NoMemory, Secret};
use std::alloc::Global;
use std::collections::BTreeMap;
use std::marker::Model;

/// What a merchant offers to the members of groups, and the key of the keeper of these groups. It is seen as that key and the list of offers, in the
/// order of their lines.
pub struct Offers {
    pub(crate) keeper: Secret,
    // The price of a product for a group, in the order of the lines: offers are seen as this list. No look-up goes through it.
    prices: Vec<((u32, u32), u32)>,
    // The price by the product and the group.
    by_key: BTreeMap<(u32, u32), u32>,
}

impl Drop for Offers {
    fn drop(self) {
        let Self {
            keeper: _,
            prices: _,
            by_key: _,
        } = self;
    }
}

impl Model for Offers {
    ghost use Rattle.std.specs.Prelude.{map};
    ghost use Rattle.std.specs.List.{IsDistinct};
    ghost use Rattle.std.specs.Map.{keys_of};
    ghost use Rattle.nb_groups.specs.Offers.{Tariff, offer_at, same_key};
    ghost use Rattle.nb_groups.specs.Prices.{AreFirstPrices};

    ghost Value = { Tariff };

    ghost view = { λ o. record { keeper = o.keeper; offers = map offer_at o.prices.items } };

    ghost invariant = { λ o. record {
      apart : IsDistinct same_key (keys_of o.prices.items);
      firsts : AreFirstPrices o.by_key.entries o.prices.items;
    } };
}

// The offers of the lines at the front of bytes, how many lines these are, and what follows them.
struct Lines<'a> {
    offers: Offers,
    number: u32,
    rest: &'a [u8],
}

// A price for a product and a group that have none. After want of memory all is as before.
fn put(
    prices: &mut Vec<((u32, u32), u32)>,
    by_key: &mut BTreeMap<(u32, u32), u32>,
    key: (u32, u32),
    price: u32,
) -> Result<(), NoMemory>
    requires apart { IsDistinct same_key (keys_of prices.old.items) }
    requires firsts { AreFirstPrices by_key.old.entries prices.old.items }
    requires new { lookup (same_key key) prices.old.items ≡ None }
    ensures apart { IsDistinct same_key (keys_of prices.new.items) }
    ensures firsts { AreFirstPrices by_key.new.entries prices.new.items }
    ensures added { OnOk result (prices.new.items ≡ prices.old.items ++ (key, price) ∷ []) }
    ensures err { OnErr result (prices.new.items ≡ prices.old.items) }
{
    prices.reserve(1)?;
    let _was = by_key.insert(key, price)?;
    prices.push_reserved((key, price));
    Ok(())
}

impl Offers {
    /// The offers that at most [`OFFERS_BYTES`](crate::OFFERS_BYTES) bytes spell: a line `keeper ` with the 64 hexadecimal digits, of either case, of the
    /// keeper's key, and then lines `product;group;price`, none or any number. Each line ends with a line feed. The product and the group are
    /// from 0 to 4,294,967,295, the price from 1 to 1,000,000,000; each is decimal without sign or leading zero. No two lines are for one
    /// product and one group.
    ///
    /// It answers the fault of the first line that is not of its form ([`OffersFault::BadLine`]) or is for the product and the group of one before
    /// it ([`OffersFault::Twice`]), and [`OffersFault::NoMemory`] where there is none for the offers.
    pub fn read(alloc: Global, bytes: &[u8]) -> Result<Offers, OffersFault>
        requires { length bytes.now ≤ OFFERS_BYTES }
        ensures { ReadsOffers bytes.now result }
    {
        let Lines {
            offers,
            number,
            rest,
        } = read_lines(alloc, bytes)?;
        if !rest.is_empty() {
            return Err(OffersFault::BadLine { line: number + 1 });
        }
        Ok(offers)
    }

    /// The offers that stand before the first empty line, and what stands behind it. The faults are those of [`Offers::read`]; where all lines are of
    /// their form and no empty line ends them, the one behind the last is bad ([`OffersFault::BadLine`]).
    pub fn read_front(alloc: Global, bytes: &[u8]) -> Result<(Offers, &[u8]), OffersFault>
        requires { length bytes.now ≤ OFFERS_BYTES }
        ensures { ReadsFront bytes.now result }
    {
        let Lines {
            offers,
            number,
            rest,
        } = read_lines(alloc, bytes)?;
        if rest.is_empty() || rest[0] != LINE_FEED {
            return Err(OffersFault::BadLine { line: number + 1 });
        }
        Ok((offers, rest.split_at(1).1))
    }

    // The keeper's key, and no offer.
    #[tactic(auto, using(crate::proofs::Prices::none_apart))]
    fn new(alloc: Global, keeper: &Secret) -> Offers
        ensures { result ≡ (record { keeper = keeper.now; offers = [] }) }
    {
        Offers {
            keeper: *keeper,
            prices: Vec::new(alloc),
            by_key: BTreeMap::new(alloc),
        }
    }

    // Adds an offer behind the others.
    fn add(&mut self, line: u32, offer: Offer) -> Result<(), OffersFault>
        ensures { Adds self.old self.new line offer result }
    {
        let key = (offer.product, offer.group);
        if self.by_key.contains_key(&key) {
            return Err(OffersFault::Twice { line });
        }
        put(&mut self.prices, &mut self.by_key, key, offer.price)?;
        Ok(())
    }

    // No two of the offers are for one product and one group.
    pub(crate) fn apart(&self)
        ensures { AreApart self.now.offers }
    {
        let _prices = &self.prices;
    }

    // The price of the product for the group, if one is offered.
    fn price_for(&self, product: u32, group: u32) -> Option<u32>
        ensures { result ≡ price_for self.now.offers (product, group) }
    {
        match self.by_key.get(&(product, group)) {
            Some(price) => Some(*price),
            None => None,
        }
    }

    // The offers of the product for these groups, in the order of the groups.
    pub(crate) fn offers_for(&self, product: u32, groups: &[u32]) -> Found
        requires { length groups.now ≤ 4 }
        ensures { result ≡ offers_for self.now.offers product groups.now }
    {
        let mut found = Found::new();
        for group in groups {
            let Some(price) = self.price_for(product, *group) else {
                continue;
            };
            found.push(Offer {
                product,
                group: *group,
                price,
            });
        }
        found
    }
}

// The offers of the lines at the front of the bytes, as many as there are.
fn read_lines(alloc: Global, bytes: &[u8]) -> Result<Lines<'_>, OffersFault>
    requires { length bytes.now ≤ OFFERS_BYTES }
    ensures { ReadsLines bytes.now result }
{
    let first = match keeper_of(bytes) {
        Some(first) => first,
        None => return Err(OffersFault::BadLine { line: 1 }),
    };
    let keeper = first.0;
    let mut rest = first.1;
    let mut offers = Offers::new(alloc, &keeper);
    let mut number = 1;
    'lines: while let Some((offer, behind)) = offer_of(rest) {
        number += 1;
        offers.add(number, offer)?;
        rest = behind;
    }
    Ok(Lines {
        offers,
        number,
        rest,
    })
}
