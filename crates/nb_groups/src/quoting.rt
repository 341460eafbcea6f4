ghost use Rattle.std.specs.Prelude.{◌≡◌, ◌≤◌, length, IfOk, None};
ghost use Rattle.nb_groups.specs.declared.limits.TheConstants.{CREDENTIAL_BYTES};
ghost use Rattle.nb_groups.specs.Quote as quotes;
ghost use Rattle.nb_groups.specs.Laws as law;

use crate::found::Found;
use crate::membership::opened;
use crate::offers::Offers;
use nb_price::{Catalogue, NoProduct};
use nb_units::{PartyId, Price};

/// What is quoted to who asks for a product.
#[derive(Clone, Copy, Debug)]
pub struct Quoted {
    pub price: Price,
    /// The smallest of the asker's groups with an offer of this price, or `None` where it is the shelf's, also where
    /// an offer is as low.
    pub group: Option<u32>,
    /// Why no offer for a group counted, or `None` where one did.
    pub denied: Option<Denial>,
}

/// Why a request gets no price for a group.
#[derive(Clone, Copy, Debug)]
pub enum Denial {
    /// The request is empty.
    NoCredential,
    /// The request is the seal of no text under the keeper's key. The iv is its first 32 bytes, with zeros where there are fewer.
    BadSeal { iv: [u8; 32] },
    /// The request is a seal, and its text is not that of a credential. The place is that of the first field that fails, in bytes from the front of
    /// the text.
    Malformed { place: usize },
    /// The credential is another consumer's than that of the one who asks.
    WrongConsumer { named: PartyId, asked: PartyId },
    /// The credential's last second is before the moment. Both are in seconds since 1970-01-01 00:00 UTC.
    Expired { until: u64, now: u64 },
    /// There is no offer of the product for a group of the credential.
    NoOffer { product: u32 },
}

/// What a product costs the consumer who asks with this request, of at most [`CREDENTIAL_BYTES`](crate::CREDENTIAL_BYTES) bytes, at this moment,
/// in seconds since 1970-01-01 00:00 UTC: with a credential of the consumer's that holds and an offer of the product for one of its groups, the least of
/// the shelf's price and of those that are offered for its groups; else the shelf's, and the first reason why.
///
/// It answers [`NoProduct`] exactly where the shelf has no such product.
pub fn quote(
    c: &Catalogue,
    o: &Offers,
    product: u32,
    consumer: PartyId,
    request: &[u8],
    now: u64,
) -> Result<Quoted, NoProduct>
    requires { length request.now ≤ CREDENTIAL_BYTES }
    ensures quoted { result ≡ quotes.quote_of c.now o.now product consumer request.now now }

    // Who is not denied sent a credential of its own, sealed under the keeper's key, and in time, and pays the least for its groups.
    ensures carried { IfOk result (λ q. q.denied ≡ None → law.IsCarried c.now o.now product consumer request.now now q) }
{
    let shelf = c.quote(product)?;
    match offers_shown(o, product, consumer, request, now) {
        Ok(found) => {
            o.apart();
            Ok(chosen(shelf, &found))
        }
        Err(denial) => Ok(Quoted {
            price: shelf,
            group: None,
            denied: Some(denial),
        }),
    }
}

// The offers of the product for the groups of the one who asks, or why there are none.
fn offers_shown(
    o: &Offers,
    product: u32,
    asked: PartyId,
    request: &[u8],
    now: u64,
) -> Result<Found, Denial>
    requires { length request.now ≤ CREDENTIAL_BYTES }
    ensures shown { result ≡ quotes.offers_shown o.now product asked request.now now }
{
    let membership = opened(request, &o.keeper)?;
    if membership.consumer != asked {
        return Err(Denial::WrongConsumer {
            named: membership.consumer,
            asked,
        });
    }
    if now > membership.until {
        return Err(Denial::Expired {
            until: membership.until,
            now,
        });
    }
    let found = o.offers_for(product, membership.groups.as_slice());
    if found.is_empty() {
        return Err(Denial::NoOffer { product });
    }
    Ok(found)
}

// What the shelf's price and these offers make.
fn chosen(shelf: Price, found: &Found) -> Quoted
    ensures { result ≡ quotes.chosen shelf.0 found.now }
{
    let price = found.least(shelf.0);
    let group = if price == shelf.0 {
        None
    } else {
        found.group_at(price)
    };
    Quoted {
        price: Price(price),
        group,
        denied: None,
    }
}
