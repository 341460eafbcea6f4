//! The lines of a list of offers.

ghost use Rattle.std.specs.Prelude.{IfSome, IsNone, List, ℕ};
ghost use Rattle.nb_groups.specs.declared.found.Offer.{Offer};
ghost use Rattle.nb_groups.specs.Offers.{BeginsWithKeeper, BeginsWith, IsFound};

use crate::found::Offer;
use crate::limits::{KEEPER, KEY_DIGITS};
use nb_price::{LINE_FEED, MAX_PRICE, SEMICOLON, numbered};
use nb_units::Secret;

// The keeper's key in the line at the front of the bytes, and what follows the line.
pub(crate) fn keeper_of(bytes: &[u8]) -> Option<(Secret, &[u8])>
    ensures some { IfSome result (λ p. BeginsWithKeeper bytes.now p.0 p.1.now) }
    ensures none { IsNone result → (keeper rest : List ℕ) → ¬ BeginsWithKeeper bytes.now keeper rest }
{
    let behind = bytes.strip_prefix(&KEEPER)?;
    if behind.len() <= KEY_DIGITS {
        return None;
    }
    let (digits, behind) = behind.split_at(KEY_DIGITS);
    if behind[0] != LINE_FEED {
        return None;
    }
    let mut keeper = [0u8; 32];
    match hex::decode_to_slice(digits, &mut keeper) {
        Ok(()) => Some((keeper, behind.split_at(1).1)),
        Err(_) => None,
    }
}

// The offer in the line at the front of the bytes, and what follows the line.
pub(crate) fn offer_of(bytes: &[u8]) -> Option<(Offer, &[u8])>
    ensures some { IfSome result (λ p. BeginsWith bytes.now p.0 p.1.now) }
    ensures each { (o : Offer) (rest : List ℕ) → BeginsWith bytes.now o rest → IsFound result o rest }
{
    let (product, bytes) = numbered(bytes, SEMICOLON)?;
    let (group, bytes) = numbered(bytes, SEMICOLON)?;
    let (price, rest) = numbered(bytes, LINE_FEED)?;
    if price < 1 || price > MAX_PRICE {
        return None;
    }
    let offer = Offer {
        product,
        group,
        price,
    };
    Some((offer, rest))
}
