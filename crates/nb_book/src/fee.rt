ghost use Rattle.std.specs.Prelude.{◌≡◌, ◌≤◌};
ghost use Rattle.nb_units.specs.declared.limits.TheConstants.{MAX_RATE};
ghost use Rattle.nb_book.specs.declared.limits.TheConstants.{MAX_PRICE};
ghost use Rattle.nb_book.specs.Money.{fee_at};

use nb_units::Price;

/// What a house keeps of a price at this rate, in its smallest unit of money: the rate is in thousandths of the price, and the fee is
/// rounded down. The price is at most [`MAX_PRICE`](crate::MAX_PRICE), the rate at most [`MAX_RATE`](crate::MAX_RATE).
#[tactic(auto, using(crate::proofs::Fees::product_fits, crate::proofs::Fees::fee_within_price))]
pub fn fee_of(price: Price, rate: u16) -> u64
    requires price { price.0 ≤ MAX_PRICE }
    requires rate { rate ≤ MAX_RATE }
    ensures fee { result ≡ fee_at rate price }
    ensures within { result ≤ price.0 }
{
    price.0 * u64::from(rate) / 1000
}
