ghost use Rattle.std.specs.Prelude.{◌≡◌, IfOk, Ok, length};
ghost use Rattle.nb_units.specs.Reads.{Reads};
ghost use Rattle.nb_body.specs.Spelling.{IsQuote, quote_bytes};
ghost use Rattle.nb_body.specs.Reading.{quote_of};

use nb_units::{Buffer, Cut, Malformed, Price};

/// What a merchant answers to a request for a price, before it is sealed: [`QUOTE_BYTES`] bytes.
#[derive(Clone, Copy, Debug)]
pub struct Quote {
    /// The consumer's number of the purchase, 8 bytes wide.
    pub transaction: u64,
    /// The merchant's number for the product, 4 bytes wide.
    pub product: u32,
    /// The price, in the house's smallest unit of money, 8 bytes wide.
    pub price: Price,
}

impl Quote {
    /// The quote that the bytes spell, or the place of the first field that fails, in bytes from their front.
    pub fn read(bytes: &[u8]) -> Result<Quote, Malformed>
        // The fields in their order, and the first that fails.
        ensures reads { Reads result (quote_of bytes.now) }

        // What is read is spelled so, and what is spelled so is read.
        ensures spelled { IfOk result (λ q. IsQuote q × (bytes.now ≡ quote_bytes q)) }
        // Where the bytes are the spelling of one within its limits, that one is read.
        ensures found { (q : Quote) → IsQuote q → bytes.now ≡ quote_bytes q → result ≡ Ok q }
    {
        read_fields(bytes)
    }

    /// Its bytes: transaction 8, product 4, price 8.
    #[tactic(auto, unfolding(crate::specs::Spelling::quote_bytes))]
    pub fn spelled(&self) -> Buffer
        ensures bytes { result ≡ quote_bytes self.now }
        ensures fits { IsQuote self.now }
        ensures long { length result ≡ 20 }
    {
        let mut bytes = Buffer::new();
        bytes.u64(self.transaction);
        bytes.u32(self.product);
        bytes.u64(self.price.0);
        bytes
    }
}

#[tactic(auto, unfolding(crate::specs::Reading::quote_of))]
fn read_fields(bytes: &[u8]) -> Result<Quote, Malformed>
    ensures { Reads result (quote_of bytes.now) }
{
    let mut cut = Cut::new(bytes);
    let transaction = cut.u64()?;
    let product = cut.u32()?;
    let price = cut.u64()?;
    cut.done()?;
    Ok(Quote {
        transaction,
        product,
        price: Price(price),
    })
}
