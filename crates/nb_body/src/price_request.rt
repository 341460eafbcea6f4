ghost use Rattle.std.specs.Prelude.{◌+◌, ◌≡◌, ◌≤◌, IfOk, Ok, length};
ghost use Rattle.nb_units.specs.Reads.{Reads};
ghost use Rattle.nb_body.specs.declared.limits.TheConstants.{MAX_REQUEST};
ghost use Rattle.nb_body.specs.Spelling.{IsPriceRequest, price_request_bytes};
ghost use Rattle.nb_body.specs.Reading.{price_request_of};

use crate::limits::MAX_REQUEST;
use nb_units::{Buffer, Cut, Malformed, Small};

/// What a consumer asks a merchant for a price, before it is sealed: at most [`MAX_PRICE_REQUEST`] bytes.
#[derive(Clone, Copy, Debug)]
pub struct PriceRequest {
    /// The consumer's own number of the purchase, 8 bytes wide.
    pub transaction: u64,
    /// The merchant's number for the product, 4 bytes wide.
    pub product: u32,
    /// What the consumer says of it to the merchant: at most [`MAX_REQUEST`] bytes.
    pub request: Small,
}

impl PriceRequest {
    /// The request that the bytes spell, or the place of the first field that fails, in bytes from their front. Where the text is too
    /// long, or not all there, that is the place of its length, 12.
    pub fn read(bytes: &[u8]) -> Result<PriceRequest, Malformed>
        // The fields in their order, and the first that fails.
        ensures reads { Reads result (price_request_of bytes.now) }

        // What is read is spelled so, and what is spelled so is read.
        ensures spelled { IfOk result (λ r. IsPriceRequest r × (bytes.now ≡ price_request_bytes r)) }
        // Where the bytes are the spelling of one within its limits, that one is read.
        ensures found { (r : PriceRequest) → IsPriceRequest r → bytes.now ≡ price_request_bytes r → result ≡ Ok r }
    {
        read_fields(bytes)
    }

    /// Its bytes: transaction 8, product 4, request, at most MAX_REQUEST, behind its length 4.
    #[tactic(auto, unfolding(crate::specs::Spelling::price_request_bytes))]
    pub fn spelled(&self) -> Buffer
        requires request { length self.now.request ≤ MAX_REQUEST }
        ensures bytes { result ≡ price_request_bytes self.now }
        ensures fits { IsPriceRequest self.now }
        ensures long { length result ≡ 16 + length self.now.request }
    {
        let mut bytes = Buffer::new();
        bytes.u64(self.transaction);
        bytes.u32(self.product);
        bytes.bytes(self.request.as_slice());
        bytes
    }
}

#[tactic(auto, unfolding(crate::specs::Reading::price_request_of))]
fn read_fields(bytes: &[u8]) -> Result<PriceRequest, Malformed>
    ensures { Reads result (price_request_of bytes.now) }
{
    let mut cut = Cut::new(bytes);
    let transaction = cut.u64()?;
    let product = cut.u32()?;
    let request = cut.bytes(MAX_REQUEST as u32)?;
    cut.done()?;
    Ok(PriceRequest {
        transaction,
        product,
        request: Small::of(request).unwrap(),
    })
}
