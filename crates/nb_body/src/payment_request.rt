ghost use Rattle.std.specs.Prelude.{◌+◌, ◌≡◌, IfOk, Ok, length};
ghost use Rattle.nb_units.specs.Reads.{Reads};
ghost use Rattle.nb_body.specs.Spelling.{IsPaymentRequest, payment_request_bytes};
ghost use Rattle.nb_body.specs.Reading.{payment_request_of};

use nb_units::{Buffer, Cut, MAX_ORDER, Malformed, Small};

/// What a consumer sends a merchant to be paid by, before it is sealed: at most [`MAX_PAYMENT_REQUEST`] bytes.
#[derive(Clone, Copy, Debug)]
pub struct PaymentRequest {
    /// The consumer's number of the purchase, 8 bytes wide.
    pub transaction: u64,
    /// The bytes of the order: at most [`MAX_ORDER`].
    pub order: Small,
}

impl PaymentRequest {
    /// The request that the bytes spell, or the place of the first field that fails, in bytes from their front. Where the order is too
    /// long, or not all there, that is the place of its length, 8. What the order says is not read.
    pub fn read(bytes: &[u8]) -> Result<PaymentRequest, Malformed>
        // The fields in their order, and the first that fails.
        ensures reads { Reads result (payment_request_of bytes.now) }

        // What is read is spelled so, and what is spelled so is read.
        ensures spelled { IfOk result (λ r. IsPaymentRequest r × (bytes.now ≡ payment_request_bytes r)) }
        // Where the bytes are the spelling of one within its limits, that one is read.
        ensures found { (r : PaymentRequest) → IsPaymentRequest r → bytes.now ≡ payment_request_bytes r → result ≡ Ok r }
    {
        read_fields(bytes)
    }

    /// Its bytes: transaction 8, order, at most MAX_ORDER, behind its length 4.
    #[tactic(auto, unfolding(crate::specs::Spelling::payment_request_bytes))]
    pub fn spelled(&self) -> Buffer
        ensures bytes { result ≡ payment_request_bytes self.now }
        ensures fits { IsPaymentRequest self.now }
        ensures long { length result ≡ 12 + length self.now.order }
    {
        let mut bytes = Buffer::new();
        bytes.u64(self.transaction);
        bytes.bytes(self.order.as_slice());
        bytes
    }
}

#[tactic(auto, unfolding(crate::specs::Reading::payment_request_of))]
fn read_fields(bytes: &[u8]) -> Result<PaymentRequest, Malformed>
    ensures { Reads result (payment_request_of bytes.now) }
{
    let mut cut = Cut::new(bytes);
    let transaction = cut.u64()?;
    let order = cut.bytes(MAX_ORDER as u32)?;
    cut.done()?;
    Ok(PaymentRequest {
        transaction,
        order: Small::of(order).unwrap(),
    })
}
