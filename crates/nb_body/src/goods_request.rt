ghost use Rattle.std.specs.Prelude.{◌≡◌, IfOk, Ok, length};
ghost use Rattle.nb_units.specs.Reads.{Reads};
ghost use Rattle.nb_body.specs.Spelling.{IsGoodsRequest, goods_request_bytes};
ghost use Rattle.nb_body.specs.Reading.{goods_request_of};

use nb_units::{Buffer, Cut, Malformed};

/// What a consumer asks a merchant for goods, before it is sealed: [`GOODS_REQUEST_BYTES`] bytes.
#[derive(Clone, Copy, Debug)]
pub struct GoodsRequest {
    /// The consumer's number of the purchase, 8 bytes wide.
    pub transaction: u64,
    /// The place in the sealed goods from which on they are asked for, in bytes from their front, 8 bytes wide.
    pub place: u64,
}

impl GoodsRequest {
    /// The request that the bytes spell, or the place of the first field that fails, in bytes from their front.
    pub fn read(bytes: &[u8]) -> Result<GoodsRequest, Malformed>
        // The fields in their order, and the first that fails.
        ensures reads { Reads result (goods_request_of bytes.now) }

        // What is read is spelled so, and what is spelled so is read.
        ensures spelled { IfOk result (λ r. IsGoodsRequest r × (bytes.now ≡ goods_request_bytes r)) }
        // Where the bytes are the spelling of one within its limits, that one is read.
        ensures found { (r : GoodsRequest) → IsGoodsRequest r → bytes.now ≡ goods_request_bytes r → result ≡ Ok r }
    {
        read_fields(bytes)
    }

    /// Its bytes: transaction 8, place 8.
    #[tactic(auto, unfolding(crate::specs::Spelling::goods_request_bytes))]
    pub fn spelled(&self) -> Buffer
        ensures bytes { result ≡ goods_request_bytes self.now }
        ensures fits { IsGoodsRequest self.now }
        ensures long { length result ≡ 16 }
    {
        let mut bytes = Buffer::new();
        bytes.u64(self.transaction);
        bytes.u64(self.place);
        bytes
    }
}

#[tactic(auto, unfolding(crate::specs::Reading::goods_request_of))]
fn read_fields(bytes: &[u8]) -> Result<GoodsRequest, Malformed>
    ensures { Reads result (goods_request_of bytes.now) }
{
    let mut cut = Cut::new(bytes);
    let transaction = cut.u64()?;
    let place = cut.u64()?;
    cut.done()?;
    Ok(GoodsRequest { transaction, place })
}
