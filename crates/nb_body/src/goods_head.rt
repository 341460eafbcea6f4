ghost use Rattle.std.specs.Prelude.{◌≡◌, IfOk, Ok, length};
ghost use Rattle.nb_units.specs.Reads.{Reads};
ghost use Rattle.nb_body.specs.Spelling.{IsGoodsHead, goods_head_bytes};
ghost use Rattle.nb_body.specs.Reading.{goods_head_of};

use nb_units::{Buffer, Cut, Digest, Epoid, Malformed};

/// What a merchant says of a part of the goods, before it is sealed: [`GOODS_HEAD_BYTES`] bytes.
#[derive(Clone, Copy, Debug)]
pub struct GoodsHead {
    /// The consumer's number of the purchase, 8 bytes wide.
    pub transaction: u64,
    /// The identifier that the order must have, 16 bytes wide.
    pub epoid: Epoid,
    /// How many bytes all the sealed goods have, 8 bytes wide.
    pub total: u64,
    /// The place of the part in them, in bytes from their front, 8 bytes wide.
    pub place: u64,
    /// What should be the SHA-256 (FIPS 180-4) of all the sealed goods, 32 bytes wide. Reading does not test it.
    pub checksum: Digest,
}

impl GoodsHead {
    /// The head that the bytes spell, or the place of the first field that fails, in bytes from their front.
    pub fn read(bytes: &[u8]) -> Result<GoodsHead, Malformed>
        // The fields in their order, and the first that fails.
        ensures reads { Reads result (goods_head_of bytes.now) }

        // What is read is spelled so, and what is spelled so is read.
        ensures spelled { IfOk result (λ h. IsGoodsHead h × (bytes.now ≡ goods_head_bytes h)) }
        // Where the bytes are the spelling of one within its limits, that one is read.
        ensures found { (h : GoodsHead) → IsGoodsHead h → bytes.now ≡ goods_head_bytes h → result ≡ Ok h }
    {
        read_fields(bytes)
    }

    /// Its bytes: transaction 8, identifier 16, total 8, place 8, checksum 32.
    #[tactic(auto, unfolding(crate::specs::Spelling::goods_head_bytes))]
    pub fn spelled(&self) -> Buffer
        ensures bytes { result ≡ goods_head_bytes self.now }
        ensures fits { IsGoodsHead self.now }
        ensures long { length result ≡ 72 }
    {
        let mut bytes = Buffer::new();
        bytes.u64(self.transaction);
        bytes.raw(&self.epoid.write());
        bytes.u64(self.total);
        bytes.u64(self.place);
        bytes.raw(&self.checksum);
        bytes
    }
}

#[tactic(auto, unfolding(crate::specs::Reading::goods_head_of))]
fn read_fields(bytes: &[u8]) -> Result<GoodsHead, Malformed>
    ensures { Reads result (goods_head_of bytes.now) }
{
    let mut cut = Cut::new(bytes);
    let transaction = cut.u64()?;
    let epoid = cut.fixed16()?;
    let total = cut.u64()?;
    let place = cut.u64()?;
    let checksum = cut.fixed32()?;
    cut.done()?;
    Ok(GoodsHead {
        transaction,
        epoid: Epoid::read(&epoid),
        total,
        place,
        checksum,
    })
}
