ghost use Rattle.std.specs.Prelude.{◌≡◌, IfOk, Ok, length};
ghost use Rattle.nb_units.specs.Reads.{Reads};
ghost use Rattle.nb_body.specs.Spelling.{IsQuery, query_bytes};
ghost use Rattle.nb_body.specs.Reading.{query_of};

use nb_units::{Buffer, Cut, Epoid, Malformed, PartyId, Tag};

/// A party asks for the status of an order.
#[derive(Clone, Copy, Debug)]
pub struct StatusQuery {
    /// The number of who asks, 4 bytes wide.
    pub asker: PartyId,
    /// The order's identifier, 16 bytes wide.
    pub epoid: Epoid,
    /// How many entries the house has to hold at least, 8 bytes wide.
    pub least: u64,
    /// What should be the HMAC-SHA-256 (RFC 2104) of "stat" and the body before the tag, under the key of who asks: 32 bytes. Reading
    /// does not test it.
    pub tag: Tag,
}

impl StatusQuery {
    /// The status query that the bytes spell, or the place of the first field that fails, in bytes from their front.
    pub fn read(bytes: &[u8]) -> Result<StatusQuery, Malformed>
        // The fields in their order, and the first that fails.
        ensures reads { Reads result (query_of bytes.now) }

        // What is read is spelled so, and what is spelled so is read.
        ensures spelled { IfOk result (λ q. IsQuery q × (bytes.now ≡ query_bytes q)) }
        // Where the bytes are the spelling of one within its limits, that one is read.
        ensures found { (q : StatusQuery) → IsQuery q → bytes.now ≡ query_bytes q → result ≡ Ok q }
    {
        read_fields(bytes)
    }

    /// Its bytes: asker 4, identifier 16, least 8, tag 32.
    #[tactic(auto, unfolding(crate::specs::Spelling::query_bytes))]
    pub fn spelled(&self) -> Buffer
        ensures bytes { result ≡ query_bytes self.now }
        ensures fits { IsQuery self.now }
        ensures long { length result ≡ 60 }
    {
        let mut bytes = Buffer::new();
        bytes.u32(self.asker.0);
        bytes.raw(&self.epoid.write());
        bytes.u64(self.least);
        bytes.raw(&self.tag);
        bytes
    }
}

#[tactic(auto, unfolding(crate::specs::Reading::query_of))]
fn read_fields(bytes: &[u8]) -> Result<StatusQuery, Malformed>
    ensures { Reads result (query_of bytes.now) }
{
    let mut cut = Cut::new(bytes);
    let asker = cut.u32()?;
    let epoid = cut.fixed16()?;
    let least = cut.u64()?;
    let tag = cut.fixed32()?;
    cut.done()?;
    Ok(StatusQuery {
        asker: PartyId(asker),
        epoid: Epoid::read(&epoid),
        least,
        tag,
    })
}
