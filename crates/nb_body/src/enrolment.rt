ghost use Rattle.std.specs.Prelude.{◌≡◌, IfOk, Ok, length};
ghost use Rattle.nb_units.specs.Reads.{Reads};
ghost use Rattle.nb_body.specs.Spelling.{IsEnrolment, enrolment_bytes, IsRole};
ghost use Rattle.nb_body.specs.Reading.{enrolment_of};

use crate::limits::{CONSUMER_ROLE, MERCHANT_ROLE};
use nb_units::{AcctId, Buffer, Cut, Malformed, PartyId, Secret, Tag, allow};

/// The operator asks to enrol a party.
#[derive(Clone, Copy, Debug)]
pub struct Enrolment {
    /// The party's number, 4 bytes wide.
    pub id: PartyId,
    /// [`CONSUMER_ROLE`] or [`MERCHANT_ROLE`], one byte wide.
    pub role: u8,
    /// The number of its account, 4 bytes wide.
    pub acct: AcctId,
    /// The number that its orders must show, 8 bytes wide.
    pub nonce: u64,
    /// The key that it shares with the house, 32 bytes.
    pub key: Secret,
    /// What should be the HMAC-SHA-256 (RFC 2104) of "enro" and the body before the tag, under the operator's key: 32 bytes. Reading
    /// does not test it.
    pub tag: Tag,
}

impl Enrolment {
    /// The enrolment that the bytes spell, or the place of the first field that fails, in bytes from their front. A role other than
    /// the two fails at 4.
    pub fn read(bytes: &[u8]) -> Result<Enrolment, Malformed>
        // The fields in their order, and the first that fails.
        ensures reads { Reads result (enrolment_of bytes.now) }
        ensures role { IfOk result (λ asked. IsRole asked.role) }

        // What is read is spelled so, and what is spelled so is read.
        ensures spelled { IfOk result (λ n. IsEnrolment n × (bytes.now ≡ enrolment_bytes n)) }
        // Where the bytes are the spelling of one within its limits, that one is read.
        ensures found { (n : Enrolment) → IsEnrolment n → bytes.now ≡ enrolment_bytes n → result ≡ Ok n }
    {
        read_fields(bytes)
    }

    /// Its bytes: id 4, role 1, 1 or 2, account 4, nonce 8, key 32, tag 32.
    #[tactic(auto, unfolding(crate::specs::Spelling::enrolment_bytes))]
    pub fn spelled(&self) -> Buffer
        requires role { IsRole self.now.role }
        ensures bytes { result ≡ enrolment_bytes self.now }
        ensures fits { IsEnrolment self.now }
        ensures long { length result ≡ 81 }
    {
        let mut bytes = Buffer::new();
        bytes.u32(self.id.0);
        bytes.u8(self.role);
        bytes.u32(self.acct.0);
        bytes.u64(self.nonce);
        bytes.raw(&self.key);
        bytes.raw(&self.tag);
        bytes
    }
}

#[tactic(auto, unfolding(crate::specs::Reading::enrolment_of))]
fn read_fields(bytes: &[u8]) -> Result<Enrolment, Malformed>
    ensures reads { Reads result (enrolment_of bytes.now) }
    ensures role { IfOk result (λ asked. IsRole asked.role) }
{
    let mut cut = Cut::new(bytes);
    let id = cut.u32()?;
    let place = cut.place();
    let role = cut.u8()?;
    allow(role == CONSUMER_ROLE || role == MERCHANT_ROLE, place)?;
    let acct = cut.u32()?;
    let nonce = cut.u64()?;
    let key = cut.fixed32()?;
    let tag = cut.fixed32()?;
    cut.done()?;
    Ok(Enrolment {
        id: PartyId(id),
        role,
        acct: AcctId(acct),
        nonce,
        key,
        tag,
    })
}
