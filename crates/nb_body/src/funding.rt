ghost use Rattle.std.specs.Prelude.{◌≡◌, ◌≤◌, IfOk, Ok, length};
ghost use Rattle.nb_units.specs.Reads.{Reads};
ghost use Rattle.nb_body.specs.declared.limits.TheConstants.{MAX_AMOUNT};
ghost use Rattle.nb_body.specs.Spelling.{IsFunding, funding_bytes};
ghost use Rattle.nb_body.specs.Reading.{funding_of};

use crate::limits::MAX_AMOUNT;
use nb_units::{AcctId, Buffer, Cut, Malformed, Tag, allow};

/// The operator asks to put money into an account.
#[derive(Clone, Copy, Debug)]
pub struct Funding {
    /// The number of the account, 4 bytes wide.
    pub acct: AcctId,
    /// In the house's smallest unit of money, from 1 to [`MAX_AMOUNT`], 8 bytes wide.
    pub amount: u64,
    /// The name of the payment outside, 16 bytes.
    pub reference: [u8; 16],
    /// What should be the HMAC-SHA-256 (RFC 2104) of "fund" and the body before the tag, under the operator's key: 32 bytes. Reading
    /// does not test it.
    pub tag: Tag,
}

impl Funding {
    /// The funding that the bytes spell, or the place of the first field that fails, in bytes from their front. An amount out of its
    /// range fails at 4.
    pub fn read(bytes: &[u8]) -> Result<Funding, Malformed>
        // The fields in their order, and the first that fails.
        ensures reads { Reads result (funding_of bytes.now) }
        // An amount that is read is in its range.
        ensures amount { IfOk result (λ asked. (1 ≤ asked.amount) × (asked.amount ≤ MAX_AMOUNT)) }

        // What is read is spelled so, and what is spelled so is read.
        ensures spelled { IfOk result (λ f. IsFunding f × (bytes.now ≡ funding_bytes f)) }
        // Where the bytes are the spelling of one within its limits, that one is read.
        ensures found { (f : Funding) → IsFunding f → bytes.now ≡ funding_bytes f → result ≡ Ok f }
    {
        read_fields(bytes)
    }

    /// Its bytes: account 4, amount 8, from 1 to MAX_AMOUNT, reference 16, tag 32.
    #[tactic(auto, unfolding(crate::specs::Spelling::funding_bytes))]
    pub fn spelled(&self) -> Buffer
        requires amount { (1 ≤ self.now.amount) × (self.now.amount ≤ MAX_AMOUNT) }
        ensures bytes { result ≡ funding_bytes self.now }
        ensures fits { IsFunding self.now }
        ensures long { length result ≡ 60 }
    {
        let mut bytes = Buffer::new();
        bytes.u32(self.acct.0);
        bytes.u64(self.amount);
        bytes.raw(&self.reference);
        bytes.raw(&self.tag);
        bytes
    }
}

#[tactic(auto, unfolding(crate::specs::Reading::funding_of))]
fn read_fields(bytes: &[u8]) -> Result<Funding, Malformed>
    ensures reads { Reads result (funding_of bytes.now) }
    ensures amount { IfOk result (λ asked. (1 ≤ asked.amount) × (asked.amount ≤ MAX_AMOUNT)) }
{
    let mut cut = Cut::new(bytes);
    let acct = cut.u32()?;
    let place = cut.place();
    let amount = cut.u64()?;
    allow(1 <= amount && amount <= MAX_AMOUNT, place)?;
    let reference = cut.fixed16()?;
    let tag = cut.fixed32()?;
    cut.done()?;
    Ok(Funding {
        acct: AcctId(acct),
        amount,
        reference,
        tag,
    })
}
