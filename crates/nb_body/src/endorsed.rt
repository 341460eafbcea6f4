ghost use Rattle.std.specs.Prelude.{◌+◌, ◌≡◌, ◌≤◌, IfOk, Ok, length};
ghost use Rattle.nb_units.specs.Reads.{Reads};
ghost use Rattle.nb_body.specs.declared.limits.TheConstants.{MAX_ENDORSED};
ghost use Rattle.nb_body.specs.Spelling.{IsEndorsedOrder, endorsed_bytes};
ghost use Rattle.nb_body.specs.Reading.{endorsed_of};

use crate::limits::MAX_ENDORSED;
use nb_units::{Buffer, Cut, Malformed, PartyId};
use std::marker::Model;

/// A merchant asks the house for the payment of an order.
#[derive(Drop)]
pub struct EndorsedOrder {
    /// The merchant's number, 4 bytes wide.
    pub merchant: PartyId,
    /// The endorsement, sealed under the merchant's key: at most [`MAX_ENDORSED`] bytes.
    pub sealed: Buffer,
}

impl EndorsedOrder {
    /// The endorsed order that the bytes spell, or the place of the first field that fails, in bytes from their front. Where the sealed
    /// endorsement is too long, or not all there, that is the place of its length, 4. It is not opened.
    pub fn read(bytes: &[u8]) -> Result<EndorsedOrder, Malformed>
        // The fields in their order, and the first that fails.
        ensures reads { Reads result (endorsed_of bytes.now) }
        ensures short { IfOk result (λ asked. length asked.sealed ≤ MAX_ENDORSED) }

        // What is read is spelled so, and what is spelled so is read.
        ensures spelled { IfOk result (λ o. IsEndorsedOrder o × (bytes.now ≡ endorsed_bytes o)) }
        // Where the bytes are the spelling of one within its limits, that one is read.
        ensures found { (o : EndorsedOrder) → IsEndorsedOrder o → bytes.now ≡ endorsed_bytes o → result ≡ Ok o }
    {
        read_fields(bytes)
    }

    /// Its bytes: merchant 4, endorsement, sealed, at most MAX_ENDORSED, behind its length 4.
    #[tactic(auto, unfolding(crate::specs::Spelling::endorsed_bytes))]
    pub fn spelled(&self) -> Buffer
        requires sealed { length self.now.sealed ≤ MAX_ENDORSED }
        ensures bytes { result ≡ endorsed_bytes self.now }
        ensures fits { IsEndorsedOrder self.now }
        ensures long { length result ≡ 8 + length self.now.sealed }
    {
        let mut bytes = Buffer::new();
        bytes.u32(self.merchant.0);
        bytes.bytes(self.sealed.as_slice());
        bytes
    }
}

fn read_fields(bytes: &[u8]) -> Result<EndorsedOrder, Malformed>
    ensures reads { Reads result (endorsed_of bytes.now) }
    ensures short { IfOk result (λ asked. length asked.sealed ≤ MAX_ENDORSED) }
{
    let asked = EndorsedBytes::read(bytes)?;
    let mut sealed = Buffer::new();
    sealed.raw(asked.sealed);
    Ok(EndorsedOrder {
        merchant: asked.merchant,
        sealed,
    })
}

/// An endorsed order whose sealed endorsement stays where it was read. It is seen as the [`EndorsedOrder`] that the bytes spell.
#[derive(Drop)]
pub struct EndorsedBytes<'a> {
    merchant: PartyId,
    sealed: &'a [u8],
}

impl<'a> Model for EndorsedBytes<'a> {
    ghost use Rattle.nb_body.specs.declared.endorsed.EndorsedOrder.{EndorsedOrder};

    ghost Value = { EndorsedOrder };

    ghost view = { λ e. record { merchant = e.merchant; sealed = e.sealed.now } };
}

impl<'a> EndorsedBytes<'a> {
    /// What [`EndorsedOrder::read`] gives, and nothing is copied.
    #[tactic(auto, unfolding(crate::specs::Reading::endorsed_of))]
    pub fn read(bytes: &'a [u8]) -> Result<EndorsedBytes<'a>, Malformed>
        ensures reads { Reads result (endorsed_of bytes.now) }
        ensures short { IfOk result (λ asked. length asked.sealed ≤ MAX_ENDORSED) }
    {
        let mut cut = Cut::new(bytes);
        let merchant = cut.u32()?;
        let sealed = cut.bytes(MAX_ENDORSED as u32)?;
        cut.done()?;
        Ok(EndorsedBytes {
            merchant: PartyId(merchant),
            sealed,
        })
    }

    /// The merchant's number, 4 bytes wide.
    pub fn merchant(&self) -> PartyId
        ensures { result ≡ self.now.merchant }
    {
        self.merchant
    }

    /// The endorsement, sealed under the merchant's key.
    pub fn sealed(&self) -> &'a [u8]
        ensures { result.now ≡ self.now.sealed }
    {
        self.sealed
    }
}
