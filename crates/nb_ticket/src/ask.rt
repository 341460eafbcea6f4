ghost use Rattle.std.specs.Prelude.{◌≡◌, ◌↔◌, IfOk, IsTrue, Ok, length};
ghost use Rattle.nb_units.specs.Reads.{Reads};
ghost use Rattle.nb_ticket.specs.Spelling.{IsAsk, unsigned_bytes, ask_bytes};
ghost use Rattle.nb_ticket.specs.Reading.{ask_of};
ghost use Rattle.nb_ticket.specs.Keys.{ask_tag};

use nb_seal::{KeyState, same};
use nb_units::{Buffer, Cut, Malformed, PartyId, Secret, Tag};

// What the tag of a request is over begins with this.
const ASK_LABEL: [u8; 4] = *b"tick";

/// A consumer asks the house for a ticket to a merchant.
#[derive(Clone, Copy, Debug)]
pub struct TicketAsk {
    /// Who asks, 4 bytes wide.
    pub consumer: PartyId,
    /// For whom the ticket is, 4 bytes wide.
    pub merchant: PartyId,
    /// The consumer's own number for what it asks, 8 bytes wide. The grant shows it again.
    pub nonce: u64,
    /// What should be the HMAC-SHA-256 (RFC 2104) of "tick" and all bytes before the tag, under the consumer's key. Reading does not test it.
    pub tag: Tag,
}

impl TicketAsk {
    /// The request that the bytes spell, or the place of the first field that fails, in bytes from their front: a field of which bytes are
    /// missing, or the first byte behind the tag.
    pub fn read(bytes: &[u8]) -> Result<TicketAsk, Malformed>
        // The fields in their order, and the first that fails.
        ensures reads { Reads result (ask_of bytes.now) }

        // A request that is read is spelled so, and one that is spelled so is read.
        ensures spelled { IfOk result (λ t. IsAsk t × (bytes.now ≡ ask_bytes t)) }
        // Where the bytes are the spelling of one within its limits, that one is read.
        ensures found { (t : TicketAsk) → IsAsk t → bytes.now ≡ ask_bytes t → result ≡ Ok t }
    {
        read_fields(bytes)
    }

    /// The bytes of the request: consumer 4, merchant 4, nonce 8, tag 32.
    #[tactic(auto, unfolding(crate::specs::Spelling::unsigned_bytes))]
    pub fn spelled(&self) -> Buffer
        ensures bytes { result ≡ ask_bytes self.now }
        ensures fits { IsAsk self.now }
    {
        let mut bytes = Buffer::new();
        bytes.u32(self.consumer.0);
        bytes.u32(self.merchant.0);
        bytes.u64(self.nonce);
        bytes.raw(&self.tag);
        bytes
    }
}

/// The request of a consumer for a ticket to a merchant, signed under the consumer's key.
pub fn request(key: &Secret, consumer: PartyId, merchant: PartyId, nonce: u64) -> TicketAsk
    ensures { result ≡ record { consumer = consumer; merchant = merchant; nonce = nonce; tag = ask_tag key.now consumer merchant nonce } }
{
    TicketAsk {
        consumer,
        merchant,
        nonce,
        tag: tag_of(&KeyState::new(key), consumer, merchant, nonce),
    }
}

/// Whether the tag is the one that the request has under the consumer's key. All 32 bytes are compared.
pub fn request_ok(t: &TicketAsk, key: &Secret) -> bool
    ensures { IsTrue result ↔ (t.now.tag ≡ ask_tag key.now t.now.consumer t.now.merchant t.now.nonce) }
{
    request_ok_with(t, &KeyState::new(key))
}

/// Whether the tag is the right one, as [`request_ok`] tells, under the key of this state.
pub fn request_ok_with(t: &TicketAsk, key: &KeyState) -> bool
    ensures { IsTrue result ↔ (t.now.tag ≡ ask_tag key.now t.now.consumer t.now.merchant t.now.nonce) }
{
    same(&t.tag, &tag_of(key, t.consumer, t.merchant, t.nonce))
}

// The tag of a request under the key of a state.
fn tag_of(key: &KeyState, consumer: PartyId, merchant: PartyId, nonce: u64) -> Tag
    ensures { result ≡ ask_tag key.now consumer merchant nonce }
{
    key.code(&ASK_LABEL, unsigned(consumer, merchant, nonce).as_slice())
}

// The bytes of a request before its tag.
#[tactic(auto, unfolding(crate::specs::Spelling::unsigned_bytes))]
fn unsigned(consumer: PartyId, merchant: PartyId, nonce: u64) -> Buffer
    ensures bytes { result ≡ unsigned_bytes consumer merchant nonce }
    ensures long { length result ≡ 16 }
{
    let mut bytes = Buffer::new();
    bytes.u32(consumer.0);
    bytes.u32(merchant.0);
    bytes.u64(nonce);
    bytes
}

#[tactic(auto, unfolding(crate::specs::Reading::ask_of))]
fn read_fields(bytes: &[u8]) -> Result<TicketAsk, Malformed>
    ensures { Reads result (ask_of bytes.now) }
{
    let mut cut = Cut::new(bytes);
    let consumer = cut.u32()?;
    let merchant = cut.u32()?;
    let nonce = cut.u64()?;
    let tag = cut.fixed32()?;
    cut.done()?;
    Ok(TicketAsk {
        consumer: PartyId(consumer),
        merchant: PartyId(merchant),
        nonce,
        tag,
    })
}
