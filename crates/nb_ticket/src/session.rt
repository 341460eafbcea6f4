ghost use Rattle.std.specs.Prelude.{◌≡◌, length};
ghost use Rattle.nb_ticket.specs.Keys.{session_key_of, named_bytes, last_second};

use nb_seal::KeyState;
use nb_units::{Buffer, PartyId, Secret};

/// For so many seconds from the moment at which it was granted a ticket holds.
pub const TICKET_LIFE: u64 = 3600;

// What a session key is made of begins with this.
const SESSION_LABEL: [u8; 7] = *b"session";

/// The key that a consumer and a merchant share by a ticket: the HMAC-SHA-256 (RFC 2104) of "session", the two parties, the consumer's
/// nonce and the moment at which it was granted, under the house's key.
pub fn session_key(
    house: &Secret,
    consumer: PartyId,
    merchant: PartyId,
    nonce: u64,
    moment: u64,
) -> Secret
    ensures { result ≡ session_key_of house.now consumer merchant nonce moment }
{
    session_key_with(&KeyState::new(house), consumer, merchant, nonce, moment)
}

/// The same key, where the state of the house's key is at hand.
pub fn session_key_with(
    house: &KeyState,
    consumer: PartyId,
    merchant: PartyId,
    nonce: u64,
    moment: u64,
) -> Secret
    ensures { result ≡ session_key_of house.now consumer merchant nonce moment }
{
    let named = named(consumer, merchant, nonce, moment);
    house.code(&SESSION_LABEL, named.as_slice())
}

/// The last second of a ticket that is granted at a moment: [`TICKET_LIFE`] seconds later, or the last moment that there is.
pub fn until(moment: u64) -> u64
    ensures { result ≡ last_second moment }
{
    moment.saturating_add(TICKET_LIFE)
}

// What the key is made of, behind its label.
#[tactic(auto, unfolding(crate::specs::Keys::named_bytes))]
fn named(consumer: PartyId, merchant: PartyId, nonce: u64, moment: u64) -> Buffer
    ensures bytes { result ≡ named_bytes consumer merchant nonce moment }
    ensures long { length result ≡ 24 }
{
    let mut bytes = Buffer::new();
    bytes.u32(consumer.0);
    bytes.u32(merchant.0);
    bytes.u64(nonce);
    bytes.u64(moment);
    bytes
}
