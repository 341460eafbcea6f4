ghost use Rattle.std.specs.Prelude.{◌≡◌, ◌≤◌, ◌+◌, length, codes, IfOk, Ok};
ghost use Rattle.nb_seal.specs.Seal.{Opens, seal_of};
ghost use Rattle.nb_units.specs.Reads.{Reads};
ghost use Rattle.nb_ticket.specs.declared.ticket.TheConstants.{TICKET_BYTES};
ghost use Rattle.nb_ticket.specs.declared.granted.TheConstants.{GRANT_BYTES};
ghost use Rattle.nb_ticket.specs.Spelling.{IsGranted, granted_bytes};
ghost use Rattle.nb_ticket.specs.Reading.{granted_of};
ghost use Rattle.nb_ticket.specs.Opening.{OpensGrant};

use crate::ticket::TICKET_BYTES;
use nb_seal::{BadSeal, KeyState};
use nb_units::width::{LENGTH, MOMENT, NONCE, PARTY, SEAL, SECRET};
use nb_units::{Buffer, Cut, Malformed, PartyId, Secret, Small};
use std::fmt;

/// The most bytes of a grant, sealed: those of one whose ticket is as long as tickets are.
pub const GRANT_BYTES: usize = SEAL + PARTY + NONCE + MOMENT + SECRET + LENGTH + TICKET_BYTES;

/// A grant is sealed under this label.
pub const GRANT_LABEL: [u8; 4] = *b"gran";

/// What the house tells a consumer who asked for a ticket.
#[derive(Clone, Copy, Debug)]
pub struct Granted {
    /// For whom the ticket is, 4 bytes wide.
    pub merchant: PartyId,
    /// The number that the consumer asked under, 8 bytes wide.
    pub nonce: u64,
    /// The last second at which the ticket holds, in seconds since 1970-01-01 00:00 UTC, 8 bytes wide.
    pub until: u64,
    /// The key that both share, 32 bytes wide.
    pub session: Secret,
    /// The ticket, sealed for the merchant: at most [`TICKET_BYTES`] bytes.
    pub ticket: Small,
}

/// Why a grant was not opened.
#[derive(Clone, Copy, Debug)]
pub enum GrantFault {
    /// The bytes are the seal of no text under the key. The iv is the first 32 bytes given, with zeros where there are fewer.
    BadSeal { iv: [u8; 32] },
    /// The bytes are a seal, and its text is no grant. The place is that of the first field that fails, in bytes from the front of the
    /// text.
    Malformed { place: usize },
}

impl fmt::Display for GrantFault {
    fn fmt<W: fmt::Write>(&self, f: &mut fmt::Formatter<W>) -> fmt::Result {
        match self {
            GrantFault::BadSeal { .. } => write!(f, "no seal under this key"),
            GrantFault::Malformed { place } => write!(
                f,
                "in what is sealed, at byte {place}: not spelled as it should be"
            ),
        }
    }
}

impl From<BadSeal> for GrantFault {
    ghost use Rattle.std.specs.Prelude.{◌≡◌};
    ghost use Rattle.nb_ticket.specs.declared.granted.GrantFault.TheVariants as fault;

    ghost from_gives = { λ bad f. f ≡ fault.BadSeal bad.iv };

    fn from(bad: BadSeal) -> GrantFault {
        let BadSeal { iv } = bad;
        GrantFault::BadSeal { iv }
    }
}

impl From<Malformed> for GrantFault {
    ghost use Rattle.std.specs.Prelude.{◌≡◌};
    ghost use Rattle.nb_ticket.specs.declared.granted.GrantFault.TheVariants as fault;

    ghost from_gives = { λ malformed f. f ≡ fault.Malformed malformed.place };

    fn from(malformed: Malformed) -> GrantFault {
        let Malformed { place } = malformed;
        GrantFault::Malformed { place }
    }
}

/// The grant, sealed under the consumer's key and the label "gran": 88 bytes more than its ticket has, of which there are at most
/// [`TICKET_BYTES`]. What is sealed is merchant 4, nonce 8, the last second 8, the session key 32, and the sealed ticket behind its
/// length.
pub fn grant(g: &Granted, key: &Secret) -> Small
    requires ticket { length g.now.ticket ≤ TICKET_BYTES }
    ensures sealed { result ≡ seal_of key.now (codes "gran") (granted_bytes g.now) }
    ensures fits { IsGranted g.now }
    ensures long { length result ≡ 88 + length g.now.ticket }
{
    let plain = g.spelled();
    let mut sealed = [0u8; GRANT_BYTES];
    let n = KeyState::new(key).seal_to(&GRANT_LABEL, plain.as_slice(), &mut sealed);
    Small::of(sealed.split_at(n).0).unwrap()
}

/// The grant that at most [`GRANT_BYTES`] bytes are the seal of under the consumer's key and the label "gran". It answers
/// [`GrantFault::BadSeal`] where they are the seal of no text, and [`GrantFault::Malformed`] where the text is no grant.
pub fn open_grant(bytes: &[u8], key: &Secret) -> Result<Granted, GrantFault>
    requires short { length bytes.now ≤ GRANT_BYTES }
    // What the seal hides, field by field, and the first that fails; or that the bytes are the seal of nothing.
    ensures opens { OpensGrant key.now bytes.now result }

    // A grant that is opened was sealed so, and one that was sealed so is opened.
    ensures spelled { IfOk result (λ g. IsGranted g × Opens key.now (codes "gran") bytes.now (granted_bytes g)) }
    // Where the bytes are the seal of the spelling of a grant within its limits, that one is opened.
    ensures found { (g : Granted) → IsGranted g → Opens key.now (codes "gran") bytes.now (granted_bytes g) → result ≡ Ok g }
{
    opened(bytes, key)
}

// The grant that the bytes are the seal of.
fn opened(bytes: &[u8], key: &Secret) -> Result<Granted, GrantFault>
    requires { length bytes.now ≤ GRANT_BYTES }
    ensures opens { OpensGrant key.now bytes.now result }
    ensures spelled { IfOk result (λ g. IsGranted g × Opens key.now (codes "gran") bytes.now (granted_bytes g)) }
{
    let mut plain = [0u8; GRANT_BYTES];
    let n = KeyState::new(key).unseal_to(&GRANT_LABEL, bytes, &mut plain)?;
    let granted = read_granted(plain.split_at(n).0)?;
    Ok(granted)
}

impl Granted {
    /// The bytes of the grant before it is sealed. Its ticket must have at most [`TICKET_BYTES`] bytes.
    #[tactic(auto, unfolding(crate::specs::Spelling::granted_bytes))]
    pub fn spelled(&self) -> Buffer
        requires ticket { length self.now.ticket ≤ TICKET_BYTES }
        ensures bytes { result ≡ granted_bytes self.now }
        ensures fits { IsGranted self.now }
        ensures long { length result ≡ 56 + length self.now.ticket }
    {
        let mut bytes = Buffer::new();
        bytes.u32(self.merchant.0);
        bytes.u64(self.nonce);
        bytes.u64(self.until);
        bytes.raw(&self.session);
        bytes.bytes(self.ticket.as_slice());
        bytes
    }
}

// The grant that the bytes spell, or the place of the first field that fails.
fn read_granted(bytes: &[u8]) -> Result<Granted, Malformed>
    ensures reads { Reads result (granted_of bytes.now) }
    ensures spelled { IfOk result (λ g. IsGranted g × (bytes.now ≡ granted_bytes g)) }
{
    read_fields(bytes)
}

#[tactic(auto, unfolding(crate::specs::Reading::granted_of))]
fn read_fields(bytes: &[u8]) -> Result<Granted, Malformed>
    ensures { Reads result (granted_of bytes.now) }
{
    let mut cut = Cut::new(bytes);
    let merchant = cut.u32()?;
    let nonce = cut.u64()?;
    let until = cut.u64()?;
    let session = cut.fixed32()?;
    let ticket = cut.bytes(TICKET_BYTES as u32)?;
    cut.done()?;
    Ok(Granted {
        merchant: PartyId(merchant),
        nonce,
        until,
        session,
        ticket: Small::of(ticket).unwrap(),
    })
}
