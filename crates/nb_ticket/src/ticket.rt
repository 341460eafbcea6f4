ghost use Rattle.std.specs.Prelude.{◌≡◌, ◌≤◌, ◌+◌, length, codes, IfOk, Ok};
ghost use Rattle.nb_seal.specs.Seal.{Opens, seal_of};
ghost use Rattle.nb_units.specs.Reads.{Reads};
ghost use Rattle.nb_ticket.specs.declared.ticket.TheConstants.{TICKET_BYTES};
ghost use Rattle.nb_ticket.specs.Spelling.{IsTicket, ticket_bytes};
ghost use Rattle.nb_ticket.specs.Reading.{ticket_of};
ghost use Rattle.nb_ticket.specs.Opening.{ReadsTicket, OpensTicket, admitted};

use nb_seal::{BadSeal, KeyState};
use nb_units::width::{MOMENT, PARTY, SEAL, SECRET};
use nb_units::{Buffer, Cut, Malformed, PartyId, Secret, Small};
use std::fmt;

/// The bytes of a ticket, sealed.
pub const TICKET_BYTES: usize = SEAL + 2 * PARTY + MOMENT + SECRET;

/// A ticket is sealed under this label.
pub const TICKET_LABEL: [u8; 4] = *b"tick";

/// What the house tells a merchant of a consumer.
#[derive(Clone, Copy, Debug)]
pub struct Ticket {
    /// Who asked for it, 4 bytes wide.
    pub consumer: PartyId,
    /// For whom it is, 4 bytes wide.
    pub merchant: PartyId,
    /// The last second at which it holds, in seconds since 1970-01-01 00:00 UTC, 8 bytes wide.
    pub until: u64,
    /// The key that both share, 32 bytes wide.
    pub session: Secret,
}

/// Why a ticket was not opened.
#[derive(Clone, Copy, Debug)]
pub enum TicketFault {
    /// The bytes are the seal of no text under the key. The iv is the first 32 bytes given, with zeros where there are fewer.
    BadSeal { iv: [u8; 32] },
    /// The bytes are a seal, and its text is no ticket. The place is that of the first field that fails, in bytes from the front of
    /// the text.
    Malformed { place: usize },
    /// The ticket is for another merchant than the one who asked.
    WrongParty { named: PartyId, asked: PartyId },
    /// The ticket's last second is before the moment. Both are in seconds since 1970-01-01 00:00 UTC.
    Expired { until: u64, now: u64 },
}

impl fmt::Display for TicketFault {
    fn fmt<W: fmt::Write>(&self, f: &mut fmt::Formatter<W>) -> fmt::Result {
        match self {
            TicketFault::BadSeal { .. } => write!(f, "no seal under this key"),
            TicketFault::Malformed { place } => write!(
                f,
                "in what is sealed, at byte {place}: not spelled as it should be"
            ),
            TicketFault::WrongParty { named, asked } => {
                write!(f, "a ticket to {}, and not to {}", named.0, asked.0)
            }
            TicketFault::Expired { until, now } => {
                write!(f, "the ticket held until {until}, and it is {now}")
            }
        }
    }
}

impl From<BadSeal> for TicketFault {
    ghost use Rattle.std.specs.Prelude.{◌≡◌};
    ghost use Rattle.nb_ticket.specs.declared.ticket.TicketFault.TheVariants as fault;

    ghost from_gives = { λ bad f. f ≡ fault.BadSeal bad.iv };

    fn from(bad: BadSeal) -> TicketFault {
        let BadSeal { iv } = bad;
        TicketFault::BadSeal { iv }
    }
}

impl From<Malformed> for TicketFault {
    ghost use Rattle.std.specs.Prelude.{◌≡◌};
    ghost use Rattle.nb_ticket.specs.declared.ticket.TicketFault.TheVariants as fault;

    ghost from_gives = { λ malformed f. f ≡ fault.Malformed malformed.place };

    fn from(malformed: Malformed) -> TicketFault {
        let Malformed { place } = malformed;
        TicketFault::Malformed { place }
    }
}

/// The ticket, sealed under the merchant's key and the label "tick": [`TICKET_BYTES`] bytes. What is sealed is consumer 4, merchant
/// 4, the last second 8, and the session key 32.
pub fn write_ticket(t: &Ticket, key: &Secret) -> Small
    ensures sealed { result ≡ seal_of key.now (codes "tick") (ticket_bytes t.now) }
    ensures fits { IsTicket t.now }
    ensures long { length result ≡ TICKET_BYTES }
{
    let plain = t.spelled();
    let mut sealed = [0u8; TICKET_BYTES];
    let _all = KeyState::new(key).seal_to(&TICKET_LABEL, plain.as_slice(), &mut sealed);
    Small::of(&sealed).unwrap()
}

/// The ticket that at most [`TICKET_BYTES`] bytes are the seal of under a merchant's key and the label "tick", where it is for the
/// merchant who asks and holds at this moment, in seconds since 1970-01-01 00:00 UTC.
///
/// It answers, in this order, [`TicketFault::BadSeal`] where the bytes are the seal of no text, [`TicketFault::Malformed`] where the text
/// is no ticket, [`TicketFault::WrongParty`] where the ticket's merchant is another, and [`TicketFault::Expired`] where the moment is
/// behind its last second.
pub fn open_ticket(
    bytes: &[u8],
    key: &Secret,
    asked: PartyId,
    now: u64,
) -> Result<Ticket, TicketFault>
    requires short { length bytes.now ≤ TICKET_BYTES }
    // What the seal hides, field by field, and the first that fails; or that the bytes are the seal of nothing; then whether it holds.
    ensures opens { OpensTicket key.now bytes.now asked now result }

    // A ticket that is opened was sealed so; and of the bytes that a ticket was sealed as, that ticket is opened, where it holds.
    ensures spelled { IfOk result (λ t. IsTicket t × Opens key.now (codes "tick") bytes.now (ticket_bytes t)) }
    // Where the bytes are the seal of the spelling of a ticket within its limits, the answer is what `admitted` gives of that one.
    ensures found { (t : Ticket) → IsTicket t → Opens key.now (codes "tick") bytes.now (ticket_bytes t) → result ≡ admitted t asked now }
{
    match opened(bytes, key) {
        Ok(ticket) => admit(ticket, asked, now),
        Err(fault) => Err(fault),
    }
}

// The ticket, where it is for the merchant who asks and holds at this moment.
fn admit(ticket: Ticket, asked: PartyId, now: u64) -> Result<Ticket, TicketFault>
    ensures admits { result ≡ admitted ticket asked now }
    ensures same { IfOk result (λ t. t ≡ ticket) }
{
    if ticket.merchant != asked {
        return Err(TicketFault::WrongParty {
            named: ticket.merchant,
            asked,
        });
    }
    if now > ticket.until {
        return Err(TicketFault::Expired {
            until: ticket.until,
            now,
        });
    }
    Ok(ticket)
}

// The ticket that the bytes are the seal of.
fn opened(bytes: &[u8], key: &Secret) -> Result<Ticket, TicketFault>
    requires { length bytes.now ≤ TICKET_BYTES }
    ensures opens { ReadsTicket key.now bytes.now result }
    ensures spelled { IfOk result (λ t. IsTicket t × Opens key.now (codes "tick") bytes.now (ticket_bytes t)) }
{
    let mut plain = [0u8; TICKET_BYTES];
    let n = KeyState::new(key).unseal_to(&TICKET_LABEL, bytes, &mut plain)?;
    let ticket = read_ticket(plain.split_at(n).0)?;
    Ok(ticket)
}

impl Ticket {
    /// The bytes of the ticket before it is sealed.
    #[tactic(auto, unfolding(crate::specs::Spelling::ticket_bytes))]
    pub fn spelled(&self) -> Buffer
        ensures bytes { result ≡ ticket_bytes self.now }
        ensures fits { IsTicket self.now }
        ensures long { length result ≡ 48 }
    {
        let mut bytes = Buffer::new();
        bytes.u32(self.consumer.0);
        bytes.u32(self.merchant.0);
        bytes.u64(self.until);
        bytes.raw(&self.session);
        bytes
    }
}

// The ticket that the bytes spell, or the place of the first field that fails.
fn read_ticket(bytes: &[u8]) -> Result<Ticket, Malformed>
    ensures reads { Reads result (ticket_of bytes.now) }
    ensures spelled { IfOk result (λ t. IsTicket t × (bytes.now ≡ ticket_bytes t)) }
{
    read_fields(bytes)
}

#[tactic(auto, unfolding(crate::specs::Reading::ticket_of))]
fn read_fields(bytes: &[u8]) -> Result<Ticket, Malformed>
    ensures { Reads result (ticket_of bytes.now) }
{
    let mut cut = Cut::new(bytes);
    let consumer = cut.u32()?;
    let merchant = cut.u32()?;
    let until = cut.u64()?;
    let session = cut.fixed32()?;
    cut.done()?;
    Ok(Ticket {
        consumer: PartyId(consumer),
        merchant: PartyId(merchant),
        until,
        session,
    })
}
