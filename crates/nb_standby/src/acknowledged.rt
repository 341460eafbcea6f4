ghost use Rattle.std.specs.Prelude.{◌≡◌, ◌≤◌, ◌++◌, ◌↔◌, length, vec_capacity, IfOk, IsTrue, Ok};
ghost use Rattle.nb_units.specs.Frames.{frame};
ghost use Rattle.nb_units.specs.Reads.{Reads};
ghost use Rattle.nb_units.specs.Room.{spare_of};
ghost use Rattle.nb_standby.specs.Spelling.{IsAcknowledged, untold_bytes, acknowledged_bytes, acknowledge_tag, told};
ghost use Rattle.nb_standby.specs.Reading.{acknowledged_of};
ghost use Rattle.nb_standby.specs.declared.limits.TheConstants.{ACKNOWLEDGED_FRAME, ACKNOWLEDGED_ROOM};

use crate::limits::ACKNOWLEDGED_FRAME;
use nb_frame::write_frame;
use nb_seal::{KeyState, hmac, same};
use nb_units::{Buffer, Cut, Malformed, Secret, Tag};

// What the tag of an acknowledgement is over begins with this.
const ACKNOWLEDGE_LABEL: [u8; 4] = *b"ackn";

/// What a standby tells of a record.
#[derive(Clone, Copy)]
pub struct Acknowledged {
    /// One of [`code`](crate::code).
    pub code: u8,
    /// How many entries stand behind it, 8 bytes wide.
    pub entries: u64,
    /// The HMAC-SHA-256 (RFC 2104) of "ackn" and all bytes before the tag, under the house's key.
    pub tag: Tag,
}

impl Acknowledged {
    /// Whether the tag is the one that it has under the house's key. All 32 bytes are compared.
    pub fn is_signed(&self, house: &Secret) -> bool
        // true exactly where it is that tag
        ensures { IsTrue result ↔ (self.now.tag ≡ acknowledge_tag house.now self.now.code self.now.entries) }
    {
        same(&self.tag, &tag_of(self.code, self.entries, house))
    }

    /// The acknowledgement that the bytes spell, or the place of the first field that fails, in bytes from their front: a field of which bytes
    /// are missing, or the first byte behind the tag. Any code is read.
    pub fn read(bytes: &[u8]) -> Result<Acknowledged, Malformed>
        // The fields in their order, and the first that fails.
        ensures reads { Reads result (acknowledged_of bytes.now) }

        // One that is read is spelled so.
        ensures spelled { IfOk result (λ a. IsAcknowledged a × (bytes.now ≡ acknowledged_bytes a)) }
        // One that is spelled so is read.
        ensures found { (a : Acknowledged) → IsAcknowledged a → bytes.now ≡ acknowledged_bytes a → result ≡ Ok a }
    {
        read_fields(bytes)
    }
}

// Appends the frame of an acknowledgement.
pub(crate) fn acknowledge(code: u8, entries: u64, house: &KeyState, out: &mut Vec<u8>)
    requires { ACKNOWLEDGED_ROOM ≤ spare_of out.old }
    ensures bytes { out.new.items ≡ out.old.items ++ frame (record { kind = ACKNOWLEDGED_FRAME; body = acknowledged_bytes (told house.now code entries) }) }
    ensures room { vec_capacity out.new ≡ vec_capacity out.old }
{
    let mut body = untold(code, entries);
    let tag = house.code(&ACKNOWLEDGE_LABEL, body.as_slice());
    body.raw(&tag);
    write_frame(ACKNOWLEDGED_FRAME, body.as_slice(), out);
}

// The tag of an acknowledgement.
fn tag_of(code: u8, entries: u64, house: &Secret) -> Tag
    ensures { result ≡ acknowledge_tag house.now code entries }
{
    hmac(house, &ACKNOWLEDGE_LABEL, untold(code, entries).as_slice())
}

// The bytes of an acknowledgement before its tag.
#[tactic(auto, unfolding(crate::specs::Spelling::untold_bytes))]
fn untold(code: u8, entries: u64) -> Buffer
    ensures bytes { result ≡ untold_bytes code entries }
    ensures long { length result ≡ 9 }
{
    let mut bytes = Buffer::new();
    bytes.u8(code);
    bytes.u64(entries);
    bytes
}

#[tactic(auto, unfolding(crate::specs::Reading::acknowledged_of))]
fn read_fields(bytes: &[u8]) -> Result<Acknowledged, Malformed>
    ensures { Reads result (acknowledged_of bytes.now) }
{
    let mut cut = Cut::new(bytes);
    let code = cut.u8()?;
    let entries = cut.u64()?;
    let tag = cut.fixed32()?;
    cut.done()?;
    Ok(Acknowledged { code, entries, tag })
}
