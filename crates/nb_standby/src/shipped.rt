ghost use Rattle.std.specs.Prelude.{◌≡◌, ◌≤◌, ◌+◌, ◌++◌, ◌↔◌, length, vec_capacity, IfOk, IsTrue, Ok};
ghost use Rattle.nb_units.specs.Fields.{moved};
ghost use Rattle.nb_units.specs.Frames.{frame};
ghost use Rattle.nb_units.specs.Reads.{Reads};
ghost use Rattle.nb_units.specs.Room.{spare_of};
ghost use Rattle.nb_entry.specs.Reading.{entry_at};
ghost use Rattle.nb_entry.specs.Spelling.{EntryKeepsRules, IsEntry, entry_bytes};
ghost use Rattle.nb_standby.specs.Spelling.{IsShipped, unsigned_bytes, shipped_bytes, ship_tag, signed};
ghost use Rattle.nb_standby.specs.Reading.{shipped_of};
ghost use Rattle.nb_standby.specs.declared.limits.TheConstants.{SHIPPED_FRAME, SHIPPED_ROOM};

use crate::limits::SHIPPED_FRAME;
use nb_entry::{Entry, EntryFault, read_entry};
use nb_frame::write_frame;
use nb_seal::{KeyState, same};
use nb_units::width::TAG;
use nb_units::{Buffer, Cut, Malformed, Secret, Tag};

// What the tag of a record is over begins with this.
const SHIP_LABEL: [u8; 4] = *b"ship";

/// An entry of the primary's list, as it is sent to a standby.
#[derive(Clone, Copy)]
pub struct Shipped {
    /// Its place in the list, counted from 0, 8 bytes wide.
    pub place: u64,
    pub entry: Entry,
    /// The HMAC-SHA-256 (RFC 2104) of "ship" and all bytes before the tag, under the house's key.
    pub tag: Tag,
}

impl Shipped {
    /// The record that the bytes spell, or the place of the first field that fails, in bytes from their front: a field of which bytes are
    /// missing, a value in an entry that none has, or the first byte behind the tag.
    pub fn read(bytes: &[u8]) -> Result<Shipped, Malformed>
        // The fields in their order, and the first that fails.
        ensures reads { Reads result (shipped_of bytes.now) }

        // A record that is read is spelled so.
        ensures spelled { IfOk result (λ r. IsShipped r × (bytes.now ≡ shipped_bytes r)) }
        // One that is spelled so is read.
        ensures found { (r : Shipped) → IsShipped r → bytes.now ≡ shipped_bytes r → result ≡ Ok r }
    {
        read_fields(bytes)
    }

    // Whether the tag is the one that the record has under the house's key, where it was read of these bytes. All 32 bytes are compared.
    pub(crate) fn is_signed(&self, bytes: &[u8], house: &KeyState) -> bool
        requires fits { IsShipped self.now }
        requires spelled { bytes.now ≡ shipped_bytes self.now }
        // true exactly where it is that tag
        ensures { IsTrue result ↔ (self.now.tag ≡ ship_tag house.now self.now.place self.now.entry) }
    {
        let (unsigned, _tag) = bytes.split_at(bytes.len() - TAG);
        same(&self.tag, &house.code(&SHIP_LABEL, unsigned))
    }
}

/// Appends the frame of the record of an entry at this place, signed under the house's key. It needs room for
/// [`SHIPPED_ROOM`](crate::SHIPPED_ROOM) bytes, also for a shorter entry, and takes no memory. The role of an enrolment must be one of the two, and the
/// code of a refusal one of [`reason`](nb_book::reason), as they are of every entry that is legal.
pub fn ship(place: u64, e: &Entry, house: &Secret, out: &mut Vec<u8>)
    requires lawful { EntryKeepsRules e.now }
    requires room { SHIPPED_ROOM ≤ spare_of out.old }
    // one frame, of the kind of records, with the record as its body
    ensures bytes { out.new.items ≡ out.old.items ++ frame (record { kind = SHIPPED_FRAME; body = shipped_bytes (signed house.now place e.now) }) }
    ensures fits { IsShipped (signed house.now place e.now) }
    ensures room { vec_capacity out.new ≡ vec_capacity out.old }
{
    ship_with(place, e, &KeyState::new(house), out);
}

/// Does what [`ship`] does, over the state of the house's key.
pub fn ship_with(place: u64, e: &Entry, house: &KeyState, out: &mut Vec<u8>)
    requires lawful { EntryKeepsRules e.now }
    requires room { SHIPPED_ROOM ≤ spare_of out.old }
    // As of `ship`.
    ensures bytes { out.new.items ≡ out.old.items ++ frame (record { kind = SHIPPED_FRAME; body = shipped_bytes (signed house.now place e.now) }) }
    ensures fits { IsShipped (signed house.now place e.now) }
    ensures room { vec_capacity out.new ≡ vec_capacity out.old }
{
    let mut record = unsigned(place, e);
    let tag = house.code(&SHIP_LABEL, record.as_slice());
    record.raw(&tag);
    write_frame(SHIPPED_FRAME, record.as_slice(), out);
}

// The bytes of a record before its tag.
#[tactic(auto, unfolding(crate::specs::Spelling::unsigned_bytes))]
fn unsigned(place: u64, entry: &Entry) -> Buffer
    requires { EntryKeepsRules entry.now }
    ensures bytes { result ≡ unsigned_bytes place entry.now }
    ensures fits { IsEntry entry.now }
    ensures long { length result ≤ 133 }
{
    let spelled = entry.spelled();
    let mut bytes = Buffer::new();
    bytes.u64(place);
    bytes.raw(spelled.as_slice());
    bytes
}

#[tactic(auto, unfolding(crate::specs::Reading::shipped_of))]
fn read_fields(bytes: &[u8]) -> Result<Shipped, Malformed>
    ensures { Reads result (shipped_of bytes.now) }
{
    let mut cut = Cut::new(bytes);
    let place = cut.u64()?;
    let entry = entry_in(&mut cut)?;
    let tag = cut.fixed32()?;
    cut.done()?;
    Ok(Shipped { place, entry, tag })
}

// The entry at the place of the cut.
fn entry_in(cut: &mut Cut) -> Result<Entry, Malformed>
    ensures reads { Reads result (entry_at cut.old.bytes cut.old.place) }
    ensures moved { IfOk result (λ e. cut.new ≡ moved cut.old (length (entry_bytes e))) }
{
    match read_entry(cut) {
        Ok(entry) => Ok(entry),
        Err(EntryFault { place }) => Err(Malformed { place }),
    }
}
