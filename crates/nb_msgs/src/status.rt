ghost use Rattle.std.specs.Prelude.{◌≡◌, ◌≤◌, ◌+◌, ◌++◌, length, IfOk, IfSome, Ok};
ghost use Rattle.nb_units.specs.Reads.{Reads};
ghost use Rattle.nb_units.specs.declared.buffer.TheConstants.{MAX_BUFFER};
ghost use Rattle.nb_endorse.specs.declared.receipt.TheConstants.{SIGNED_BYTES};
ghost use Rattle.nb_endorse.specs.Replies.{ReceiptKeepsRules};
ghost use Rattle.nb_endorse.specs.Spelling.{IsSigned};
ghost use Rattle.nb_msgs.specs.declared.status.TheConstants.{MOST_TEXT};
ghost use Rattle.nb_msgs.specs.StatusText as texts;

use nb_endorse::{ABSENT, PRESENT, SIGNED_BYTES, Signed, read_signed};
use nb_units::width::{EPOID, FLAG, PLACE, SEAL};
use nb_units::{Buffer, Cut, Epoid, Malformed, allow};

// The most bytes of a status before it is sealed: place, identifier, and a receipt behind the byte that says whether there is one.
pub(crate) const MOST_TEXT: usize = PLACE + EPOID + FLAG + SIGNED_BYTES;

/// The most bytes of a status, sealed.
pub const MOST_STATUS: usize = SEAL + MOST_TEXT;

/// What the house tells of an order to one of its parties, before it is sealed.
#[derive(Clone, Copy, Debug)]
pub struct StatusText {
    /// The number of entries that were looked at, from the first on, 8 bytes wide.
    pub place: u64,
    /// The order's identifier, 16 bytes wide.
    pub epoid: Epoid,
    /// The receipt of who asked, with the house's tag, where the order was decided and names that party.
    pub receipt: Option<Signed>,
}

impl StatusText {
    /// The status that the bytes spell, or the place of the first field that fails, in bytes from their front: a field of which bytes
    /// are missing, a byte before the receipt that is neither 0 nor 1, in the receipt and its tag the place that
    /// [`read_signed`](nb_endorse::read_signed) tells and 25 before it, or the first byte behind the last field.
    pub fn read(bytes: &[u8]) -> Result<StatusText, Malformed>
        // The fields in their order, and the first that fails.
        ensures reads { Reads result (texts.text_of bytes.now) }

        // A status that is read is spelled so, and one that is spelled so is read.
        ensures spelled { IfOk result (λ t. texts.IsStatusText t × (bytes.now ≡ texts.text_bytes t)) }
        // Where the bytes are the spelling of one within its limits, that one is read.
        ensures found { (t : StatusText) → texts.IsStatusText t → bytes.now ≡ texts.text_bytes t → result ≡ Ok t }
    {
        read_fields(bytes)
    }

    /// Its bytes: place 8, identifier 16, the byte that says whether there is a receipt, and the receipt and its tag where there is one.
    /// A receipt must have a code that receipts have, a key exactly where it says paid, and then nothing that is shown.
    pub fn spelled(&self) -> Buffer
        requires lawful { IfSome self.now.receipt (λ s. ReceiptKeepsRules s.receipt) }
        ensures bytes { result ≡ texts.text_bytes self.now }
        ensures fits { texts.IsStatusText self.now }
        ensures short { length result ≤ MOST_TEXT }
    {
        let mut bytes = Buffer::new();
        bytes.u64(self.place);
        bytes.raw(&self.epoid.write());
        write_told(&self.receipt, &mut bytes);
        bytes
    }
}

// A receipt behind the byte that says whether there is one.
fn write_told(receipt: &Option<Signed>, bytes: &mut Buffer)
    requires lawful { IfSome receipt.now (λ s. ReceiptKeepsRules s.receipt) }
    requires room { length bytes.old + (1 + SIGNED_BYTES) ≤ MAX_BUFFER }
    ensures value { bytes.new ≡ bytes.old ++ texts.told_bytes receipt.now }
    ensures fits { IfSome receipt.now IsSigned }
    ensures short { length bytes.new ≤ length bytes.old + (1 + SIGNED_BYTES) }
{
    match receipt {
        None => bytes.u8(ABSENT),
        Some(signed) => {
            bytes.u8(PRESENT);
            bytes.raw(signed.spelled().as_slice());
        }
    }
}

#[tactic(auto, unfolding(crate::specs::StatusText::text_of))]
fn read_fields(bytes: &[u8]) -> Result<StatusText, Malformed>
    ensures { Reads result (texts.text_of bytes.now) }
{
    let mut cut = Cut::new(bytes);
    let place = cut.u64()?;
    let epoid = cut.fixed16()?;
    let at = cut.place();
    let has = cut.u8()?;
    allow(has == ABSENT || has == PRESENT, at)?;
    let receipt = read_told(has, cut)?;
    Ok(StatusText {
        place,
        epoid: Epoid::read(&epoid),
        receipt,
    })
}

// Behind the byte that says whether there is a receipt: the receipt, or nothing.
#[tactic(auto, unfolding(crate::specs::StatusText::told_of))]
fn read_told(has: u8, cut: Cut) -> Result<Option<Signed>, Malformed>
    requires { cut.place ≡ 25 }
    ensures { Reads result (texts.told_of has cut.entry.bytes) }
{
    if has != PRESENT {
        cut.done()?;
        return Ok(None);
    }
    match read_signed(cut.rest()) {
        Ok(signed) => Ok(Some(signed)),
        Err(Malformed { place }) => Err(Malformed {
            place: cut.place() + place,
        }),
    }
}
