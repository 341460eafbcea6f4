ghost use Rattle.std.specs.Prelude.{◌≡◌};
ghost use Rattle.nb_endorse.specs.declared.refusal.TheConstants.{SHOWN_BYTES};
ghost use Rattle.nb_endorse.specs.Refusals.{refusal, refusal_with, CodesAre, PartsAre};

use nb_units::Malformed;

/// The body, or a part of it, is not spelled as it should be. `a` is the place of the first field that fails, in bytes
/// from the front of that part, and `b` is which part it is: [`IN_BODY`], [`IN_ENDORSEMENT`], [`IN_ORDER`] or
/// [`IN_HIDDEN`].
pub const MALFORMED: u8 = 10;

/// The body itself is malformed.
pub const IN_BODY: u64 = 0;

/// The endorsement, as it was before it was sealed, is malformed.
pub const IN_ENDORSEMENT: u64 = 1;

/// The order that is endorsed is malformed.
pub const IN_ORDER: u64 = 2;

/// The order's hidden part, as it was before it was sealed, is malformed.
pub const IN_HIDDEN: u64 = 3;

/// A party is not enrolled, or not in the role that the request asks for. `a` is its number.
pub const NOT_ENROLLED: u8 = 11;

/// The bytes are the seal of no text under the party's key. `x` is their iv: the first 32 bytes, with zeros where there are
/// fewer.
pub const NOT_SEALED: u8 = 12;

/// The order, or its identifier, names another merchant than the one that endorses it. `a` is the one that endorses it,
/// `b` the first other one.
pub const OTHER_MERCHANT: u8 = 13;

/// The tag is not the one that the body, or the order, has under the key. `x` is the tag given.
pub const WRONG_TAG: u8 = 14;

/// The order's identifier is used up by another endorsement. `x` is the digest of that.
pub const IDENTIFIER_USED: u8 = 15;

/// The number or the account of an enrolment is held, or is 0. `a` is the number of the party that holds the number, or
/// else the account, and `b` is its account; both are 0 where nobody holds either.
pub const PARTY_HELD: u8 = 16;

/// The reference of a fund is held with other content. `a` is the account kept, `b` the amount kept, in the
/// house's smallest unit of money.
pub const REFERENCE_HELD: u8 = 17;

/// Nobody holds the account of a fund. `a` is the account.
pub const ACCOUNT_NOT_HELD: u8 = 18;

/// The fund would bring in more than a house takes in over all its funds. `a` is what it took in so far, `b` the amount,
/// both in the house's smallest unit of money.
pub const TOTAL_TOO_HIGH: u8 = 19;

/// As many entries are held as the journal may hold. `a` is the journal's cap.
pub const JOURNAL_FULL: u8 = 20;

/// The status was asked of more entries than are held. `a` is how many are held, `b` how many were asked for.
pub const TOO_FEW_ENTRIES: u8 = 40;

/// The disk failed in this turn. `a` and `b` are its counts of faults before and after.
pub const DISK_FAULT: u8 = 50;

/// The disk failed in 1,000 turns since the journal was opened, and no more is written to it. `a` is 1,000.
pub const WORN: u8 = 51;

/// There was no memory for this turn.
pub const NO_MEMORY: u8 = 52;

/// Frames of this kind are not served. `a` is the kind.
pub const NOT_SERVED: u8 = 53;

/// The bytes that a refusal shows.
pub const SHOWN_BYTES: usize = 32;

/// Why a request is refused, or its turn failed: a code, one byte wide, and what it shows. What a code does not show is zeros.
#[derive(Clone, Copy, Debug)]
pub struct Refusal {
    pub code: u8,
    /// The first number that is shown, 8 bytes wide.
    pub a: u64,
    /// The second number that is shown, 8 bytes wide.
    pub b: u64,
    /// The bytes that are shown.
    pub x: [u8; SHOWN_BYTES],
}

impl Refusal {
    /// A refusal that shows two numbers.
    pub fn of(code: u8, a: u64, b: u64) -> Refusal
        ensures { result ≡ refusal code a b }
    {
        Refusal {
            code,
            a,
            b,
            x: [0; SHOWN_BYTES],
        }
    }

    /// A refusal that shows 32 bytes.
    pub fn with(code: u8, x: &[u8; SHOWN_BYTES]) -> Refusal
        ensures { result ≡ refusal_with code x.now }
    {
        Refusal {
            code,
            a: 0,
            b: 0,
            x: *x,
        }
    }
}

impl From<Malformed> for Refusal {
    ghost use Rattle.std.specs.Prelude.{◌≡◌};
    ghost use Rattle.nb_endorse.specs.declared.refusal.TheConstants.{MALFORMED, IN_BODY};
    ghost use Rattle.nb_endorse.specs.Refusals.{refusal};

    ghost from_gives = { λ malformed r. r ≡ refusal MALFORMED malformed.place IN_BODY };

    fn from(malformed: Malformed) -> Refusal {
        Refusal::of(MALFORMED, malformed.place as u64, IN_BODY)
    }
}

/// A law: the codes in numbers, the parts of a body, and how many bytes are shown.
pub fn codes()
    ensures codes { CodesAre }
    ensures parts { PartsAre }
    ensures shown { SHOWN_BYTES ≡ 32 }
{}
