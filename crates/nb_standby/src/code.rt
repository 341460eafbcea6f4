//! What an acknowledgement tells of a record: of [`BAD_RECORD`], [`BAD_TAG`] and [`WORN`] the first that holds, before the disk is touched; and else what became
//! of its entry, which is one of the others. What is in doubt is settled before the entry is looked at.

ghost use Rattle.std.specs.Prelude.{◌≡◌};
ghost use Rattle.nb_standby.specs.Following.{code_of};

use nb_vault::TakeIn;

/// It is taken in: every later stop leaves it.
pub const TAKEN: u8 = 0;

/// Its entry stands at its place.
pub const SAME: u8 = 1;

/// Another entry stands at its place.
pub const OTHER: u8 = 2;

/// Its place is above the number of entries that stand.
pub const AHEAD: u8 = 3;

/// Its tag is not the one that it has under the house's key.
pub const BAD_TAG: u8 = 4;

/// The body is no record.
pub const BAD_RECORD: u8 = 5;

/// Its entry may not come next, or as many entries are held as can be.
pub const ILLEGAL: u8 = 6;

/// The disk failed: what was in doubt could not be settled, or the entry could not be made durable.
pub const DISK_FAULT: u8 = 7;

/// So many turns failed that nothing is done any more.
pub const WORN: u8 = 8;

// The code of a record that was spelled and signed.
pub(crate) fn of(how: TakeIn) -> u8
    ensures { result ≡ code_of how }
{
    match how {
        TakeIn::Taken => TAKEN,
        TakeIn::Same => SAME,
        TakeIn::Other => OTHER,
        TakeIn::Ahead => AHEAD,
        TakeIn::Illegal => ILLEGAL,
        TakeIn::DiskFault { .. } => DISK_FAULT,
        TakeIn::Worn { .. } => WORN,
    }
}
