use nb_entry::MAX_ENTRY;
use nb_units::frames::HEADER;
use nb_units::width::{CODE, PLACE, TAG};

/// The kind of a frame whose body is a record.
pub const SHIPPED_FRAME: u8 = 0x01;

/// The kind of a frame whose body is an acknowledgement.
pub const ACKNOWLEDGED_FRAME: u8 = 0x02;

/// The most bytes of a record's frame.
pub const SHIPPED_ROOM: usize = HEADER + PLACE + MAX_ENTRY + TAG;

/// The bytes of an acknowledgement's frame.
pub const ACKNOWLEDGED_ROOM: usize = HEADER + CODE + PLACE + TAG;

/// The number under which the lines of a standby's vault tell what came from its primary.
pub const PRIMARY: u64 = 0;
