//! Items of bytes on a disk, one behind the other, that a stop at any moment leaves whole.
//!
//! A journal has a front of 96 bytes with its magic, its cap, a head and a rate, and then its items, each behind a gate. The
//! items are those up to the first gate that is not open. Of its two versions, which the magic tells, the first has no rate.
//! [`init`] makes a journal of the first version without items, [`init2`] one of the second, [`Journal::open`] reads one,
//! [`Journal::append`] appends an item: its bytes are written and synced behind the closed gate, and then the gate is opened
//! and synced. An item that is not long brings zeros with it where it reaches a multiple of 131,072. Where the disk fails the item is in doubt, and [`Journal::settle`] finds out whether it is there.
//!
//! A journal is seen by its disk, which tells its content and what a stop may leave. At rest both stand for the front and
//! the items; in doubt they stand for the items without the one in doubt or with it (`specs/States.antt`). What is promised:
//! a stop at any moment of an append or of settling leaves the items before it or those with the item, never a part of it,
//! and once it is appended, kept or dropped, nothing is in doubt. What a journal that was made and an append that is done
//! leave in the content is said byte for byte. Opening and settling write nothing. Opening gives exactly what the content
//! holds, or the first fault (`specs/Reading.antt`); that what stands for a front and items that a journal may have is read as these, and that an
//! image has at most one reading, is proved by the functions of [`laws`]; so is what a journal grew by and what a stop leaves meanwhile, over any
//! number of appends (`specs/Growing.antt`).
//!
//! A whole image is put on a disk by [`lay`], which leaves zeros for its magic, and then [`crown`], which writes that of the second
//! version. A stop within `crown` leaves what is no journal of that version, or the whole one.
//!
//! Left to others: what the items, the head and the rate mean, when an item in doubt is settled, and the disk. What a stop leaves while
//! a journal is being made, or an image laid, is not said.
//!
//! Not said: what a stop leaves within [`init`] before its magic stands, and what the disk holds after one that failed: it held no journal, so
//! nothing is lost, and opening tells what is there; what a stop leaves within [`lay`], till whose sync even a magic may stand in front; what the disk
//! holds after a [`lay`] or a [`crown`] that failed: the bytes are a copy, and can be laid again. That an image which is laid is a journal: they take any bytes, and [`laws::crown_stands`] says what becomes of one that is.
//! Content and images of a disk that does not tell: what is asked of an append, the limits, the counts and what is in doubt are promised of it
//! too. That [`Journal::open`] finds memory; that an append or [`Journal::settle`] comes to its end where the disk works: an interrupted call may
//! raise the count and then work; how many calls of the disk a call makes, also into how many writes [`lay`] cuts an image, and how many bytes a read asks for: the trials of `books` count them,
//! and opening asks for 65,536 bytes at once but for an item that is longer. Which bytes an append that failed leaves in its range, beyond what
//! they stand for, and which of its two writes failed; when an item in doubt is settled: none can be appended before, and a journal that is opened anew has none in doubt; what
//! stands behind the last gate beyond the zeros that the last append which was done wrote there: what was written of an item that was dropped may stay till other items are written over it; and what an item and a head say: they are bytes.
#![tactic(auto)]

mod journal;
pub mod laws;
mod limits;
mod making;
mod migrating;
mod opening;
mod putting;
mod reading;
mod versions;

pub use journal::{AppendFault, Journal, Settled, StillStale};
pub use limits::{HEAD, MAGIC_BYTES, MAX_CAP, MAX_IMAGE, MAX_ITEM};
pub use making::{InitFault, MagicRead, init, init2, magic_of};
pub use migrating::{CopyFault, crown, lay};
pub use opening::{OpenFault, Opened};
