//! An entry of a house's book, and its bytes.
//!
//! An [`Entry`] is what the house records: a party, money from outside, or an order that is paid or refused. It has one spelling in bytes, which
//! [`write_entry`] appends and [`read_entry`] reads at the place of a cut; an item of a journal is from 1 to [`MAX_ITEM_ENTRIES`] of them, one behind the other.
//!
//! The bytes of an entry stand in `specs/Spelling.antt` and, field by field with the place of each, in `Reading.antt`. What holds of every spelling stands in
//! `Laws.antt` and is proved by the functions of [`laws`].
//!
//! Left to others: which entry may come next, and what entries say of parties and money (`nb_book`); where an entry is kept.
//!
//! Not said: how an entry is equal to another one, which its type derives.
#![tactic(auto)]

mod entry;
pub mod laws;
mod spelling;

pub use entry::{CONSUMER, Entry, MERCHANT};
pub use spelling::{EntryFault, MAX_ENTRY, MAX_ITEM_ENTRIES, read_entry, write_entry};
