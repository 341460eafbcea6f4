//! An index of fixed size: numbers under keys of 16 bytes, found without going over them all.
//!
//! A [`FixedIndex`] is seen as an [`Indexed`](specs/Puts.antt): the list of its puts in order, and what does not change as it is
//! used: how many slots it has, its own key, and for how many puts it has memory. Each key is put once. [`FixedIndex::find`] gives the number that was put under a key, [`FixedIndex::put`]
//! appends a put, and [`FixedIndex::take_off`] takes the last one off, so that the list is as before it. All memory is taken by
//! [`FixedIndex::new`]: the other calls take none and cannot fail. A put is taken where there are fewer puts than half the slots.
//!
//! A key falls on one slot, by the SHA-256 (FIPS 180-4) of the index's own key and the key. That who does not know the index's key cannot
//! choose keys that all fall on one slot is no claim of the proofs. A slot has the number of the last put that fell on it, and
//! beside each put stands the number of the one before it at its slot; `find` goes along these.
//!
//! A key can be hashed without its index, by a [`SlotHasher`]. [`FixedIndex::remember`] has the index keep the slot of one key that was hashed so: calls with that key
//! make no hash until another is kept.
//!
//! What the words mean stands in `specs/`: puts in `Puts.antt`, slots in `Slots.antt`. What holds of every index stands in
//! `specs/Laws.antt` and is proved by the functions of [`laws`].
//!
//! Left to others: what the numbers mean, and how a key is made.
//!
//! Not said, since no clause counts steps, and what is found does not depend on it: on which slot a key falls, which a clause of the private `slot_of` tells, and
//! that slots are chosen by the key that the shape shows, which is the invariant of the type (`specs/Slots.antt`); for how many slots a hasher hashes, and that a key whose slot is kept is not hashed
//! anew; how many puts a call goes over, at most half as many as slots, rounded up. That [`FixedIndex::new`] does not answer [`NoMemory`] where memory is there
//! no clause can say. The stored run of `books` puts keys that, as another program reckons, fall on one slot; what it prints does not show that.
#![tactic(auto)]

mod hashed;
mod index;
pub mod laws;
mod limits;
mod memory;
mod put;
mod slot;

pub use hashed::{HashedKey, SlotHasher};
pub use index::FixedIndex;
pub use limits::MAX_SLOTS;
pub use memory::NoMemory;
pub use put::Put;
