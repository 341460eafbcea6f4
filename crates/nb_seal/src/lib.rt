//! Digests, message authentication codes, a keystream and seals, over plain bytes.
//!
//! A message is seen as the list of its bytes, in whatever pieces it came. [`sha`] is SHA-256 (FIPS
//! 180-4). [`hmac`], and [`Mac`] where a message comes piece by piece, are HMAC-SHA-256 (RFC 2104) under
//! keys of at most 64 bytes; a [`KeyState`] keeps what codes under one key of 32 bytes share. [`same`] compares all 32 bytes of two digests. [`stream_xor`] combines bytes
//! with the keystream of ChaCha20 with a block counter of 64 bits and a nonce of 64 bits that is 0. Up to
//! byte 2^38 that is the keystream of RFC 8439 with a nonce of zeros and the counter from 0 on.
//!
//! A seal hides a text under a key and binds it to a label. It is the code of the label followed by the
//! text, its iv, and behind that the text combined with the keystream of a key made from the iv. Bytes
//! open to a text exactly where they are its seal, and to one text at most. [`unseal`] and [`unseal_to`]
//! give that text or say that there is none. [`seal_spare`], [`seal_to`] and [`unseal_to`] have one over the state of their key beside them, a method of
//! [`KeyState`] with the same clauses, and are that over a fresh one; [`KeyState::code`] is [`hmac`] so.
//!
//! Digests, codes, ivs, and the keys of seals and of keystreams have 32 bytes ([`CODE_BYTES`]), blocks of
//! the hash 64 ([`BLOCK_BYTES`]), labels 4. A text that is sealed has at most 2^39 bytes ([`MAX_TEXT`]),
//! and of a keystream the first 2^40 are used ([`MAX_KEYSTREAM`]).
//!
//! Each call promises its exact value, as `specs/` defines it. What holds of these values, whatever the
//! bytes, is proved by the functions of [`laws`]. Only [`seal`] and [`unseal`] make a vector larger, for the
//! seal or the text that they append: [`seal_spare`] keeps its vector's capacity, by its clause `room`, and
//! no other call is given a vector or an allocator.
//!
//! What a message means, and which key belongs to whom, is left to the layers above; so is the secrecy of
//! keys. That these functions are hard to invert or to forge is no claim of the proofs.
//!
//! `sha256` is the definition of FIPS 180-4 on lists that the kit's crate `sha2` states, and `word_at` that of the words of ChaCha20 that `rand_chacha`
//! states. What room is stands here too, as in nb_units: this crate stands on none of the repository.
//!
//! Not said: how long a call takes, also that [`same`] takes as long for each pair; codes under keys above 64 bytes (no key of the house is longer than 32), texts above 2^39 bytes and
//! the keystream from byte 2^40 on, which the conditions leave out; that [`seal`] and [`unseal`] find memory, but where the room was there
//! before; and what [`unseal_to`] leaves in its buffer after a bad seal: the text is opened there before it is known to be none.
#![tactic(auto)]

mod digest;
mod key;
mod keystream;
pub mod laws;
mod limits;
mod mac;
mod memory;
mod seals;

pub use digest::{same, sha};
pub use key::KeyState;
pub use keystream::stream_xor;
pub use limits::{BLOCK_BYTES, CODE_BYTES, MAX_KEYSTREAM, MAX_TEXT};
pub use mac::{Mac, hmac};
pub use memory::NoMemory;
pub use seals::{BadSeal, Unsealed, seal, seal_spare, seal_to, unseal, unseal_to};
