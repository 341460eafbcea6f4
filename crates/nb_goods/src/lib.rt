//! Goods as they are sold: sealed under a key of their own, checked by a digest, and sent in parts.
//!
//! A merchant makes the key of a sale from its master key ([`goods_key`]) and seals the goods under it. The sealed goods are an iv of 32
//! bytes and the goods combined with a keystream; their [`checksum`] is what a consumer promises to pay for before it has the key. They
//! travel in parts of [`PART_BYTES`] bytes, the last one shorter or equal. [`parts`] finds the iv, the total and the checksum and takes
//! no memory, and [`Parts::part`] makes one part, without the others. [`open_parts`] opens what came, in whatever pieces it came; [`opens`]
//! and [`opens_parts`] tell whether bytes open, in one pass and without memory.
//!
//! What sealed goods are stands once, in `specs/Goods.antt`, as a list of bytes: a part is a slice of that list, and the parts joined are
//! it. That one text at most opens, that what was sealed opens, and that bytes with the checksum of sealed goods open to those goods or
//! are, with the sealed goods, two different lists with one digest, is proved by the functions of [`laws`].
//!
//! Left to others: which goods these are, what they cost, whose keys these are, and how parts travel.
//!
//! Not said: that there is memory for goods or a part; that there is no collision and that no two goods get one key, since that SHA-256 and HMAC
//! are hard to find two texts for is no claim of the proofs; and how much memory and time a call takes: [`parts`], [`opens`] and [`opens_parts`] are
//! given no allocator, and `bench/run` measures the rest.
#![tactic(auto)]

mod divided;
mod goods;
mod joined;
pub mod laws;
mod limits;
mod opened;

pub use divided::Parts;
pub use goods::{OpenGoods, checksum, goods_key, open_goods, parts, sealed};
pub use joined::open_parts;
pub use limits::{GOODS_LABEL, MAX_GOODS, MAX_SEALED, PART_BYTES};
pub use nb_units::NoMemory;
pub use opened::{opens, opens_parts};
