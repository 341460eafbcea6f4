//! Orders: what a consumer promises to pay, and what the house alone may see of it.
//!
//! An [`Order`] names consumer, merchant, product, price and identifier, the checksum of the sealed goods and two digests,
//! all in the open. Its hidden part is a seal under the consumer's key, which the consumer and the house alone can open:
//! the account, its nonce and a memo, a [`Hidden`], or [`HiddenBytes`], whose memo stays where it was opened. The consumer's tag is
//! over all bytes before it.
//!
//! The layouts stand in `specs/Spelling.antt`, each as a function of the value, and in `specs/Reading.antt`, field by field
//! with the place of each. That they are the two sides of one thing is proved by the functions of [`laws`]: what was
//! spelled is read as that value, and what was read is spelled as those bytes.
//!
//! Left to others: whose keys these are, whether the parties exist, and whether the price is there. No memory is taken.
//!
//! Not said: that a tag is hard to forge, and that a hidden part stays hidden.
#![tactic(auto)]

mod hidden;
pub mod laws;
mod order;
pub mod places;

pub use hidden::{Hidden, HiddenBytes, RevealFault, account_digest, hide, reveal, reveal_with};
pub use nb_units::Malformed;
pub use order::{Order, order_tag_ok, read_order, read_tag_ok, sign_order, write_order};
