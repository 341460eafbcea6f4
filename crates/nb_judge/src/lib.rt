//! Disputes, decided from the consumer's evidence alone.
//!
//! A case is the house's key, the consumer's key, the order, the receipt and the sealed goods ([`Case`]; its bytes stand in
//! `specs/Layout.antt`). [`judge`] rules on it by six tests in order (`specs/Ruling.antt`): whether the order has its tag under the consumer's key,
//! whether the receipt opens to one with the house's tag, whether it is of that order, whether it says paid, whether these are the goods
//! that were ordered, and whether the key of the receipt opens them. [`CaseBytes`] is a case that stays where it was read: its receipt and its
//! goods are not copied, and ruling takes no memory.
//!
//! Each case has one ruling, whoever finds it ([`laws::one_ruling`]).
//!
//! Left to others: whose keys these are, and who brings them. A judge is given the house's key, and so has to be trusted with it: who has it can make
//! receipts.
//!
//! Not said: that there is memory for a case that is copied, a [`Case`].
#![tactic(auto)]

mod case;
mod case_bytes;
pub mod laws;
mod ruling;

pub use case::{Case, CaseFault, judge, read_case};
pub use case_bytes::{CaseBytes, MAX_CASE};
pub use ruling::Ruling;
