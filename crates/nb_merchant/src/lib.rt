//! A merchant's side of a purchase: what it does at each message, and how it starts again with what it kept.
//!
//! A [`Merchant`] is seen as who it is, what it sells, what it offers to the members of groups, if it does, and the list of the items that it kept (`nb_stall`). What it does stands in `specs/Table.antt`, a row for
//! each message and stage, its tests in their order: [`Merchant::on_consumer`], [`Merchant::on_server`] and [`Merchant::quiet`] are exactly
//! that. A step hands out the item that is to be kept before its message is sent. A restart takes up the items that may stand one behind
//! the other (`specs/Keeping.antt`), and tells the first that may not.
//!
//! The price of a product is told first as the catalogue has it, or with offers as [`nb_groups::quote`] gives it; from then on it is the kept price.
//!
//! What an endorsement means stands in `specs/Sending.antt`, and is a clause of the calls that send one: it is of the kept order, which is
//! that of the sale, and bytes with the order's checksum open under its key to the goods of the product, or are a collision. What holds of
//! every merchant is proved by the functions of [`laws`].
//!
//! Left to others: the journal that the items are kept in, links and clocks, who the consumers are, and whether a receipt is the house's.
//!
//! Not said: how much memory and time a call takes: a purchase is looked up in an ordered map, an identifier by its serial number, and each part
//! costs one pass over its own bytes, since what parts are made from is held with the sale; that a receipt is the house's: a merchant has no key
//! of the house, and one that opens under its own key is taken; and that the caller keeps an item before it sends the message: the step hands out
//! both, and the order is the caller's.
#![tactic(auto)]

mod answer;
pub mod laws;
mod merchant;
mod rows;

pub use answer::Answer;
pub use merchant::Merchant;
