//! What a merchant sells, and at which price.
//!
//! A shelf is a list of bytes: items one behind the other, each a line `id;price;name;length` and then so many bytes of goods.
//! [`Catalogue::read`] reads it, or tells the first item that is bad or has the number of one before it. Without a shelf
//! [`Catalogue::put`] puts products one by one into a [`Catalogue::new`]. A [`Catalogue`] is seen as the list of its products, in the order of
//! the shelf or in that in which they were put; [`Catalogue::quote`] and [`Catalogue::goods`] find one by its number. Names are read and not
//! kept.
//!
//! What a shelf is stands once, in `specs/Shelf.antt`, as the spelling of a list of items. That what stands at the front of bytes is
//! one item is proved by a function of [`laws`]. A number of a line is read by [`numbered`], for other lists of lines too.
//!
//! Left to others: how goods are sealed, who may buy them, and what is paid.
//!
//! Not said: that there is memory for goods; how much memory and time a call takes: goods are copied once, into a vector each, and an ordered map finds the
//! place of a number; and that two readings of a whole shelf agree, which follows item by item from the law on one item.
#![tactic(auto)]

mod catalogue;
mod fault;
pub mod laws;
mod limits;
mod line;
mod words;

pub use catalogue::Catalogue;
pub use fault::{NoProduct, PutFault, ShelfFault};
pub use limits::{LINE_FEED, MAX_NAME, MAX_PRICE, MAX_SHELF, SEMICOLON};
pub use words::numbered;
