//! A consumer's core: everything that a consumer's program decides, without a socket or a file.
//!
//! A [`Consumer`] starts purchases ([`Consumer::start`]), hears messages ([`Consumer::on`]) and is told that nothing was heard for long
//! ([`Consumer::quiet`]). Each answers a step of `nb_msgs`: an item that is to be kept before a message is sent, and the message; how a purchase
//! ended; or why nothing is done. What each does is a row of a table (`specs/Table.antt`): its tests in order, and what is kept and sent. What the
//! consumer knows then is a function of what it knew and of the item, or of the place that a status tells (`specs/State.antt`). [`Consumer::state`] and
//! [`Consumer::goods`] tell a purchase. [`Consumer::restart`] makes a consumer again from the items of its journal, which must each be one that a row
//! keeps behind those before it; of an order the account digest, the hidden part and the tag are not tested (`specs/Restart.antt`).
//!
//! What is kept, and what is known of one purchase, stands in `nb_wallet`. What holds of all rows and ends, and of starting again, is proved by the
//! functions of [`laws`]; those that ask for items that a consumer kept hold of every consumer ([`Consumer::witness`]). A purchase is found by its number,
//! and an order by its identifier, without going through the others.
//!
//! Left to others: the journal, links, and when nothing was heard for long.
//!
//! Not said: that there is memory for a step; that a look-up goes through no list: the clauses see lists, the code has maps by number and by
//! identifier; and how many items were kept, which who keeps the journal counts: starting again asks for fewer than 2^32.
#![tactic(auto)]

mod consumer;
mod deed;
mod knowledge;
pub mod laws;
mod phase;
mod restart;
mod rows;

pub use consumer::Consumer;
pub use deed::Deed;
pub use phase::Phase;
