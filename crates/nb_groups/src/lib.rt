//! Lower prices for the members of groups.
//!
//! The keeper of groups gives a consumer a [`credential`]: a seal under the keeper's key, which says of which groups the consumer is a member, and
//! up to which second. The consumer sends it with its price request. A merchant has [`Offers`]: the keeper's key, and for products and groups a
//! price. [`quote`] gives the price of a product to who asks with such a request: the least of the shelf's price and of those of the offers for
//! the groups; or the shelf's price, and why there was none for a group ([`Denial`]).
//!
//! What a credential says stands in `specs/Spelling.antt`, as a function of it, and in `specs/Reading.antt`, field by field; what a list of offers
//! is in `specs/Offers.antt`, as the spelling of a keeper and of offers; and what is quoted in `specs/Quote.antt`, as one function of the
//! shelf, the offers, the product, the consumer, the request and the moment: no state stands behind it. What follows from these is proved by the
//! functions of [`laws`].
//!
//! [`credential`] and [`quote`] take no memory. That a look-up of an offer is one in a map, however many there are, is how it is built: no clause says it.
//!
//! Left to others: whose the keeper's key is, whether the consumer who asks is the one of a ticket, the clock, and what becomes of a price that was
//! quoted.
//!
//! Not said: that there is memory for offers.
#![tactic(auto)]

mod fault;
mod found;
mod groups;
pub mod laws;
mod limits;
mod line;
mod membership;
mod offers;
mod quoting;

pub use fault::OffersFault;
pub use groups::{Groups, are_groups};
pub use limits::{CREDENTIAL_BYTES, CREDENTIAL_LABEL, MAX_GROUPS, OFFERS_BYTES};
pub use membership::credential;
pub use offers::Offers;
pub use quoting::{Denial, Quoted, quote};
