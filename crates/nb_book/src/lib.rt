//! The book of a house: its entries in order, and what they say of parties, accounts, orders and money.
//!
//! A [`Book`] is seen as a [`Ledger`](specs/Ledger.antt): the list of its entries, and its cap. All memory is taken when it is made.
//! A look-up gives the first entry that names its key, a balance is a sum over the whole list, and [`Book::legal`] says whether an entry may come next. The list
//! of a book is Legal at all times: each entry was legal after those before it.
//!
//! Of a payment the house may keep a fee, by the version and the rate of its journal. Account 0 is the house's own: the fees are in it,
//! and nobody holds it.
//!
//! What the words mean stands in `specs/`: the look-ups in `Searches.antt`, the sums in `Money.antt`, the rule for
//! each entry in `Legal.antt`, the codes of refused orders in [`reason`]. What holds of every Legal list stands in
//! `specs/Laws.antt` and is proved by the functions of [`laws`].
//!
//! Left to others: what an entry is and its bytes (`nb_entry`), where it is kept, and who may ask for it.
//!
//! Not said: that [`Book::new`] finds memory where there is some; what its key does, by which the keys of look-ups fall on slots: no public
//! clause shows these, and none counts steps; for which book an identifier was hashed, and that what is remembered is not hashed anew; and how a look-up finds its answer: a scan of the
//! list would meet the contract.
#![tactic(auto)]

mod account;
mod book;
mod fee;
mod found;
mod funded;
mod kept;
mod keys;
pub mod laws;
mod legal;
mod limits;
mod list;
mod party;
pub mod reason;

pub use account::Account;
pub use book::Book;
pub use fee::fee_of;
pub use funded::Funded;
pub use kept::Kept;
pub use limits::{MAX_AGE, MAX_AHEAD, MAX_CAP, MAX_PRICE, MAX_RATE, MAX_TOTAL};
pub use nb_index::{HashedKey, SlotHasher};
pub use party::Party;
