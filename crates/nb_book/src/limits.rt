pub use nb_units::{MAX_CAP, MAX_RATE};

/// The most money that a house can take in, over all its funds, in its smallest unit of money: 10^18.
pub const MAX_TOTAL: u64 = 1_000_000_000_000_000_000;

/// The highest price of an order, in the house's smallest unit of money.
pub const MAX_PRICE: u64 = 1_000_000_000;

/// How many seconds after the moment of its identifier an order may still be paid.
pub const MAX_AGE: u64 = 900;

/// How many seconds the moment of an identifier may lie ahead of the house's clock.
pub const MAX_AHEAD: u64 = 300;
