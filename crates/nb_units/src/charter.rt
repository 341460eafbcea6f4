use crate::limits::HEAD;

/// What a house was made with, beside its cap: the bytes of its head, and the version and the rate of its journal.
#[derive(Clone, Copy)]
pub struct Charter {
    /// The bytes of the head: the keys of the house and of its operator, and what follows them.
    pub head: [u8; HEAD],
    /// The version of the journal, 1 byte wide: [`FIRST_VERSION`](crate::FIRST_VERSION) or [`FEE_VERSION`](crate::FEE_VERSION).
    pub version: u8,
    /// The rate of the fee in thousandths of the price, 2 bytes wide, at most [`MAX_RATE`](crate::MAX_RATE); 0 in the first version.
    pub rate: u16,
}
