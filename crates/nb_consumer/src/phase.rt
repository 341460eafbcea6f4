/// How far a purchase has come.
#[derive(Clone, Copy, PartialEq, Eq)]
pub enum Phase {
    /// A ticket was asked for.
    Ticketing,
    /// A price was asked for.
    Asked,
    /// The goods were asked for.
    Wanted,
    /// The order was sent.
    Ordered,
    /// It was paid, and the goods have so many bytes, 8 bytes wide.
    Paid { len: u64 },
    /// It was refused, for the reason that this code, one byte wide, has in `nb_book`.
    Refused { code: u8 },
    /// It was paid, and the key of the receipt does not open the goods.
    Foul,
}
