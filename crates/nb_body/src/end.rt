use nb_units::Blob;

/// How a purchase ended for its consumer.
#[derive(Drop)]
pub enum End {
    /// It was paid, and the key opened the goods, which these bytes are.
    Paid(Blob),
    /// It was refused, for the reason that this code, one byte wide, has in `nb_book`.
    Refused(u8),
    /// It was paid, and the key does not open the goods.
    Foul,
}
