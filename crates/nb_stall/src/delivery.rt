use crate::purchase::Purchase;
use nb_units::Epoid;

/// Goods that were sealed: for which purchase, and under which identifier.
#[derive(Clone, Copy)]
pub struct Delivery {
    pub purchase: Purchase,
    /// The identifier that the order must have, 16 bytes wide.
    pub epoid: Epoid,
}
