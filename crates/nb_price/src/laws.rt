//! What holds of every shelf. Each function here does nothing: its contract is the law.

ghost use Rattle.nb_price.specs.Laws as law;

/// A law: what stands at the front of bytes is one item and one rest.
pub fn one_item()
    ensures { law.OneItem }
{}

/// The limits in numbers.
pub fn limits()
    ensures { law.ShelfLimitsAre }
{}
