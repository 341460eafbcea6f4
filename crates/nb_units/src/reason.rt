//! The codes of the reasons for which an order is refused. What each says stands with the book; a receipt tells it.

ghost use Rattle.std.specs.Prelude.{◌≡◌};
ghost use Rattle.nb_units.specs.Reasons.{is_reason};

/// The least code of a reason, one byte wide.
pub const FIRST_REASON: u8 = 31;

/// The greatest code of a reason.
pub const LAST_REASON: u8 = 37;

/// Whether an order may be refused with this code.
pub fn is_reason(code: u8) -> bool
    ensures { result ≡ is_reason code }
{
    FIRST_REASON <= code && code <= LAST_REASON
}
