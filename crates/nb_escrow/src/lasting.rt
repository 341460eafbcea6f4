//! What was found in a list of entries is found in every longer one, and what the code of a receipt says of a settlement. Each
//! function here does nothing: its contract is the law.

ghost use Rattle.nb_escrow.specs.Lasting as lasting;

/// A party that is found among the first entries is found as the same among more.
pub fn party_stays()
    ensures { lasting.PartyStays }
{}

/// So is who holds an account.
pub fn holder_stays()
    ensures { lasting.HolderStays }
{}

/// So is the fund of a reference.
pub fn fund_stays()
    ensures { lasting.FundStays }
{}

/// So is the payment or the refusal of an order, with its place.
pub fn order_stays()
    ensures { lasting.OrderStays }
{}

/// So is the settlement of an order.
pub fn settlement_stays()
    ensures { lasting.SettlementStays }
{}

/// Over every Legal list the code of a receipt says what its settlement is: paid, with the payment's key, or the reason's code, which
/// is never that of a payment, and no key.
pub fn receipts_say_the_settlement()
    ensures { lasting.ReceiptsSayTheSettlement }
{}
