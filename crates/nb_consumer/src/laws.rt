//! What holds of every row, of every end and of starting again. Each function here does nothing: its contract is the law.
//! The laws of a consumer that starts again with what it kept hold of every consumer, by [`witness`](crate::Consumer::witness).

ghost use Rattle.nb_consumer.specs.Laws as law;

/// A law: a purchase ends paid only where the receipt says paid and its key opens the sealed goods to the goods that are told.
pub fn paid_opens()
    ensures { law.PaidOpens }
{}

/// A law: a purchase is refused with the code of a receipt that is not that of paid orders; else it is paid where the receipt's key opens the sealed
/// goods, and foul where it opens nothing.
pub fn ends_are()
    ensures { law.EndsAre }
{}

/// A law: a purchase ends at a receipt that was sealed under the consumer's key, one that was passed on for it or one in the status of its order.
pub fn ends_are_heard()
    ensures { law.EndsAreHeard }
{}

/// A law: behind an end [`state`](crate::Consumer::state) and [`goods`](crate::Consumer::goods) tell it: the goods and their length, the code, or that
/// it is foul.
pub fn end_is_told()
    ensures { law.EndIsTold }
{}

/// A law: a purchase of a consumer that starts again with what it kept has goods exactly where it was paid, and they have the length that is told.
pub fn paid_has_goods()
    ensures { law.PaidHasGoods }
{}

/// A law: of each purchase of a consumer that starts again with what it kept, what is held is what its stage says: nothing before a part came, less
/// than all before the last came, all that the order names the checksum of, and what the key of a paid one opens. The price at which goods are wanted or
/// ordered is from 1 to the limit, and an order names the consumer, the merchant and the product.
pub fn known_is_so()
    ensures { law.KnownIsSo }
{}

/// A law: such a consumer orders in its own name, of the merchant and the product that the purchase was started for, at a price from 1 to its limit.
pub fn orders_as_asked()
    ensures { law.OrdersAsAsked }
{}

/// A law: of such a consumer, a last part that is the rest of what is held makes all parts no longer than sealed goods may be, so that a restart's
/// test of that refuses nothing more.
pub fn rest_is_short()
    ensures { law.RestIsShort }
{}

/// A law: an order in a journal that a restart takes up names the consumer, and the merchant and the product that its purchase was started for, at a
/// price from 1 to its limit, and, in its bytes, the checksum of what is held behind the items before it and of the part in its item.
pub fn kept_order_is_so()
    ensures { law.KeptOrderIsSo }
{}

/// A law: the message that is sent with an item is the one that is sent again where nothing is heard behind it; with an order, the one that is sent
/// again at a status of this purchase without a receipt. A status names an order's identifier, and is of the first purchase that was ordered under it.
pub fn says_again()
    ensures { law.SaysAgain }
{}

/// A law: a start of a number that is not known is kept, and asks the house for a ticket.
pub fn start_moves()
    ensures { law.StartMoves }
{}

/// A law: a quiet time of a purchase that is known and not over sends a message, and keeps nothing.
pub fn silent_moves()
    ensures { law.SilentMoves }
{}

/// A law: a purchase that is over stays as it is, its start, its stage and what is held, behind every start, message and quiet time, and where the
/// places that were told are forgotten, as by a restart.
pub fn ended_stays()
    ensures { law.EndedStays }
{}

/// A law: so it does behind every list of starts, messages and quiet times, with restarts between them.
pub fn runs_keep_ended()
    ensures { law.RunsKeepEnded }
{}

/// A law: what a row keeps may stand behind what is known. An order that is kept names the consumer, the merchant and the product, at the price that
/// was quoted, and, in its bytes, the checksum of all sealed goods that are held
/// then, and is what is sent; a receipt that is kept fits the order.
pub fn rows_are_so()
    ensures { law.RowsAreSo }
{}

/// A law: an order's identifier finds the purchase that was ordered under it first, among the items that were kept.
pub fn first_order_found()
    ensures { law.FirstOrderFound }
{}

/// A law: [`state`](crate::Consumer::state) tells of a purchase what its last kept item says, and nothing of one without an item.
pub fn last_item_tells()
    ensures { law.LastItemTells }
{}

/// A law: a consumer that starts again with the items that it kept is as it was, but for the places that it was told: so it stays behind every
/// start, message and quiet time, whatever was answered.
pub fn keeps_restarting()
    ensures { law.KeepsRestarting }
{}

/// A law: behind every list of starts, messages and quiet times, with restarts between them, a consumer that starts again with the items that were
/// kept is as it was, but for the places that it was told. The list begins with a journal that a restart takes up, as the empty one.
pub fn runs_restart()
    ensures { law.RunsRestart }
{}

/// A law: what was kept in such a list is a sequence of items that rows keep, each within its limits, so that a restart with them refuses none of
/// them: it gives the consumer that kept them, or there was no memory.
pub fn restarts_as_kept()
    ensures { law.RestartsAsKept }
{}
