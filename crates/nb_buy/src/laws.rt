//! What holds of every purchase. Each function here does nothing: its contract is the law.

ghost use Rattle.nb_buy.specs.Laws as law;

use nb_port::Disk;

/// A law: a stop at any moment of a purchase leaves the items of the wallet's journal with the first so many of those that its acts keep, also where
/// an append failed.
pub fn stop_leaves_first<D: Disk>()
    ensures { law.StopLeavesFirst D.tells }
{}

/// A law: where the journal held what the consumer kept, a wallet that starts again with whatever a stop at any moment of a purchase leaves is as the
/// consumer was behind the first acts of that purchase, but for the places that it was told. So it goes on from there.
pub fn goes_on_next_time<D: Disk>()
    ensures { law.GoesOnNextTime D.tells }
{}

/// A law: of a purchase that is over nothing is done: no frame is heard and nothing is sent; and it ends as one that is over, or for want of memory.
pub fn over_does_nothing<D: Disk>()
    ensures { law.OverDoesNothing D.tells }
{}

/// A law: a purchase that ended as paid has the same goods, byte for byte, each time it is made again with a wallet that started again, whatever its other
/// words are.
pub fn paid_again<D: Disk>()
    ensures { law.PaidAgain D.tells }
{}

/// A law: a purchase of which a receipt was heard that fits its order is over as the receipt says, with the goods that its key opens, and ends so, where
/// no step was lost.
pub fn receipt_ends<D: Disk>()
    ensures { law.ReceiptEnds D.tells }
{}

/// A law: a purchase whose links give the frames that bring it to its end, at most [`MOST_FRAMES`](crate::MOST_FRAMES) and none of them a refusal, comes to it,
/// where no call fails and the wallet has room for its items: its goods are written where it has some, it ends as `Unpaid` where it has none; or there was no
/// memory.
pub fn comes_to_its_end<D: Disk>()
    ensures { law.ComesToItsEnd D.tells }
{}

/// A law: the most frames in numbers.
pub fn limit()
    ensures { law.LimitIs }
{}
