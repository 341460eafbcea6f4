//! What holds of everything that is sold on a link. Each function here does nothing: its contract is the law.

ghost use Rattle.nb_sell.specs.Laws as law;

use nb_port::Disk;

/// A law: a stop at any moment leaves the items of the stall's journal with the first so many of those that were kept, also where an append failed.
pub fn stop_leaves_first<D: Disk>()
    ensures { law.StopLeavesFirst D.tells }
{}

/// A law: where the journal held what the merchant kept, whatever a stop at any moment leaves, a merchant that starts again with it is as it was behind the first frames that it heard, and goes on from there.
pub fn goes_on_next_time<D: Disk>()
    ensures { law.GoesOnNextTime D.tells }
{}

/// A law: where the journal held what the merchant kept, and no item was lost, it holds what the merchant kept.
pub fn stays_kept<D: Disk>()
    ensures { law.StaysKept D.tells }
{}

/// A law: what the stall's journal held, and what was kept by the acts that were carried out, is never more than its cap. An item in doubt is not counted.
pub fn keeps_within<D: Disk>()
    ensures { law.KeepsWithin D.tells }
{}

/// A law: selling ends with a full journal only where that holds as many items as its cap says.
pub fn full_is_full<D: Disk>()
    ensures { law.FullIsFull D.tells }
{}

/// A law: what was endorsed is endorsed again with the same bytes for the same order, or, where it was settled since, answered with the kept result, behind
/// whatever came later, and so also by a merchant that started again with what was kept, with whatever shelf and offers it was taken up.
pub fn endorses_again()
    ensures { law.EndorsesAgain }
{}

/// A law: a refusal is ignored, so that nothing more is sold on the link.
pub fn refusal_ends()
    ensures { law.RefusalEnds }
{}

/// A law: the most frames in numbers.
pub fn limit()
    ensures { law.LimitIs }
{}
