//! What holds of every line, and of every journal. Each function here does nothing: its contract is the law.

ghost use Rattle.nb_trade.specs.Keeping as keeping;
ghost use Rattle.nb_trade.specs.Lines as line;

use nb_port::Disk;

/// A law: what went over a line, and then some more behind it, went over it; and where nothing was done nothing did.
pub fn goes_in_parts()
    ensures { line.GoesInParts }
{}

/// A law: a stop at any moment, while a journal grew by some items and then an item was not kept, leaves its items with the first so many of all these.
pub fn stop_leaves_first<D: Disk>()
    ensures { keeping.StopLeavesFirst D.tells }
{}

/// A law: the items of a journal that grew are never more than its cap.
pub fn grows_within<D: Disk>()
    ensures { keeping.GrowsWithin D.tells }
{}
