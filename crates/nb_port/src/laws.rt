//! What holds of every disk in memory. Each function here does nothing: its contract is the law.

ghost use Rattle.nb_port.specs.Laws.{LeavesByRanges, SyncedLeavesOne, TornWithin, PausesChangeNothing};
ghost use Rattle.nb_port.specs.Laws.{FilledIsAllowed, NewIsContent, OldIsKept};

/// What a stop may leave, by the content, the durable length and the pending ranges.
pub fn by_ranges()
    ensures { LeavesByRanges }
{}

/// After a sync that is done a stop leaves the content alone.
pub fn synced_leaves_one()
    ensures { SyncedLeavesOne }
{}

/// Within a write a stop leaves what it leaves before it, torn in the range of the write.
pub fn torn_within()
    ensures { TornWithin }
{}

/// A read, and a sync that failed, changes nothing of what a stop leaves, neither within it nor after it.
pub fn pauses_change_nothing()
    ensures { PausesChangeNothing }
{}

/// Each image that is computed, with any fill, is one that a stop may leave.
pub fn filled_is_allowed()
    ensures { FilledIsAllowed }
{}

/// Of the images that are computed, that with the old bytes is the content at the last sync that was done, or at the start, and
/// that with the new ones is the content where no write failed.
pub fn old_and_new()
    ensures old { OldIsKept }
    ensures new { NewIsContent }
{}
