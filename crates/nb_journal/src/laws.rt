//! Laws of reading, what each image is read as; of growing, what appends leave; and of where zeros are written.

ghost use Rattle.nb_journal.specs.Growing.{RestMayAppend, AppendGrows, StaysGrows, GrowsTwice, GrowsToRest, StopLeavesSome};
ghost use Rattle.nb_journal.specs.Migrating.{CrownLeaves, CrownStands};
ghost use Rattle.nb_journal.specs.Laws.{StandsIsRead, ReadStands, OneJournal, WholeNotDamaged, OneFault, UnbornIsNeither, JournalLayout, ZerosWhereReached};

use nb_port::Disk;

/// A law: an image that stands for items, none of them too long and no more than the cap, behind a cap, a head and a rate that a journal may have, is read as a
/// journal with these items.
pub fn stands_is_read()
    ensures { StandsIsRead }
{}

/// A law: what is read as a journal stands for its items.
pub fn read_stands()
    ensures { ReadStands }
{}

/// A law: an image is read as at most one journal.
pub fn one_journal()
    ensures { OneJournal }
{}

/// A law: a journal is not damaged.
pub fn whole_not_damaged()
    ensures { WholeNotDamaged }
{}

/// A law: there is at most one first fault.
pub fn one_fault()
    ensures { OneFault }
{}

/// A law: what begins with no magic is neither a journal nor a damaged one.
pub fn unborn_is_neither()
    ensures { UnbornIsNeither }
{}

/// A law: the layout of a journal in numbers.
pub fn layout()
    ensures { JournalLayout }
{}

/// A law: where zeros are written behind an item, and how many.
pub fn zeros_where_reached()
    ensures { ZerosWhereReached }
{}

/// A law: what a stop leaves while a content is crowned, where it begins with the magic of the second version.
pub fn crown_leaves()
    ensures { CrownLeaves }
{}

/// A law: an image of the second version that was laid stands for its items once it is crowned, and so does what a stop leaves
/// while it is, where that begins with its magic.
pub fn crown_stands()
    ensures { CrownStands }
{}

/// A law: a journal at rest may be appended to.
pub fn rest_may_append<D: Disk>()
    ensures { RestMayAppend D.tells }
{}

/// A law: an append that said Ok, by its clauses, made the journal grow by its item.
pub fn append_grows<D: Disk>()
    ensures { AppendGrows D.tells }
{}

/// A law: a journal to which nothing was done grew by nothing.
pub fn stays_grows<D: Disk>()
    ensures { StaysGrows D.tells }
{}

/// A law: a journal that grew by some items and then by others grew by both.
pub fn grows_twice<D: Disk>()
    ensures { GrowsTwice D.tells }
{}

/// A law: a journal that was at rest and grew is at rest.
pub fn grows_to_rest<D: Disk>()
    ensures { GrowsToRest D.tells }
{}

/// A law: a stop at any moment while a journal grew leaves its items with the first so many of those that were kept.
pub fn stop_leaves_some<D: Disk>()
    ensures { StopLeavesSome D.tells }
{}
