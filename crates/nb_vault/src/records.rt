// The entries of a house, in memory and on the disk.

ghost use Rattle.std.specs.Prelude.{◌≡◌, ◌≤◌, ◌<◌, ◌++◌, ◌∷◌, [], false, length, take, vec_capacity};
ghost use Rattle.nb_book.specs.Legal.{Legal, NextUnder};
ghost use Rattle.nb_entry.specs.declared.spelling.TheConstants.{MAX_ITEM_ENTRIES};
ghost use Rattle.nb_journal.specs.Time.{LeavesOnly, Unwritten};
ghost use Rattle.nb_vault.specs.Records.{Rests, Gathers, RecordsSettle, RecordGives, RecordWrites, SameTerms, disk_under, over_of, EitherOf, WithOrWithout};

use nb_book::Book;
use nb_entry::{Entry, MAX_ENTRY, MAX_ITEM_ENTRIES, write_entry};
use nb_journal::{AppendFault, Journal, Settled, StillStale};
use nb_port::Disk;
use nb_units::Charter;

// The most bytes of an item.
pub(crate) const ROOM: u32 = (MAX_ITEM_ENTRIES * MAX_ENTRY) as u32;

// The entries that are recorded, and the journal that they stand in with its charter.
#[derive(Drop)]
pub(crate) struct Records<D> {
    pub(crate) book: Book,
    pub(crate) journal: Journal<D>,
    pub(crate) charter: Charter,
    // The entries in doubt, or, in a turn, those recorded so far, and their bytes.
    pub(crate) group: Vec<Entry>,
    pub(crate) item: Vec<u8>,
    // The places of the requests of a turn.
    pub(crate) places: Vec<u64>,
    // In a turn, how many entries the journal holds.
    pub(crate) base: u32,
}

// The disk's counts of faults before and behind a call that failed.
#[derive(Clone, Copy)]
pub(crate) struct Counts {
    pub(crate) before: u64,
    pub(crate) after: u64,
}

impl<D: Disk> Records<D> {
    // Finds out whether the group that is in doubt is there. Where it is, its entries are kept.
    pub(crate) fn settle(&mut self) -> Result<Settled, Counts>
        requires rests { Rests D.tells self.old }
        ensures rests { Rests D.tells self.new }
        ensures gives { RecordsSettle D.tells self.old self.new result }
        ensures group { self.new.group ≡ self.old.group }
        ensures terms { SameTerms self.old self.new }
        ensures nothing { Unwritten D.tells (disk_under self.old) (disk_under self.new) }
        ensures any_moment { LeavesOnly D.tells (disk_under self.old) (disk_under self.new) (EitherOf self.old) }
        ensures idle { self.old.journal.stale ≡ false → D.tells.faults (disk_under self.new) ≡ D.tells.faults (disk_under self.old) }
        ensures count { D.tells.faults (disk_under self.old) ≤ D.tells.faults (disk_under self.new) }
    {
        match self.journal.settle() {
            Err(StillStale { before, after }) => Err(Counts { before, after }),
            Ok(Settled::Nothing) => Ok(Settled::Nothing),
            Ok(Settled::Dropped) => Ok(Settled::Dropped),
            Ok(Settled::Kept) => {
                apply_all(&mut self.book, self.group.as_slice());
                Ok(Settled::Kept)
            }
        }
    }

    // Begins a turn: nothing is recorded in it yet.
    pub(crate) fn begin(&mut self)
        requires rests { Rests D.tells self.old }
        requires fresh { self.old.journal.stale ≡ false }
        ensures gathers { Gathers D.tells self.new }
        ensures over { over_of self.new ≡ self.old.book.entries }
        ensures book { self.new.book ≡ self.old.book }
        ensures journal { self.new.journal ≡ self.old.journal }
        ensures charter { self.new.charter ≡ self.old.charter }
        ensures group { self.new.group.items ≡ [] }
        ensures places { self.new.places.items ≡ [] }
    {
        self.base = self.book.len();
        self.group.clear();
        self.item.clear();
        self.places.clear();
    }

    // One entry more of a turn, which may come next in the journal.
    pub(crate) fn gather(&mut self, entry: &Entry)
        requires gathers { Gathers D.tells self.old }
        requires legal { NextUnder self.old.charter.version self.old.charter.rate self.old.book.entries entry.now }
        requires within { length self.old.book.entries < self.old.book.cap }
        requires few { length self.old.group.items < MAX_ITEM_ENTRIES }
        ensures gathers { Gathers D.tells self.new }
        ensures over { over_of self.new ≡ over_of self.old }
        ensures entries { self.new.book.entries ≡ self.old.book.entries ++ entry.now ∷ [] }
        ensures group { self.new.group.items ≡ self.old.group.items ++ entry.now ∷ [] }
        ensures places { self.new.places ≡ self.old.places }
        ensures terms { SameTerms self.old self.new }
        ensures journal { self.new.journal ≡ self.old.journal }
    {
        write_entry(entry, &mut self.item);
        self.book.apply(entry);
        self.group.push_reserved(*entry);
    }

    // Makes the entries of a turn durable, as one item. Where that fails they are in doubt, and the book loses them.
    pub(crate) fn record(&mut self) -> Result<(), Counts>
        requires gathers { Gathers D.tells self.old }
        ensures rests { Rests D.tells self.new }
        ensures gives { RecordGives D.tells self.old self.new result }
        ensures writes { RecordWrites self.old (D.tells.content (disk_under self.old)) (D.tells.content (disk_under self.new)) result }
        ensures idle { self.old.group.items ≡ [] → disk_under self.new ≡ disk_under self.old }
        ensures group { self.new.group ≡ self.old.group }
        ensures places { self.new.places ≡ self.old.places }
        ensures terms { SameTerms self.old self.new }
        ensures any_moment { LeavesOnly D.tells (disk_under self.old) (disk_under self.new) (WithOrWithout self.old (over_of self.old) self.old.group.items) }
        ensures count { D.tells.faults (disk_under self.old) ≤ D.tells.faults (disk_under self.new) }
    {
        if self.group.as_slice().is_empty() {
            return Ok(());
        }
        match self.journal.append(self.item.as_slice()) {
            Ok(()) => Ok(()),
            Err(AppendFault::DiskFault { before, after }) => {
                undo_to(&mut self.book, self.base);
                Err(Counts { before, after })
            }
            Err(AppendFault::Full { .. }) => unreachable!(),
            Err(AppendFault::TooBig { .. }) => unreachable!(),
        }
    }
}

// Appends these entries, which are legal one after another.
fn apply_all(book: &mut Book, entries: &[Entry])
    requires legal { Legal (book.old.entries ++ entries.now) }
    requires within { length (book.old.entries ++ entries.now) ≤ book.old.cap }
    ensures entries { book.new.entries ≡ book.old.entries ++ entries.now }
    ensures cap { book.new.cap ≡ book.old.cap }
{
    for entry in entries {
        book.apply(entry);
    }
}

// Takes the last entries off, so that this many are left.
fn undo_to(book: &mut Book, base: u32)
    requires { base ≤ length book.old.entries }
    ensures entries { book.new.entries ≡ take base book.old.entries }
    ensures cap { book.new.cap ≡ book.old.cap }
{
    let count = book.len() - base;
    'undoing: for _ in 0..count {
        book.undo();
    }
}
