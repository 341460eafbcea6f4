// An entry that another vault has at a place of its list, and its turn.

ghost use Rattle.std.specs.Prelude.{◌≡◌, ◌⊎◌, ◌≤◌, ◌↔◌, IsTrue, Some, false, slice_get};
ghost use Rattle.std.specs.Option.{option_to_list};
ghost use Rattle.nb_units.specs.Charter.{MayRule};
ghost use Rattle.nb_journal.specs.Time.{LeavesOnly};
ghost use Rattle.nb_vault.specs.Parts.{IsVault, seen_as};
ghost use Rattle.nb_vault.specs.Records.{Rests, Gathers, SameTerms, disk_under, over_of};
ghost use Rattle.nb_vault.specs.Taking.{MayFollow, IsJudged, TakesIn, all_in, entry_taken};
ghost use Rattle.nb_vault.specs.Vaults.{DurableWhere, SameWhere, FaultWithin, StandsForState, state_of};

use crate::parts::Parts;
use crate::records::{Counts, Records};
use crate::telling::next_turn;
use nb_book::Book;
use nb_entry::Entry;
use nb_port::Disk;
use nb_turns::MAX_FAULTS;
use nb_units::Charter;

/// How an entry was taken in that another vault has at a place of its list.
#[derive(Clone, Copy)]
pub enum TakeIn {
    /// It is the next one here, and is recorded: every later stop leaves it.
    Taken,
    /// It stands at its place here too.
    Same,
    /// Another entry stands at its place here.
    Other,
    /// Its place is above the number of entries that stand here.
    Ahead,
    /// Its place is the next one here, and it may not come next, or as many entries are held as can be.
    Illegal,
    /// The disk failed between these two counts of its faults. Entries may be in doubt then, until a later call settles them: this one,
    /// or, where they could not be settled, those from before, and then nothing was looked at.
    DiskFault { before: u64, after: u64 },
    /// [`MAX_FAULTS`](nb_turns::MAX_FAULTS) turns failed since the vault was opened, and nothing was done.
    Worn { faults: u32 },
}

impl<D: Disk> Parts<D> {
    // Takes in an entry for a place, in a turn of its own.
    pub(crate) fn take_in(&mut self, by: u64, place: u64, entry: &Entry) -> TakeIn
        requires vault { IsVault D.tells self.old }
        ensures vault { IsVault D.tells self.new }
        ensures turn { TakesIn D.tells (seen_as self.old) (seen_as self.new) by place entry.now result }
        ensures origin { (seen_as self.new).origin ≡ (seen_as self.old).origin }
        ensures any_moment { LeavesOnly D.tells (disk_under self.old.records) (disk_under self.new.records)
            (λ image. StandsForState (seen_as self.old) image ⊎ StandsForState (seen_as self.new) image) }
        ensures durable { DurableWhere D.tells (seen_as self.new) (all_in result) }
        ensures quiet { state_of (seen_as self.new) ≡ state_of (seen_as self.old) → D.tells.content (disk_under self.new.records) ≡ D.tells.content (disk_under self.old.records) }
        ensures same { SameWhere (seen_as self.old) (seen_as self.new) (all_in result) }
        ensures fault { FaultWithin D.tells (seen_as self.old) (seen_as self.new) (all_in result) }
        ensures count { D.tells.faults (disk_under self.old.records) ≤ D.tells.faults (disk_under self.new.records) }
    {
        if self.faults >= MAX_FAULTS {
            return TakeIn::Worn { faults: MAX_FAULTS };
        }
        let turn = next_turn(&self.lines);
        match self.ready(by, turn) {
            Ok(()) => {}
            Err(Counts { before, after }) => return TakeIn::DiskFault { before, after },
        }
        let how = self.records.admit(place, entry);
        match self.commit(by, turn) {
            Ok(()) => how,
            Err(Counts { before, after }) => TakeIn::DiskFault { before, after },
        }
    }
}

impl<D: Disk> Records<D> {
    // Begins a turn, which records the entry where it is the next one.
    fn admit(&mut self, place: u64, entry: &Entry) -> TakeIn
        requires rests { Rests D.tells self.old }
        requires fresh { self.old.journal.stale ≡ false }
        ensures gathers { Gathers D.tells self.new }
        ensures over { over_of self.new ≡ self.old.book.entries }
        ensures terms { SameTerms self.old self.new }
        ensures journal { self.new.journal ≡ self.old.journal }
        ensures group { self.new.group.items ≡ option_to_list (entry_taken entry.now result) }
        ensures judged { IsJudged self.old.charter self.old.book.cap self.old.book.entries place entry.now result }
    {
        self.begin();
        let len = u64::from(self.book.len());
        if place < len {
            if stands_at(&self.book, place as u32, entry) {
                return TakeIn::Same;
            }
            return TakeIn::Other;
        }
        if place > len {
            return TakeIn::Ahead;
        }
        if !may_follow(&self.book, &self.charter, entry) {
            return TakeIn::Illegal;
        }
        self.gather(entry);
        TakeIn::Taken
    }
}

// Whether the entry stands at this place.
fn stands_at(book: &Book, place: u32, entry: &Entry) -> bool
    ensures { IsTrue result ↔ (slice_get book.now.entries place ≡ Some entry.now) }
{
    match book.entry(place) {
        Some(held) => held == *entry,
        None => false,
    }
}

// Whether the entry may come next in a journal of this charter, and there is room for it.
fn may_follow(book: &Book, charter: &Charter, entry: &Entry) -> bool
    requires { MayRule charter.now.version charter.now.rate }
    ensures { IsTrue result ↔ MayFollow charter.now book.now.cap book.now.entries entry.now }
{
    book.len() < book.cap() && book.legal(entry, charter.version, charter.rate)
}
