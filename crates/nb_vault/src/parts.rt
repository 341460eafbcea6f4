// The fields of a vault, and its turn.

ghost use Rattle.std.specs.Prelude.{◌≡◌, ◌⊎◌, ◌≤◌, ◌<◌, ◌+◌, ◌++◌, ◌∷◌, [], false, length, slice_index_or, vec_capacity, vec_len};
ghost use Rattle.std.specs.List.{All};
ghost use Rattle.nb_journal.specs.Time.{LeavesOnly, Unwritten};
ghost use Rattle.nb_msgs.specs.ReplyBytes.{joined};
ghost use Rattle.nb_turns.specs.declared.limits.TheConstants.{MAX_FAULTS, MAX_REQUESTS};
ghost use Rattle.nb_turns.specs.declared.line.Line.TheVariants as line;
ghost use Rattle.nb_vault.specs.Asking.{IsWithin, requests_of};
ghost use Rattle.nb_vault.specs.Parts.{IsVault, HasLines, SameOrigin, ReadyGives, CommitGives, handed_in, seen_as};
ghost use Rattle.nb_vault.specs.Records.{Rests, Gathers, RecordWrites, disk_under, over_of, EitherOf, WithOrWithout};
ghost use Rattle.nb_vault.specs.Vaults.{TurnOf, DurableWhere, SameWhere, FaultWithin, StandsForState, state_of};

use crate::answer::{AnswerAll, AskAt};
use crate::records::{Counts, Records};
use crate::telling::{Fate, next_turn, push_lines};
use nb_endorse::KeptStates;
use nb_escrow::{Head, OpenedOrder};
use nb_journal::Settled;
use nb_msgs::Draft;
use nb_port::Disk;
use nb_turns::{Line, MAX_FAULTS, MAX_REQUESTS};

// The most lines of a turn that fails: one for each entry in doubt, and the fault.
pub(crate) const LINES_OF_FAULT: usize = MAX_REQUESTS + 1;

// The most lines of turns that fail, beside those of the entries that are recorded.
pub(crate) const MOST_LINES: usize = LINES_OF_FAULT * MAX_FAULTS as usize;

#[derive(Drop)]
pub(crate) struct Parts<D> {
    pub(crate) records: Records<D>,
    // The keys of the house.
    pub(crate) head: Head,
    // How many entries stood on the disk at opening, and the disk's count of faults then.
    pub(crate) opening: u32,
    pub(crate) count: u64,
    pub(crate) lines: Vec<Line>,
    // How many turns failed.
    pub(crate) faults: u32,
}

impl<D: Disk> Parts<D> {
    // Answers the requests of a turn, whose bodies stand in the bytes. Of their replies there are the drafts alone.
    pub(crate) fn answer_all(
        &mut self,
        by: u64,
        bytes: &[u8],
        asks: &[AskAt],
        opened: &[Option<OpenedOrder>],
        kept: &mut KeptStates,
        drafts: &mut Vec<Draft>,
    ) -> AnswerAll
        requires vault { IsVault D.tells self.old }
        requires few { length asks.now ≤ MAX_REQUESTS }
        requires within { All (IsWithin bytes.now) asks.now }
        requires none { drafts.old.items ≡ [] }
        requires room { length asks.now ≤ vec_capacity drafts.old }
        ensures vault { IsVault D.tells self.new }
        ensures turn { TurnOf D.tells (seen_as self.old) (seen_as self.new) by (requests_of bytes.now asks.now) (handed_in self.new.records.places.items result) [] (joined drafts.new.items) result }
        ensures origin { (seen_as self.new).origin ≡ (seen_as self.old).origin }
        ensures any_moment { LeavesOnly D.tells (disk_under self.old.records) (disk_under self.new.records)
            (λ image. StandsForState (seen_as self.old) image ⊎ StandsForState (seen_as self.new) image) }
        ensures durable { DurableWhere D.tells (seen_as self.new) result }
        ensures quiet { state_of (seen_as self.new) ≡ state_of (seen_as self.old) → D.tells.content (disk_under self.new.records) ≡ D.tells.content (disk_under self.old.records) }
        ensures same { SameWhere (seen_as self.old) (seen_as self.new) result }
        ensures fault { FaultWithin D.tells (seen_as self.old) (seen_as self.new) result }
        ensures count { D.tells.faults (disk_under self.old.records) ≤ D.tells.faults (disk_under self.new.records) }
        ensures few { length drafts.new.items ≤ length asks.now }
        ensures room { vec_capacity drafts.new ≡ vec_capacity drafts.old }
    {
        if self.faults >= MAX_FAULTS {
            return AnswerAll::Worn { faults: MAX_FAULTS };
        }
        let turn = next_turn(&self.lines);
        match self.ready(by, turn) {
            Ok(()) => {}
            Err(Counts { before, after }) => return AnswerAll::DiskFault { before, after },
        }
        self.records
            .decide_each(&self.head, bytes, asks, opened, kept, drafts);
        match self.commit(by, turn) {
            Ok(()) => AnswerAll::Answered,
            Err(Counts { before, after }) => {
                drafts.clear();
                AnswerAll::DiskFault { before, after }
            }
        }
    }

    // Settles what is in doubt.
    pub(crate) fn ready(&mut self, by: u64, turn: u64) -> Result<(), Counts>
        requires vault { IsVault D.tells self.old }
        requires few { self.old.faults < MAX_FAULTS }
        ensures rests { Rests D.tells self.new.records }
        ensures gives { ReadyGives D.tells self.old self.new by turn result }
        ensures has { HasLines self.new self.new.records.book.entries }
        ensures origin { SameOrigin self.old self.new }
        ensures nothing { Unwritten D.tells (disk_under self.old.records) (disk_under self.new.records) }
        ensures any_moment { LeavesOnly D.tells (disk_under self.old.records) (disk_under self.new.records) (EitherOf self.old.records) }
        ensures idle { self.old.records.journal.stale ≡ false → D.tells.faults (disk_under self.new.records) ≡ D.tells.faults (disk_under self.old.records) }
        ensures count { D.tells.faults (disk_under self.old.records) ≤ D.tells.faults (disk_under self.new.records) }
    {
        match self.records.settle() {
            Ok(Settled::Kept) => {
                let kept = self.records.group.as_slice();
                push_lines(&mut self.lines, Fate::Kept, by, turn, kept);
                Ok(())
            }
            Ok(Settled::Dropped) => Ok(()),
            Ok(Settled::Nothing) => Ok(()),
            Err(counts) => {
                self.fail(by, turn, counts);
                Err(counts)
            }
        }
    }

    // Makes what the turn records durable, as one item.
    pub(crate) fn commit(&mut self, by: u64, turn: u64) -> Result<(), Counts>
        requires gathers { Gathers D.tells self.old.records }
        requires few { self.old.faults < MAX_FAULTS }
        requires has { HasLines self.old (over_of self.old.records) }
        ensures rests { Rests D.tells self.new.records }
        ensures gives { CommitGives D.tells self.old self.new by turn result }
        ensures writes { RecordWrites self.old.records (D.tells.content (disk_under self.old.records)) (D.tells.content (disk_under self.new.records)) result }
        ensures idle { self.old.records.group.items ≡ [] → disk_under self.new.records ≡ disk_under self.old.records }
        ensures has { HasLines self.new self.new.records.book.entries }
        ensures places { self.new.records.places ≡ self.old.records.places }
        ensures origin { SameOrigin self.old self.new }
        ensures any_moment { LeavesOnly D.tells (disk_under self.old.records) (disk_under self.new.records) (WithOrWithout self.old.records (over_of self.old.records) self.old.records.group.items) }
        ensures count { D.tells.faults (disk_under self.old.records) ≤ D.tells.faults (disk_under self.new.records) }
    {
        match self.records.record() {
            Ok(()) => {
                let recorded = self.records.group.as_slice();
                push_lines(&mut self.lines, Fate::Recorded, by, turn, recorded);
                Ok(())
            }
            Err(counts) => {
                let doubted = self.records.group.as_slice();
                push_lines(&mut self.lines, Fate::InDoubt, by, turn, doubted);
                self.fail(by, turn, counts);
                Err(counts)
            }
        }
    }
}

impl<D> Parts<D> {
    // The place of the first request of the last turn, or 0 where none was decided.
    pub(crate) fn first_place(&self) -> u64
        ensures { result ≡ slice_index_or self.now.records.places.items 0 0 }
    {
        self.records.places.first().copied().unwrap_or(0)
    }

    // The disk and the lines, at the end.
    pub(crate) fn into_parts(self) -> (D, Vec<Line>)
        ensures disk { result.0 ≡ disk_under self.records }
        ensures lines { result.1 ≡ self.lines }
    {
        let Parts {
            records,
            head: _,
            opening: _,
            count: _,
            lines,
            faults: _,
        } = self;
        let Records {
            book: _,
            journal,
            charter: _,
            group: _,
            item: _,
            places: _,
            base: _,
        } = records;
        (journal.into_disk(), lines)
    }

    // One more turn that failed.
    fn fail(&mut self, by: u64, turn: u64, counts: Counts)
        requires lines { vec_len self.old.lines + 1 ≤ vec_capacity self.old.lines }
        requires few { self.old.faults < MAX_FAULTS }
        ensures lines { self.new.lines.items ≡ self.old.lines.items ++ line.Fault by turn counts.before counts.after ∷ [] }
        ensures room { vec_capacity self.new.lines ≡ vec_capacity self.old.lines }
        ensures faults { self.new.faults ≡ self.old.faults + 1 }
        ensures rest { (self.new.records ≡ self.old.records) × (self.new.opening ≡ self.old.opening) × (self.new.count ≡ self.old.count) × (self.new.head ≡ self.old.head) }
    {
        self.lines.push_reserved(Line::Fault {
            by,
            turn,
            before: counts.before,
            after: counts.after,
        });
        self.faults += 1;
    }
}
