ghost use Rattle.std.specs.Prelude.{ℕ, ◌≡◌, ◌≤◌, List};
ghost use Rattle.nb_journal.specs.Stands.{BeforeOrAfter};
ghost use Rattle.nb_journal.specs.States.{InDoubt, SettleGives, DoubtBeforeSettle, DoubtAfterSettle, SameLimits};
ghost use Rattle.nb_journal.specs.Time.{LeavesOnly, Unwritten};

use crate::journal::{Journal, Settled, StillStale};
use crate::limits::OPEN;
use crate::reading::{ByteRead, synced_byte};
use nb_port::Disk;

impl<D: Disk> Journal<D> {
    /// Finds out whether the item that is in doubt is there, so that nothing is in doubt: all that was written is made to
    /// stay, and then its gate is read.
    pub fn settle(&mut self) -> Result<Settled, StillStale>
        ensures gives { SettleGives D.tells self.old self.new result }
        ensures asked { DoubtBeforeSettle self.old result }
        ensures doubt { DoubtAfterSettle self.new result }
        ensures nothing { Unwritten D.tells self.old.disk self.new.disk }
        ensures limits { SameLimits self.old self.new }
        ensures count { D.tells.faults self.old.disk ≤ D.tells.faults self.new.disk }
        // Of a journal with an item in doubt: a stop at any moment of the call leaves the items without it, or with it.
        ensures any_moment { (front : List ℕ) (items : List (List ℕ)) (item : List ℕ) → InDoubt D.tells front items item self.old
            → LeavesOnly D.tells self.old.disk self.new.disk (BeforeOrAfter front items item) }
    {
        if !self.stale {
            return Ok(Settled::Nothing);
        }
        let before = self.disk.fault_count();
        match synced_byte(&mut self.disk, self.gate) {
            ByteRead::Failed => {
                let after = self.disk.fault_count();
                return Err(StillStale { before, after });
            }
            ByteRead::Got(byte) => {
                if byte != OPEN {
                    self.stale = false;
                    return Ok(Settled::Dropped);
                }
            }
        }
        self.stale = false;
        self.gate = self.next;
        self.len += 1;
        Ok(Settled::Kept)
    }
}
