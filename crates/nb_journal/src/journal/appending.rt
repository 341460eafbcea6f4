ghost use Rattle.std.specs.Prelude.{ℕ, ◌≡◌, ◌≤◌, List, false};
ghost use Rattle.nb_journal.specs.Stands.{BeforeOrAfter};
ghost use Rattle.nb_journal.specs.States.{AtRest, HasGate, AppendGives, AppendWrites, AppendFits, DoubtAfterAppend, SameLimits};
ghost use Rattle.nb_journal.specs.Time.{LeavesOnly};

use crate::journal::{AppendFault, Journal};
use crate::limits::{AROUND, OPEN};
use crate::putting::{put_body, put_synced, zeros_behind};
use nb_port::{Disk, DiskOut};

impl<D: Disk> Journal<D> {
    /// Appends the item: its bytes are written and synced behind the closed gate, then the gate is opened and synced. No
    /// item is in doubt, and the gate's place is within the content, as it is of every journal at rest. Behind an item of at most
    /// 32,768 bytes whose next gate reaches a multiple of 131,072 as many zeros are written, so that the appends behind it, up to the next multiple, do not
    /// make the file longer.
    pub fn append(&mut self, item: &[u8]) -> Result<(), AppendFault>
        requires fresh { self.old.stale ≡ false }
        requires gate { HasGate D.tells self.old }
        // After Ok a journal that was at rest is at rest with the item behind the others. `Full`, `TooBig`: nothing was done. `DiskFault`: the count
        // rose between these two, and a journal that was at rest has this item in doubt.
        ensures gives { AppendGives D.tells self.old self.new item.now result }
        ensures bytes { AppendWrites (D.tells.content self.old.disk) (D.tells.content self.new.disk) self.old.gate item.now result }
        ensures fits { AppendFits self.old item.now result }
        ensures doubt { DoubtAfterAppend self.new result }
        ensures limits { SameLimits self.old self.new }
        ensures count { D.tells.faults self.old.disk ≤ D.tells.faults self.new.disk }
        // Of a journal that was at rest: a stop at any moment of the call leaves the items before it, or those with the item (`LeavesOnly` with
        // `BeforeOrAfter`).
        ensures any_moment { (front : List ℕ) (items : List (List ℕ)) → AtRest D.tells front items self.old
            → LeavesOnly D.tells self.old.disk self.new.disk (BeforeOrAfter front items item.now) }
    {
        if self.len >= self.cap {
            return Err(AppendFault::Full { cap: self.cap });
        }
        if item.len() > self.room as usize {
            return Err(AppendFault::TooBig {
                len: item.len(),
                room: self.room,
            });
        }
        let before = self.disk.fault_count();
        self.next = self.gate + (item.len() as u64 + AROUND);
        self.stale = true;
        let zeros = zeros_behind(self.gate, item);
        match put_body(&mut self.disk, self.gate + 1, &mut self.buf, item, zeros) {
            DiskOut::Failed => {
                let after = self.disk.fault_count();
                return Err(AppendFault::DiskFault { before, after });
            }
            DiskOut::Done => {}
        }
        match put_synced(&mut self.disk, self.gate, &[OPEN]) {
            DiskOut::Failed => {
                let after = self.disk.fault_count();
                return Err(AppendFault::DiskFault { before, after });
            }
            DiskOut::Done => {}
        }
        self.stale = false;
        self.gate = self.next;
        self.len += 1;
        Ok(())
    }
}
