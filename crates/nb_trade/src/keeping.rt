ghost use Rattle.std.specs.Prelude.{◌≡◌, ◌≤◌, ◌∷◌, [], length};
ghost use Rattle.nb_journal.specs.Growing.{IsAtRest};
ghost use Rattle.nb_journal.specs.declared.limits.TheConstants.{MAX_ITEM};
ghost use Rattle.nb_trade.specs.Keeping.{AreShort, Keeps, items_of};

use crate::lost::Lost;
use nb_journal::{AppendFault, Journal};
use nb_port::Disk;
use nb_units::Blob;

/// Appends an item of at most [`MAX_ITEM`](nb_journal::MAX_ITEM) bytes to a journal, where there is one. The journal has no item in doubt, and was opened
/// with room for the longest item. It takes no memory: [`Lost::NoMemory`] never comes.
pub fn keep_some<D: Disk>(journal: &mut Journal<D>, item: &Option<Blob>) -> Result<(), Lost>
    requires rest { IsAtRest D.tells journal.old }
    requires room { journal.old.room ≡ MAX_ITEM }
    requires short { AreShort (items_of item.now) }
    ensures { Keeps D.tells journal.old journal.new (items_of item.now) result }
{
    match item {
        Some(item) => keep(journal, item.as_slice()),
        None => Ok(()),
    }
}

/// Appends an item to a journal, as [`keep_some`] does.
pub fn keep<D: Disk>(journal: &mut Journal<D>, item: &[u8]) -> Result<(), Lost>
    requires rest { IsAtRest D.tells journal.old }
    requires room { journal.old.room ≡ MAX_ITEM }
    requires short { length item.now ≤ MAX_ITEM }
    ensures { Keeps D.tells journal.old journal.new (item.now ∷ []) result }
{
    match journal.append(item) {
        Ok(()) => Ok(()),
        Err(AppendFault::Full { cap }) => Err(Lost::Full { cap }),
        Err(AppendFault::DiskFault { before, after }) => Err(Lost::DiskFault { before, after }),
        Err(AppendFault::TooBig { .. }) => unreachable!(),
    }
}
