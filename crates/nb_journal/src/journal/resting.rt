ghost use Rattle.std.specs.Prelude.{◌≤◌, ◌+◌, ◌*◌, IfOk, IfErr, ◌≡◌};
ghost use Rattle.nb_units.specs.declared.limits.TheConstants.{MAX_CAP};
ghost use Rattle.nb_journal.specs.declared.limits.TheConstants.{FRONT, AROUND, MAX_ITEM};
ghost use Rattle.nb_journal.specs.States.{IsOver};

use crate::journal::Journal;
use crate::limits::{AHEAD, LEAD};
use std::alloc::Global;

impl<D> Journal<D> {
    // A journal over a disk on which so many items were found, and the gate behind them at the place. Gives the disk back
    // where there is no memory for a buffer.
    pub(crate) fn over(
        alloc: Global,
        disk: D,
        place: u64,
        len: usize,
        cap: u32,
        room: u32,
    ) -> Result<Journal<D>, D>
        requires near { place ≤ FRONT + len * (MAX_ITEM + AROUND) }
        requires counted { len ≤ cap }
        requires few { cap ≤ MAX_CAP }
        requires small { room ≤ MAX_ITEM }
        ensures ok { IfOk result (IsOver disk place len cap room) }
        ensures err { IfErr result (λ given. given ≡ disk) }
    {
        match Vec::with_capacity(alloc, room as usize + LEAD + AHEAD) {
            Ok(buf) => Ok(Journal {
                disk,
                gate: place,
                next: place,
                len: len as u32,
                cap,
                room,
                stale: false,
                buf,
            }),
            Err(_) => Err(disk),
        }
    }
}
