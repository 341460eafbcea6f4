ghost use Rattle.std.specs.Prelude.{ℕ, ◌≡◌, ◌≤◌, ◌<◌, ◌+◌, ◌*◌, true, vec_capacity};
ghost use Rattle.nb_units.specs.declared.limits.TheConstants.{MAX_CAP};
ghost use Rattle.nb_journal.specs.declared.limits.TheConstants.{FRONT, AROUND, AHEAD, MAX_ITEM};

mod appending;
mod resting;
mod settling;
mod state;

/// A journal on a disk.
pub struct Journal<D> {
    disk: D,
    // The place of the gate behind the last item.
    gate: u64,
    // Where an item is in doubt, the place of the gate behind it.
    next: u64,
    // How many items there are, and how many there may be.
    len: u32,
    cap: u32,
    // The most bytes of an item that is appended.
    room: u32,
    // Whether an item is in doubt.
    stale: bool,
    // Where an item is laid out before it is written: room for the longest one and for zeros, of which no more is touched than the longest
    // that was written.
    buf: Vec<u8>,
    // The places fit, however many items there are.
    ghost near: { gate ≤ FRONT + len * (MAX_ITEM + AROUND) },
    ghost counted: { len ≤ cap },
    ghost few: { cap ≤ MAX_CAP },
    ghost small: { room ≤ MAX_ITEM },
    ghost doubt: { stale ≡ true → (len < cap) × (next ≤ FRONT + (len + 1) * (MAX_ITEM + AROUND)) },
    ghost buffer: { room + AROUND + AHEAD ≤ vec_capacity buf },
}

impl<D: Drop> Drop for Journal<D> {
    fn drop(self) {
        let Self {
            disk: _,
            gate: _,
            next: _,
            len: _,
            cap: _,
            room: _,
            stale: _,
            buf: _,
        } = self;
    }
}

/// Why an item was not appended.
#[derive(Clone, Copy)]
pub enum AppendFault {
    /// As many items are held as the journal may hold. Nothing was done.
    Full { cap: u32 },
    /// The item has `len` bytes, and no more than `room` are allowed. Nothing was done.
    TooBig { len: usize, room: u32 },
    /// The disk failed between these two counts of its faults. The item is in doubt.
    DiskFault { before: u64, after: u64 },
}

/// What settling found out.
#[derive(Clone, Copy)]
pub enum Settled {
    /// The item that was in doubt is there, behind the others.
    Kept,
    /// It is not there.
    Dropped,
    /// No item was in doubt. Nothing was done.
    Nothing,
}

/// The disk failed between these two counts of its faults, and the item is still in doubt.
#[derive(Clone, Copy)]
pub struct StillStale {
    pub before: u64,
    pub after: u64,
}
