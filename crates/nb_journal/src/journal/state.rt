// What a journal says of itself.

ghost use Rattle.std.specs.Prelude.{◌≡◌};

use crate::journal::Journal;

impl<D> Journal<D> {
    /// Whether an item is in doubt.
    pub fn is_stale(&self) -> bool
        ensures { result ≡ self.now.stale }
    {
        self.stale
    }

    /// How many items there are, without one that is in doubt.
    pub fn len(&self) -> u32
        ensures { result ≡ self.now.len }
    {
        self.len
    }

    /// The place of the gate behind the last item, not that of one in doubt.
    pub fn gate(&self) -> u64
        ensures { result ≡ self.now.gate }
    {
        self.gate
    }

    /// The disk, at the end.
    pub fn into_disk(self) -> D
        ensures { result ≡ self.disk }
    {
        let Journal {
            disk,
            gate: _,
            next: _,
            len: _,
            cap: _,
            room: _,
            stale: _,
            buf: _,
        } = self;
        disk
    }
}
