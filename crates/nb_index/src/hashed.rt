ghost use Rattle.std.specs.Prelude.{◌≡◌, ◌<◌, IfSome};
ghost use Rattle.nb_index.specs.Slots.{FallsOn};
ghost use Rattle.nb_index.specs.Slots as slots_spec;

use crate::slot::slot_of;
use std::marker::Model;

// A key and the slot on which it falls.
#[derive(Clone, Copy)]
pub(crate) struct KeySlot {
    pub(crate) key: [u8; 16],
    pub(crate) slot: u32,
}

impl KeySlot {
    // Of a key, in an index with this key of its own and so many slots.
    pub(crate) fn of(index_key: &[u8; 16], slots: u32, key: &[u8; 16]) -> KeySlot
        requires { 0 < slots }
        ensures falls { FallsOn index_key.now slots result }
        ensures key { result.key ≡ key.now }
    {
        KeySlot {
            key: *key,
            slot: slot_of(index_key, slots, key),
        }
    }

    // The slot of any key: it is hashed only where it is another than the one that stands here.
    pub(crate) fn slot_for(&self, index_key: &[u8; 16], slots: u32, key: &[u8; 16]) -> u32
        requires some { 0 < slots }
        requires falls { FallsOn index_key.now slots self.now }
        ensures slot { result ≡ slots_spec.slot_of index_key.now slots key.now }
        ensures within { result < slots }
    {
        if self.key == *key {
            return self.slot;
        }
        slot_of(index_key, slots, key)
    }
}

/// What finds on which slots of an index keys fall, without the index: [`FixedIndex::hasher`](crate::FixedIndex::hasher) makes it. It holds
/// the index's own key, and is kept as secret as that.
pub struct SlotHasher {
    index_key: [u8; 16],
    slots: u32,
}

impl Drop for SlotHasher {
    fn drop(self) {
        let Self {
            index_key: _,
            slots: _,
        } = self;
    }
}

impl Model for SlotHasher {
    ghost use Rattle.std.specs.Prelude.{◌<◌, ℕ, List};

    ghost Value = { List ℕ };

    ghost view = { λ h. h.index_key };

    ghost invariant = { λ h. 0 < h.slots };
}

impl SlotHasher {
    pub(crate) fn of(index_key: &[u8; 16], slots: u32) -> SlotHasher
        requires { 0 < slots }
        ensures { result ≡ index_key.now }
    {
        SlotHasher {
            index_key: *index_key,
            slots,
        }
    }

    /// Hashes a key.
    pub fn hash(&self, key: &[u8; 16]) -> HashedKey
        // It is seen as the key.
        ensures { result ≡ key.now }
    {
        HashedKey {
            index_key: self.index_key,
            slots: self.slots,
            at: KeySlot::of(&self.index_key, self.slots, key),
        }
    }
}

/// A key of 16 bytes that was hashed for an index: with its slot there, and what tells for which index. It holds the index's own key, as a
/// [`SlotHasher`] does.
pub struct HashedKey {
    index_key: [u8; 16],
    slots: u32,
    at: KeySlot,
}

impl Drop for HashedKey {
    fn drop(self) {
        let Self {
            index_key: _,
            slots: _,
            at: _,
        } = self;
    }
}

impl Model for HashedKey {
    ghost use Rattle.std.specs.Prelude.{ℕ, List};
    ghost use Rattle.nb_index.specs.Slots.{FallsOn};

    ghost Value = { List ℕ };

    ghost view = { λ h. h.at.key };

    ghost invariant = { λ h. FallsOn h.index_key h.slots h.at };
}

impl HashedKey {
    // The key with its slot, where it was hashed for an index with this key of its own and so many slots.
    pub(crate) fn place_in(&self, index_key: &[u8; 16], slots: u32) -> Option<KeySlot>
        ensures falls { IfSome result (FallsOn index_key.now slots) }
        ensures key { IfSome result (λ at. at.key ≡ self.now) }
    {
        if self.index_key == *index_key && self.slots == slots {
            Some(self.at)
        } else {
            None
        }
    }
}
