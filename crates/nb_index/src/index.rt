ghost use Rattle.std.specs.Prelude.{◌≡◌, ◌≤◌, ◌<◌, ◌*◌, ◌-◌, [], ◌∷◌, ◌++◌, length, take, IsNone, IfOk};
ghost use Rattle.nb_index.specs.declared.limits.TheConstants.{MAX_SLOTS};
ghost use Rattle.nb_index.specs.Puts.{value_in, AreNew, IsLast, IsShaped};

use crate::hashed::{HashedKey, KeySlot, SlotHasher};
use crate::limits::MAX_SLOTS;
use crate::memory::NoMemory;
use crate::put::Put;
use std::alloc::Global;
use std::marker::Model;

/// Numbers under keys, each key put once, in memory that [`FixedIndex::new`] takes.
pub struct FixedIndex {
    // By which keys fall on slots.
    key: [u8; 16],
    // For each slot the number of the last put that fell on it. Puts are counted from 1, and 0 stands for none.
    lasts: Vec<u32>,
    // The puts in order.
    puts: Vec<Put>,
    // For each put the number of the one before it at its slot.
    before: Vec<u32>,
    // The key that was remembered last, with its slot; at first 16 zero bytes. No answer depends on it.
    remembered: KeySlot,
}

impl Drop for FixedIndex {
    fn drop(self) {
        let Self {
            key: _,
            lasts: _,
            puts: _,
            before: _,
            remembered: _,
        } = self;
    }
}

impl Model for FixedIndex {
    ghost use Rattle.std.specs.Prelude.{◌≤◌, ◌+◌, ◌*◌, [], ◌∷◌, vec_len, vec_capacity};
    ghost use Rattle.nb_index.specs.declared.limits.TheConstants.{MAX_SLOTS};
    ghost use Rattle.nb_index.specs.Puts.{Indexed, AreNew};
    ghost use Rattle.nb_index.specs.Slots.{Chains, FallsOn, slots_of};

    ghost Value = { Indexed };

    ghost view = { λ x. record { puts = x.puts.items; shape = record { slots = vec_len x.lasts; key = x.key; places = vec_capacity x.lasts ∷ vec_capacity x.puts ∷ vec_capacity x.before ∷ [] } } };

    ghost invariant = { λ x. record {
      some : 2 ≤ vec_len x.lasts;
      most : vec_len x.lasts ≤ MAX_SLOTS;
      half : 2 * vec_len x.puts ≤ vec_len x.lasts + 1;
      room : vec_len x.lasts + 1 ≤ 2 * vec_capacity x.puts;
      room_before : vec_len x.lasts + 1 ≤ 2 * vec_capacity x.before;
      new : AreNew x.puts.items;
      chains : Chains x.lasts.items x.before.items (slots_of x.key (vec_len x.lasts) x.puts.items);
      remembered : FallsOn x.key (vec_len x.lasts) x.remembered;
    } };
}

impl FixedIndex {
    /// An index with no puts and so many slots, from 2 to [`MAX_SLOTS`], and memory for all puts that it may have. Its key, 16 bytes,
    /// decides on which slot a key falls. That who does not know it cannot choose keys that all fall on one is no claim of the proofs.
    /// Answers [`NoMemory`] where there is none for it.
    pub fn new(alloc: Global, slots: u32, key: &[u8; 16]) -> Result<FixedIndex, NoMemory>
        requires some { 2 ≤ slots }
        requires most { slots ≤ MAX_SLOTS }
        // after Ok: no puts
        ensures puts { IfOk result (λ index. index.puts ≡ []) }
        // after Ok: so many slots, this key, and memory for as many puts as such an index may have
        ensures shape { IfOk result (λ index. IsShaped slots key.now index.shape) }
    {
        let most = slots as usize / 2 + 1;
        Ok(FixedIndex {
            key: *key,
            lasts: vec![in alloc; 0; slots as usize]?,
            puts: Vec::with_capacity(alloc, most)?,
            before: Vec::with_capacity(alloc, most)?,
            remembered: KeySlot::of(key, slots, &[0; 16]),
        })
    }

    /// What hashes keys for this index.
    pub fn hasher(&self) -> SlotHasher
        // It has the index's own key.
        ensures { result ≡ self.now.shape.key }
    {
        SlotHasher::of(&self.key, self.lasts.len() as u32)
    }

    /// Keeps the slot of a key that [`FixedIndex::hasher`] hashed, in place of the one before: calls with that key then hash it no more. A key that was
    /// hashed for another index is passed over. This takes no memory.
    pub fn remember(&mut self, key: &HashedKey)
        // Puts and shape are as before: no answer depends on what is kept.
        ensures { self.new ≡ self.old }
    {
        if let Some(at) = key.place_in(&self.key, self.lasts.len() as u32) {
            self.remembered = at;
        }
    }

    /// The number that was put under this key, if one was.
    pub fn find(&self, key: &[u8; 16]) -> Option<u32>
        // the number that was put under this key; None exactly where none was
        ensures found { result ≡ value_in self.now.puts key.now }
        // each key was absent when it was put
        ensures new { AreNew self.now.puts }
    {
        let slot = self
            .remembered
            .slot_for(&self.key, self.lasts.len() as u32, key);
        let mut number = self.lasts[slot as usize];
        while number != 0 {
            let at = number as usize - 1;
            let put = self.puts[at];
            if put.key == *key {
                return Some(put.value);
            }
            number = self.before[at];
        }
        None
    }

    /// Puts a number under a key that has none, where there are fewer puts than half the slots. This takes no memory.
    pub fn put(&mut self, key: &[u8; 16], value: u32)
        // the key was not put, and there are fewer puts than half the number of slots
        requires absent { IsNone (value_in self.old.puts key.now) }
        requires room { 2 * length self.old.puts < self.old.shape.slots }
        // the number under the key is appended to the puts
        ensures puts { self.new.puts ≡ self.old.puts ++ record { key = key.now; value = value } ∷ [] }
        // the shape is as before: none of the three lists took memory
        ensures shape { self.new.shape ≡ self.old.shape }
    {
        let slot = self
            .remembered
            .slot_for(&self.key, self.lasts.len() as u32, key) as usize;
        self.before.push_reserved(self.lasts[slot]);
        self.puts.push_reserved(Put { key: *key, value });
        self.lasts[slot] = self.puts.len() as u32;
    }

    /// Takes the last put off: the index is as it was before it. The key is that put's. This takes no memory.
    pub fn take_off(&mut self, key: &[u8; 16])
        // there is a put, and the last one is of this key
        requires some { 0 < length self.old.puts }
        requires last { IsLast self.old.puts key.now }
        // the puts are those before it, and the shape is as before
        ensures puts { self.new.puts ≡ take (length self.old.puts - 1) self.old.puts }
        ensures shape { self.new.shape ≡ self.old.shape }
    {
        let slot = self
            .remembered
            .slot_for(&self.key, self.lasts.len() as u32, key) as usize;
        let before = self.before.pop();
        let _ = self.puts.pop();
        if let Some(number) = before {
            self.lasts[slot] = number;
        }
    }

    /// The number of puts. As many slots are used, or fewer where puts share one.
    pub fn used(&self) -> u32
        ensures { result ≡ length self.now.puts }
    {
        self.puts.len() as u32
    }
}
