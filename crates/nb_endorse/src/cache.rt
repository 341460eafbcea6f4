ghost use Rattle.std.specs.Prelude.{◌≡◌, IsTrue, Some};

use crate::receipt::NO_KEY;
use nb_seal::KeyState;
use nb_units::{NoMemory, PartyId, Secret};
use std::alloc::Global;

/// The slots for merchants in [`KeptStates`], and as many for consumers.
pub const PARTY_SLOTS: u32 = 256;

/// The slots in [`KeptStates`] for those who ask for a status.
pub const ASKER_SLOTS: u32 = 64;

// A state that is kept, and the number that it was asked for under, where it was.
#[derive(Drop)]
struct Slot {
    number: Option<u32>,
    state: KeyState,
}

/// States of keys that were asked for before: one on each slot, and a number falls on the slot of its remainder. [`StateCache::state`]
/// gives a state only for its own key: where the slot has that of another, the one that was asked for is made and takes the slot.
/// [`StateCache::kept`] gives whatever is kept for a number.
#[derive(Drop)]
pub struct StateCache {
    // What is kept on each slot. None: nothing is.
    slots: Option<Vec<Slot>>,
    // Where there are no slots, the state that was asked for last.
    last: Option<KeyState>,
}

impl StateCache {
    /// A cache of so many slots. It takes the memory for all of them, and answers [`NoMemory`] where there is none.
    pub fn new(alloc: Global, slots: u32) -> Result<StateCache, NoMemory> {
        let zeros = KeyState::new(&NO_KEY);
        let mut empty = Vec::with_capacity(alloc, slots as usize)?;
        for _ in 0..slots {
            empty.push(Slot {
                number: None,
                state: zeros.copy(),
            })?;
        }
        Ok(StateCache {
            slots: Some(empty),
            last: None,
        })
    }

    // Becomes a cache of so many slots, with nothing kept yet.
    fn take_slots(&mut self, alloc: Global, slots: u32) -> Result<(), NoMemory> {
        *self = StateCache::new(alloc, slots)?;
        Ok(())
    }

    /// A cache that keeps nothing but the last state, and takes no memory.
    pub fn none() -> StateCache {
        StateCache {
            slots: None,
            last: None,
        }
    }

    /// The state of the key. It is kept on the slot of the number, 4 bytes wide, whatever stood there. This takes no memory.
    pub fn state(&mut self, number: u32, key: &Secret) -> &KeyState
        ensures { result.now ≡ key.now }
    {
        match &mut self.slots {
            Some(slots) if slots.len() > 0 => {
                let slot = number as usize % slots.len();
                if !slots[slot].state.is_of(key) {
                    slots[slot] = Slot {
                        number: Some(number),
                        state: KeyState::new(key),
                    };
                }
                &slots[slot].state
            }
            _ => {
                if !is_last(&self.last, key) {
                    self.last = Some(KeyState::new(key));
                }
                self.last.as_ref().unwrap()
            }
        }
    }

    /// The state that is kept for the number, where one is. Whether it is of the right key is to be tested where it is used.
    pub fn kept(&self, number: u32) -> Option<&KeyState> {
        match &self.slots {
            Some(slots) if slots.len() > 0 => {
                let slot = &slots[number as usize % slots.len()];
                if slot.number == Some(number) {
                    Some(&slot.state)
                } else {
                    None
                }
            }
            _ => None,
        }
    }
}

// Whether the last state is that of the key.
fn is_last(last: &Option<KeyState>, key: &Secret) -> bool
    ensures { IsTrue result → last.now ≡ Some key.now }
{
    match last {
        Some(state) => state.is_of(key),
        None => false,
    }
}

/// The states of keys that a house keeps from one request to the next: of its own key, of the operator's, those of merchants and of
/// consumers by their numbers, on [`PARTY_SLOTS`] slots each, and those of who asks for a status by the first bytes of their keys, on [`ASKER_SLOTS`].
pub struct KeptStates {
    house: StateCache,
    operator: StateCache,
    merchants: StateCache,
    consumers: StateCache,
    askers: StateCache,
}

impl Drop for KeptStates {
    fn drop(self) {
        let Self {
            house: _,
            operator: _,
            merchants: _,
            consumers: _,
            askers: _,
        } = self;
    }
}

impl KeptStates {
    /// With nothing kept yet. It takes the memory for all that will be, and answers [`NoMemory`] where there is none.
    pub fn new(alloc: Global) -> Result<KeptStates, NoMemory> {
        let mut kept = KeptStates::none();
        kept.take_slots(alloc)?;
        Ok(kept)
    }

    // Takes the memory for all that will be kept, in place of none.
    fn take_slots(&mut self, alloc: Global) -> Result<(), NoMemory> {
        self.house.take_slots(alloc, 1)?;
        self.operator.take_slots(alloc, 1)?;
        self.merchants.take_slots(alloc, PARTY_SLOTS)?;
        self.consumers.take_slots(alloc, PARTY_SLOTS)?;
        self.askers.take_slots(alloc, ASKER_SLOTS)
    }

    /// Keeps nothing but the last state of each kind, and takes no memory: each state is made when it is asked for.
    pub fn none() -> KeptStates {
        KeptStates {
            house: StateCache::none(),
            operator: StateCache::none(),
            merchants: StateCache::none(),
            consumers: StateCache::none(),
            askers: StateCache::none(),
        }
    }

    /// The state of the house's own key.
    pub fn house(&mut self, key: &Secret) -> &KeyState
        ensures { result.now ≡ key.now }
    {
        self.house.state(0, key)
    }

    /// The state of the operator's key.
    pub fn operator(&mut self, key: &Secret) -> &KeyState
        ensures { result.now ≡ key.now }
    {
        self.operator.state(0, key)
    }

    /// The state of the key of this merchant.
    pub fn merchant(&mut self, id: PartyId, key: &Secret) -> &KeyState
        ensures { result.now ≡ key.now }
    {
        self.merchants.state(id.0, key)
    }

    /// The state of the key of this consumer.
    pub fn consumer(&mut self, id: PartyId, key: &Secret) -> &KeyState
        ensures { result.now ≡ key.now }
    {
        self.consumers.state(id.0, key)
    }

    /// The state of the key of a party, in either role, that asks for a status.
    pub fn asker(&mut self, key: &Secret) -> &KeyState
        ensures { result.now ≡ key.now }
    {
        let number = u32::from_be_bytes([key[0], key[1], key[2], key[3]]);
        self.askers.state(number, key)
    }

    /// The state that is kept for this merchant, where one is. Whether it is of the right key is to be tested where it is used.
    pub fn kept_merchant(&self, id: PartyId) -> Option<&KeyState> {
        self.merchants.kept(id.0)
    }

    /// The state that is kept for this consumer, where one is. Whether it is of the right key is to be tested where it is used.
    pub fn kept_consumer(&self, id: PartyId) -> Option<&KeyState> {
        self.consumers.kept(id.0)
    }
}
