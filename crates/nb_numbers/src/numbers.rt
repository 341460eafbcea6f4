ghost use Rattle.std.specs.Prelude.{◌≡◌, ◌<◌, [], ◌∷◌, ◌++◌, length, position, nat_eq, IfSome, IfOk, OnOk, OnErr, None};
ghost use Rattle.nb_numbers.specs.Places.{AreFound};

use nb_units::NoMemory;
use std::alloc::Global;
use std::collections::BTreeMap;
use std::marker::Model;

/// Numbers in the order in which they were added. They are seen as the list of them.
pub struct Numbers {
    in_order: Vec<u64>,
    // The place of each.
    places: BTreeMap<u64, usize>,
}

impl Drop for Numbers {
    fn drop(self) {
        let Self {
            in_order: _,
            places: _,
        } = self;
    }
}

impl Model for Numbers {
    ghost use Rattle.std.specs.Prelude.{ℕ, List};
    ghost use Rattle.nb_numbers.specs.Places.{AreFound};

    ghost Value = { List ℕ };

    ghost view = { λ n. n.in_order.items };

    ghost invariant = { λ n. AreFound n.places.entries n.in_order.items };
}

// A number that is not there goes behind the others. After want of memory all is as before.
fn put(
    in_order: &mut Vec<u64>,
    places: &mut BTreeMap<u64, usize>,
    number: u64,
) -> Result<(), NoMemory>
    requires found { AreFound places.old.entries in_order.old.items }
    requires new { position (nat_eq number) in_order.old.items ≡ None }
    ensures found { AreFound places.new.entries in_order.new.items }
    ensures added { OnOk result (in_order.new.items ≡ in_order.old.items ++ number ∷ []) }
    ensures err { OnErr result (in_order.new.items ≡ in_order.old.items) }
{
    in_order.reserve(1)?;
    let place = in_order.len();
    let _was = places.insert(number, place)?;
    in_order.push_reserved(number);
    Ok(())
}

impl Numbers {
    /// No number.
    #[tactic(auto, using(crate::proofs::Finding::none_found))]
    pub fn new(alloc: Global) -> Numbers
        ensures { result ≡ [] }
    {
        Numbers {
            in_order: Vec::new(alloc),
            places: BTreeMap::new(alloc),
        }
    }

    /// All in order.
    pub fn as_slice(&self) -> &[u64]
        ensures { result.now ≡ self.now }
    {
        self.in_order.as_slice()
    }

    /// The first place of a number, counted from 0, or `None` where it is not there.
    pub fn place_of(&self, number: u64) -> Option<usize>
        ensures index { result ≡ position (nat_eq number) self.now }
        ensures within { IfSome result (λ i. i < length self.now) }
    {
        self.places.get(&number).copied()
    }

    /// A number that is not there goes behind the others. Answers [`NoMemory`] where there is none for it, and nothing changed then.
    pub fn add(&mut self, number: u64) -> Result<(), NoMemory>
        requires new { position (nat_eq number) self.old ≡ None }
        ensures added { OnOk result (self.new ≡ self.old ++ number ∷ []) }
        ensures err { OnErr result (self.new ≡ self.old) }
    {
        put(&mut self.in_order, &mut self.places, number)
    }

    /// The same numbers, or [`NoMemory`] where there is none for them.
    pub fn copy(&self) -> Result<Numbers, NoMemory>
        ensures { IfOk result (λ n. n ≡ self.now) }
    {
        let in_order = self.in_order.clone()?;
        let places = self.places.clone()?;
        Ok(Numbers { in_order, places })
    }
}
