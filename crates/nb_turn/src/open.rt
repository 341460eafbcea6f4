ghost use Rattle.std.specs.Prelude.{◌≡◌, [], ◌∷◌, IfOk, IfErr, Some};
ghost use Rattle.nb_turn.specs.Views.{fresh_view};
ghost use Rattle.nb_turn.specs.Passes.{sees, Belongs};

use crate::chronicle::Chronicle;
use crate::fault::NoMemory;
use crate::types::{Pass, Turn};
use crate::words::FREE;
use atomic_table::{Refused, Table};
use std::alloc::Global;
use std::snapshot::Snapshot;
use std::sync::atomic::AtomicU64;

// The one value in the slots that came back.
fn first_of<T: Drop>(mut slots: Vec<Option<T>>) -> T
    requires one { (value : T) × (slots.items ≡ Some value ∷ []) }
    ensures { slots.items ≡ Some result ∷ [] }
{
    let Some(Some(value)) = slots.pop() else {
        unreachable!()
    };
    value
}

impl<T: Chronicle + Drop> Turn<T> {
    /// Makes a turn over a value without lines, and its first pass, of number 0, which has seen nothing. Where there is no memory
    /// the value comes back.
    pub fn open(alloc: Global, value: T) -> Result<(Turn<T>, Pass<T>), (NoMemory, T)>
        requires { T.history value ≡ [] }
        // After Ok a pass of this turn, of number 0 and the value's origin, which has seen nothing, made no line and found nothing.
        ensures ok { IfOk result (λ r. Belongs r.1 r.0 × (r.1.number ≡ 0) × (sees r.1 ≡ fresh_view (T.origin value))) }
        ensures err { IfErr result (λ e. e.1 ≡ value) }
    {
        let about = Snapshot::of(&value);
        let Ok(mut slots) = Vec::with_capacity(alloc, 1) else {
            return Err((NoMemory, value));
        };
        slots.push_reserved(Some(value));
        match Table::new(alloc, &[FREE, 0, 1], slots, &about) {
            Ok((table, seat)) => Ok((
                Turn {
                    table,
                    sleepers: AtomicU64::new(0),
                },
                Pass {
                    seat,
                    number: 0,
                    seen: 0,
                },
            )),
            Err(Refused { slots }) => Err((NoMemory, first_of(slots))),
        }
    }
}
