ghost use Rattle.std.specs.Prelude.{◌≡◌};
ghost use Rattle.nb_turn.specs.Seats.{IsPass, IsHeld};

use crate::chronicle::{Chronicle, View};
use crate::plays::Law;
use atomic_table::{Seat, Table};
use std::alloc::Global;
use std::snapshot::Snapshot;
use std::sync::atomic::AtomicU64;

/// A value that passes take in turn. No lock is in it, and only [`Turn::take`] and [`Turn::close`] may wait.
#[derive(Drop)]
pub struct Turn<T: Chronicle> {
    pub(crate) table: Table<Option<T>, View<T::Origin, T::Line>, Snapshot<T>, Law<T>, Global>,
    // How many threads sleep until the turn is given back, or are about to.
    pub(crate) sleepers: AtomicU64,
    ghost sized: { (table.shared.table_id.words ≡ 3) × (table.shared.table_id.slots ≡ 1) },
}

/// The right to take the turn, with what was seen of the value's lines. Contracts see it as a [`View`]. A pass that is dropped
/// leaves the turn to the others; its number stays taken.
#[derive(Drop)]
pub struct Pass<T: Chronicle> {
    pub(crate) seat: Seat<Option<T>, View<T::Origin, T::Line>>,
    pub(crate) number: u64,
    pub(crate) seen: u64,
    ghost is_pass: { IsPass T.maker seat.me number seen },
}

/// The value, in the hands of the pass that has the turn. It can not be dropped: it goes back by [`Turn::give`].
pub struct Held<T: Chronicle> {
    pub(crate) value: T,
    pub(crate) hold: Hold<T>,
}

/// The seat of the pass that has the turn.
#[derive(Drop)]
pub(crate) struct Hold<T: Chronicle> {
    pub(crate) seat: Seat<Option<T>, View<T::Origin, T::Line>>,
    pub(crate) number: u64,
    pub(crate) seen: u64,
    ghost is_held: { IsHeld seat.me number seen },
}
