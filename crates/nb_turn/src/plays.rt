//! What the table keeps, and what each kind of step on it tells.
ghost use Rattle.std.specs.Prelude.{List};

use crate::chronicle::{Chronicle, View};
use atomic_table::{Join, Play, Split, TableRule};
use std::marker::{Brand, PhantomData};
use std::snapshot::Snapshot;

/// The rule of a turn's table.
pub struct Law<T> {
    of: PhantomData<T>,
}

impl<T: Chronicle> TableRule<Option<T>, View<T::Origin, T::Line>, Snapshot<T>> for Law<T> {
    ghost use Rattle.nb_turn.specs.Rule.{Kept};
    ghost use Rattle.nb_turn.specs.Views.{fresh_view};

    ghost holds = { λ key. Kept T.origin T.history T.maker (T.origin key.value) };

    ghost first = { λ key. fresh_view (T.origin key.value) };
}

/// A swap of 1 into the word of the turn.
pub(crate) struct Take<T> {
    of: PhantomData<T>,
}

impl<T: Chronicle> Play<Option<T>, View<T::Origin, T::Line>> for Take<T> {
    ghost use Rattle.nb_turn.specs.Told.{Takes};

    ghost then = { Takes T.origin T.history T.maker };
}

/// The line that a step counts. Each call of a step picks it.
pub(crate) trait NextLine<L> {
    ghost line: { List L };
}

impl<L> NextLine<L> for Brand {
    ghost use Rattle.std.specs.Prelude.{[]};

    ghost line = { [] };
}

/// An addition of 1 to the count of lines.
pub(crate) struct Count<T, J> {
    of: PhantomData<(T, J)>,
}

impl<T: Chronicle, J: NextLine<T::Line>> Play<Option<T>, View<T::Origin, T::Line>> for Count<T, J> {
    ghost use Rattle.nb_turn.specs.Told.{Counts};

    ghost then = { Counts J.line };
}

/// A swap of 0 into the word of the turn.
pub(crate) struct Free<T> {
    of: PhantomData<T>,
}

impl<T: Chronicle> Play<Option<T>, View<T::Origin, T::Line>> for Free<T> {
    ghost use Rattle.nb_turn.specs.Told.{Frees};

    ghost then = { Frees T.maker };
}

/// The setting of one number's bit.
pub(crate) struct Claim<T> {
    of: PhantomData<T>,
}

impl<T: Chronicle> Play<Option<T>, View<T::Origin, T::Line>> for Claim<T> {
    ghost use Rattle.nb_turn.specs.Told.{Claims};

    ghost then = { Claims T.maker };
}

/// A load of the word of the turn by a pass that another was joined into.
pub(crate) struct Settle<T> {
    of: PhantomData<T>,
}

impl<T: Chronicle> Play<Option<T>, View<T::Origin, T::Line>> for Settle<T> {
    ghost use Rattle.nb_turn.specs.Told.{Settles};

    ghost then = { Settles T.maker };
}

/// A seat is split: the first keeps all, the second has no number yet.
pub(crate) struct Fork;

impl<O, L> Split<View<O, L>> for Fork {
    ghost use Rattle.nb_turn.specs.Views.{newcomer};

    ghost left = { λ v. v };

    ghost right = { newcomer };
}

/// Two seats are joined.
pub(crate) struct Merge;

impl<O, L> Join<View<O, L>> for Merge {
    ghost use Rattle.nb_turn.specs.Views.{joined, spent_view};

    ghost both = { joined };

    ghost spent = { spent_view };
}
