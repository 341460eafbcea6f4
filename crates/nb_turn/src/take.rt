ghost use Rattle.std.specs.Prelude.{◌≡◌, ◌++◌, ◌∷◌, [], length, drop, take, IfOk, IfErr, Some};
ghost use Rattle.std.specs.List.{AllByRecursion};
ghost use Rattle.nb_turn.specs.Lines.{StartsWith};
ghost use Rattle.nb_turn.specs.Views.{reseen, found_one, gave};
ghost use Rattle.nb_turn.specs.Seats.{IsNext};
ghost use Rattle.nb_turn.specs.Told.{TakenOnce};
ghost use Rattle.nb_turn.specs.Passes.{sees, Belongs, held_sees, IsOf};

use crate::chronicle::{Chronicle, View};
use crate::fault::Busy;
use crate::plays::{Count, Free, NextLine, Take};
use crate::types::{Held, Hold, Pass, Turn};
use crate::words::{COUNT_WORD, FREE, HELD, TURN_WORD, VALUE_SLOT};
use atomic_table::Seat;
use std::marker::Brand;

impl<T: Chronicle + Drop> Turn<T> {
    /// Takes the turn where it is free.
    pub fn try_take(&self, pass: Pass<T>) -> Result<Held<T>, (Busy, Pass<T>)>
        requires { Belongs pass self.now }
        // After Ok a Held of this turn and of the pass's number. The pass gained one found word, (0, 0). The value meets what the pass knew (`Meets`):
        // it has its origin, its lines begin with all that the pass had seen, and for each part they begin with what that one had seen last, its own
        // lines being exactly those of its number. The pass has seen all lines.
        ensures ok { IfOk result (λ h. IsOf h self.now × (h.hold.number ≡ pass.number) × TakenOnce T.origin T.history T.maker (sees pass) (held_sees h) h.value) }
        // After Busy: its word is 1, the pass has its number, and gained one found word, (0, 1); nothing else that it knows has changed.
        ensures busy { IfErr result (λ e. (e.0.word ≡ 1) × Belongs e.1 self.now × (e.1.number ≡ pass.number) × (sees e.1 ≡ found_one 0 1 (sees pass))) }
    {
        let Pass {
            mut seat,
            number,
            seen,
        } = pass;
        let word = self
            .table
            .shared
            .swap::<Take<T>>(&mut seat, TURN_WORD, HELD);
        if word != FREE {
            return Err((Busy { word }, Pass { seat, number, seen }));
        }
        let Some(value) = self.table.shared.exchange(&mut seat, VALUE_SLOT, None) else {
            unreachable!()
        };
        let seen = value.lines();
        Ok(Held {
            value,
            hold: Hold { seat, number, seen },
        })
    }

    // Counts the line that follows those that the seat has seen.
    fn count_line<J: NextLine<T::Line>>(
        &self,
        seat: &mut Seat<Option<T>, View<T::Origin, T::Line>>,
        value: &T,
    )
        requires turn { seat.old.table_id ≡ self.now.table.shared.table_id }
        requires next { IsNext T.maker seat.old.me.0 J.line }
        requires line { J.line ≡ take 1 (drop (length seat.old.me.0.seen) (T.history value.now)) }
        ensures { (seat.new.table_id ≡ seat.old.table_id) × (seat.new.me.1 ≡ seat.old.me.1) × (seat.new.me.0 ≡ reseen (seat.old.me.0.seen ++ take 1 (drop (length seat.old.me.0.seen) (T.history value.now))) seat.old.me.0) }
    {
        let _ = value;
        self.table
            .shared
            .fetch_add::<Count<T, J>>(seat, COUNT_WORD, 1);
    }

    /// Gives the turn back with the value.
    pub fn give(&self, held: Held<T>) -> Pass<T>
        requires turn { IsOf held self.now }
        requires origin { (held_sees held).origin ≡ Some (T.origin held.value) }
        // The lines begin with those at taking.
        requires begins { StartsWith (T.history held.value) (held_sees held).seen }
        // Each line behind those at taking has the pass's number.
        requires made { AllByRecursion (λ l. T.maker l ≡ held.hold.number) (drop (length (held_sees held).seen) (T.history held.value)) }
        ensures turn { Belongs result self.now }
        ensures number { result.number ≡ held.hold.number }
        ensures seen { (sees result).seen ≡ T.history held.value }
        // That it has seen them, and has the turn no more, is all that has changed of what it knows, and its first part has seen them too: so the new lines are
        // among its own.
        ensures view { sees result ≡ gave (reseen (T.history held.value) (held_sees held)) }
    {
        let Held { value, hold } = held;
        let Hold {
            mut seat,
            number,
            seen,
        } = hold;
        let total = value.lines();
        for _ in seen..total {
            self.count_line::<Brand>(&mut seat, &value);
        }
        self.table
            .shared
            .exchange(&mut seat, VALUE_SLOT, Some(value));
        self.table
            .shared
            .swap::<Free<T>>(&mut seat, TURN_WORD, FREE);
        self.wake();
        Pass {
            seat,
            number,
            seen: total,
        }
    }
}
