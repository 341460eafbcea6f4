ghost use Rattle.std.specs.Prelude.{◌≡◌, ◌≢◌, ℕ, ◌<◌, [], false, IfOk, IfErr};
ghost use Rattle.std.specs.Int.{bit_at};
ghost use Rattle.nb_turn.specs.Lines.{StartsWith, lines_by};
ghost use Rattle.nb_turn.specs.Views.{FindsTaken, SplitOff, found_one, joined, named};
ghost use Rattle.nb_turn.specs.Faults.{no_memory, taken_in};
ghost use Rattle.nb_turn.specs.Passes.{sees, Belongs, IsSame};
ghost use Rattle.nb_turn.specs.declared.words.TheConstants.{MAX_PASSES};

use crate::chronicle::{Chronicle, View};
use crate::fault::SplitFault;
use crate::plays::{Claim, Fork, Merge, Settle};
use crate::types::{Pass, Turn};
use crate::words::{NUMBERS_WORD, TURN_WORD};
use atomic_table::Seat;

impl<T: Chronicle + Drop> Turn<T> {
    // Sets the bit of a number for a seat that has none.
    fn claim(&self, seat: &mut Seat<Option<T>, View<T::Origin, T::Line>>, number: u64) -> u64
        requires turn { seat.old.table_id ≡ self.now.table.shared.table_id }
        requires newcomer { (seat.old.me.1 ≡ []) × (seat.old.me.0.holds ≡ false) × (seat.old.me.0.parts ≡ []) }
        requires within { number < MAX_PASSES }
        ensures turn { (seat.new.table_id ≡ seat.old.table_id) × (seat.new.me.1 ≡ []) }
        ensures set { bit_at result number ≡ 1 → seat.new.me.0 ≡ found_one 2 result seat.old.me.0 }
        ensures clear { bit_at result number ≡ 0 → (seat.new.me.0 ≡ named number result seat.old.me.0) × (lines_by T.maker number seat.old.me.0.seen ≡ []) }
    {
        self.table
            .shared
            .fetch_or::<Claim<T>>(seat, NUMBERS_WORD, 1 << number)
    }

    /// Splits a pass of this number off. It takes no memory.
    pub fn split(
        &mut self,
        pass: Pass<T>,
        number: u64,
    ) -> Result<(Pass<T>, Pass<T>), (SplitFault, Pass<T>)>
        requires turn { Belongs pass self.old }
        requires number { number < MAX_PASSES }
        ensures same { IsSame self.new self.old }
        // After Ok the first pass is of this turn and has the number and the view of the one given.
        ensures first { IfOk result (λ r. Belongs r.0 self.new × (r.0.number ≡ pass.number) × (sees r.0 ≡ sees pass)) }
        // The second has this number and the first's origin, has seen what the first had seen, and its found word has the number's bit clear.
        ensures second { IfOk result (λ r. Belongs r.1 self.new × (r.1.number ≡ number) × SplitOff number (sees pass) (sees r.1)) }
        // No line of this number had been seen: the second has no lines.
        ensures fresh { IfOk result (λ r. lines_by T.maker number (sees pass).seen ≡ []) }
        // After an error it is Taken with a word that has the number's bit; the pass has gained that found word and nothing else.
        ensures taken { IfErr result (λ e. (word : ℕ) × (e.0 ≡ taken_in word) × Belongs e.1 self.new × (e.1.number ≡ pass.number) × FindsTaken word number (sees pass) (sees e.1)) }
        ensures memory { IfErr result (λ e. e.0 ≢ no_memory) }
    {
        let Pass {
            mut seat,
            number: own,
            seen,
        } = pass;
        let mut other = self.table.shared.split_seat::<Fork>(&mut seat);
        let word = self.claim(&mut other, number);
        if word >> number & 1 == 1 {
            self.table.shared.join_seat::<Merge>(&mut seat, other);
            return Err((
                SplitFault::Taken { word },
                Pass {
                    seat,
                    number: own,
                    seen,
                },
            ));
        }
        let first = Pass {
            seat,
            number: own,
            seen,
        };
        let seat = other;
        Ok((first, Pass { seat, number, seen }))
    }

    /// Joins the second pass into the first.
    pub fn join(&mut self, first: Pass<T>, second: Pass<T>) -> Pass<T>
        requires first { Belongs first self.old }
        requires second { Belongs second self.old }
        ensures same { IsSame self.new self.old }
        ensures turn { Belongs result self.new }
        ensures number { result.number ≡ first.number }
        // It has seen the longer of the two lists; its parts are the first's and then the second's, its found words too.
        ensures view { sees result ≡ joined (sees first) (sees second) }
        // The list that it has seen begins with that of the first and with that of the second.
        ensures begins { StartsWith (sees result).seen (sees first).seen × StartsWith (sees result).seen (sees second).seen }
    {
        let Pass {
            mut seat,
            number,
            seen,
        } = first;
        let Pass {
            seat: other,
            number: _,
            seen: other_seen,
        } = second;
        self.table.shared.join_seat::<Merge>(&mut seat, other);
        self.table.shared.load::<Settle<T>>(&mut seat, TURN_WORD);
        Pass {
            seat,
            number,
            seen: seen.max(other_seen),
        }
    }
}
