ghost use Rattle.std.specs.Prelude.{◌≡◌};
ghost use Rattle.nb_turn.specs.Told.{Meets, TakenAtLast};
ghost use Rattle.nb_turn.specs.Passes.{sees, Belongs, held_sees, IsOf};

use crate::chronicle::Chronicle;
use crate::types::{Held, Pass, Turn};
use crate::words::{HELD, TURN_WORD};
use std::sync::Wait;
use std::sync::atomic::Ordering;
use std::thread;

// How often a thread that waits for the turn only lets others run, before it sleeps.
const MOST_YIELDS: u32 = 4_096;

impl<T: Chronicle + Drop> Turn<T> {
    /// Takes the turn as [`Turn::try_take`] does, again and again while another pass has it. Between the first tries it lets other threads
    /// run; between those behind them it sleeps, and who gives the turn back wakes one of those that sleep. No clause says when it is woken.
    pub fn take<R: Wait>(&self, rt: &R, pass: Pass<T>) -> Held<T>
        requires { Belongs pass self.now }
        ensures turn { IsOf result self.now }
        ensures number { result.hold.number ≡ pass.number }
        ensures taken { TakenAtLast T.origin T.history T.maker (sees pass) (held_sees result) result.value }
    {
        let mut waiting = pass;
        let mut tries = 0u32;
        for _ in rt.forever() {
            match self.try_take(waiting) {
                Ok(held) => return held,
                Err((_, pass)) => {
                    self.wait(rt, tries);
                    tries = tries.saturating_add(1);
                    waiting = pass;
                }
            }
        }
        unreachable!()
    }

    // Lets other threads run, and behind so many tries sleeps while the turn is held, if it still is.
    fn wait<R: Wait>(&self, rt: &R, tries: u32) {
        if tries < MOST_YIELDS {
            thread::yield_now();
            return;
        }
        self.sleepers.fetch_add(1, Ordering::SeqCst);
        self.table.shared.park(rt, TURN_WORD, HELD as u32);
        self.sleepers.fetch_sub(1, Ordering::SeqCst);
    }

    // Wakes one thread that sleeps until the turn is given back, which it was. Who sleeps later finds the turn free, or held by one who will
    // give it back.
    pub(crate) fn wake(&self) {
        if self.sleepers.load(Ordering::SeqCst) > 0 {
            self.table.shared.wake_one(TURN_WORD);
        }
    }

    /// Takes the turn as [`Turn::take`] does, and ends it: the value comes out.
    pub fn close<R: Wait>(self, rt: &R, pass: Pass<T>) -> T
        requires { Belongs pass self }
        ensures { Meets T.origin T.history T.maker (sees pass) result }
    {
        let Held { value, hold: _ } = self.take(rt, pass);
        value
    }
}
