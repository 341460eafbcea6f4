ghost use Rattle.std.specs.Prelude.{◌≡◌, ◌≢◌, ◌≤◌, ◌<◌, ◌+◌, ◌*◌, ◌++◌, ◌∷◌, [], ℕ, List, length, IfOk, IfErr, Some, vec_capacity, vec_len};
ghost use Rattle.std.specs.List.{All};
ghost use Rattle.nb_turns.specs.declared.limits.TheConstants.{MAX_REQUESTS};
ghost use Rattle.nb_turns.specs.Lines.{maker_of};
ghost use Rattle.nb_msgs.specs.ReplyBytes.{joined as joined_frames};
ghost use Rattle.nb_msgs.specs.declared.reply.TheConstants.{REPLY_ROOM};
ghost use Rattle.nb_units.specs.Room.{spare_of};
ghost use Rattle.nb_vault.specs.Asking.{IsWithin, request_of, requests_of};
ghost use Rattle.nb_vault.specs.Vaults.{Keeps, all_of, place_in};
ghost use Rattle.nb_turn.specs.Lines.{StartsWith, lines_by};
ghost use Rattle.nb_turn.specs.Views.{FindsTaken, SplitOff, fresh_view, joined, reseen, gave};
ghost use Rattle.nb_turn.specs.Faults.{no_memory, taken_in};
ghost use Rattle.nb_turn.specs.Told.{Meets};
ghost use Rattle.nb_turn.specs.Passes.{sees, held_sees, IsOf, Belongs};
ghost use Rattle.nb_turn.specs.declared.words.TheConstants.{MAX_PASSES};
ghost use Rattle.nb_desk.specs.Answers.{AnswersHeld};
ghost use Rattle.nb_desk.specs.Asks.{Gives, Tries, GoesOnAtLast, all_asked, place_asked};
ghost use Rattle.nb_desk.specs.Desks.{IsAt, IsSameDesk, MeetsVault};

use crate::asked::{Asked, AskedAll};
use crate::handed::DeskVault;
use nb_book::SlotHasher;
use nb_escrow::OpenedOrder;
use nb_msgs::Draft;
use nb_port::Disk;
use nb_turn::{Busy, Held, NoMemory, SplitFault, Turn};
use nb_vault::{AskAt, Vault};
use std::alloc::Global;
use std::sync::Wait;

/// The right to ask a desk, with what was seen of the vault's lines: a pass of the desk's turn, seen as its
/// [`View`](nb_turn::View).
pub type Pass<D> = nb_turn::Pass<DeskVault<D>>;

/// A vault that the holders of passes ask, one after another. No lock is in it. Only `ask`, `ask_all`, `decide_all` and
/// [`close`](Desk::close) may wait: they alone are given the handle for it.
#[derive(Drop)]
pub struct Desk<D: Disk> {
    turn: Turn<DeskVault<D>>,
    // The vault's.
    hasher: SlotHasher,
}

impl<D: Disk + Drop> Desk<D> {
    /// Makes a desk over a vault that has done nothing since it was opened, and its first pass, of number 0, which has seen nothing.
    /// Where there is no memory the vault comes back.
    pub fn open(alloc: Global, vault: Vault<D>) -> Result<(Desk<D>, Pass<D>), (NoMemory, Vault<D>)>
        requires { vault.lines ≡ [] }
        // After Ok a pass of this desk, of number 0 and the vault's origin, which has seen nothing, made no line and found nothing.
        ensures ok { IfOk result (λ r. IsAt r.1 r.0 × (r.1.number ≡ 0) × (sees r.1 ≡ fresh_view vault.origin)) }
        ensures err { IfErr result (λ e. e.1 ≡ vault) }
    {
        let hasher = vault.order_hasher();
        match Turn::open(alloc, DeskVault::of(vault)) {
            Ok((turn, pass)) => Ok((Desk { turn, hasher }, pass)),
            Err((fault, vault)) => Err((fault, vault.into_vault())),
        }
    }

    /// What hashes identifiers of orders for the vault's book, before a turn. No clause says for which: no answer depends on it.
    pub fn order_hasher(&self) -> &SlotHasher {
        &self.hasher
    }

    /// Splits a pass of this number off. It takes no memory.
    pub fn split(
        &mut self,
        pass: Pass<D>,
        number: u64,
    ) -> Result<(Pass<D>, Pass<D>), (SplitFault, Pass<D>)>
        requires desk { IsAt pass self.old }
        requires number { number < MAX_PASSES }
        ensures same { IsSameDesk self.new self.old }
        // After Ok the first pass is of this desk and has the number and the view of the one given.
        ensures first { IfOk result (λ r. IsAt r.0 self.new × (r.0.number ≡ pass.number) × (sees r.0 ≡ sees pass)) }
        // The second has this number and the first's origin, has seen what the first had seen, and its found word has the number's bit clear.
        ensures second { IfOk result (λ r. IsAt r.1 self.new × (r.1.number ≡ number) × SplitOff number (sees pass) (sees r.1)) }
        // No line of this number had been seen.
        ensures fresh { IfOk result (λ r. lines_by maker_of number (sees pass).seen ≡ []) }
        // After an error it is Taken with a word that has the number's bit; the pass has gained that found word and nothing else.
        ensures taken { IfErr result (λ e. (word : ℕ) × (e.0 ≡ taken_in word) × IsAt e.1 self.new × (e.1.number ≡ pass.number) × FindsTaken word number (sees pass) (sees e.1)) }
        ensures memory { IfErr result (λ e. e.0 ≢ no_memory) }
    {
        self.turn.split(pass, number)
    }

    /// Joins the second pass into the first.
    pub fn join(&mut self, first: Pass<D>, second: Pass<D>) -> Pass<D>
        requires first { IsAt first self.old }
        requires second { IsAt second self.old }
        ensures same { IsSameDesk self.new self.old }
        ensures desk { IsAt result self.new }
        ensures number { result.number ≡ first.number }
        // It has seen the longer of the two lists; its parts are the first's and then the second's, its found words too.
        ensures view { sees result ≡ joined (sees first) (sees second) }
        // The list that it has seen begins with that of the first and with that of the second.
        ensures begins { StartsWith (sees result).seen (sees first).seen × StartsWith (sees result).seen (sees second).seen }
    {
        self.turn.join(first, second)
    }

    /// Takes the turn, waiting while another pass has it, and ends the desk: the vault comes out. For the pass and each one joined
    /// into it, its own lines are exactly the vault's lines of its number.
    pub fn close<R: Wait>(self, rt: &R, pass: Pass<D>) -> Vault<D>
        requires desk { IsAt pass self }
        ensures meets { MeetsVault (sees pass) result }
        ensures keeps { Keeps D.tells result }
    {
        let Desk { turn, hasher: _ } = self;
        turn.close(rt, pass).into_vault()
    }

    /// Asks for one request, as [`Vault::answer`] does, in the name of the pass's number, at a moment in seconds since 1970-01-01 00:00
    /// UTC. It waits for nobody: where another pass has the turn it is [`Busy`](Asked::Busy), and nothing was asked. It takes no
    /// memory; `out` needs room for [`REPLY_ROOM`](nb_msgs::REPLY_ROOM) bytes.
    pub fn try_ask(
        &self,
        pass: Pass<D>,
        kind: u8,
        body: &[u8],
        moment: u64,
        out: &mut Vec<u8>,
    ) -> (Pass<D>, Asked)
        requires desk { IsAt pass self.now }
        requires room { REPLY_ROOM ≤ spare_of out.old }
        ensures desk { IsAt result.0 self.now }
        ensures number { result.0.number ≡ pass.number }
        // Busy: its word is 1, the pass gained the found word (0, 1), and nothing else that it knows, no place and no byte of `out` has changed. Any
        // other answer: it gained the found word (0, 0) and has seen more, and the answer is as `Gives` says.
        ensures tries { Tries D.tells pass.number (sees pass) (sees result.0) (request_of kind body.now moment ∷ []) (place_asked result.1) out.old.items out.new.items (all_asked result.1) }
        ensures room { vec_capacity out.new ≡ vec_capacity out.old }
    {
        match self.turn.try_take(pass) {
            Ok(held) => self.ask_held(held, kind, body, moment, out),
            Err((Busy { word }, pass)) => (pass, Asked::Busy { word }),
        }
    }

    /// Asks for one request as [`Desk::try_ask`] does, and waits while another pass has the turn. It is never Busy.
    pub fn ask<R: Wait>(
        &self,
        rt: &R,
        pass: Pass<D>,
        kind: u8,
        body: &[u8],
        moment: u64,
        out: &mut Vec<u8>,
    ) -> (Pass<D>, Asked)
        requires desk { IsAt pass self.now }
        requires room { REPLY_ROOM ≤ spare_of out.old }
        ensures desk { IsAt result.0 self.now }
        ensures number { result.0.number ≡ pass.number }
        ensures goes_on { GoesOnAtLast (sees pass) (sees result.0) }
        // Never Busy. There was a vault that met what the pass knew, and made one turn under the pass's number: Served, where the turn decided, with its
        // places and replies; DiskFault, where the disk failed; Worn, with 1,000, where so many turns had failed. The pass has seen what it had seen,
        // then lines of others, none of them of its number or of one joined into it, and then the lines of its turn, under the next turn's number, and
        // nothing else; states over these lines were led from one to the other by the turn. Of the disk it says what the vault's answer says.
        ensures gives { Gives D.tells pass.number (sees pass) (sees result.0) (request_of kind body.now moment ∷ []) (place_asked result.1) out.old.items out.new.items (all_asked result.1) }
        ensures room { vec_capacity out.new ≡ vec_capacity out.old }
    {
        let held = self.turn.take(rt, pass);
        self.ask_held(held, kind, body, moment, out)
    }

    /// Asks for from 1 to [`MAX_REQUESTS`](nb_turns::MAX_REQUESTS) requests in one turn, as [`Vault::answer_all`] does, in the name of
    /// the pass's number. It waits for nobody, and takes no memory: `ats` needs room for one place each, and `out` for
    /// [`REPLY_ROOM`](nb_msgs::REPLY_ROOM) bytes each.
    pub fn try_ask_all(
        &self,
        pass: Pass<D>,
        bytes: &[u8],
        asks: &[AskAt],
        ats: &mut Vec<u64>,
        out: &mut Vec<u8>,
    ) -> (Pass<D>, AskedAll)
        requires desk { IsAt pass self.now }
        requires some { 1 ≤ length asks.now }
        requires most { length asks.now ≤ MAX_REQUESTS }
        requires within { All (IsWithin bytes.now) asks.now }
        requires places { vec_len ats.old + length asks.now ≤ vec_capacity ats.old }
        requires room { REPLY_ROOM * length asks.now ≤ spare_of out.old }
        ensures desk { IsAt result.0 self.now }
        ensures number { result.0.number ≡ pass.number }
        // As of `try_ask`.
        ensures tries { (found : List ℕ) × (ats.new.items ≡ ats.old.items ++ found) × Tries D.tells pass.number (sees pass) (sees result.0) (requests_of bytes.now asks.now) found out.old.items out.new.items result.1 }
        ensures room { vec_capacity out.new ≡ vec_capacity out.old }
        ensures places { vec_capacity ats.new ≡ vec_capacity ats.old }
    {
        let tried = self.turn.try_take(pass);
        match tried {
            Ok(held) => self.ask_all_held(held, bytes, asks, ats, out),
            Err((Busy { word }, pass)) => (pass, AskedAll::Busy { word }),
        }
    }

    /// Asks for several requests as [`Desk::try_ask_all`] does, and waits while another pass has the turn. It is never Busy.
    pub fn ask_all<R: Wait>(
        &self,
        rt: &R,
        pass: Pass<D>,
        bytes: &[u8],
        asks: &[AskAt],
        ats: &mut Vec<u64>,
        out: &mut Vec<u8>,
    ) -> (Pass<D>, AskedAll)
        requires desk { IsAt pass self.now }
        requires some { 1 ≤ length asks.now }
        requires most { length asks.now ≤ MAX_REQUESTS }
        requires within { All (IsWithin bytes.now) asks.now }
        requires places { vec_len ats.old + length asks.now ≤ vec_capacity ats.old }
        requires room { REPLY_ROOM * length asks.now ≤ spare_of out.old }
        ensures desk { IsAt result.0 self.now }
        ensures number { result.0.number ≡ pass.number }
        ensures goes_on { GoesOnAtLast (sees pass) (sees result.0) }
        // As of `ask`.
        ensures gives { (found : List ℕ) × (ats.new.items ≡ ats.old.items ++ found) × Gives D.tells pass.number (sees pass) (sees result.0) (requests_of bytes.now asks.now) found out.old.items out.new.items result.1 }
        ensures room { vec_capacity out.new ≡ vec_capacity out.old }
        ensures places { vec_capacity ats.new ≡ vec_capacity ats.old }
    {
        let held = self.turn.take(rt, pass);
        self.ask_all_held(held, bytes, asks, ats, out)
    }

    /// Asks for from 1 to [`MAX_REQUESTS`](nb_turns::MAX_REQUESTS) requests in one turn, as [`Vault::decide_all`] does, in the name of
    /// the pass's number: up to the drafts of their replies, which are written when the turn was given back. It waits for nobody, and takes
    /// no memory: `ats` needs room for one place each, and `drafts`, which is empty, for one draft each.
    pub fn try_decide_all(
        &self,
        pass: Pass<D>,
        bytes: &[u8],
        asks: &[AskAt],
        opened: &[Option<OpenedOrder>],
        ats: &mut Vec<u64>,
        drafts: &mut Vec<Draft>,
    ) -> (Pass<D>, AskedAll)
        requires desk { IsAt pass self.now }
        requires some { 1 ≤ length asks.now }
        requires most { length asks.now ≤ MAX_REQUESTS }
        requires within { All (IsWithin bytes.now) asks.now }
        requires places { vec_len ats.old + length asks.now ≤ vec_capacity ats.old }
        requires none { drafts.old.items ≡ [] }
        requires room { length asks.now ≤ vec_capacity drafts.old }
        ensures desk { IsAt result.0 self.now }
        ensures number { result.0.number ≡ pass.number }
        // With the joined drafts in place of the replies, behind nothing: where nothing was asked they are nothing.
        ensures tries { (found : List ℕ) × (ats.new.items ≡ ats.old.items ++ found) × Tries D.tells pass.number (sees pass) (sees result.0) (requests_of bytes.now asks.now) found [] (joined_frames drafts.new.items) result.1 }
        // There is one draft for each request at most.
        ensures few { length drafts.new.items ≤ length asks.now }
        ensures room { vec_capacity drafts.new ≡ vec_capacity drafts.old }
        ensures places { vec_capacity ats.new ≡ vec_capacity ats.old }
    {
        let tried = self.turn.try_take(pass);
        match tried {
            Ok(held) => self.decide_all_held(held, bytes, asks, opened, ats, drafts),
            Err((Busy { word }, pass)) => (pass, AskedAll::Busy { word }),
        }
    }

    /// Asks for several requests as [`Desk::try_decide_all`] does, and waits while another pass has the turn. It is never Busy.
    pub fn decide_all<R: Wait>(
        &self,
        rt: &R,
        pass: Pass<D>,
        bytes: &[u8],
        asks: &[AskAt],
        opened: &[Option<OpenedOrder>],
        ats: &mut Vec<u64>,
        drafts: &mut Vec<Draft>,
    ) -> (Pass<D>, AskedAll)
        requires desk { IsAt pass self.now }
        requires some { 1 ≤ length asks.now }
        requires most { length asks.now ≤ MAX_REQUESTS }
        requires within { All (IsWithin bytes.now) asks.now }
        requires places { vec_len ats.old + length asks.now ≤ vec_capacity ats.old }
        requires none { drafts.old.items ≡ [] }
        requires room { length asks.now ≤ vec_capacity drafts.old }
        ensures desk { IsAt result.0 self.now }
        ensures number { result.0.number ≡ pass.number }
        ensures goes_on { GoesOnAtLast (sees pass) (sees result.0) }
        // As of `ask_all`, with the joined drafts in place of the replies, behind nothing: where the turn did not decide they are nothing.
        ensures gives { (found : List ℕ) × (ats.new.items ≡ ats.old.items ++ found) × Gives D.tells pass.number (sees pass) (sees result.0) (requests_of bytes.now asks.now) found [] (joined_frames drafts.new.items) result.1 }
        // There is one draft for each request at most.
        ensures few { length drafts.new.items ≤ length asks.now }
        ensures room { vec_capacity drafts.new ≡ vec_capacity drafts.old }
        ensures places { vec_capacity ats.new ≡ vec_capacity ats.old }
    {
        let held = self.turn.take(rt, pass);
        self.decide_all_held(held, bytes, asks, opened, ats, drafts)
    }

    // Asks for a pass that has the turn, which it gives back.
    fn ask_held(
        &self,
        held: Held<DeskVault<D>>,
        kind: u8,
        body: &[u8],
        moment: u64,
        out: &mut Vec<u8>,
    ) -> (Pass<D>, Asked)
        requires turn { IsOf held self.now.turn }
        requires origin { (held_sees held).origin ≡ Some held.value.origin }
        requires lines { held.value.lines ≡ (held_sees held).seen }
        requires room { REPLY_ROOM ≤ spare_of out.old }
        ensures desk { IsAt result.0 self.now }
        ensures number { result.0.number ≡ held.hold.number }
        ensures answers { AnswersHeld D.tells held.value held.hold.number (held_sees held) (sees result.0) (request_of kind body.now moment ∷ []) (place_asked result.1) out.old.items out.new.items (all_asked result.1) }
        ensures room { vec_capacity out.new ≡ vec_capacity out.old }
    {
        let mut held = held;
        let by = held.number();
        let answer = held.value().answer(by, kind, body, moment, out);
        (self.turn.give(held), Asked::of(answer))
    }

    // Asks for a pass that has the turn, which it gives back.
    fn ask_all_held(
        &self,
        held: Held<DeskVault<D>>,
        bytes: &[u8],
        asks: &[AskAt],
        ats: &mut Vec<u64>,
        out: &mut Vec<u8>,
    ) -> (Pass<D>, AskedAll)
        requires turn { IsOf held self.now.turn }
        requires origin { (held_sees held).origin ≡ Some held.value.origin }
        requires lines { held.value.lines ≡ (held_sees held).seen }
        requires some { 1 ≤ length asks.now }
        requires most { length asks.now ≤ MAX_REQUESTS }
        requires within { All (IsWithin bytes.now) asks.now }
        requires places { vec_len ats.old + length asks.now ≤ vec_capacity ats.old }
        requires room { REPLY_ROOM * length asks.now ≤ spare_of out.old }
        ensures desk { IsAt result.0 self.now }
        ensures number { result.0.number ≡ held.hold.number }
        ensures answers { (found : List ℕ) × (ats.new.items ≡ ats.old.items ++ found) × AnswersHeld D.tells held.value held.hold.number (held_sees held) (sees result.0) (requests_of bytes.now asks.now) found out.old.items out.new.items result.1 }
        ensures room { vec_capacity out.new ≡ vec_capacity out.old }
        ensures places { vec_capacity ats.new ≡ vec_capacity ats.old }
    {
        let mut held = held;
        let by = held.number();
        let answer = held.value().answer_all(by, bytes, asks, ats, out);
        (self.turn.give(held), AskedAll::of(answer))
    }

    // Asks for a pass that has the turn, which it gives back.
    fn decide_all_held(
        &self,
        held: Held<DeskVault<D>>,
        bytes: &[u8],
        asks: &[AskAt],
        opened: &[Option<OpenedOrder>],
        ats: &mut Vec<u64>,
        drafts: &mut Vec<Draft>,
    ) -> (Pass<D>, AskedAll)
        requires turn { IsOf held self.now.turn }
        requires origin { (held_sees held).origin ≡ Some held.value.origin }
        requires lines { held.value.lines ≡ (held_sees held).seen }
        requires some { 1 ≤ length asks.now }
        requires most { length asks.now ≤ MAX_REQUESTS }
        requires within { All (IsWithin bytes.now) asks.now }
        requires places { vec_len ats.old + length asks.now ≤ vec_capacity ats.old }
        requires none { drafts.old.items ≡ [] }
        requires room { length asks.now ≤ vec_capacity drafts.old }
        ensures desk { IsAt result.0 self.now }
        ensures number { result.0.number ≡ held.hold.number }
        ensures answers { (found : List ℕ) × (ats.new.items ≡ ats.old.items ++ found) × AnswersHeld D.tells held.value held.hold.number (held_sees held) (sees result.0) (requests_of bytes.now asks.now) found [] (joined_frames drafts.new.items) result.1 }
        ensures few { length drafts.new.items ≤ length asks.now }
        ensures room { vec_capacity drafts.new ≡ vec_capacity drafts.old }
        ensures places { vec_capacity ats.new ≡ vec_capacity ats.old }
    {
        let mut held = held;
        let by = held.number();
        let answer = held
            .value()
            .decide_all(by, bytes, asks, opened, ats, drafts);
        (self.turn.give(held), AskedAll::of(answer))
    }
}
