ghost use Rattle.std.specs.Prelude.{◌≡◌, ◌⊎◌, ◌≤◌, ◌+◌, ◌*◌, ◌++◌, ◌∷◌, [], length, slice_get, vec_capacity, vec_len};
ghost use Rattle.std.specs.List.{All};
ghost use Rattle.nb_turns.specs.declared.limits.TheConstants.{MAX_REQUESTS};
ghost use Rattle.nb_journal.specs.Time.{LeavesOnly};
ghost use Rattle.nb_msgs.specs.ReplyBytes.{joined};
ghost use Rattle.nb_msgs.specs.declared.reply.TheConstants.{REPLY_ROOM};
ghost use Rattle.nb_units.specs.Room.{spare_of};
ghost use Rattle.nb_escrow.specs.Head.{head_of};
ghost use Rattle.nb_vault.specs.Asking.{IsWithin, request_of, requests_of};
ghost use Rattle.nb_vault.specs.Parts.{handed_in};
ghost use Rattle.nb_vault.specs.Taking.{TakesIn, all_in};
ghost use Rattle.nb_vault.specs.Vaults.{Keeps, TurnAll, TurnOf, DurableWhere, SameWhere, FaultWithin, GateIsAt, StandsForState, all_of, place_in, state_of, entries_in, most_lines};

mod opening;

use crate::answer::{Answer, AnswerAll, AskAt};
use crate::parts::Parts;
use crate::taking::TakeIn;
use nb_book::SlotHasher;
use nb_endorse::KeptStates;
use nb_entry::Entry;
use nb_escrow::OpenedOrder;
use nb_msgs::{Draft, write_each};
use nb_port::Disk;
use nb_seal::KeyState;
use nb_turns::Line;
use nb_units::Secret;
pub use opening::VaultFault;
use std::marker::Model;

/// The entries of a house, durable on a disk, and what was done since they were read.
pub struct Vault<D: Disk> {
    parts: Parts<D>,
    // The states of keys that are kept from one turn to the next, and the drafts of a turn whose replies are written here.
    kept: KeptStates,
    drafts: Vec<Draft>,
}

impl<D: Disk + Drop> Drop for Vault<D> {
    fn drop(self) {
        let Self {
            parts: _,
            kept: _,
            drafts: _,
        } = self;
    }
}

impl<D: Disk> Model for Vault<D> {
    ghost use Rattle.nb_vault.specs.Vaults.{Chronicled};
    ghost use Rattle.nb_vault.specs.Parts.{IsWhole, seen_as};

    ghost Value = { Chronicled D };

    ghost view = { λ v. seen_as v.parts };

    ghost invariant = { λ v. IsWhole D.tells v.parts v.drafts };
}

impl<D: Disk> Vault<D> {
    /// Answers one request, asked for by `by`, at a moment in seconds since 1970-01-01 00:00 UTC. What was in doubt is settled,
    /// the request is decided, its entry is made durable, and then its reply stands behind `out`, which needs room for
    /// [`REPLY_ROOM`](nb_msgs::REPLY_ROOM) bytes. It takes no memory.
    pub fn answer(
        &mut self,
        by: u64,
        kind: u8,
        body: &[u8],
        moment: u64,
        out: &mut Vec<u8>,
    ) -> Answer
        requires { REPLY_ROOM ≤ spare_of out.old }
        // What is said of `answer_all`, of the one request, with its place in the answer.
        ensures turn { TurnOf D.tells self.old self.new by (request_of kind body.now moment ∷ []) (place_in result) out.old.items out.new.items (all_of result) }
        ensures origin { self.new.origin ≡ self.old.origin }
        // Each image that a stop leaves at any moment of the call, and within its calls of the disk, stands for the entries before or after it, each
        // with or without what is in doubt then.
        ensures any_moment { LeavesOnly D.tells self.old.disk self.new.disk
            (λ image. StandsForState self.old image ⊎ StandsForState self.new image) }
        // Where it answered nothing is in doubt, and each image that a stop may leave stands for the entries after the call. That each image stands
        // for no other list is the law `one_list`.
        ensures durable { DurableWhere D.tells self.new (all_of result) }
        // Where the state of the house after the call is the one before (entries, doubt and number of faults), the content of the disk is as before.
        ensures quiet { state_of self.new ≡ state_of self.old → D.tells.content self.new.disk ≡ D.tells.content self.old.disk }
        ensures same { SameWhere self.old self.new (all_of result) }
        ensures fault { FaultWithin D.tells self.old self.new (all_of result) }
        ensures keeps { Keeps D.tells self.new }
        ensures count { D.tells.faults self.old.disk ≤ D.tells.faults self.new.disk }
        ensures room { vec_capacity out.new ≡ vec_capacity out.old }
    {
        let ask = AskAt {
            kind,
            start: 0,
            len: body.len(),
            moment,
        };
        let Vault {
            parts,
            kept,
            drafts,
        } = self;
        drafts.clear();
        let answer = parts.answer_all(by, body, &[ask], &[], kept, drafts);
        write_each(drafts.as_slice(), kept, out);
        answer.of_one(parts.first_place())
    }

    /// Answers from 1 to [`MAX_REQUESTS`](nb_turns::MAX_REQUESTS) requests in one turn, asked for by `by`, whose bodies stand within
    /// `bytes`. What was in doubt is settled, the requests are decided one after another, each over the entries with those recorded
    /// before it, and what they record is made durable as one item. Then their places stand behind `ats`, which needs room for one
    /// each, and their replies behind `out`, which needs room for [`REPLY_ROOM`](nb_msgs::REPLY_ROOM) bytes each. It takes no memory.
    pub fn answer_all(
        &mut self,
        by: u64,
        bytes: &[u8],
        asks: &[AskAt],
        ats: &mut Vec<u64>,
        out: &mut Vec<u8>,
    ) -> AnswerAll
        requires some { 1 ≤ length asks.now }
        requires most { length asks.now ≤ MAX_REQUESTS }
        requires within { All (IsWithin bytes.now) asks.now }
        requires places { vec_len ats.old + length asks.now ≤ vec_capacity ats.old }
        requires room { REPLY_ROOM * length asks.now ≤ spare_of out.old }
        // One turn of the house over all requests, from the state before to the state after. `Answered`: the turn decided over some entries, the first
        // verdict over these and each other over those with the entries recorded before it; their places stand behind `ats` and their replies behind
        // `out`, and nothing else. `DiskFault`: the turn failed between these counts; `Worn`: 1,000 turns failed before; then both are as before. The
        // new lines are those of that very turn, made by `by`, with the next number. State, lines and disk tell the same of it: where it decided, what
        // is written is one item of all that was recorded, as `append` of nb_journal writes one, or nothing where nothing was recorded; where it
        // failed, either what its verdicts record is in doubt, and only bytes in the range of such an item may have changed, or what was in doubt could not be
        // settled, and nothing was written.
        ensures turn { TurnAll D.tells self.old self.new by (requests_of bytes.now asks.now) ats.old.items ats.new.items out.old.items out.new.items result }
        ensures origin { self.new.origin ≡ self.old.origin }
        // As of `answer`.
        ensures any_moment { LeavesOnly D.tells self.old.disk self.new.disk
            (λ image. StandsForState self.old image ⊎ StandsForState self.new image) }
        ensures durable { DurableWhere D.tells self.new result }
        // As of `answer`.
        ensures quiet { state_of self.new ≡ state_of self.old → D.tells.content self.new.disk ≡ D.tells.content self.old.disk }
        ensures same { SameWhere self.old self.new result }
        ensures fault { FaultWithin D.tells self.old self.new result }
        ensures keeps { Keeps D.tells self.new }
        ensures count { D.tells.faults self.old.disk ≤ D.tells.faults self.new.disk }
        ensures room { vec_capacity out.new ≡ vec_capacity out.old }
        ensures places { vec_capacity ats.new ≡ vec_capacity ats.old }
    {
        self.drafts.clear();
        let Vault {
            parts,
            kept,
            drafts,
        } = self;
        let answer = parts.answer_all(by, bytes, asks, &[], kept, drafts);
        hand_out(&answer, parts.records.places.as_slice(), ats);
        write_each(drafts.as_slice(), kept, out);
        answer
    }

    /// Answers requests as [`Vault::answer_all`] does, up to the bytes of their replies: of these there are the drafts alone, in the order of the
    /// requests. They are signed, sealed and written when the turn is over, by
    /// [`write_each`](nb_msgs::write_each). What was opened of a request before the turn stands at its place in `opened`, if anything was; what is
    /// answered does not depend on it. `drafts` is empty and needs room for one each.
    pub fn decide_all(
        &mut self,
        by: u64,
        bytes: &[u8],
        asks: &[AskAt],
        opened: &[Option<OpenedOrder>],
        ats: &mut Vec<u64>,
        drafts: &mut Vec<Draft>,
    ) -> AnswerAll
        requires some { 1 ≤ length asks.now }
        requires most { length asks.now ≤ MAX_REQUESTS }
        requires within { All (IsWithin bytes.now) asks.now }
        requires places { vec_len ats.old + length asks.now ≤ vec_capacity ats.old }
        requires none { drafts.old.items ≡ [] }
        requires room { length asks.now ≤ vec_capacity drafts.old }
        // The drafts, joined, are the replies that `answer_all` appends. At a fault, and of a worn vault, there are none.
        ensures turn { TurnAll D.tells self.old self.new by (requests_of bytes.now asks.now) ats.old.items ats.new.items [] (joined drafts.new.items) result }
        ensures origin { self.new.origin ≡ self.old.origin }
        // As of `answer`.
        ensures any_moment { LeavesOnly D.tells self.old.disk self.new.disk
            (λ image. StandsForState self.old image ⊎ StandsForState self.new image) }
        // As of `answer_all`. It has no output: a reply is handed out as a draft alone, whose bytes `write_each` makes behind the call; that none is
        // made within it no clause says.
        ensures durable { DurableWhere D.tells self.new result }
        // As of `answer`.
        ensures quiet { state_of self.new ≡ state_of self.old → D.tells.content self.new.disk ≡ D.tells.content self.old.disk }
        ensures same { SameWhere self.old self.new result }
        ensures fault { FaultWithin D.tells self.old self.new result }
        ensures keeps { Keeps D.tells self.new }
        ensures count { D.tells.faults self.old.disk ≤ D.tells.faults self.new.disk }
        ensures few { length drafts.new.items ≤ length asks.now }
        ensures room { vec_capacity drafts.new ≡ vec_capacity drafts.old }
        ensures places { vec_capacity ats.new ≡ vec_capacity ats.old }
    {
        let answer = self
            .parts
            .answer_all(by, bytes, asks, opened, &mut self.kept, drafts);
        hand_out(&answer, self.parts.records.places.as_slice(), ats);
        answer
    }

    /// Takes in, for `by`, an entry that another vault has at this place of its list, counted from 0. What was in doubt is settled; then, where
    /// so many entries stand here and the entry may come next, it is made durable. It takes no memory.
    pub fn take_in(&mut self, by: u64, place: u64, e: &Entry) -> TakeIn
        // What came of it, by one turn of a house that records this entry where it is taken in, and else nothing; no key and no test has a part in it.
        ensures turn { TakesIn D.tells self.old self.new by place e.now result }
        ensures origin { self.new.origin ≡ self.old.origin }
        // As of `answer`, where `Taken`, `Same`, `Other`, `Ahead` and `Illegal` are answers.
        ensures any_moment { LeavesOnly D.tells self.old.disk self.new.disk
            (λ image. StandsForState self.old image ⊎ StandsForState self.new image) }
        ensures durable { DurableWhere D.tells self.new (all_in result) }
        // As of `answer`.
        ensures quiet { state_of self.new ≡ state_of self.old → D.tells.content self.new.disk ≡ D.tells.content self.old.disk }
        ensures same { SameWhere self.old self.new (all_in result) }
        ensures fault { FaultWithin D.tells self.old self.new (all_in result) }
        ensures keeps { Keeps D.tells self.new }
        ensures count { D.tells.faults self.old.disk ≤ D.tells.faults self.new.disk }
    {
        self.parts.take_in(by, place, e)
    }

    /// What every vault keeps, as a fact: it does nothing.
    pub fn witness(&self)
        ensures keeps { Keeps D.tells self.now }
    {
        let _parts = &self.parts;
    }

    /// How many entries are recorded.
    pub fn entries(&self) -> u32
        ensures count { result ≡ length (entries_in self.now) }
        ensures within { result ≤ self.now.origin.cap }
    {
        self.parts.records.book.len()
    }

    /// The entry at this place, counted from 0, if so many are recorded.
    pub fn entry(&self, i: u32) -> Option<Entry>
        ensures { result ≡ slice_get (entries_in self.now) i }
    {
        self.parts.records.book.entry(i)
    }

    /// What hashes identifiers of orders for this vault's book, before a turn. No clause says for which: no answer depends on it.
    pub fn order_hasher(&self) -> SlotHasher {
        self.parts.records.book.order_hasher()
    }

    /// The house's key, 32 bytes, as its head has it.
    pub fn house(&self) -> Secret
        ensures { result ≡ (head_of self.now.origin.charter).house }
    {
        self.parts.head.house
    }

    /// The state of the house's key, with which codes under it are made: a copy of the one that is kept.
    pub fn house_state(&mut self) -> KeyState
        ensures state { result ≡ (head_of self.old.origin.charter).house }
        ensures same { self.new ≡ self.old }
    {
        let Vault {
            parts,
            kept,
            drafts: _,
        } = self;
        kept.house(&parts.head.house).copy()
    }

    /// The place of the gate behind the items of all entries that are recorded, in bytes from the front of the journal. It is the first that is
    /// not open, unless entries are in doubt: then it may be open on the disk, with their item behind it.
    pub fn end(&self) -> u64
        ensures { GateIsAt D.tells self.now result }
    {
        self.parts.records.journal.gate()
    }

    /// The line with this number, from 0, of what was done since the vault was opened.
    pub fn line(&self, i: u64) -> Option<Line>
        ensures { result ≡ slice_get self.now.lines i }
    {
        self.parts.lines.get(i as usize).copied()
    }

    /// The disk and the lines, at the end. The lines have the room that was taken for all that might come.
    pub fn into_parts(self) -> (D, Vec<Line>)
        ensures disk { result.0 ≡ self.disk }
        ensures lines { result.1.items ≡ self.lines }
        ensures room { most_lines self.origin.cap ≤ vec_capacity result.1 }
    {
        let Vault {
            parts,
            kept: _,
            drafts: _,
        } = self;
        parts.into_parts()
    }

    /// The disk, at the end.
    pub fn into_disk(self) -> D
        ensures { result ≡ self.disk }
    {
        self.into_parts().0
    }
}

// Appends the places of the requests of a turn, where it was answered.
fn hand_out(answer: &AnswerAll, places: &[u64], ats: &mut Vec<u64>)
    requires { vec_len ats.old + length (handed_in places.now answer.now) ≤ vec_capacity ats.old }
    ensures items { ats.new.items ≡ ats.old.items ++ handed_in places.now answer.now }
    ensures room { vec_capacity ats.new ≡ vec_capacity ats.old }
{
    match answer {
        AnswerAll::Answered => {
            for at in places {
                ats.push_reserved(*at);
            }
        }
        AnswerAll::DiskFault { .. } => {}
        AnswerAll::Worn { .. } => {}
    }
}
