// The verdicts of a turn, one after another, each over the entries with those recorded before it.

ghost use Rattle.std.specs.Prelude.{◌≡◌, ◌≤◌, ◌<◌, ◌++◌, ◌∷◌, [], false, length, vec_capacity};
ghost use Rattle.std.specs.List.{All};
ghost use Rattle.std.specs.Option.{option_to_list};
ghost use Rattle.nb_entry.specs.declared.spelling.TheConstants.{MAX_ITEM_ENTRIES};
ghost use Rattle.nb_escrow.specs.Head.{head_of};
ghost use Rattle.nb_msgs.specs.ReplyBytes.{joined};
ghost use Rattle.nb_turns.specs.declared.limits.TheConstants.{MAX_REQUESTS};
ghost use Rattle.nb_turns.specs.Turns.{decided, places, recorded, replies};
ghost use Rattle.nb_vault.specs.Asking.{IsWithin, request_of, requests_of};
ghost use Rattle.nb_vault.specs.Records.{Rests, Gathers, SameTerms, over_of};
ghost use Rattle.nb_vault.specs.Rules.{house_of, house_rules};

use crate::answer::AskAt;
use crate::records::Records;
use nb_book::Book;
use nb_endorse::KeptStates;
use nb_escrow::{Head, OpenedOrder, decide_with};
use nb_msgs::Draft;
use nb_port::Disk;

impl<D: Disk> Records<D> {
    // Decides the requests of a turn, and appends the drafts of their replies. What was opened of a request stands at its place in `opened`.
    pub(crate) fn decide_each(
        &mut self,
        head: &Head,
        bytes: &[u8],
        asks: &[AskAt],
        opened: &[Option<OpenedOrder>],
        kept: &mut KeptStates,
        drafts: &mut Vec<Draft>,
    )
        requires rests { Rests D.tells self.old }
        requires keys { head.now ≡ head_of self.old.charter }
        requires fresh { self.old.journal.stale ≡ false }
        requires few { length asks.now ≤ MAX_REQUESTS }
        requires within { All (IsWithin bytes.now) asks.now }
        requires none { drafts.old.items ≡ [] }
        requires room { length asks.now ≤ vec_capacity drafts.old }
        ensures gathers { Gathers D.tells self.new }
        ensures over { over_of self.new ≡ self.old.book.entries }
        ensures terms { SameTerms self.old self.new }
        ensures journal { self.new.journal ≡ self.old.journal }
        ensures group { self.new.group.items ≡ recorded (house_of head.now self.old.book.cap) self.old.book.entries (requests_of bytes.now asks.now) }
        ensures places { self.new.places.items ≡ places (decided (house_of head.now self.old.book.cap) self.old.book.entries (requests_of bytes.now asks.now)) }
        ensures drafts { joined drafts.new.items ≡ replies (decided (house_of head.now self.old.book.cap) self.old.book.entries (requests_of bytes.now asks.now)) }
        ensures few { length drafts.new.items ≤ length asks.now }
        ensures room { vec_capacity drafts.new ≡ vec_capacity drafts.old }
    {
        self.begin();
        for ask in asks {
            let body = bytes.split_at(ask.start).1.split_at(ask.len).0;
            let memo = opened_at(opened, drafts.len());
            self.decide_one(head, ask.kind, body, ask.moment, memo, kept, drafts);
        }
    }

    // Decides one more.
    fn decide_one(
        &mut self,
        head: &Head,
        kind: u8,
        body: &[u8],
        moment: u64,
        opened: Option<&OpenedOrder>,
        kept: &mut KeptStates,
        drafts: &mut Vec<Draft>,
    )
        requires gathers { Gathers D.tells self.old }
        requires keys { head.now ≡ head_of self.old.charter }
        requires few { length self.old.group.items < MAX_ITEM_ENTRIES }
        requires places { length self.old.places.items < MAX_REQUESTS }
        requires room { length drafts.old.items < vec_capacity drafts.old }
        ensures gathers { Gathers D.tells self.new }
        ensures over { over_of self.new ≡ over_of self.old }
        ensures terms { SameTerms self.old self.new }
        ensures journal { self.new.journal ≡ self.old.journal }
        ensures entries { self.new.book.entries ≡ self.old.book.entries ++ option_to_list (house_rules head.now self.old.book.cap self.old.book.entries (request_of kind body.now moment)).entry }
        ensures group { self.new.group.items ≡ self.old.group.items ++ option_to_list (house_rules head.now self.old.book.cap self.old.book.entries (request_of kind body.now moment)).entry }
        ensures places { self.new.places.items ≡ self.old.places.items ++ length self.old.book.entries ∷ [] }
        ensures drafts { drafts.new.items ≡ drafts.old.items ++ (house_rules head.now self.old.book.cap self.old.book.entries (request_of kind body.now moment)).reply ∷ [] }
        ensures room { vec_capacity drafts.new ≡ vec_capacity drafts.old }
    {
        remember(&mut self.book, opened);
        let at = u64::from(self.book.len());
        let decision = decide_with(&self.book, head, kind, body, moment, opened, kept);
        self.places.push_reserved(at);
        drafts.push_reserved(Draft::of(decision.reply, decision.keys));
        if let Some(entry) = decision.entry {
            self.gather(&entry);
        }
    }
}

// Has the book keep what was hashed of an order before the turn, if it was.
fn remember(book: &mut Book, opened: Option<&OpenedOrder>)
    ensures { book.new ≡ book.old }
{
    if let Some(order) = opened {
        if let Some(identifier) = order.identifier() {
            book.remember_order(identifier);
        }
    }
}

// What was opened of the request of this number, where something was.
fn opened_at(opened: &[Option<OpenedOrder>], i: usize) -> Option<&OpenedOrder> {
    match opened.get(i) {
        Some(Some(order)) => Some(order),
        _ => None,
    }
}
