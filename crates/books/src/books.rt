// What a book is asked, and what becomes of it.

ghost use Rattle.std.specs.Prelude.{IsTrue};
ghost use Rattle.nb_book.specs.Legal.{LegalAfter};

use crate::entries::{entry_of, epoid_of, in_words};
use crate::trial::Trial;
use crate::words::Words;
use nb_book::{Account, Book, MAX_CAP, Party};
use nb_entry::Entry;
use nb_lines::Told;
use nb_units::{AcctId, FEE_VERSION, FIRST_VERSION, MAX_RATE, NoMemory, PartyId};
use std::alloc::Global;

// The key of every book's indexes.
const KEY: [u8; 16] = [0; 16];

impl Trial {
    /// `book CAP [RATE]`: a book without entries, of a journal with this rate or of one without fees. `next ENTRY`: whether it may come next.
    /// `apply ENTRY`: it comes next. `undo`: the last one is taken off.
    pub fn of_book(&mut self, told: &mut Told, word: &str, words: &[&str]) -> Result<(), NoMemory> {
        if word == "book" {
            return self.begin(&mut Words::new(words));
        }
        let rate = self.rate;
        match &mut self.book {
            Some(book) => {
                change(told, book, rate, word, &mut Words::new(words));
                Ok(())
            }
            None => told.unclear(),
        }
    }

    fn begin(&mut self, words: &mut Words) -> Result<(), NoMemory> {
        let cap = words.number();
        self.rate = words.rate();
        self.book = made(self.alloc, cap)?;
        Ok(())
    }

    /// `party ID`, `account ID`, `reference HEX`, `order MERCHANT MOMENT SERIAL`: what the book has of it. `counts`: its cap, its
    /// money and its entries. `fees`: what the house kept.
    pub fn asked(&self, told: &mut Told, word: &str, words: &[&str]) -> Result<(), NoMemory> {
        match &self.book {
            Some(book) => {
                look_up(told, book, word, &mut Words::new(words));
                Ok(())
            }
            None => told.unclear(),
        }
    }
}

// A book of a cap, where one may have it.
fn made(alloc: Global, cap: u32) -> Result<Option<Book>, NoMemory> {
    if cap < 1 || cap > MAX_CAP {
        return Ok(None);
    }
    Ok(Some(Book::new(alloc, cap, &KEY)?))
}

fn change(told: &mut Told, book: &mut Book, rate: Option<u16>, word: &str, words: &mut Words) {
    match word {
        "apply" => apply(told, book, rate, entry_of(words)),
        "next" => next(told, book, rate, entry_of(words)),
        _ => undo(told, book),
    }
}

// Whether an entry may come next in a journal with this rate, or in one without fees.
fn legal(book: &Book, entry: &Entry, rate: Option<u16>) -> bool
    ensures { IsTrue result → LegalAfter book.now.entries entry.now }
{
    match rate {
        None => book.legal(entry, FIRST_VERSION, 0),
        Some(rate) => book.legal(entry, FEE_VERSION, rate.min(MAX_RATE)),
    }
}

fn apply(told: &mut Told, book: &mut Book, rate: Option<u16>, entry: Option<Entry>) {
    let Some(entry) = entry else {
        told.text("no such line");
        return;
    };
    if !legal(book, &entry, rate) {
        told.text("not next");
    } else if book.len() >= book.cap() {
        told.text("full");
    } else {
        book.apply(&entry);
        told.show("", &book.len()).text(" entries");
    }
}

fn undo(told: &mut Told, book: &mut Book) {
    if book.len() < 1 {
        told.text("empty");
    } else {
        book.undo();
        told.show("", &book.len()).text(" entries");
    }
}

fn next(told: &mut Told, book: &Book, rate: Option<u16>, entry: Option<Entry>) {
    told.text(match entry {
        Some(entry) if legal(book, &entry, rate) => "next",
        Some(_) => "not next",
        None => "none",
    });
}

// What a look-up gives.
fn look_up(told: &mut Told, book: &Book, word: &str, words: &mut Words) {
    match word {
        "party" | "account" => look_up_number(told, book, word, words),
        "reference" => reference(told, book, words),
        "order" => order(told, book, words),
        "fees" => {
            told.show("", &book.fees());
        }
        _ => {
            told.show("cap ", &book.cap())
                .show(", ", &book.total())
                .show(" in all, ", &book.len())
                .text(" entries");
        }
    }
}

fn look_up_number(told: &mut Told, book: &Book, word: &str, words: &mut Words) {
    let number = words.number();
    if words.some_bad() {
        told.text("none");
    } else if word == "party" {
        party(told, book.party(PartyId(number)));
    } else {
        account(told, book.account(AcctId(number)));
    }
}

fn party(told: &mut Told, party: Option<Party>) {
    match party {
        Some(party) => told
            .show("at ", &party.at)
            .show(": role ", &party.role)
            .show(", account ", &party.acct.0)
            .show(", nonce ", &party.nonce)
            .hex(", key ", &party.key),
        None => told.text("none"),
    };
}

fn account(told: &mut Told, account: Option<Account>) {
    match account {
        Some(account) => told
            .show("of party ", &account.party.0)
            .show(": ", &account.balance),
        None => told.text("none"),
    };
}

fn reference(told: &mut Told, book: &Book, words: &mut Words) {
    let reference = words.sixteen();
    match book.reference(&reference) {
        Some(funded) if !words.some_bad() => told
            .show("at ", &funded.at)
            .show(": account ", &funded.acct.0)
            .show(", ", &funded.amount),
        _ => told.text("none"),
    };
}

fn order(told: &mut Told, book: &Book, words: &mut Words) {
    let epoid = epoid_of(words);
    match book.order(&epoid) {
        Some(kept) if !words.some_bad() => {
            told.show("at ", &kept.at).text(": ");
            in_words(told, &kept.entry);
        }
        _ => {
            told.text("none");
        }
    }
}
