//! Whole purchases over a consumer's core, a merchant's core and the house's decision, with the frames under way between them and no network. A frame
//! is lost, or given twice.

mod parties;
mod post;

use crate::trade::WALLET;
use crate::trade::selling::STALL;
use crate::whole::parties::{PURCHASE, Parties};
use crate::whole::post::Which;
use crate::{bytes, telling};
use nb_book::Book;
use nb_lines::Told;
use nb_units::{AcctId, NoMemory};

/// `whole LENGTH LOST TWICE`: a purchase of goods of so many bytes, which count up, at 300. LOST says which of its frames are lost, and TWICE which are
/// given twice: `none`, the one of a number from 1 on, or `each`, of which those are lost that none like it was lost before. It tells how many frames
/// there were, and how many of them spelled no message; how far the purchase is for both, and the consumer's goods; how many entries the house
/// has, and what is in the accounts of both.
pub(crate) fn purchase(told: &mut Told, words: &[&str]) -> Result<(), NoMemory> {
    let [len, lost, twice] = words else {
        return told.unclear();
    };
    match parties::of(told.alloc(), nb_lines::number(*len))? {
        Some(mut parties) => {
            let done = go_on(told, &mut parties, which(*lost), which(*twice));
            drop(parties);
            done
        }
        None => told.unclear(),
    }
}

fn go_on(
    told: &mut Told,
    parties: &mut Parties,
    lost: Which,
    twice: Which,
) -> Result<(), NoMemory> {
    match post::run(told.alloc(), parties, lost, twice)? {
        Some(frames) => tell(told, parties, frames),
        None => told.text("it does not end").done(),
    }
}

// The frames that a word names.
fn which(word: &str) -> Which {
    match word {
        "none" => Which::None,
        "each" => Which::Each,
        _ => Which::One(word.parse::<u32>().unwrap_or(0)),
    }
}

// What a purchase came to that took so many frames.
fn tell(told: &mut Told, parties: &Parties, frames: u32) -> Result<(), NoMemory> {
    told.show("", &frames)
        .show(" frames, ", &parties.bad)
        .text(" bad; ");
    let goods = parties.consumer.goods(PURCHASE)?;
    telling::phase(told, parties.consumer.state(PURCHASE)).text(", ");
    telling::stage(told, parties.merchant.state(WALLET.id, PURCHASE)).text(", ");
    telling::goods(told, &goods).text("; ");
    tell_house(told, &parties.house);
    told.done()
}

fn tell_house(told: &mut Told, house: &Book) {
    told.show("", &house.len())
        .show(" entries, balances ", &balance(house, WALLET.acct))
        .show(" and ", &balance(house, STALL.acct));
}

fn balance(house: &Book, acct: AcctId) -> u64 {
    match house.account(acct) {
        Some(account) => account.balance,
        None => 0,
    }
}
