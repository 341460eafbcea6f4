ghost use Rattle.std.specs.Prelude.{◌≡◌, ◌↔◌, ◌<◌, ◌≤◌, ◌+◌, ◌^◌, ℕ, map, codes, string_bytes, IsTrue, IfOk, IfSome, IsErr, OnErr, Some, None, List};
ghost use Rattle.std.specs.List.{AllByRecursion};
ghost use Rattle.std.specs.Fmt.{decimal};
ghost use Rattle.clap.specs.Walk.{first_of};
ghost use Rattle.clap.specs.Words.{rows_of, found_of, subcommand_rows_of};
ghost use Rattle.nb_words.specs.Words.{IsName, AreServed, CommandIs, MayBeRead};
ghost use Rattle.nb_words.specs.Table as table;
ghost use Rattle.nb_words.specs.Numbers.{LimitsAre};
ghost use Rattle.clap.specs.declared.error.kind.ErrorKind.TheVariants as errors;

use crate::table::{command_in, program};
use clap::error::ErrorKind;
use nb_groups::Groups;
use nb_units::{AcctId, NoMemory, PartyId, Price};
use std::alloc::Global;

/// What the words tell the program to do.
#[derive(Drop)]
pub enum Command {
    /// `init JOURNAL CAP`, or `init JOURNAL CAP PERMILLE`: make a journal that holds at most so many entries, without fees, or with fees of so many
    /// thousandths of a price.
    Init {
        cap: u32,
        rate: Option<u16>,
    },
    /// `batch JOURNAL`: answer the frames of the input in order.
    Batch,
    /// `drill SEED ORDERS`: make a journal, and answer the frames of a drill with so many orders over it.
    Drill {
        seed: u64,
        orders: u32,
    },
    /// `serve JOURNAL ADDRESS WORKERS SESSIONS`: answer the links of so many workers, so many of each.
    Serve {
        workers: u32,
        sessions: u32,
    },
    /// `migrate JOURNAL PERMILLE`: make a journal with fees of so many thousandths of a price, of one without fees.
    Migrate {
        rate: u16,
    },
    /// `statement JOURNAL ACCT`: write the statement of this account.
    Statement {
        acct: AcctId,
    },
    /// `judge`: rule on the case that is the input.
    Judge,
    /// `buy WALLET SERVER SELLER MERCHANT PRODUCT LIMIT TID`: make this purchase, or go on with it.
    Buy {
        merchant: PartyId,
        product: u32,
        limit: Price,
        transaction: u64,
    },
    /// `sell STALL ADDRESS SERVER LINKS`: sell what the input has to so many consumers, one after the other.
    Sell {
        links: u32,
    },
    /// `credential CONSUMER UNTIL GROUPS`: write the credential of this consumer for these groups, up to this second, under the key that is the input.
    Credential {
        consumer: PartyId,
        until: u64,
        groups: Groups,
    },
    /// `buywith` with the words of `buy`: make this purchase with the request that is the input, or go on with it.
    BuyWith {
        merchant: PartyId,
        product: u32,
        limit: Price,
        transaction: u64,
    },
    /// `selloffers` with the words of `sell`: sell what the shelf of the input has to so many consumers, with the offers that stand before it.
    SellOffers {
        links: u32,
    },
    /// `play`: play the script that is the input, and write what it comes to.
    Play,
    /// `ship JOURNAL FROM`: write the records of the entries from this place on.
    Ship {
        from: u64,
    },
    /// `follow JOURNAL`: take the records of the input in, in order.
    Follow,
    /// `promote JOURNAL`: tell how many entries a standby holds.
    Promote,
}

/// The most workers of a server.
pub const MAX_WORKERS: u32 = 64;

/// The most links that a server takes, over all workers.
pub const MAX_LINKS: u32 = 10_000;

/// A law: the limits of a server in numbers.
pub fn limits()
    ensures { LimitsAre }
{}

/// The command that the words are, where they are one. A name is not empty and does not begin with `-`, and so is an address; a number is
/// decimal, and has no sign and no leading zero: a cap, an account, a consumer, a merchant, a product, a group and how many links a seller takes are below 2^32, the limit and the number of a
/// purchase, the last second of a credential and the place of `ship` below 2^64, a rate at most [`MAX_RATE`](nb_units::MAX_RATE) and a seed below 2^64, a
/// drill has at most [`nb_play::MAX_ORDERS`] orders, and a server from 1 to [`MAX_WORKERS`] workers, of at least one link each and at most
/// [`MAX_LINKS`] over all. The groups of a credential are as [`Groups::named`](nb_groups::Groups::named) has them.
pub fn command_of(alloc: Global, words: &[String]) -> Result<Option<Command>, NoMemory>
    ensures command { IfOk result (CommandIs (map string_bytes words.now)) }

    // No words, a word that is no name, and a call for help are told as no command, whatever memory there is.
    ensures err { OnErr result (MayBeRead (map string_bytes words.now)) }
{
    if words.is_empty() {
        return Ok(None);
    }
    if !are_names(words) {
        return Ok(None);
    }
    if is_help(words[0].as_str()) {
        return Ok(None);
    }
    let matches = match program(alloc)?.try_get_matches_from(words) {
        Ok(matches) => matches,
        Err(error) => return refused(error.kind()),
    };
    Ok(command_in(&matches))
}

/// The port that a worker listens on, where the first one listens on this: the worker's number behind it. None where there is no such port.
pub fn port_of(first: u16, worker: u32) -> Option<u16>
    ensures some { IfSome result (λ port. port ≡ first + worker) }
    ensures none { result ≡ None → 2 ^ 16 ≤ first + worker }
{
    let port = u64::from(first) + u64::from(worker);
    if port > u64::from(u16::MAX) {
        return None;
    }
    Some(port as u16)
}

// There was no memory, or the words are no command.
fn refused(kind: ErrorKind) -> Result<Option<Command>, NoMemory>
    ensures none { IfOk result (λ command. command ≡ None) }
    ensures why { IsErr result ↔ (kind ≡ errors.OutOfMemory) }
{
    match kind {
        ErrorKind::OutOfMemory => Err(NoMemory),
        _ => Ok(None),
    }
}

// Whether each word is a name.
fn are_names(words: &[String]) -> bool
    ensures { IsTrue result ↔ AllByRecursion IsName (map string_bytes words.now) }
{
    'looking: for word in words {
        if !is_name(word.as_str()) {
            return false;
        }
    }
    true
}

fn is_help(word: &str) -> bool
    ensures { IsTrue result ↔ (word.now ≡ codes "help") }
{
    word == "help"
}

fn is_name(word: &str) -> bool
    ensures { IsTrue result ↔ IsName word.now }
{
    !word.is_empty() && word.as_bytes()[0] != b'-'
}
