//! The text of a report.

ghost use Rattle.std.specs.Prelude.{◌≡◌, ◌++◌, OnOk, IfOk};
ghost use Rattle.std.specs.Fmt.{decimal};
ghost use Rattle.std.specs.List.{flat_map};
ghost use Rattle.nb_book.specs.Money.{balance};
ghost use Rattle.nb_player.specs.Report as reports;

use crate::rows::{accounts_of, purchases_of};
use nb_book::Book;
use nb_consumer::Phase;
use nb_simulator::World;
use nb_units::{AcctId, NoMemory, PartyId};
use std::alloc::Global;
use std::collections::BTreeSet;

// A word and a number in decimal.
fn count(text: &mut Vec<u8>, word: &[u8], n: u64) -> Result<(), NoMemory>
    ensures { OnOk result (text.new.items ≡ text.old.items ++ reports.counted word.now n) }
{
    let mut digits = itoa::Buffer::new();
    text.extend_from_slice(word)?;
    text.extend_from_slice(digits.format(n).as_bytes())?;
    Ok(())
}

// `packets N`, `commits N`.
fn put_first(text: &mut Vec<u8>, world: &World) -> Result<(), NoMemory>
    ensures { OnOk result (text.new.items ≡ text.old.items ++ reports.first_lines world.now.world) }
{
    count(text, b"packets ", u64::from(world.packets()))?;
    text.extend_from_slice(b"\n")?;
    count(text, b"commits ", u64::from(world.list().len()))?;
    text.extend_from_slice(b"\n")?;
    Ok(())
}

// What is in an account: account 0 is the house's own, and an account that nobody holds has nothing.
fn balance_in(book: &Book, account: u32) -> u64
    ensures { result ≡ balance book.now.entries (reports.account account) }
{
    nb_book::laws::unheld_is_empty();
    if account == 0 {
        return book.fees();
    }
    match book.account(AcctId(account)) {
        Some(held) => held.balance,
        None => 0,
    }
}

// `acct A balance B`.
fn put_account(text: &mut Vec<u8>, world: &World, account: u32) -> Result<(), NoMemory>
    ensures { OnOk result (text.new.items ≡ text.old.items ++ reports.account_line world.now.world.durable account) }
{
    count(text, b"acct ", u64::from(account))?;
    count(text, b" balance ", balance_in(world.list(), account))?;
    text.extend_from_slice(b"\n")?;
    Ok(())
}

// The word of a phase, with the number that it has.
fn put_phase(text: &mut Vec<u8>, phase: Option<Phase>) -> Result<(), NoMemory>
    ensures { OnOk result (text.new.items ≡ text.old.items ++ reports.phase_words phase) }
{
    match phase {
        None => {}
        Some(Phase::Ticketing) => text.extend_from_slice(b"ticketing")?,
        Some(Phase::Asked) => text.extend_from_slice(b"asked")?,
        Some(Phase::Wanted) => text.extend_from_slice(b"wanted")?,
        Some(Phase::Ordered) => text.extend_from_slice(b"ordered")?,
        Some(Phase::Paid { len }) => count(text, b"paid ", len)?,
        Some(Phase::Refused { code }) => count(text, b"refused ", u64::from(code))?,
        Some(Phase::Foul) => text.extend_from_slice(b"foul")?,
    }
    Ok(())
}

// `purchase C TID PHASE`.
fn put_purchase(
    text: &mut Vec<u8>,
    world: &World,
    consumer: u32,
    number: u64,
) -> Result<(), NoMemory>
    ensures { OnOk result (text.new.items ≡ text.old.items ++ reports.purchase_line world.now.world.consumers (consumer, number)) }
{
    count(text, b"purchase ", u64::from(consumer))?;
    count(text, b" ", number)?;
    text.extend_from_slice(b" ")?;
    put_phase(text, world.phase(PartyId(consumer), number))?;
    text.extend_from_slice(b"\n")?;
    Ok(())
}

// The lines of accounts.
fn put_accounts(text: &mut Vec<u8>, world: &World, accounts: BTreeSet<u32>) -> Result<(), NoMemory>
    ensures { OnOk result (text.new.items ≡ text.old.items ++ flat_map (reports.account_line world.now.world.durable) accounts.keys) }
{
    let mut accounts = accounts;
    'rows: while let Some(account) = accounts.pop_first() {
        put_account(text, world, account)?;
    }
    Ok(())
}

// The lines of purchases.
fn put_purchases(
    text: &mut Vec<u8>,
    world: &World,
    purchases: BTreeSet<(u32, u64)>,
) -> Result<(), NoMemory>
    ensures { OnOk result (text.new.items ≡ text.old.items ++ flat_map (reports.purchase_line world.now.world.consumers) purchases.keys) }
{
    let mut purchases = purchases;
    'rows: while let Some((consumer, number)) = purchases.pop_first() {
        put_purchase(text, world, consumer, number)?;
    }
    Ok(())
}

// The report of a world.
pub(crate) fn report_of(alloc: Global, world: &World) -> Result<Vec<u8>, NoMemory>
    ensures { IfOk result (λ text. reports.ReportIs world.now.world text.items) }
{
    let accounts = accounts_of(alloc, world.list())?;
    let purchases = purchases_of(alloc, world)?;
    let mut text = Vec::new(alloc);
    put_first(&mut text, world)?;
    put_accounts(&mut text, world, accounts)?;
    put_purchases(&mut text, world, purchases)?;
    Ok(text)
}
