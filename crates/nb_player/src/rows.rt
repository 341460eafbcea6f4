//! What a report has rows of, in order.

ghost use Rattle.std.specs.Prelude.{IfOk, OnOk};
ghost use Rattle.nb_player.specs.Report.{AddsAccount, AddsPurchases, AreAccounts, ArePurchases};

use nb_book::Book;
use nb_entry::Entry;
use nb_simulator::World;
use nb_units::NoMemory;
use std::alloc::Global;
use std::collections::BTreeSet;

// Adds the account that an entry opens.
fn add_account(accounts: &mut BTreeSet<u32>, entry: &Entry) -> Result<(), NoMemory>
    ensures { OnOk result (AddsAccount accounts.old.keys entry.now accounts.new.keys) }
{
    if let Entry::Enrol { acct, .. } = entry {
        let _new = accounts.insert(acct.0)?;
        return Ok(());
    }
    Ok(())
}

// The accounts that entries open, in ascending order.
pub(crate) fn accounts_of(alloc: Global, book: &Book) -> Result<BTreeSet<u32>, NoMemory>
    ensures { IfOk result (λ rows. AreAccounts book.now.entries rows.keys) }
{
    let mut accounts = BTreeSet::new(alloc);
    for i in 0..book.len() {
        match book.entry(i) {
            Some(entry) => add_account(&mut accounts, &entry)?,
            None => unreachable!(),
        }
    }
    Ok(accounts)
}

// Adds the purchases of a consumer that have these numbers.
fn add_purchases(
    purchases: &mut BTreeSet<(u32, u64)>,
    consumer: u32,
    numbers: &[u64],
) -> Result<(), NoMemory>
    ensures { OnOk result (AddsPurchases purchases.old.keys consumer numbers.now purchases.new.keys) }
{
    for number in numbers {
        let _new = purchases.insert((consumer, *number))?;
    }
    Ok(())
}

// The purchases that consumers know, in ascending order.
pub(crate) fn purchases_of(alloc: Global, world: &World) -> Result<BTreeSet<(u32, u64)>, NoMemory>
    ensures { IfOk result (λ rows. ArePurchases world.now.world.consumers rows.keys) }
{
    let mut purchases = BTreeSet::new(alloc);
    for i in 0..world.consumers() {
        match world.consumer(i) {
            Some(known) => add_purchases(&mut purchases, known.0.0, known.1)?,
            None => unreachable!(),
        }
    }
    Ok(purchases)
}
