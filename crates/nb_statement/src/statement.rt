ghost use Rattle.std.specs.Prelude.{◌≡◌, ◌≤◌, ◌↔◌, [], Err, IfOk, vec_capacity};
ghost use Rattle.std.specs.Option.{is_some};
ghost use Rattle.nb_book.specs.Searches.{holder_in};
ghost use Rattle.nb_book.specs.Money.{balance};
ghost use Rattle.nb_book.specs.Laws.{opens};
ghost use Rattle.nb_vault.specs.Vaults.{entries_in};
ghost use Rattle.nb_statement.specs.declared.fault.StatementFault.TheVariants.{NoAccount};
ghost use Rattle.nb_statement.specs.declared.sending.TheConstants.{PIECE};
ghost use Rattle.nb_statement.specs.Statement.{IsHeldByNobody, Puts, Sends, Untouched, Wrote, is_known, lines_behind, statement};

use crate::fault::StatementFault;
use crate::lines::{closing, heading, line_of};
use crate::movement::movement_of;
use crate::sending::{PIECE, put, send_all};
use nb_entry::Entry;
use nb_port::{Disk, Sink};
use nb_units::AcctId;
use nb_vault::Vault;
use std::alloc::Global;

/// Writes the statement of an account to the sink, over all entries that the vault has recorded. 0 is the house's own account.
pub fn write<D: Disk, K: Sink>(
    alloc: Global,
    vault: &Vault<D>,
    acct: AcctId,
    sink: &mut K,
) -> Result<(), StatementFault>
    // after Ok the whole statement of the vault's entries was sent, after a write fault a part from its front, and the count of faults rose
    ensures wrote { Wrote (K.faults sink.old) (K.faults sink.new) (K.sent sink.old) (K.sent sink.new) acct (entries_in vault.now) result }
    ensures count { K.faults sink.old ≤ K.faults sink.new }
    // an account is refused exactly where it is not 0 and nobody holds it
    ensures refused { result ≡ Err (NoAccount acct) ↔ IsHeldByNobody (entries_in vault.now) acct }
    // where it is, and where there was no memory, the sink is as before
    ensures untouched { Untouched sink.old sink.new result }
{
    if !is_known_to(vault, acct) {
        return Err(StatementFault::NoAccount { acct });
    }
    let Ok(mut waits) = Vec::with_capacity(alloc, PIECE) else {
        return Err(StatementFault::NoMemory);
    };
    write_text(vault, acct, sink, &mut waits)
}

// Writes the whole text, in pieces.
fn write_text<D: Disk, K: Sink>(
    vault: &Vault<D>,
    acct: AcctId,
    sink: &mut K,
    waits: &mut Vec<u8>,
) -> Result<(), StatementFault>
    requires room { PIECE ≤ vec_capacity waits.old }
    requires none { waits.old.items ≡ [] }
    ensures sent { Sends (K.faults sink.old) (K.faults sink.new) (K.sent sink.old) (K.sent sink.new) (statement acct (entries_in vault.now)) result }
    ensures count { K.faults sink.old ≤ K.faults sink.new }
{
    put(sink, waits, heading(acct).as_slice())?;
    let balance = put_lines(vault, acct, sink, waits)?;
    put(sink, waits, closing(balance).as_slice())?;
    send_all(sink, waits.as_slice())
}

// Puts the lines of all entries, and gives the balance behind them.
fn put_lines<D: Disk, K: Sink>(
    vault: &Vault<D>,
    acct: AcctId,
    sink: &mut K,
    waits: &mut Vec<u8>,
) -> Result<u64, StatementFault>
    requires { PIECE ≤ vec_capacity waits.old }
    ensures stands { Puts (K.faults sink.old) (K.faults sink.new) (K.sent sink.old) (K.sent sink.new) waits.old.items waits.new.items (lines_behind acct [] (entries_in vault.now)) result }
    ensures balance { IfOk result (λ told. told ≡ balance (entries_in vault.now) acct) }
    ensures count { K.faults sink.old ≤ K.faults sink.new }
    ensures room { vec_capacity waits.new ≡ vec_capacity waits.old }
{
    // What every vault keeps: its list is Legal.
    vault.witness();
    let mut number = 0u32;
    let mut balance = 0u64;
    'entries: for at in 0..vault.entries() {
        if let Some(entry) = vault.entry(at) {
            if let Some(movement) = movement_of(acct, &entry) {
                number += 1;
                balance = movement.after(balance);
                let line = line_of(number, &movement, balance);
                put(sink, waits, line.as_slice())?;
            }
        }
    }
    Ok(balance)
}

// Whether the account is the house's, or a party holds it.
fn is_known_to<D: Disk>(vault: &Vault<D>, account: AcctId) -> bool
    ensures { result ≡ is_known (entries_in vault.now) account }
{
    account.0 == 0 || is_held(vault, account)
}

// Whether a party holds the account: some entry opens it.
fn is_held<D: Disk>(vault: &Vault<D>, account: AcctId) -> bool
    ensures { result ≡ is_some (holder_in (entries_in vault.now) account) }
{
    'entries: for at in 0..vault.entries() {
        if let Some(entry) = vault.entry(at) {
            if is_opened_by(account, &entry) {
                return true;
            }
        }
    }
    false
}

// Whether the entry opens the account.
fn is_opened_by(account: AcctId, entry: &Entry) -> bool
    ensures { result ≡ opens account entry.now }
{
    match *entry {
        Entry::Enrol { acct, .. } => acct == account,
        _ => false,
    }
}
