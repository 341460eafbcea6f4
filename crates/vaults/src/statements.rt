// Statements of the accounts of the vault that is open.

use crate::house::House;
use nb_lines::Told;
use nb_port::{MemDisk, MemSink};
use nb_statement::StatementFault;
use nb_units::{AcctId, NoMemory};
use nb_vault::Vault;

impl House {
    /// `statement ACCOUNT CALL..`: writes the statement of an account to a sink whose calls of these numbers fail, from 1 on, and tells how
    /// that went and what was sent.
    pub fn statement(&mut self, told: &mut Told, words: &[&str]) -> Result<(), NoMemory> {
        match &self.vault {
            Some(vault) => written(told, vault, words),
            None => told.unclear(),
        }
    }
}

fn written(told: &mut Told, vault: &Vault<MemDisk>, words: &[&str]) -> Result<(), NoMemory> {
    let Some(account) = words.first() else {
        return told.unclear();
    };
    let Ok(account) = u32::try_from(nb_lines::number(*account)) else {
        return told.unclear();
    };
    let fails = nb_lines::numbers(told.alloc(), words, 1)?;
    let mut sink = MemSink::new(told.alloc(), &fails)?;
    match nb_statement::write(told.alloc(), vault, AcctId(account), &mut sink) {
        Ok(()) => told.text("written"),
        Err(StatementFault::NoAccount { acct }) => told.show("nobody holds ", &acct.0),
        Err(StatementFault::WriteFault) => told.text("a write failed"),
        Err(StatementFault::NoMemory) => told.text("no memory"),
    };
    told.bytes(": ", sink.sent()).done()
}
