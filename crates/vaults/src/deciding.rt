// A vault that is asked for decisions, with what was opened of orders before the turn. The replies are written behind it.

use crate::asking::asked_by;
use crate::batch::{Batch, are_within};
use crate::house::House;
use crate::names::Names;
use crate::telling;
use nb_book::SlotHasher;
use nb_endorse::KeptStates;
use nb_escrow::OpenedOrder;
use nb_lines::Told;
use nb_msgs::{REPLY_ROOM, write_each};
use nb_port::MemDisk;
use nb_turns::MAX_REQUESTS;
use nb_units::NoMemory;
use nb_vault::Vault;

impl House {
    /// `decide BY NAME..`: asks for several requests in one turn, up to the drafts of their replies. Before it each is opened with the keys that who
    /// asks knows; a word NAME:OTHER has in place of that what was opened of another request, and NAME: nothing. Behind it the replies are
    /// written, and who asks knows their keys.
    pub fn decide(&mut self, told: &mut Told, words: &[&str]) -> Result<(), NoMemory> {
        match (&mut self.vault, words) {
            (Some(vault), [by, words @ ..]) => {
                let mut names: Vec<&str> = Vec::new(told.alloc());
                let mut memos = Vec::new(told.alloc());
                let hasher = vault.order_hasher();
                for word in words {
                    let (name, other) = word.split_once(':').unwrap_or((*word, *word));
                    names.push(name)?;
                    memos.push(opened(&self.names, other, &self.kept, &hasher))?;
                }
                let batch = Batch::of(self.alloc, &self.names, names.as_slice())?;
                let by = nb_lines::number(*by);
                if !decide_all(told, vault, by, &batch, memos.as_slice(), &mut self.kept)? {
                    return told.unclear();
                }
            }
            _ => return told.unclear(),
        }
        self.tell_lines(told)
    }
}

// What is opened of the request of this name, if there is one.
fn opened(
    names: &Names,
    name: &str,
    kept: &KeptStates,
    hasher: &SlotHasher,
) -> Option<OpenedOrder> {
    OpenedOrder::of(names.request(name)?.body(), kept, hasher)
}

// Whether something was asked, which it is where these are from 1 to 32 requests.
fn decide_all(
    told: &mut Told,
    vault: &mut Vault<MemDisk>,
    by: u64,
    batch: &Batch,
    memos: &[Option<OpenedOrder>],
    kept: &mut KeptStates,
) -> Result<bool, NoMemory> {
    let (bytes, asks) = (batch.bytes.as_slice(), batch.asks.as_slice());
    if asks.is_empty() || asks.len() > MAX_REQUESTS || !are_within(bytes, asks) {
        return Ok(false);
    }
    let mut ats = Vec::with_capacity(told.alloc(), MAX_REQUESTS)?;
    let mut drafts = Vec::with_capacity(told.alloc(), MAX_REQUESTS)?;
    let mut out = Vec::with_capacity(told.alloc(), REPLY_ROOM * MAX_REQUESTS)?;
    let answer = vault.decide_all(by, bytes, asks, memos, &mut ats, &mut drafts);
    write_each(drafts.as_slice(), kept, &mut out);
    telling::asked_all(told, asked_by(answer), &ats, &out);
    Ok(true)
}
