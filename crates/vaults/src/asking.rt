// A vault that is asked.

use crate::batch::{Batch, are_within};
use crate::house::House;
use crate::names::Request;
use crate::telling;
use nb_desk::{Asked, AskedAll};
use nb_lines::Told;
use nb_msgs::REPLY_ROOM;
use nb_port::MemDisk;
use nb_turns::MAX_REQUESTS;
use nb_units::NoMemory;
use nb_vault::{Answer, AnswerAll, Vault};

impl House {
    /// `ask BY NAME`: asks for one request, in the name of this number.
    pub fn ask(&mut self, told: &mut Told, words: &[&str]) -> Result<(), NoMemory> {
        let [by, name] = words else {
            return told.unclear();
        };
        match (&mut self.vault, self.names.request(*name)) {
            (Some(vault), Some(request)) => {
                answer(told, vault, nb_lines::number(*by), request)?;
                self.tell_lines(told)
            }
            _ => told.unclear(),
        }
    }

    /// `turn BY NAME..`: asks for several requests in one turn.
    pub fn turn(&mut self, told: &mut Told, words: &[&str]) -> Result<(), NoMemory> {
        match (&mut self.vault, words) {
            (Some(vault), [by, names @ ..]) => {
                let batch = Batch::of(self.alloc, &self.names, names)?;
                if !answer_all(told, vault, nb_lines::number(*by), &batch)? {
                    return told.unclear();
                }
            }
            _ => return told.unclear(),
        }
        self.tell_lines(told)
    }
}

fn answer(
    told: &mut Told,
    vault: &mut Vault<MemDisk>,
    by: u64,
    request: &Request,
) -> Result<(), NoMemory> {
    let mut out = Vec::with_capacity(told.alloc(), REPLY_ROOM)?;
    let answer = vault.answer(by, request.kind(), request.body(), request.moment, &mut out);
    let asked = match answer {
        Answer::Answered { at } => Asked::Served { at },
        Answer::DiskFault { before, after } => Asked::DiskFault { before, after },
        Answer::Worn { faults } => Asked::Worn { faults },
    };
    telling::asked(told, asked, &out);
    Ok(())
}

// Whether something was asked, which it is where these are from 1 to 32 requests.
fn answer_all(
    told: &mut Told,
    vault: &mut Vault<MemDisk>,
    by: u64,
    batch: &Batch,
) -> Result<bool, NoMemory> {
    let (bytes, asks) = (batch.bytes.as_slice(), batch.asks.as_slice());
    if asks.is_empty() || asks.len() > MAX_REQUESTS || !are_within(bytes, asks) {
        return Ok(false);
    }
    let mut ats = Vec::with_capacity(told.alloc(), MAX_REQUESTS)?;
    let mut out = Vec::with_capacity(told.alloc(), REPLY_ROOM * MAX_REQUESTS)?;
    let answer = vault.answer_all(by, bytes, asks, &mut ats, &mut out);
    telling::asked_all(told, asked_by(answer), &ats, &out);
    Ok(true)
}

// The answer of a vault, as a desk gives it.
pub(crate) fn asked_by(answer: AnswerAll) -> AskedAll {
    match answer {
        AnswerAll::Answered => AskedAll::Served,
        AnswerAll::DiskFault { before, after } => AskedAll::DiskFault { before, after },
        AnswerAll::Worn { faults } => AskedAll::Worn { faults },
    }
}
