//! What each command comes to over a source, a sink and a disk, but for those that answer requests, and playing a script. The words are read already, and an [`Ending`] says
//! how the program ends.
//!
//! [`make_journal`] and [`move_journal`] make a journal, [`write_statement`], [`ship_records`] and [`promote`] open the house that one holds and tell of
//! its entries. Of the input [`rule_on`] reads a case, as a [`nb_judge::CaseBytes`], which rules,
//! and [`grant`] the key of [`nb_groups::credential`]. A [`Job`] over links is told, and not done: [`take_stock`] reads the shelf of one who sells, as a
//! [`nb_price::Catalogue`], [`take_offers`] offers as well, as [`nb_groups::Offers`], [`ask_with`] the request of one who buys. [`read_most`] reads a whole input, up to a limit. Each has a module of
//! `specs`, which says what it comes to: what is read, what is written, byte for byte, and why it ends so.
//!
//! Left to others: the words (`nb_words`), answering frames (`nb_answers`), playing, and which of these is done at which words (`nb_run`), the jobs (`nb_work`), the real terminal, file
//! and clock.
//!
//! Not said: what [`make_journal`] leaves on a disk without a journal where the disk failed, and
//! what a stop leaves there within it, and within [`move_journal`] up to where the journal is laid: there was no entry to lose, or it stands in the
//! input. How many calls of the disk these two make, and in which order, which the trials of `runs` count. That there is memory, and how much a call holds, also [`rule_on`] of its case. The bytes of a source that
//! does not tell; that a count rises only where a call fails: one that was interrupted and worked has raised it too.
#![tactic(auto)]

mod asking;
mod ending;
mod granting;
mod init;
mod input;
mod judging;
mod migrate;
mod offering;
mod promoting;
mod selling;
mod shipping;
mod statement;

pub use asking::ask_with;
pub use ending::{
    BAD_INPUT, BAD_WORDS, CLEAN, DISK_FAILED, Ending, FRAME_LIMIT, JOURNAL_FULL, Job, LINK_FAILED,
    NO_ACCOUNT, NO_JOURNAL, NO_PLACE, NOT_MADE, OUT_OF_MEMORY, Outcome, PORT_FAILED, SINK_FAILED,
    SOURCE_FAILED, UNPAID, statuses,
};
pub use granting::{GrantEnd, grant};
pub use init::{InitEnd, make_journal};
pub use input::{InputRead, read_most};
pub use judging::{JudgeEnd, rule_on};
pub use migrate::{MigrateEnd, move_journal};
pub use offering::take_offers;
pub use promoting::promote;
pub use selling::take_stock;
pub use shipping::ship_records;
pub use statement::write_statement;
