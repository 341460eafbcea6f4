//! What the program does, on its words: `init JOURNAL CAP` makes a journal whose head is the input, `batch JOURNAL` answers the
//! frames of the input, in order, over the house that the journal holds, `drill SEED ORDERS` makes a journal, answers the frames that the seed gives,
//! and sends one line of what came of them, `serve JOURNAL ADDRESS WORKERS SESSIONS` is told as a [`Job`], `migrate JOURNAL PERMILLE` makes a
//! journal with fees of one without them, which is the input, `statement JOURNAL ACCT` writes the statement of an account to the
//! output, `ship JOURNAL FROM` writes the records of its entries, `follow JOURNAL` takes the records of the input into a standby's journal, `promote JOURNAL` tells how many entries it has, `judge` rules on the case that is the input, `play` plays the script that is the input, `credential CONSUMER UNTIL GROUPS` writes a credential under the key that is the input, and `buy` and `sell` are told as a
//! [`Job`], too, `sell` with the shelf that is the input, and so are `buywith`, with the request that is the input, and `selloffers`, with offers and a shelf.
//!
//! [`nb_words::command_of`] reads the words, `nb_commands` has what each comes to, and `nb_answers` what answers requests: `batch`, `follow` and `drill`. A script
//! is played here, by [`nb_player::play`]. [`run`] is all of it over any
//! source, sink, disk and clock. Its contract is one sentence over the command that the words are (`specs/Run.antt`): how the run ends and why, what is written to the output, byte for
//! byte, what stays as it was, and what a stop at any moment of a batch leaves of the disk. What a command comes to has a module of its own: `specs/Play.antt`, `Batch.antt` and
//! `Drill.antt` of `nb_answers`, and in `nb_commands` one for each other command.
//!
//! Left to others: the real terminal, file and clock, and the lock on the file.
//!
//! Not said: what `nb_platform` and `main` do: they open, make and lock the file, read the words and print the line. That nothing of a report is written before all of the script was played: what is written is said,
//! and not when. What `nb_commands` and `nb_answers` do not say is not said here either.
#![tactic(auto)]

pub mod laws;
mod playing;
mod program;

pub use program::run;
