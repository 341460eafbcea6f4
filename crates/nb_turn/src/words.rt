//! The words and the slot of a turn's table.

/// The word that is [`HELD`] while a pass has the turn, and else [`FREE`].
pub(crate) const TURN_WORD: usize = 0;
/// The word that counts the lines.
pub(crate) const COUNT_WORD: usize = 1;
/// The word that has a bit for each number that a pass was made of.
pub(crate) const NUMBERS_WORD: usize = 2;
/// The slot of the value.
pub(crate) const VALUE_SLOT: usize = 0;
/// The turn is free.
pub(crate) const FREE: u64 = 0;
/// A pass has the turn.
pub(crate) const HELD: u64 = 1;
/// How many numbers there are for passes, from 0 on: one for each bit of a word.
pub const MAX_PASSES: u64 = 64;
