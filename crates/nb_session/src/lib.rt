//! One session: the frames of one link are answered against one desk, in turns that frames already read share.
//!
//! [`session`] takes all its memory at its start. Then it gathers the frames that it has read, up to as many as a turn has requests,
//! asks the clock once for each, opens the orders among them as far as it knows the keys, has them answered in one turn of the desk, up to
//! the drafts of their replies, and writes and sends the replies, each by writes of its own. So most of the hashing of an order is done
//! before its turn and behind it, beside the turns of others. Where no
//! whole frame is left it reads on, a piece at a time. It ends where the link ends or fails, where what was read is no frame, or where
//! as many frames were answered as one session answers.
//!
//! What is promised (`specs/Session.antt`, `Session`): the frames that were answered are the first of the bytes that were read; they
//! fall into turns that are as long as the reading allowed; each turn was one of the desk's vault, and its marks and the replies that
//! were sent are those of that turn; how the session ended says what is left of the link, how far it was read, and what failed.
//! What was read is answered before more is read. That its replies are sent by then, and that a call of the link which failed is not
//! tried again, is shown by the stored run of `houses`, over a link of which each call fails in turn.
//!
//! [`laws`] say what follows for the lines that the pass has seen, and how a session over a link that does not fail ends, by the bytes
//! that the link gives. Of fewer than 10,000 whole frames and nothing behind them it decides all, unless it had no memory to begin with,
//! a line of its own turns tells a fault, or 1,000 faults are told behind it.
//!
//! Left to others: where links come from, and several sessions, one after another and beside one another.
//!
//! Not said: that [`session`] finds memory where there is some; that each reply goes out by writes of its own, that the replies of a turn are
//! sent before more is read, and that a call which failed is not tried again: a link tells its bytes and its reads that gave some, and no other
//! call. What is opened of orders before their turn, and that replies are written when the turn was given back: what is answered does not
//! depend on it. That each turn passes both points of the gate, the one before any write and the other behind all: a gate has no clauses. That
//! memory is taken at the start alone: the calls behind it are given no allocator. That a session ends: a turn of the desk may wait for ever,
//! and each round gets on by a frame or a byte, or ends it. That frames which record nothing share a turn with others, which no line tells. The
//! trials of `houses` show the writes, the points and what is opened before; in one each call of the link fails in turn.
#![tactic(auto)]

mod answering;
mod ended;
mod gathering;
pub mod laws;
mod linked;
mod outside;
mod sending;

pub use ended::{MOST_FRAMES, Record, SessionEnd};
pub use linked::session;
