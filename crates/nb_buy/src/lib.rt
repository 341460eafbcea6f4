//! One purchase of a consumer over two links, the house's and the seller's, with the journal in which its wallet stands.
//!
//! [`buy`] starts a purchase, or has one that is going on send its last message again, or ask the house what became of its order; of one that is over nothing is
//! sent. From then on it hears the next frame of the peer whose answer is waited for, carries the consumer's step out, and goes on, until the purchase is over,
//! nothing more comes of that peer, [`MOST_FRAMES`] were read, or a step cannot be taken. A step's message is spelled, then its item is
//! appended to the journal, and then the message is sent, over the house's link or over the seller's. A frame that is ignored is passed over. Where nothing more comes
//! of the seller of a purchase that was ordered, since its link ended, a read of it or a write to it failed, or what it gave is no frame or a refusal, the house is asked what
//! became of the order, once for that reason. The goods of a purchase that was paid are written at its end, and each time it is made again. Goods that
//! a frame just opened want no memory to be written.
//!
//! What is done is seen as a list of acts (`specs/Run.antt`): a start, a frame that is heard, a word that nothing is waited for any more. What each
//! keeps and sends is the row of the consumer's table, and which may come next is a rule over the acts alone, so that the order in which frames were
//! read is the list itself. What is promised (`specs/Bought.antt`): the journal grew by what the acts of such a list keep; the frames that they hear
//! are the first that came over each link, and what they send was sent to each, up to a write that failed; nothing is heard right behind a refusal,
//! and no peer behind a write to it that failed; and each end says exactly why nothing more was done. Where a step could not be taken nothing of it
//! was sent. [`laws`] say what a stop leaves, also where an append failed, that a wallet whose journal held what its consumer kept goes on from there
//! next time, that a purchase that ended as paid has the same goods each time, that one of which a receipt was heard is over as that says, and that
//! one whose links give the frames that bring it to its end, at most [`MOST_FRAMES`] and none of them a refusal, comes to it, where no call fails,
//! the wallet has room and there is memory.
//!
//! That a message is sent behind its item is said so: where an append fails nothing of that act was sent. Links and disks tell no time that they share.
//!
//! Left to others: the opening of the wallet, links and how long they wait, what is told outside of an end. A step of another purchase of the same wallet is carried
//! out as any.
//!
//! Not said: that there is no want of memory where there is memory, which the stored run of `deals` shows; that a link is read no further than up to the frame that is
//! waited for; and that goods which a frame just opened are not opened anew.
#![tactic(auto)]

mod acting;
mod buying;
mod ended;
mod hearing;
pub mod laws;
mod peer;
mod sides;
mod standing;
mod trading;
mod writing;

pub use buying::buy;
pub use ended::{BuyEnd, Lost, MOST_FRAMES};
pub use peer::{Over, Peer};
