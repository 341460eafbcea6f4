//! What a merchant does on one consumer's link, over that and the house's, with the journal in which its stall stands.
//!
//! [`sell_link`] hears frame by frame of the consumer's link, each at the moment that the clock gives behind it, and carries the merchant's step out: its message is
//! spelled, then its item is appended to the journal, and then the message is sent. Behind a message to the house one frame of the house's link is heard, and else
//! the consumer's next. A message for another consumer than the one whose message was last read is not sent; it stays kept, and is passed on where that consumer
//! sends its order again. A frame that is ignored, also for a body that spells no message, ends the link, and so does a refusal ([`laws::refusal_ends`]).
//!
//! What is done is seen as a list of acts (`specs/Run.antt`): a frame of the consumer's with its moment, a frame of the house's. What each keeps and
//! sends is the row of the merchant's table, and whose frame comes next follows from the row before, so that the order in which frames were read is
//! the list itself. What is promised (`specs/Sold.antt`): the journal grew by what the acts of such a list keep; the frames that they hear are the
//! first that came over each link; their moments are what the clock gave, where the clock tells; what they send was sent to each, up to a write that
//! failed, behind which nothing is done; and each end says exactly why no more was. The acts were carried out one by one, each from where the one
//! before it came to, and no bytes of a link were read but for a frame that was heard, or up to where none came any more. Where a step could not be
//! taken nothing of it was sent.
//!
//! [`laws`] say what a stop leaves, also where an append failed, that a merchant goes on from there next time, that behind every link on which no item was lost
//! the journal holds what the merchant kept, where it did before, that what was carried out is never more than its cap and is told as full only where it holds as much, and that what was endorsed is
//! endorsed again with the same bytes, or answered with the kept result, also by a merchant that started again with another shelf.
//!
//! Behind a lost step the merchant may know an item that the journal has not: what says that the journal holds what the merchant kept is then of no link more, so that a
//! caller stops there, or starts the merchant again with what the journal holds. What a link gave behind the last frame that was heard is let go with the link's
//! reader: it came with the same read as that frame.
//!
//! Left to others: the opening of the stall, links and how long they wait, one link behind another, what is told outside of an end.
//!
//! Not said: that links which bring the frames of a sale bring it to its end, which takes that two lists of acts over the same links begin alike; at which moment of
//! the disk a message was sent, since links and disks tell no time that they share; and that there is no want of memory where there is memory. The stored run of
//! `deals` shows sales to their end.
#![tactic(auto)]

mod acting;
mod ended;
mod hearing;
pub mod laws;
mod peer;
mod selling;
mod serving;
mod sides;

pub use ended::{MOST_FRAMES, SellEnd};
pub use selling::sell_link;
