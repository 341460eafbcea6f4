//! What a merchant keeps, and what it knows of one purchase.
//!
//! An [`Item`] is what is kept of one step; its bytes stand in `specs/Spelling.antt`, and read field by field in `specs/Reading.antt`. What holds of
//! all items is proved by the functions of [`laws`].
//!
//! A [`Stall`] is who a merchant is. It stands in the 80 bytes of the head of its journal, and any 80 bytes are the head of one (`specs/Head.antt`).
//!
//! What the kept items say of a purchase, a [`Sale`], and under which identifiers goods were sealed, stands in `specs/Sales.antt`. [`note`],
//! [`note_delivery`] and [`delivery_at`] keep both beside the items, so that neither is searched for (`specs/Ledger.antt`).
//!
//! What a merchant sends stands in `specs/Messages.antt`, a call for each message, but for a result that is passed on; a ticket, and what is sealed
//! under its session key, is opened by a call for each text (`specs/Tests.antt`). Goods are sealed part by part as they are asked for; what the parts are
//! made from is held with the sale.
//!
//! Left to others: what is done at a message, which items may stand one behind the other, the message that passes a result on (`nb_merchant`), and the
//! opening of a receipt (`nb_msgs`).
//!
//! Not said: that there is memory for a message or for a purchase more; and how much time a look-up takes: a purchase is looked up in an ordered
//! map, an identifier by its serial number.
#![tactic(auto)]

mod delivery;
mod head;
mod item;
pub mod laws;
mod ledger;
mod limits;
mod opening;
mod purchase;
mod sale;
mod sending;
mod stall;

pub use delivery::Delivery;
pub use item::Item;
pub use ledger::{delivery_at, note, note_delivery};
pub use limits::{ITEM_KIND, LAST_SERIAL, MAX_ITEM, MAX_PART};
pub use opening::{AskedPrice, open_for, open_goods_request, open_payment, open_price_request};
pub use purchase::Purchase;
pub use sale::{Held, Progress, Sale, Stage};
pub use sending::{endorsed_message, goods_message, quote_message};
pub use stall::Stall;
