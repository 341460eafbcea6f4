//! The world of a simulation with its real parties: consumers, merchants and a house that do what the crates of the program do.
//!
//! What its consumers, merchants and house do are the tables of `nb_consumer` and `nb_merchant` and the verdict of `nb_escrow`, and what they read
//! are the messages of `nb_msgs` (`specs/Rules.antt`). In it laws hold over every list of events from every lawful set-up, with every loss,
//! repetition and reordering of packets, stops, restarts, and with packets of injectors, which may hold any key: a purchase that ended by a receipt
//! which the house made for its consumer ended as the house's list says (`specs/Ends.antt`); and the key of a payment whose request a
//! merchant's step made opens what the consumer holds to the goods of the product, or that is a collision (`specs/Goods.antt`). What a judge rules on the evidence of such an order and such goods
//! follows from the verdict and from a merchant's steps alone (`specs/Judged.antt`). The functions of [`laws`] prove it.
//!
//! Left to others: what one consumer, one merchant and one verdict do alone; the bytes of journals and of a disk.
#![tactic(auto)]

pub mod laws;
