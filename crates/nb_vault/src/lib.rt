//! The house: what it recorded, and how requests are answered over it.
//!
//! A [`Vault`] is a book whose entries are durable on a disk, and the chronicle of what was done since it was opened. It is seen
//! (`specs/Vaults.antt`) as what it was opened with, its [`Line`](nb_turns::Line)s, whether an item is in doubt, and the disk.
//! [`Vault::open`] gives the entries that the content of the disk stands for (`specs/Holdings.antt`), or why there are none to give.
//! [`Vault::answer`] settles what is in doubt, decides, makes the entry of the verdict durable, and then hands the reply out;
//! [`Vault::answer_all`] does so for several requests at once, whose entries are one item. [`Vault::take_in`] records an entry that another
//! vault has at that place of its list (`specs/Taking.antt`).
//! What is promised: each answer is one turn of the house (`Turn` of nb_turns), and its lines are those of such a turn; a stop at any
//! moment of it leaves the entries before it or after it, each time with or without those in doubt; where a request is answered,
//! every later stop leaves its entry; and of every vault what `Keeps` says: its list is Legal and is what the disk holds, its lines
//! adopt what was last in doubt before them, its faults are the disk's, and its turns are numbered upwards. All memory is taken when
//! it is opened.
//!
//! Left to others: the frames of the requests, sending the replies, and the clock.
//!
//! Not said: that the disk is not called where nothing is in doubt and the verdicts record nothing: a read or a sync is let through; how many
//! calls of the disk an answer makes, which the trials of `vaults` count, and a worn vault makes none; what stands behind the last gate, but that
//! what an answer writes is said byte for byte; that [`Vault::open`] finds memory; that what was opened before a turn saves a hash in it, and
//! that replies are made behind it, which `bench/run` shows; and that [`Vault::answer`], [`Vault::answer_all`], [`Vault::decide_all`] and [`Vault::take_in`] take no
//! memory: they are given no allocator and have no answer for want of it, and each append has its room proved.
#![tactic(auto)]

mod answer;
mod deciding;
pub mod laws;
mod origin;
mod parts;
mod records;
mod restore;
mod taking;
mod telling;
mod vault;

pub use answer::{Answer, AnswerAll, AskAt};
pub use origin::Origin;
pub use taking::TakeIn;
pub use vault::{Vault, VaultFault};
