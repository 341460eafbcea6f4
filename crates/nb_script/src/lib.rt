//! Scripts: what a simulation is told to set up and to do, line by line.
//!
//! [`read_script`] reads a script: the house's head and its cap, who buys and who sells, funds and shelves, and then what happens, in order. Each line is
//! words with a space between them. What a line says is a function of its words (`specs/Lines.antt`), each by its place; which line may stand behind
//! others, and what is set up then, stands in `specs/Settings.antt`; what a script says, or its first bad line, in `specs/Reads.antt`: whether a line is bad
//! is said by the lines before it, and by nothing that happens. That no text says two things is proved by a function of [`laws`].
//!
//! A party is enrolled, and an account funded, exactly where nothing happens before, but that the clock is set, the entry that does so may come next in the
//! house's list (`NextUnder` of `nb_book`), and there is room for it.
//!
//! Left to others: what happens in the world that is set up, and how long a script is at most ([`MAX_SCRIPT`] is what its readers go by).
//!
//! Not said: when there is no memory, and how much is taken. Each look-up of a party is one of the house's book; a shelf is compared with those before it.
#![tactic(auto)]

mod act;
mod fault;
pub mod laws;
mod limits;
mod line;
mod scene;
mod script;
mod words;

pub use act::{Act, Addressee};
pub use fault::PlayFault;
pub use limits::{
    MAX_ALL_GOODS, MAX_BODY_DIGITS, MAX_LENGTH, MAX_LINES, MAX_SCRIPT, MAX_SCRIPT_CAP,
};
pub use line::{Consumer, Merchant, Shelf};
pub use script::{Script, read_script};
