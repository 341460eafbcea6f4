//! What the programs of trials share: the words of a line, what is told of it, and the images of a disk that they ask for.
//!
//! Left to others: what a line does. No contract is on these functions, and none cites them: what the programs print is compared with what other programs wrote.
#![tactic(auto)]

mod images;
mod told;
mod words;

pub use images::image;
pub use told::Told;
pub use words::{number, numbers, spelled};
