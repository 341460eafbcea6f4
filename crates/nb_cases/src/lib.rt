//! What crosses crates and stands beside none of them: the one law that what is written of a grant is what its two parties open; and, as tests, what
//! only a real file, stream or socket shows, and what the adapters over them do where a call is interrupted, does a part or fails.
//!
//! Left to others: what a grant says, and all that memory forms show.
#![tactic(auto)]

pub mod laws;
#[cfg(test)]
mod tests;
