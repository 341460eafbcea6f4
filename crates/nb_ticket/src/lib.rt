//! Tickets: by one a consumer and a merchant share a key for a while, which the house made.
//!
//! A consumer asks the house for a ticket to a merchant, a [`TicketAsk`]. The house makes a session key ([`session_key`]), seals a
//! [`Ticket`] under the merchant's key ([`write_ticket`]), and that with the session key under the consumer's, a [`Granted`]
//! ([`grant`]). The consumer opens the grant ([`open_grant`]) and shows the ticket to the merchant, who opens it ([`open_ticket`]): it
//! holds for one merchant, and up to its last second.
//!
//! The layouts stand in `specs/Spelling.antt`, each as a function of the value, and in `specs/Reading.antt`, field by field
//! with the place of each. That they are the two sides of one thing is proved by the functions of [`laws`]: what was
//! spelled is read as that value, and what was read is spelled as those bytes. What is sealed stands in `specs/Sealed.antt`,
//! and what opening gives in `specs/Opening.antt`.
//!
//! Two of the house's calls over a key have one over its state beside them: [`request_ok_with`], [`session_key_with`].
//!
//! Left to others: whose keys these are, whether the parties are enrolled, and the clock. No memory is taken.
//!
//! Not said: to whom the house grants tickets, which `nb_escrow` decides; and that two requests never get one session key: it is a function of
//! the house's key, the parties, the number and the moment, and that HMAC is hard to find two texts for is no claim of the proofs.
#![tactic(auto)]

mod ask;
mod granted;
pub mod laws;
mod session;
mod ticket;

pub use ask::{TicketAsk, request, request_ok, request_ok_with};
pub use granted::{GRANT_BYTES, GRANT_LABEL, GrantFault, Granted, grant, open_grant};
pub use nb_units::Malformed;
pub use session::{TICKET_LIFE, session_key, session_key_with, until};
pub use ticket::{TICKET_BYTES, TICKET_LABEL, Ticket, TicketFault, open_ticket, write_ticket};
