//! The house's decision on one request.
//!
//! [`decide`] takes the book, the journal's head and a request, and gives the one reply and at most one entry: the
//! `verdict` of `specs/Verdict.antt`, over the list of the entries that are held. The tests of each kind stand in a module of
//! their own, in their order, a line each: an endorsed order in `Orders.antt` and, from its payment on, in `Payments.antt`; a status
//! query in `Statuses.antt`; a request for a ticket in `Tickets.antt`; an enrolment in `Enrolments.antt`; a fund in
//! `Fundings.antt`. What they share stands in `Checks.antt` and `Held.antt`, and what the parties of an order are told in
//! `Settlements.antt`. The layout of what may be asked for is `nb_body`'s, and that of a request for a ticket `nb_ticket`'s. In `src/` each of these has its file: `order.rt`, `payment.rt`, `status.rt`, `ticket.rt`, `enrolment.rt`,
//! `funding.rt`, `checks.rt`, `settlement.rt`.
//!
//! [`decide_with`] is the same, with states of keys that are kept from one request to the next, and with what was opened of an order before its turn:
//! an [`OpenedOrder`] holds what opening those bytes under those keys gave, and what is decided does not depend on it.
//!
//! A decision's entry is legal after those held, and within the journal's cap. No memory is taken. What holds of every
//! verdict stands in `specs/Laws.antt` and `Replies.antt`, and is proved by the functions of [`laws`]. Among it stands, in words
//! that cite no test, where exactly an order is paid (`Payable.antt`) and a ticket is granted (`Grants.antt`), what each refusal
//! claims of the entries and the request (`Claims.antt`), and what any other reply tells, and under which keys (`Replies.antt`).
//!
//! Left to others: recording the entry, the bytes of the reply, and the moment's clock. Worked cases of every refusal stand in
//! the stored run of `runs`, whose lines `examples/runs` writes.
//!
//! Not said: that no memory is taken: no call is given an allocator. That a ticket is granted once: each request for one is granted, and those of one moment and number get one session key. That the
//! parties of a kept result are those of the order that comes again: two endorsements with one digest are taken for one, and that there are no
//! two is no claim of the proofs. What the order's checksum, its two other digests and the memos say: the order's tag or the endorsement's digest
//! is over them, and nothing else is tested of them. That the key in an endorsement opens the goods, which the house never sees; and whether the
//! moment is right, which the caller gives.
#![tactic(auto)]

mod checks;
mod decision;
mod enrolment;
mod funding;
mod head;
pub mod lasting;
pub mod laws;
mod opened;
mod order;
mod payment;
mod settlement;
mod status;
mod ticket;

pub use decision::{Decision, decide, decide_with};
pub use head::Head;
pub use opened::OpenedOrder;
pub use order::Presented;
pub use settlement::{PaymentOutcome, RefusalReason, Settlement};
