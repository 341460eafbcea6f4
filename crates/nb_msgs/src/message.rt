ghost use Rattle.std.specs.Prelude.{◌≡◌, ◌≤◌};
ghost use Rattle.nb_units.specs.declared.frames.TheConstants.{LAST_KIND};
ghost use Rattle.nb_msgs.specs.Bodies.{kind_of};

use nb_body::{Enrolment, Funding, StatusQuery};
use nb_endorse::Refusal;
use nb_ticket::TicketAsk;
use nb_units::frames::{
    DONE_REPLY, ENROL_REQUEST, FUND_REQUEST, GOODS_REPLY, GOODS_REQUEST, GRANT_REPLY,
    ORDER_REQUEST, PAYMENT_REPLY, PAYMENT_REQUEST, PRICE_REQUEST, QUOTE_REPLY, REFUSED_REPLY,
    RESULT_REPLY, STATUS_REPLY, STATUS_REQUEST, TICKET_REQUEST,
};
use nb_units::{AcctId, Blob, PartyId};

/// What one frame says: a variant for each kind, in the order of the kinds. What is sealed is told as it stands, sealed; how long it
/// may be at most is said by the constants of this crate, of `nb_body`, of `nb_ticket`, of `nb_endorse` and of `nb_goods`.
#[derive(Debug, Drop)]
pub enum Message {
    /// A consumer asks a merchant for a price.
    PriceAsk {
        /// The ticket, sealed for the merchant: at most [`TICKET_BYTES`](nb_ticket::TICKET_BYTES) bytes.
        ticket: Blob,
        /// A [`PriceRequest`](nb_body::PriceRequest), sealed: at most
        /// [`MAX_SEALED_PRICE_REQUEST`](crate::MAX_SEALED_PRICE_REQUEST) bytes.
        sealed: Blob,
    },
    /// A merchant answers with a price.
    Quote {
        /// The consumer's number of the purchase, 8 bytes wide.
        transaction: u64,
        /// A [`Quote`](nb_body::Quote), sealed: at most [`MAX_SEALED_QUOTE`](crate::MAX_SEALED_QUOTE) bytes.
        sealed: Blob,
    },
    /// A consumer asks a merchant for goods.
    GoodsAsk {
        /// The ticket, sealed for the merchant: at most [`TICKET_BYTES`](nb_ticket::TICKET_BYTES) bytes.
        ticket: Blob,
        /// A [`GoodsRequest`](nb_body::GoodsRequest), sealed: at most
        /// [`MAX_SEALED_GOODS_REQUEST`](crate::MAX_SEALED_GOODS_REQUEST) bytes.
        sealed: Blob,
    },
    /// A merchant sends a part of the goods.
    Goods {
        /// The consumer's number of the purchase, 8 bytes wide.
        transaction: u64,
        /// A [`GoodsHead`](nb_body::GoodsHead), sealed: at most [`MAX_SEALED_HEAD`](crate::MAX_SEALED_HEAD) bytes.
        head: Blob,
        /// A part of the goods, enciphered: at most [`PART_BYTES`](nb_goods::PART_BYTES) bytes.
        part: Blob,
    },
    /// A consumer sends a merchant its order.
    Order {
        /// The ticket, sealed for the merchant: at most [`TICKET_BYTES`](nb_ticket::TICKET_BYTES) bytes.
        ticket: Blob,
        /// A [`PaymentRequest`](nb_body::PaymentRequest), sealed: at most [`MAX_SEALED_PAYMENT`](crate::MAX_SEALED_PAYMENT) bytes.
        sealed: Blob,
    },
    /// A merchant hands in an order that it endorsed.
    Endorsed {
        /// The merchant's number, 4 bytes wide.
        merchant: PartyId,
        /// The endorsement, sealed: at most [`MAX_ENDORSED`](nb_body::MAX_ENDORSED) bytes.
        sealed: Blob,
    },
    /// The house tells a merchant the result of an order.
    Result {
        /// The merchant's receipt, sealed: at most [`RECEIPT_BYTES`](nb_endorse::RECEIPT_BYTES) bytes.
        merchant: Blob,
        /// The consumer's receipt, sealed: at most as many.
        consumer: Blob,
    },
    /// A merchant passes the result of an order on to the consumer.
    Passed {
        /// The consumer's number of the purchase, 8 bytes wide.
        transaction: u64,
        /// The consumer's receipt, sealed: at most [`RECEIPT_BYTES`](nb_endorse::RECEIPT_BYTES) bytes.
        part: Blob,
    },
    /// A party asks the house for the status of an order.
    StatusAsk(StatusQuery),
    /// The house tells the status of an order.
    Status {
        /// A [`StatusText`](crate::StatusText), sealed: at most [`MOST_STATUS`](crate::MOST_STATUS) bytes.
        sealed: Blob,
    },
    /// A consumer asks the house for a ticket.
    TicketAsk(TicketAsk),
    /// The house grants a ticket.
    Grant {
        /// A [`Granted`](nb_ticket::Granted), sealed: at most [`GRANT_BYTES`](nb_ticket::GRANT_BYTES) bytes.
        sealed: Blob,
    },
    /// The operator enrols a party.
    Enrol(Enrolment),
    /// The operator puts money into an account.
    Fund(Funding),
    /// The house did what was asked.
    Done {
        /// The account that was asked for, 4 bytes wide.
        acct: AcctId,
        /// The place of the entry that was asked for: the number of entries before it, 8 bytes wide.
        at: u64,
        /// What is in the account, in the house's smallest unit of money, 8 bytes wide.
        balance: u64,
    },
    /// The house refuses.
    Refusal(Refusal),
}

impl Message {
    /// The kind of its frame, one byte wide.
    pub fn kind(&self) -> u8
        ensures kind { result ≡ kind_of self.now }
        ensures least { 1 ≤ result }
        ensures most { result ≤ LAST_KIND }
    {
        match self {
            Message::PriceAsk { .. } => PRICE_REQUEST,
            Message::Quote { .. } => QUOTE_REPLY,
            Message::GoodsAsk { .. } => GOODS_REQUEST,
            Message::Goods { .. } => GOODS_REPLY,
            Message::Order { .. } => PAYMENT_REQUEST,
            Message::Endorsed { .. } => ORDER_REQUEST,
            Message::Result { .. } => RESULT_REPLY,
            Message::Passed { .. } => PAYMENT_REPLY,
            Message::StatusAsk(_) => STATUS_REQUEST,
            Message::Status { .. } => STATUS_REPLY,
            Message::TicketAsk(_) => TICKET_REQUEST,
            Message::Grant { .. } => GRANT_REPLY,
            Message::Enrol(_) => ENROL_REQUEST,
            Message::Fund(_) => FUND_REQUEST,
            Message::Done { .. } => DONE_REPLY,
            Message::Refusal(_) => REFUSED_REPLY,
        }
    }
}
