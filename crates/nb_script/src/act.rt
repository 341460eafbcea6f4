use nb_units::{Blob, PartyId, Price};

/// Whom a packet is for.
#[derive(Clone, Copy)]
pub enum Addressee {
    /// The house.
    Server,
    /// A party, as a consumer.
    Consumer(PartyId),
    /// A party, as a merchant.
    Merchant(PartyId),
}

/// What a line of a script lets happen. Packets and calls go by their numbers, 4 bytes wide, in the order in which they are made.
#[derive(Drop)]
pub enum Act {
    /// The clock is set, in seconds.
    Clock {
        moment: u64,
    },
    /// A consumer starts a purchase of this number, with an empty request and an empty memo.
    Buy {
        consumer: PartyId,
        tid: u64,
        merchant: PartyId,
        product: u32,
        limit: Price,
    },
    /// A packet reaches whom it is for.
    Deliver {
        packet: u32,
    },
    /// A call takes the turn.
    Turn {
        call: u32,
    },
    /// The entry of a call is written.
    Write {
        call: u32,
    },
    /// The entry of a call is opened.
    Open {
        call: u32,
    },
    /// The reply of a call is handed out.
    Answer {
        call: u32,
    },
    /// A packet is delivered, and the call that this makes goes through all steps of the house that fit.
    Serve {
        packet: u32,
    },
    /// A consumer has heard nothing of a purchase for long.
    QuietConsumer {
        consumer: PartyId,
        tid: u64,
    },
    /// A merchant has heard nothing of a consumer's purchase for long.
    QuietMerchant {
        merchant: PartyId,
        consumer: PartyId,
        tid: u64,
    },
    /// The house stops and starts again. An entry that is written and not opened is there then exactly where `with` says so.
    Stop {
        with: bool,
    },
    /// A consumer starts again, with what it kept.
    RestartConsumer {
        consumer: PartyId,
    },
    /// A merchant starts again, with what it kept.
    RestartMerchant {
        merchant: PartyId,
    },
    /// Somebody puts a packet on the network: its kind, from 1 to 16, and its body, at most half of [`MAX_BODY_DIGITS`](crate::MAX_BODY_DIGITS) bytes.
    Inject {
        to: Addressee,
        kind: u8,
        body: Blob,
    },
}
