use nb_msgs::To;
use nb_units::{Blob, PartyId};
use nb_wallet::Start;

/// What may happen next in a world. Packets and calls go by their numbers, 4 bytes wide, in the order in which they were made.
#[derive(Drop)]
pub enum Event {
    /// A consumer starts a purchase.
    Buy {
        consumer: PartyId,
        start: Start,
    },
    /// A packet reaches whom it is for.
    Deliver {
        packet: u32,
    },
    /// A waiting call takes the turn: its verdict is made.
    Turn {
        call: u32,
    },
    /// The entry of the verdict is written, and every stop may leave it or not.
    Write {
        call: u32,
    },
    /// The entry that was written is opened: every later stop leaves it.
    Open {
        call: u32,
    },
    /// The reply is handed out, and the turn is free.
    Answer {
        call: u32,
    },
    /// A consumer has heard nothing of a purchase for long.
    QuietConsumer {
        consumer: PartyId,
        tid: u64,
    },
    /// A merchant has heard nothing of a consumer's purchase for long.
    QuietMerchant {
        merchant: PartyId,
        consumer: PartyId,
        tid: u64,
    },
    /// The house stops and starts again. An entry that is written and not opened is there then exactly where `with` says so.
    Stop {
        with: bool,
    },
    /// A consumer starts again, with what it kept.
    RestartConsumer {
        consumer: PartyId,
    },
    /// A merchant starts again, with what it kept.
    RestartMerchant {
        merchant: PartyId,
    },
    /// The clock is set, in seconds.
    Clock {
        moment: u64,
    },
    /// Somebody puts a packet on the network.
    Inject {
        to: To,
        kind: u8,
        body: Blob,
    },
}
