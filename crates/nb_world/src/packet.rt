use nb_msgs::To;
use nb_units::{Blob, PartyId};

/// Who made a packet.
#[derive(Clone, Copy)]
pub enum Maker {
    /// A step of a consumer.
    Consumer(PartyId),
    /// A step of a merchant.
    Merchant(PartyId),
    /// The house, in answer to a call by this number, whose verdict was taken over the first `at` entries.
    Server { call: u32, at: u32 },
    /// Somebody on the network, who may know any key.
    Network,
}

/// What a node sends: a kind, the bytes of its body, and whom it is for.
#[derive(Drop)]
pub struct Sending {
    /// Whom it is for.
    pub to: To,
    /// The kind of a frame.
    pub kind: u8,
    /// The body of a frame.
    pub body: Blob,
}

/// What was once put on the network. It may be delivered any number of times, in any order, or never.
#[derive(Drop)]
pub struct Packet {
    /// The kind of a frame.
    pub kind: u8,
    /// The body of a frame.
    pub body: Blob,
    /// Who made it.
    pub maker: Maker,
    /// Whom it is for.
    pub to: To,
}
