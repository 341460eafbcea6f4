use nb_wire::LinkEnd;

/// With whom a purchase is made. There is a link to each.
#[derive(Clone, Copy)]
pub enum Peer {
    /// The house, which grants tickets and tells the status of orders.
    House,
    /// The merchant that sells.
    Seller,
}

/// Why nothing more is waited for over a link.
#[derive(Clone, Copy)]
pub enum Over {
    /// No frame comes over it any more: it ended, a read of it failed, or what came is no frame.
    Ended(LinkEnd),
    /// A write to it failed.
    WriteFault,
    /// A refusal came over it.
    Refused,
}

// What a purchase does next.
#[derive(Clone, Copy)]
pub(crate) enum Next {
    // It waits for a frame of this peer.
    Awaits(Peer),
    // It waited for this peer, of which nothing more comes.
    Over(Peer, Over),
}
