use nb_wire::LinkEnd;

// Whose link it is.
#[derive(Clone, Copy)]
pub enum Peer {
    // The house, which settles orders.
    House,
    // The consumer who buys.
    Consumer,
}

// Why nothing more is done on a consumer's link.
#[derive(Clone, Copy)]
pub enum Over {
    // No frame comes any more over the link that is read: it ended, a read of it failed, or what came is no frame.
    NoFrame(Peer, LinkEnd),
    // A write to it failed.
    WriteFault(Peer),
    // The last frame was ignored.
    Ignored,
    // As many frames of the consumer's link were read as are read.
    Spent,
}

// What is done next.
#[derive(Clone, Copy)]
pub enum Next {
    // A frame of this peer is read.
    Awaits(Peer),
    // Nothing.
    Over(Over),
}
