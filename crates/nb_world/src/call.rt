/// How far a call has come.
#[derive(Clone, Copy)]
pub enum CallPhase {
    /// It was delivered, and waits for its turn.
    Waiting,
    /// It has the turn. How far that has come is told by its [`Stage`](crate::Stage).
    InTurn,
    /// It was answered.
    Answered,
    /// A stop came before it was answered.
    Gone,
}

/// A packet that was delivered to the house: a call of it.
#[derive(Clone, Copy)]
pub struct Call {
    /// The number of the packet, 4 bytes wide.
    pub packet: u32,
    /// When it was delivered, in seconds.
    pub moment: u64,
    /// How far it has come.
    pub phase: CallPhase,
}
