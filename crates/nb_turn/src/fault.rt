/// There was no memory for what a call had to make.
#[derive(Clone, Copy)]
pub struct NoMemory;

/// Another pass has the turn.
#[derive(Clone, Copy)]
pub struct Busy {
    /// What the word of the turn was found to be: 1.
    pub word: u64,
}

/// Why no pass was split off.
#[derive(Clone, Copy)]
pub enum SplitFault {
    /// There was no memory. A split takes none, and never answers this.
    NoMemory,
    /// A pass of this number was made before.
    Taken {
        /// What the word of numbers was found to be. The number's bit is set in it.
        word: u64,
    },
}
