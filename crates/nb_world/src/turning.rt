use nb_entry::Entry;
use nb_units::Blob;

/// What the verdict on a request is: the kind and the body of its reply, and what it records.
#[derive(Drop)]
pub struct Verdict {
    /// The kind of the reply's frame.
    pub kind: u8,
    /// The body of the reply's frame.
    pub body: Blob,
    /// The entry that it records, if any.
    pub entry: Option<Entry>,
}

/// How far a turn has come.
#[derive(Clone, Copy)]
pub enum Stage {
    /// The verdict is made.
    Decided,
    /// Its entry is written: a stop leaves it or not.
    Written,
    /// Its entry is opened: every stop leaves it.
    Opened,
}

/// The turn that the house is at.
#[derive(Drop)]
pub struct Turning {
    /// The number of its call, 4 bytes wide.
    pub call: u32,
    /// How many entries the verdict was taken over, 4 bytes wide: the place of its own, if it records one.
    pub at: u32,
    /// The verdict.
    pub verdict: Verdict,
    /// How far it has come.
    pub stage: Stage,
}

/// The call that an entry came by.
#[derive(Clone, Copy)]
pub struct Origin {
    /// The place of the entry, 4 bytes wide.
    pub place: u32,
    /// The number of the call, 4 bytes wide.
    pub call: u32,
}

/// An entry whose reply was handed out, with its place.
#[derive(Clone, Copy)]
pub struct Acknowledged {
    /// The entry.
    pub entry: Entry,
    /// Its place, 4 bytes wide.
    pub place: u32,
}
