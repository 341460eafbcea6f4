ghost use Rattle.std.specs.Prelude.{◌≡◌};
ghost use Rattle.nb_vault.specs.Parts.{one_of};

/// One request of a turn. Its body stands within bytes that are handed over with it.
#[derive(Clone, Copy)]
pub struct AskAt {
    /// The kind of its frame.
    pub kind: u8,
    /// Where in the bytes its body begins, and how many bytes it has.
    pub start: usize,
    pub len: usize,
    /// The moment at which it is asked, in seconds since 1970-01-01 00:00 UTC.
    pub moment: u64,
}

/// How a request was answered.
#[derive(Clone, Copy)]
pub enum Answer {
    /// It was decided over `at` entries, and its reply is handed out: every later stop leaves what it recorded.
    Answered { at: u64 },
    /// The disk failed between these two counts of its faults. Entries may be in doubt then, until a later answer settles them:
    /// that of this request, or, where they could not be settled, those from before, and then this request was not decided.
    DiskFault { before: u64, after: u64 },
    /// [`MAX_FAULTS`](nb_turns::MAX_FAULTS) turns failed since the vault was opened, and nothing was done.
    Worn { faults: u32 },
}

/// How the requests of a turn were answered.
#[derive(Clone, Copy)]
pub enum AnswerAll {
    /// They were decided one after another, and their places and replies are handed out: every later stop leaves what they
    /// recorded.
    Answered,
    /// The disk failed between these two counts of its faults. Entries may be in doubt then, until a later answer settles them:
    /// those of these requests, or, where they could not be settled, those from before, and then no request was decided.
    DiskFault { before: u64, after: u64 },
    /// [`MAX_FAULTS`](nb_turns::MAX_FAULTS) turns failed since the vault was opened, and nothing was done.
    Worn { faults: u32 },
}

impl AnswerAll {
    // The answer to the one request of a turn, which has this place if it was decided.
    pub(crate) fn of_one(self, at: u64) -> Answer
        ensures { result ≡ one_of self at }
    {
        match self {
            AnswerAll::Answered => Answer::Answered { at },
            AnswerAll::DiskFault { before, after } => Answer::DiskFault { before, after },
            AnswerAll::Worn { faults } => Answer::Worn { faults },
        }
    }
}
