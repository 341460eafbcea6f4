ghost use Rattle.std.specs.Prelude.{◌≡◌};
ghost use Rattle.nb_desk.specs.Asking.{asked_of, asked_all_of};

use nb_vault::{Answer, AnswerAll};

/// How a request was answered at a desk.
#[derive(Clone, Copy)]
pub enum Asked {
    /// It was decided over `at` entries, and its reply is handed out: every later stop leaves what it recorded.
    Served { at: u64 },
    /// Another pass has the turn, whose word was found to be this: 1. Nothing was asked.
    Busy { word: u64 },
    /// The disk failed between these two counts of its faults. Entries may be in doubt then, until a later answer settles them.
    DiskFault { before: u64, after: u64 },
    /// [`MAX_FAULTS`](nb_turns::MAX_FAULTS) turns failed since the vault was opened, and nothing was done.
    Worn { faults: u32 },
}

/// How the requests of a turn were answered at a desk.
#[derive(Clone, Copy)]
pub enum AskedAll {
    /// They were decided one after another, and their places and replies are handed out: every later stop leaves what they
    /// recorded.
    Served,
    /// Another pass has the turn, whose word was found to be this: 1. Nothing was asked.
    Busy { word: u64 },
    /// The disk failed between these two counts of its faults. Entries may be in doubt then, until a later answer settles them.
    DiskFault { before: u64, after: u64 },
    /// [`MAX_FAULTS`](nb_turns::MAX_FAULTS) turns failed since the vault was opened, and nothing was done.
    Worn { faults: u32 },
}

impl Asked {
    // The answer of a vault, told by a desk.
    pub(crate) fn of(answer: Answer) -> Asked
        ensures { result ≡ asked_of answer }
    {
        match answer {
            Answer::Answered { at } => Asked::Served { at },
            Answer::DiskFault { before, after } => Asked::DiskFault { before, after },
            Answer::Worn { faults } => Asked::Worn { faults },
        }
    }
}

impl AskedAll {
    // The answer of a vault, told by a desk.
    pub(crate) fn of(answer: AnswerAll) -> AskedAll
        ensures { result ≡ asked_all_of answer }
    {
        match answer {
            AnswerAll::Answered => AskedAll::Served,
            AnswerAll::DiskFault { before, after } => AskedAll::DiskFault { before, after },
            AnswerAll::Worn { faults } => AskedAll::Worn { faults },
        }
    }
}
