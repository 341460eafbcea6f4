use nb_units::AcctId;
use std::alloc::AllocError;
use std::fmt;

/// Why a statement was not written, or not all of it.
#[derive(Clone, Copy)]
pub enum StatementFault {
    /// Nobody holds the account of this number, and it is not the house's. Nothing was written.
    NoAccount { acct: AcctId },
    /// A write failed: a part of the statement was written, from its front, perhaps none of it and not all.
    WriteFault,
    /// There was no memory, and nothing was written.
    NoMemory,
}

impl fmt::Display for StatementFault {
    fn fmt<W: fmt::Write>(&self, f: &mut fmt::Formatter<W>) -> fmt::Result {
        match self {
            StatementFault::NoAccount { acct } => write!(f, "nobody holds account {}", acct.0),
            StatementFault::WriteFault => write!(f, "a write failed"),
            StatementFault::NoMemory => write!(f, "there is no memory"),
        }
    }
}
