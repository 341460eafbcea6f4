//! What holds of every session. Each function here does nothing: its contract is the law.

ghost use Rattle.nb_session.specs.Laws as law;

use nb_port::Disk;

/// The limit of a session and the size of its reads, in numbers.
pub fn limits()
    ensures { law.LimitsAre }
{}

/// There are as many moments and as many marks as frames were answered.
pub fn as_many_marks<D: Disk>()
    ensures { law.AsManyMarks D.tells }
{}

/// What the lines that the pass has seen tell of a session: they grow, its own are those of its turns, its marks tell the places of its
/// entries among them, and those of its turns that have lines have different numbers. Where a mark is worn they tell 1,000 faults.
pub fn lines_tell<D: Disk>()
    ensures { law.LinesTell D.tells }
{}

/// How a session ends over a link that tells its bytes and does not fail, by these bytes alone: it had no memory to begin with; or there
/// are 10,000 whole frames or more, the first 10,000 are answered, and it is spent; or there are fewer, all are answered, and it ends
/// clean, cut behind the last byte, or by the fault of what stands behind the last frame, with its place.
pub fn ends_exactly<D: Disk>()
    ensures { law.EndsExactly D.tells }
{}

/// A session over a link that gives fewer than 10,000 whole frames, then ends, and does not fail, decides all of them, or had no memory
/// to begin with, where the lines of its own turns tell no fault, and all lines that the pass has seen behind it fewer than 1,000.
pub fn completes<D: Disk>()
    ensures { law.Completes D.tells }
{}

/// The same where the disk's count of faults rose in none of the session's turns: then its own turns tell no fault.
pub fn completes_with_disk<D: Disk>()
    ensures { law.CompletesWithDisk D.tells }
{}
