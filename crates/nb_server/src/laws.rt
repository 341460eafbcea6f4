//! What follows for all workers of a server. Each function here does nothing: its contract is the law.

ghost use Rattle.nb_server.specs.Laws as law;

use nb_port::Disk;

/// The most workers, in numbers.
pub fn limits()
    ensures { law.LimitsAre }
{}

/// Where ports tell their links, as many as are left, each link gives fewer than 10,000 whole frames and then ends, and no count of the disk, of a port or of
/// a link rises, each session ends clean with all its frames answered by a verdict, and each worker serves all its links; or memory was
/// wanting for a session to begin, or for one more record.
pub fn completes<D: Disk>()
    ensures { law.Completes D.tells }
{}
