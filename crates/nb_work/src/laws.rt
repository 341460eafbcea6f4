//! What follows for a job over links. Each function here does nothing: its contract is the law.

ghost use Rattle.nb_work.specs.Work.{workers_seen};
ghost use Rattle.nb_work.specs.Laws as law;

use nb_link::Port;
use nb_port::{Clock, Disk};

/// Over a content that stands for a list, where ports tell their links, as many as are left, each link gives fewer than 10,000 whole frames
/// and then ends, and no count of the disk, of a port or of a link rises: each session ends clean with all its frames answered by a verdict,
/// each worker serves all its links, and the job ends with 0; or memory was wanting, for one session to begin or with status 6.
pub fn completes<D: Disk, P: Port, C: Clock>()
    ensures { law.Completes D.tells (workers_seen P.seen C.moments) }
{}

/// A law: what a stop since before a purchase leaves is what might have been left before it, or a wallet that goes on from there: the items that it held with the
/// first of those that the purchase keeps.
pub fn stops_go_on<D: Disk>()
    ensures { law.StopsGoOn D.tells }
{}

/// A law: a purchase with a wallet that has room, over links that give the frames which bring it to its end, ends with 0 and its goods where it was paid and
/// their key opens them, and with 10 where it was refused or the key does not, where no count of the disk, a link or the output rises; or with 6 for want of memory.
pub fn purchases_complete<D: Disk>()
    ensures { law.PurchasesComplete D.tells }
{}

/// A law: what a stop since before a job of selling leaves is what might have been left before it, or a stall that goes on from there: the items that it held with the first of
/// those that the merchant kept, on whichever link.
pub fn sales_go_on<D: Disk>()
    ensures { law.SalesGoOn D.tells }
{}

/// A law: selling ends with 13 only where a count of the port or of the link to the house rose, with 7 only where that of the disk did, and with 0 only where the port has no
/// link left.
pub fn sales_are_told<D: Disk>()
    ensures { law.SalesAreTold D.tells }
{}

/// A law: selling with a stall that stands and fits the shelf, where no count of the disk, of the port and of the link to the house rises, ends with 0 behind the last link that the
/// port had, whatever consumers do; or with 14 where the stall is full, which then holds as many items as its cap says, or with 6 for want of memory.
pub fn sales_complete<D: Disk>()
    ensures { law.SalesComplete D.tells }
{}
