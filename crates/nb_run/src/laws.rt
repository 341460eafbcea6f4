//! What holds of every run, by its words.

ghost use Rattle.nb_run.specs.Laws.{DoesAsAsked, LeavesAsAsked};

use nb_port::Disk;

/// A law: whatever command the words are, it was done, as [`run`](crate::run) says of it, or there was no memory to read them, and nothing was touched.
pub fn does_as_asked<S, K, D: Disk, C>()
    ensures { DoesAsAsked S K C D.tells }
{}

/// A law: a job is left at the words alone of a server, of a purchase or of one who sells, with these numbers, and with what was read of the input.
pub fn leaves_as_asked<S, K, D: Disk, C>()
    ensures { LeavesAsAsked S K C D.tells }
{}
