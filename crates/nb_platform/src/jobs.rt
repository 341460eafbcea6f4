ghost use Rattle.nb_platform.specs.Doing.{ComesTo, EndsUnopened, FitsWork};

use crate::links::{Opened, open};
use nb_commands::{Ending, Job, OUT_OF_MEMORY};
use nb_link::OpenGate;
use nb_port::{Disk, Sink};
use nb_work::{Worked, work};
use std::io;
use std::sync::Wait;
use std::thread::Threads;

/// The status where the journal's file or its folder could not be opened or made its owner's, or another process holds it; where an address is none, a worker
/// has no port or could not listen, or a link not be dialled; or where /dev/null could not be opened.
pub const NOT_OPENED: u8 = 17;

/// Does the job that is left, over the disk, the output, and the links that the words of its command name; the workers' threads are started over
/// `threads`. The disk is handed back. The words are counted from 0, which is the command's name. To serve, each worker listens on a port of its own: that of word 2, and
/// those behind it. To buy, the house is dialled at word 2 and the seller at word 3. To sell, consumers come to word 2, and the house is dialled
/// at word 3. Each of these is an address in numbers, with a port that is not 0.
///
/// First these are opened: the status is [`NOT_OPENED`] where a word is no such address, where a worker has no port or cannot listen there, and where a link
/// cannot be dialled, for want of memory too; and 6 where there is no memory to hold what was opened, or to listen. The job is not begun then, the disk is the one
/// handed in, and nothing is sent; the place is 0. Else disk, status and place are those of [`work`]. Who buys at a terminal is told there how many bytes came of the
/// seller. No clause tells the two statuses apart, speaks of the words, nor of the threads.
pub fn do_job<T: Threads + Wait + Sync, D: Disk + Drop + Send, K: Sink>(
    rt: &HostRuntime,
    threads: &T,
    words: &[String],
    job: Job,
    disk: D,
    sink: &mut K,
) -> (Ending, D)
    // its numbers, and the length of its request, are those of a command
    requires { FitsWork job }
    // something could not be opened for it; or it came to what `work` says, over as many workers as it names and the links that it needs
    ensures comes_to { ComesTo D.tells job disk result.1 (K.sent sink.old) (K.sent sink.new) (K.faults sink.old) (K.faults sink.new) result.0 }
{
    let Opened { workers, dials } = match open(rt, words, &job) {
        Ok(opened) => opened,
        Err(e) => return (unopened(e), disk),
    };
    let Worked {
        disk,
        dials,
        ending,
        ..
    } = work(
        threads,
        rt.alloc(),
        job,
        disk,
        workers,
        dials,
        &OpenGate,
        sink,
    );
    let mut dials = dials;
    if let Some(seller) = &mut dials.seller {
        seller.end();
    }
    (ending, disk)
}

// How the program ends where what the words name could not be opened.
fn unopened(e: io::Error) -> Ending
    ensures { EndsUnopened result }
{
    if e.kind() == io::ErrorKind::OutOfMemory {
        return Ending::at_no_place(OUT_OF_MEMORY);
    }
    Ending::at_no_place(NOT_OPENED)
}
