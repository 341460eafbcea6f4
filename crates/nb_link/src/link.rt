ghost use Rattle.std.specs.Prelude.{◌<◌, length};
ghost use Rattle.nb_link.specs.Link.{LinkSeen, LinkReads, LinkWrites};

use nb_port::{ReadOut, WriteOut};

/// A read of a link that gave bytes.
#[derive(Clone, Copy)]
pub struct Reading {
    /// How many bytes there was room for.
    pub asked: usize,
    /// How many bytes it gave, at least one.
    pub given: usize,
}

/// A connection to one peer: bytes come from it and go to it.
pub trait Link {
    /// What it is seen as. Neither of its counts ever falls. They stay at 2^64 - 1.
    ghost seen: { Self → LinkSeen };

    /// Takes the next bytes, at most as many as `buf` holds, to the front of `buf`. At the end and where it fails nothing is
    /// taken. A read that fails raises the count of failed reads.
    fn read(&mut self, buf: &mut [u8]) -> ReadOut
        requires { 0 < length buf.old }
        ensures { LinkReads (seen self.old) (seen self.new) (length buf.old) buf.new result };

    /// Sends bytes from the front of `piece`, not always all. Where it fails nothing is sent, and the count of failed writes rises.
    fn write(&mut self, piece: &[u8]) -> WriteOut
        requires { 0 < length piece.now }
        ensures { LinkWrites (seen self.old) (seen self.new) piece.now result };
}
