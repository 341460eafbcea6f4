// A source that counts its reads, and a sink that may take one byte a call.

ghost use Rattle.std.specs.Prelude.{Some};

use nb_port::{MemSink, MemSource, ReadOut, Sink, Source, WriteOut};

/// A source that counts how often it is asked.
#[derive(Drop)]
pub struct CountedSource {
    pub from: MemSource,
    pub reads: u64,
}

impl Source for CountedSource {
    ghost faults = { λ s. s.from.calls.faults };

    ghost left = { λ s. Some s.from.left };

    fn read(&mut self, buf: &mut [u8]) -> ReadOut {
        self.reads = self.reads.saturating_add(1);
        self.from.read(buf)
    }
}

/// A sink of which a write takes one byte where it is slow.
#[derive(Drop)]
pub struct PacedSink {
    pub to: MemSink,
    pub slow: bool,
}

impl Sink for PacedSink {
    ghost faults = { λ s. s.to.calls.faults };

    ghost sent = { λ s. Some s.to.sent };

    fn write(&mut self, piece: &[u8]) -> WriteOut {
        if self.slow {
            return self.to.write(piece.split_at(1).0);
        }
        self.to.write(piece)
    }
}
