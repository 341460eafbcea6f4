ghost use Rattle.std.specs.Prelude.{◌≡◌, ◌<◌, length};
ghost use Rattle.nb_link.specs.Link.{LinkReads, LinkWrites};

use nb_link::Link;
use nb_port::{ReadOut, WriteOut};
use std::io;
use std::io::IsTerminal;
use std::time::Instant;

// So many milliseconds behind what was told last a terminal is told again.
const TOLD_EACH: u128 = 250;

/// A link that reads and writes as the one below it, and may tell a terminal how many bytes came over it.
#[derive(Drop)]
pub struct WatchedLink<L> {
    link: L,
    watch: Option<Watch>,
}

// How many bytes came since when, and when that was told last.
#[derive(Drop)]
struct Watch {
    rt: HostRuntime,
    start: Instant,
    told: Option<Instant>,
    bytes: u64,
}

impl<L: Link> WatchedLink<L> {
    /// A link of which nothing is told.
    pub fn silent(link: L) -> WatchedLink<L>
        ensures { result.link ≡ link }
    {
        WatchedLink { link, watch: None }
    }

    /// A link of which standard error is told, in one line that is written over, how many bytes came and how fast, where that is a terminal.
    pub fn told(link: L, rt: &HostRuntime) -> WatchedLink<L>
        ensures { result.link ≡ link }
    {
        WatchedLink {
            link,
            watch: Watch::of(rt),
        }
    }

    /// Nothing more is told: a line that was told is told whole, and ends.
    pub fn end(&mut self)
        ensures { self.new.link ≡ self.old.link }
    {
        if let Some(watch) = &mut self.watch {
            if watch.told.is_some() {
                watch.tell();
                let _ = eprintln!(watch.rt);
            }
        }
        self.watch = None;
    }
}

impl Watch {
    // None where standard error is no terminal, or there is no clock.
    fn of(rt: &HostRuntime) -> Option<Watch> {
        if !rt.stderr().is_terminal() {
            return None;
        }
        Some(Watch {
            rt: rt.clone().ok()?,
            start: Instant::now(rt).ok()?,
            told: None,
            bytes: 0,
        })
    }

    // So many bytes more came.
    fn count(&mut self, more: usize) {
        self.bytes = self.bytes.saturating_add(more as u64);
        let Ok(now) = Instant::now(&self.rt) else {
            return;
        };
        let since = self.told.unwrap_or(self.start);
        if now.duration_since(since).as_millis() >= TOLD_EACH {
            self.told = Some(now);
            self.tell();
        }
    }

    // Tells how many bytes came, and how many thousand of them in a second.
    fn tell(&self) {
        let Ok(passed) = self.start.elapsed(&self.rt) else {
            return;
        };
        // bytes in a millisecond are thousands in a second
        let rate = u128::from(self.bytes) / passed.as_millis().max(1);
        let bytes = self.bytes;
        let _ = eprint!(self.rt; "\r{bytes} bytes, {rate} kB/s    ");
    }
}

impl<L: Link> Link for WatchedLink<L> {
    ghost seen = { λ l. L.seen l.link };

    fn read(&mut self, buf: &mut [u8]) -> ReadOut {
        let out = self.link.read(buf);
        if let ReadOut::Bytes(n) = &out {
            if let Some(watch) = &mut self.watch {
                watch.count(*n);
            }
        }
        out
    }

    fn write(&mut self, piece: &[u8]) -> WriteOut {
        self.link.write(piece)
    }
}
