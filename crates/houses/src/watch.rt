// What is seen of sessions as they go: a gate that keeps who passed it, and a link whose writes it sees.

ghost use Rattle.std.specs.Prelude.{◌<◌, length};
ghost use Rattle.nb_link.specs.Link.{LinkReads, LinkWrites};
ghost use Rattle.nb_link.specs.Memory.{link_told};

use nb_link::{Gate, Link, MemLink, Point};
use nb_port::{ReadOut, WriteOut};
use std::sync::atomic::{AtomicU64, Ordering};

/// The last pass of a point: of which worker and session, as which pass of all points, and behind how many writes. Of all passes of the point
/// the last two numbers are kept too, a bit for each below 64.
#[derive(Drop)]
pub struct Passing {
    pub worker: AtomicU64,
    pub session: AtomicU64,
    pub order: AtomicU64,
    pub writes: AtomicU64,
    orders: AtomicU64,
    all_writes: AtomicU64,
}

/// As which passes of all points a point was passed, and behind how many writes, a bit for each number below 64.
#[derive(Clone, Copy)]
pub struct Passes {
    pub orders: u64,
    pub writes: u64,
}

impl Passing {
    fn none() -> Passing {
        Passing {
            worker: AtomicU64::new(0),
            session: AtomicU64::new(0),
            order: AtomicU64::new(0),
            writes: AtomicU64::new(0),
            orders: AtomicU64::new(0),
            all_writes: AtomicU64::new(0),
        }
    }

    /// All passes of the point.
    pub fn passes(&self) -> Passes {
        Passes {
            orders: self.orders.load(Ordering::SeqCst),
            writes: self.all_writes.load(Ordering::SeqCst),
        }
    }

    fn keep(&self, order: u64, writes: u64) {
        self.order.store(order, Ordering::SeqCst);
        self.writes.store(writes, Ordering::SeqCst);
        if order < 64 && writes < 64 {
            self.orders.fetch_or(1 << order, Ordering::SeqCst);
            self.all_writes.fetch_or(1 << writes, Ordering::SeqCst);
        }
    }
}

/// A gate that counts the passes of each point and keeps the last one, and counts writes.
#[derive(Drop)]
pub struct Watch {
    pub writes: AtomicU64,
    pub passed: AtomicU64,
    pub before_turns: AtomicU64,
    pub before_turn: Passing,
    pub after_reply: Passing,
}

impl Watch {
    /// Nothing was seen.
    pub fn new() -> Watch {
        Watch {
            writes: AtomicU64::new(0),
            passed: AtomicU64::new(0),
            before_turns: AtomicU64::new(0),
            before_turn: Passing::none(),
            after_reply: Passing::none(),
        }
    }
}

impl Gate for Watch {
    fn at(&self, worker: u32, session: u32, point: Point) {
        let passing = match point {
            Point::BeforeTurn => {
                self.before_turns.fetch_add(1, Ordering::SeqCst);
                &self.before_turn
            }
            Point::AfterReply => &self.after_reply,
        };
        let order = self.passed.fetch_add(1, Ordering::SeqCst);
        let writes = self.writes.load(Ordering::SeqCst);
        passing.worker.store(u64::from(worker), Ordering::SeqCst);
        passing.session.store(u64::from(session), Ordering::SeqCst);
        passing.keep(order, writes);
    }
}

/// A link that counts its writes, also those that fail, where the gate sees the count.
#[derive(Drop)]
pub struct SeenLink<'a> {
    pub link: MemLink,
    pub watch: &'a Watch,
}

impl<'a> Link for SeenLink<'a> {
    ghost seen = { λ l. link_told l.link };

    fn read(&mut self, buf: &mut [u8]) -> ReadOut
        requires { 0 < length buf.old }
        ensures { LinkReads (link_told self.old.link) (link_told self.new.link) (length buf.old) buf.new result }
    {
        self.link.read(buf)
    }

    fn write(&mut self, piece: &[u8]) -> WriteOut
        requires { 0 < length piece.now }
        ensures { LinkWrites (link_told self.old.link) (link_told self.new.link) piece.now result }
    {
        self.watch.writes.fetch_add(1, Ordering::SeqCst);
        self.link.write(piece)
    }
}
