//! The forms of a source, a sink, a disk and a clock that hold all in memory and tell all of it. The calls that are to fail
//! are chosen when one is made.

mod clock;
mod counter;
mod disk;
mod fill;
mod record;
mod replay;
mod sink;
mod source;
mod step;

pub use clock::MemClock;
pub use disk::MemDisk;
pub use fill::Fill;
pub use sink::MemSink;
pub use source::MemSource;
pub use step::DiskStep;
