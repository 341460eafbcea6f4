//! The outside of the system: where bytes come from and go to, where they are kept, and what time it is.
//!
//! The layers above are written over the traits [`Source`], [`Sink`], [`Disk`] and [`Clock`] alone. A contract sees an object
//! as the count of its failed calls, which never falls, and as its content where it tells that: the bytes left of a source,
//! the bytes sent to a sink, the bytes of a disk, the moments that a clock gave. A call answers that it failed only where the
//! count rose in it, and then took, sent and changed no content. Two kinds of bytes may be any after a failure: those in the
//! buffer of a read, and those in the range of a disk's write. What a call gives, by cases on its answer, stands in `specs/`,
//! in one module for each trait.
//!
//! A disk is also seen as the images that a stop of the system may leave, now and at each moment since an earlier one, within
//! calls too. From a write on, up to the next sync that is done, a stop may leave any bytes in its range and past the end;
//! after that sync it leaves the content alone. A read, and a sync that failed, change nothing of that. The trait says what
//! each call makes of the images. Which they are is known of a [`MemDisk`], and is said by the functions of [`laws`]: by its
//! content, its durable length and its pending ranges.
//!
//! [`MemSource`], [`MemSink`], [`MemDisk`] and [`MemClock`] hold all in memory and tell all of it. Calls chosen when one is
//! made fail, and no others, but for want of memory. A [`MemDisk`] keeps a record of its calls, and gives an image at each
//! moment, with what a [`Fill`] says in place of the bytes that are not sure to stay.
//!
//! A [`ByteDisk`] reads bytes that are lent to it, of which a stop leaves these; its writes fail.
//!
//! Left to others: the adapters to the system, of which none tells its content.
//!
//! Not said, since no clause can: that a maker, a write of a [`MemSink`] or a call of a [`MemDisk`] finds memory where there is some, so that one
//! which always fails for want of it, or by choice and is never recorded, meets the clauses. Nor what a buffer holds after a failed read and
//! behind the bytes that a read gave; which images a disk has that does not tell; that a stop may leave a given image within a call or behind a
//! write, but for the content and those from before: of a [`MemDisk`] alone the law [`laws::by_ranges`] says exactly which it may leave; nor
//! where an image ends while a range is pending, since nothing says that a system adds no bytes behind those that were written. Tests call each
//! maker, and have such calls recorded and work.
#![tactic(auto)]

mod clock;
mod disk;
pub mod laws;
mod lent;
mod memory;
mod reading;
mod sink;
mod source;

pub use clock::Clock;
pub use disk::{Disk, DiskOut, DiskRead};
pub use lent::ByteDisk;
pub use memory::{DiskStep, Fill, MemClock, MemDisk, MemSink, MemSource};
pub use sink::{Sink, WriteOut};
pub use source::{ReadOut, Source};
