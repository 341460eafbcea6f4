//! The edge: a source, a sink and a clock over std's objects, and a disk over a file.
//!
//! A [`StdSource`] stands over a reader, a [`StdSink`] over a writer, and a [`FileDisk`] over a [`PositionalFile`]: the calls that it
//! makes of a file, one each of the system, beside which the system is asked for the limit of a file's size, and to read ahead. A call that fails raises the object's count, which stays at 2^64 - 1, and so does a
//! write that takes nothing; a read or write that was interrupted is tried again. To the layers above they tell nothing of content
//! and images, since no contract can say what a file or a terminal gives or takes; but where a reader, a writer or a
//! [`PositionalFile`] tells its bytes, their own clauses speak of these (`specs/File.antt`, `specs/System.antt`).
//!
//! A [`FileDisk`] prepares its file before it reads or writes it: it syncs it, drops the pages that are kept in memory, and syncs its
//! folder. Once that or a sync failed it makes no call of the file any more, and each call of it fails.
//!
//! What is trusted of [`StdFile`] and [`SystemClock`] is one line for each call of the system, and that a write which begins at the limit of a
//! file's size is not made. [`SystemClock`] counts nothing.
//!
//! Left to others: to open the file and its folder, and to lock it.
//!
//! Not said: that an adapter works where its object does, since one that counts a failure and answers it without calling its object meets the
//! clauses; what bytes a real file or terminal gives or takes, and what time a [`SystemClock`] gives, which is 0 where the system knows none or
//! one before 1970; that a file that tells is a real one: a [`StdFile`] does not tell, and docs/GUARANTEES.md has the premise in words that an
//! operator can test; which calls of the file a [`FileDisk`] makes, and how often one that was interrupted is tried again: one that was
//! interrupted and then worked has raised the count too. Tests call each adapter, count the calls, write a file through them, sync it and read it
//! back, and sync a device that cannot be.
#![tactic(auto)]

mod clock;
mod disk;
mod file;
mod sink;
mod source;
mod std_file;

pub use clock::SystemClock;
pub use disk::{FileDisk, FileState};
pub use file::{FileRead, FileWrite, PositionalFile};
pub use sink::StdSink;
pub use source::StdSource;
pub use std_file::StdFile;
