ghost use Rattle.std.specs.Prelude.{◌≡◌, ◌≤◌, ◌<◌, ◌+◌, ◌^◌, ℕ, length, take, drop, vec_len, vec_capacity, IfOk};
ghost use Rattle.nb_units.specs.Frames.{AreBytes, front_of};
ghost use Rattle.nb_frame.specs.Looks.{IsShort};
ghost use Rattle.nb_frame.specs.State.{Collected, waiting, unfed, fed};
ghost use Rattle.nb_frame.specs.Collected.{NextIs};
ghost use Rattle.nb_frame.specs.declared.stream.TheConstants.{MAX_PIECE, MAX_HELD};

use crate::fault::FrameFault;
use crate::look::{Seen, look};
use nb_units::NoMemory;
use nb_units::frames::{HEADER, MAX_BODY};
use std::alloc::Global;
use std::marker::Model;

/// The most bytes of one piece of a stream.
pub const MAX_PIECE: usize = 65_536;

/// The most bytes that are held at once: one frame and a piece.
pub const MAX_HELD: usize = HEADER + MAX_BODY as usize + MAX_PIECE;

/// A frame that was given out, among the bytes since the last feed.
#[derive(Clone, Copy)]
pub struct FrameAt {
    /// The kind, from 1 to 16.
    pub kind: u8,
    /// The place of the body's first byte in [`Frames::bytes`].
    pub start: usize,
    /// How many bytes the body has.
    pub len: usize,
}

/// What comes next in a stream of frames.
#[derive(Clone, Copy)]
pub enum Next {
    /// A whole frame, which is given out.
    Frame(FrameAt),
    /// What waits is nothing, or a part of a frame: more is wanted.
    More,
    /// What waits is no frame.
    Bad(FrameFault),
}

/// The frames of a stream that is fed piece by piece.
pub struct Frames {
    held: Vec<u8>,
    at: usize,
    taken: u64,
}

impl Drop for Frames {
    fn drop(self) {
        let Self {
            held: _,
            at: _,
            taken: _,
        } = self;
    }
}

impl Model for Frames {
    ghost use Rattle.std.specs.Prelude.{◌≤◌, ◌+◌, ◌<◌, ◌^◌, length, drop, vec_capacity};
    ghost use Rattle.nb_frame.specs.State.{Collected};
    ghost use Rattle.nb_frame.specs.declared.stream.TheConstants.{MAX_HELD};

    ghost Value = { Collected };

    ghost view = { λ f. record { held = f.held.items; at = f.at; taken = f.taken } };

    ghost invariant = { λ f. (f.at ≤ length f.held.items) × (MAX_HELD ≤ vec_capacity f.held) × (f.taken + length (drop f.at f.held.items) < 2 ^ 63) × (length f.held.items ≤ MAX_HELD) };
}

impl Frames {
    /// A reader that was fed nothing. It takes all of its memory here, room for [`MAX_HELD`] bytes.
    pub fn new(alloc: Global) -> Result<Frames, NoMemory>
        ensures { IfOk result (λ frames. frames ≡ unfed) }
    {
        Ok(Frames {
            held: Vec::with_capacity(alloc, MAX_HELD)?,
            at: 0,
            taken: 0,
        })
    }

    /// Takes the next piece of the stream, of at most [`MAX_PIECE`] bytes, where what waits is nothing or a part of a frame, as it is
    /// after [`new`](Frames::new) and after [`Next::More`]. A stream has fewer than 2^63 bytes.
    pub fn feed(&mut self, piece: &[u8])
        requires short { length piece.now ≤ MAX_PIECE }
        requires ready { IsShort (front_of (waiting self.old)) }
        // The stream has fewer than 2^63 bytes with the piece.
        requires near { self.old.taken + length (waiting self.old) + length piece.now < 2 ^ 63 }
        ensures { self.new ≡ fed self.old piece.now }
    {
        drop_front(&mut self.held, self.at);
        self.at = 0;
        self.held.extend_from_slice(piece).unwrap();
    }

    /// Gives out the next frame, or tells that more is wanted, or the first fault of what waits. After a fault it tells the same
    /// fault for good.
    pub fn next(&mut self) -> Next
        ensures { NextIs self.old self.new result }
    {
        match look(self.held.as_slice().split_at(self.at).1) {
            Seen::Whole { kind, len } => {
                let start = self.at + HEADER;
                self.at = start + len;
                self.taken += (HEADER + len) as u64;
                Next::Frame(FrameAt { kind, start, len })
            }
            Seen::Short => Next::More,
            Seen::Bad(fault) => Next::Bad(fault.behind(self.taken)),
        }
    }

    /// The body of a frame that was given out since the last feed.
    pub fn body(&self, f: &FrameAt) -> &[u8]
        requires { f.now.start + f.now.len ≤ length self.now.held }
        ensures { result.now ≡ take f.now.len (drop f.now.start self.now.held) }
    {
        self.held.as_slice().split_at(f.start).1.split_at(f.len).0
    }

    /// How many bytes the frames have that were given out.
    pub fn taken(&self) -> u64
        ensures { result ≡ self.now.taken }
    {
        self.taken
    }

    /// How many bytes wait.
    pub fn rest(&self) -> u64
        ensures { result ≡ length (waiting self.now) }
    {
        (self.held.len() - self.at) as u64
    }

    /// The bytes since the last feed: those that waited then, and the piece. They are at most [`MAX_HELD`].
    pub fn bytes(&self) -> &[u8]
        ensures held { result.now ≡ self.now.held }
        ensures bytes { AreBytes self.now.held }
        ensures near { self.now.taken + length (waiting self.now) < 2 ^ 63 }
        ensures most { length self.now.held ≤ MAX_HELD }
    {
        as_bytes(self.held.as_slice())
    }
}

// Takes so many bytes off the front.
fn drop_front(held: &mut Vec<u8>, n: usize)
    requires { n ≤ vec_len held.old }
    ensures items { held.new.items ≡ drop n held.old.items }
    ensures room { vec_capacity held.new ≡ vec_capacity held.old }
{
    if n > 0 {
        let len = held.len();
        held.copy_within(n..len, 0);
        held.truncate(len - n);
    }
}

// The same bytes: each is below 256.
fn as_bytes(bytes: &[u8]) -> &[u8]
    ensures same { result.now ≡ bytes.now }
    ensures fits { AreBytes bytes.now }
{
    bytes
}
