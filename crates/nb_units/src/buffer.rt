ghost use Rattle.std.specs.Prelude.{◌≡◌, ◌≤◌, ◌+◌, ◌++◌, ◌∷◌, [], length};
ghost use Rattle.nb_units.specs.Fields.{be4, be8, sized};
ghost use Rattle.nb_units.specs.declared.buffer.TheConstants.{MAX_BUFFER};

use crate::small::MAX_SMALL;
use crate::width::{ACCOUNT, LENGTH, SECRET};
use std::marker::Model;

/// The most bytes of a [`Buffer`], 604: as many as the longest text that is spelled in one can have, an endorsement whose order
/// and memo are as long as a [`Small`](crate::Small) can be, each behind its length, with an account and a key.
pub const MAX_BUFFER: usize = LENGTH + MAX_SMALL + ACCOUNT + LENGTH + MAX_SMALL + SECRET;

/// Fields one behind the other, at most [`MAX_BUFFER`] bytes in all, in a place of their own that takes no memory.
/// Numbers are big-endian. What is spelled in a buffer is then appended, sealed or hashed as a whole.
#[derive(Drop)]
pub struct Buffer {
    bytes: [u8; MAX_BUFFER],
    len: usize,
}

impl Model for Buffer {
    ghost use Rattle.std.specs.Prelude.{ℕ, ◌≤◌, List, take};
    ghost use Rattle.nb_units.specs.declared.buffer.TheConstants.{MAX_BUFFER};

    ghost Value = { List ℕ };

    ghost view = { λ b. take b.len b.bytes };

    ghost invariant = { λ b. b.len ≤ MAX_BUFFER };
}

impl Buffer {
    /// A buffer without a byte.
    pub fn new() -> Buffer
        ensures { result ≡ [] }
    {
        Buffer {
            bytes: [0; MAX_BUFFER],
            len: 0,
        }
    }

    /// One byte.
    pub fn u8(&mut self, v: u8)
        requires { length self.old + 1 ≤ MAX_BUFFER }
        ensures { self.new ≡ self.old ++ v ∷ [] }
    {
        self.raw(&[v]);
    }

    /// A number in 4 bytes.
    pub fn u32(&mut self, v: u32)
        requires { length self.old + 4 ≤ MAX_BUFFER }
        ensures { self.new ≡ self.old ++ be4 v }
    {
        self.raw(&v.to_be_bytes());
    }

    /// A number in 8 bytes.
    pub fn u64(&mut self, v: u64)
        requires { length self.old + 8 ≤ MAX_BUFFER }
        ensures { self.new ≡ self.old ++ be8 v }
    {
        self.raw(&v.to_be_bytes());
    }

    /// Bytes as they are.
    pub fn raw(&mut self, b: &[u8])
        requires { length self.old + length b.now ≤ MAX_BUFFER }
        ensures { self.new ≡ self.old ++ b.now }
    {
        let end = self.len + b.len();
        self.bytes[self.len..end].copy_from_slice(b);
        self.len = end;
    }

    /// A text: its length in 4 bytes, and then the text.
    pub fn bytes(&mut self, b: &[u8])
        requires { length self.old + (4 + length b.now) ≤ MAX_BUFFER }
        ensures { self.new ≡ self.old ++ sized b.now }
    {
        self.u32(b.len() as u32);
        self.raw(b);
    }

    /// The bytes.
    pub fn as_slice(&self) -> &[u8]
        ensures value { result.now ≡ self.now }
        ensures short { length result.now ≤ MAX_BUFFER }
    {
        self.bytes.split_at(self.len).0
    }
}
