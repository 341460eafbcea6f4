ghost use Rattle.std.specs.Prelude.{◌≡◌, ◌≤◌, ◌<◌, ◌+◌, ◌^◌, drop, length, IfOk};
ghost use Rattle.nb_units.specs.Fields as fields;

use crate::number::{u32_of, u64_of};
use std::fmt;
use std::marker::Model;

/// Why no such field stands at the place of a cut. Each `place` is that of the field's first byte, in bytes from the front
/// of the slice.
#[derive(Clone, Copy, Debug)]
pub enum CutFault {
    /// Fewer bytes are left than the field has: for a text, than the 4 bytes of its length, or than these say.
    Short { place: usize },
    /// A text's length is `len` bytes, and its limit is `max` bytes. This is told before `Short`.
    Long { place: usize, len: u32, max: u32 },
    /// Bytes are left over behind the last field: the first of them stands at the place.
    Extra { place: usize },
}

impl fmt::Display for CutFault {
    fn fmt<W: fmt::Write>(&self, f: &mut fmt::Formatter<W>) -> fmt::Result {
        match self {
            CutFault::Short { place } => write!(f, "at byte {place}: the field is not all there"),
            CutFault::Long { place, len, max } => write!(
                f,
                "at byte {place}: a text of {len} bytes, and at most {max} are allowed"
            ),
            CutFault::Extra { place } => write!(f, "at byte {place}: bytes are left over"),
        }
    }
}

/// Reads a slice from its front, field by field. A field that was read is passed over; after a fault the cut is where it
/// was, so that another field can be read there.
#[derive(Drop)]
pub struct Cut<'a> {
    bytes: &'a [u8],
    place: usize,
}

impl<'a> Model for Cut<'a> {
    ghost use Rattle.std.specs.Prelude.{◌≤◌, length};
    ghost use Rattle.nb_units.specs.Reading.{Reading};

    ghost Value = { Reading };

    ghost view = { λ c. record { bytes = c.bytes.now; place = c.place } };

    ghost invariant = { λ c. c.place ≤ length c.bytes.now };
}

#[tactic(auto, unfolding(crate::specs::Fields::raw_at, crate::specs::Fields::u8_at, crate::specs::Fields::u32_at, crate::specs::Fields::u64_at, crate::specs::Fields::bytes_at, crate::specs::Fields::done_at))]
impl<'a> Cut<'a> {
    /// A cut at the front of the bytes.
    pub fn new(bytes: &'a [u8]) -> Cut<'a>
        ensures bytes { result.bytes ≡ bytes.now }
        ensures place { result.place ≡ 0 }
    {
        Cut { bytes, place: 0 }
    }

    /// How many bytes were read: the place of the next field, in bytes from the front of the slice.
    pub fn place(&self) -> usize
        ensures { result ≡ self.now.place }
    {
        self.place
    }

    /// What is left: the bytes from the place on.
    pub fn rest(&self) -> &'a [u8]
        // the bytes from the place on
        ensures value { result.now ≡ drop self.now.place self.now.bytes }
        // as many as are behind the place, which is within the bytes
        ensures inside { self.now.place + length result.now ≡ length self.now.bytes }
        // there are fewer than 2^64 bytes in all
        ensures short { length self.now.bytes < 2 ^ 64 }
    {
        self.bytes.split_at(self.place).1
    }

    /// Passes over `n` bytes, which are left.
    pub fn skip(&mut self, n: usize)
        requires { self.old.place + n ≤ length self.old.bytes }
        ensures { self.new ≡ fields.moved self.old n }
    {
        self.place += n;
    }

    /// One byte, or [`CutFault::Short`].
    pub fn u8(&mut self) -> Result<u8, CutFault>
        // the field that stands at the place, or `Short` with the place
        ensures value { result ≡ fields.u8_at self.old.bytes self.old.place }
        // the place moved past the field; after a fault all is as before
        ensures moved { self.new ≡ fields.moved_by self.old 1 result }
    {
        let rest = self.rest();
        if rest.is_empty() {
            return Err(CutFault::Short { place: self.place });
        }
        self.place += 1;
        Ok(rest[0])
    }

    /// A number of 4 bytes, big-endian, or [`CutFault::Short`].
    pub fn u32(&mut self) -> Result<u32, CutFault>
        // the field that stands at the place, or `Short` with the place
        ensures value { result ≡ fields.u32_at self.old.bytes self.old.place }
        // the place moved past the field; after a fault all is as before
        ensures moved { self.new ≡ fields.moved_by self.old 4 result }
    {
        let rest = self.rest();
        if rest.len() < 4 {
            return Err(CutFault::Short { place: self.place });
        }
        self.place += 4;
        Ok(u32_of(rest.split_at(4).0))
    }

    /// A number of 8 bytes, big-endian, or [`CutFault::Short`].
    pub fn u64(&mut self) -> Result<u64, CutFault>
        // the field that stands at the place, or `Short` with the place
        ensures value { result ≡ fields.u64_at self.old.bytes self.old.place }
        // the place moved past the field; after a fault all is as before
        ensures moved { self.new ≡ fields.moved_by self.old 8 result }
    {
        let rest = self.rest();
        if rest.len() < 8 {
            return Err(CutFault::Short { place: self.place });
        }
        self.place += 8;
        Ok(u64_of(rest.split_at(8).0))
    }

    /// 16 bytes as they stand, or [`CutFault::Short`].
    pub fn fixed16(&mut self) -> Result<[u8; 16], CutFault>
        // the field that stands at the place, or `Short` with the place
        ensures value { result ≡ fields.raw_at 16 self.old.bytes self.old.place }
        // the place moved past the field; after a fault all is as before
        ensures moved { self.new ≡ fields.moved_by self.old 16 result }
    {
        let rest = self.rest();
        if rest.len() < 16 {
            return Err(CutFault::Short { place: self.place });
        }
        let mut field = [0u8; 16];
        field.copy_from_slice(rest.split_at(16).0);
        self.place += 16;
        Ok(field)
    }

    /// 32 bytes as they stand, or [`CutFault::Short`].
    pub fn fixed32(&mut self) -> Result<[u8; 32], CutFault>
        // the field that stands at the place, or `Short` with the place
        ensures value { result ≡ fields.raw_at 32 self.old.bytes self.old.place }
        // the place moved past the field; after a fault all is as before
        ensures moved { self.new ≡ fields.moved_by self.old 32 result }
    {
        let rest = self.rest();
        if rest.len() < 32 {
            return Err(CutFault::Short { place: self.place });
        }
        let mut field = [0u8; 32];
        field.copy_from_slice(rest.split_at(32).0);
        self.place += 32;
        Ok(field)
    }

    /// A text of at most `max` bytes: its length in 4 bytes, big-endian, and then the text. Answers [`CutFault::Long`]
    /// where the length is more than `max`, however many bytes are left, and else [`CutFault::Short`].
    pub fn bytes(&mut self, max: u32) -> Result<&'a [u8], CutFault>
        // the text at the place, or `Long` or `Short` with the place of its length
        ensures value { fields.seen result ≡ fields.bytes_at max self.old.bytes self.old.place }
        // a text that was read has at most `max` bytes
        ensures short { IfOk result (λ text. length text.now ≤ max) }
        // the place moved past the length and the text; after a fault all is as before
        ensures moved { self.new ≡ fields.moved_past self.old result }
    {
        let place = self.place;
        let rest = self.rest();
        if rest.len() < 4 {
            return Err(CutFault::Short { place });
        }
        let (word, behind) = rest.split_at(4);
        let len = u32_of(word);
        if len > max {
            return Err(CutFault::Long { place, len, max });
        }
        if behind.len() < len as usize {
            return Err(CutFault::Short { place });
        }
        let (text, _) = behind.split_at(len as usize);
        self.place += 4 + len as usize;
        Ok(text)
    }

    /// Answers [`CutFault::Extra`] where bytes are left over.
    pub fn done(&self) -> Result<(), CutFault>
        ensures { result ≡ fields.done_at self.now.bytes self.now.place }
    {
        if self.place < self.bytes.len() {
            return Err(CutFault::Extra { place: self.place });
        }
        Ok(())
    }
}
