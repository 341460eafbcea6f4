ghost use Rattle.std.specs.Prelude.{◌≡◌, ◌≤◌, ◌+◌, ◌<◌, ◌^◌, ◌++◌, ◌∷◌, [], length, vec_capacity};
ghost use Rattle.nb_units.specs.Fields.{be4, be8, sized};
ghost use Rattle.nb_units.specs.Room.{spare_of};

/// Appends fields to a vector that has the room for them, and takes no memory. Numbers are big-endian. The clauses name
/// `out`, the vector that the pen borrows; its room is how many bytes can be appended without taking memory.
#[derive(Drop)]
pub struct Pen<'a> {
    out: &'a mut Vec<u8>,
}

impl<'a> Pen<'a> {
    /// A pen at the end of the vector.
    pub fn over(out: &'a mut Vec<u8>) -> Pen<'a>
        // it is that vector, and what is appended by the pen stands in it
        ensures same { result.out.ghost_name ≡ out.entry.ghost_name }
        ensures now { result.out.now ≡ out.old }
    {
        Pen { out }
    }

    /// One byte, which needs room for 1.
    pub fn u8(&mut self, v: u8)
        requires { 1 ≤ spare_of self.old.out.now }
        // it is the same vector
        ensures same { self.new.out.ghost_name ≡ self.old.out.ghost_name }
        // the vector's bytes grew by the field's spelling
        ensures value { self.new.out.now.items ≡ self.old.out.now.items ++ v ∷ [] }
        // the room fell by no more than what was appended, and the capacity is as before: no memory is taken
        ensures spare { spare_of self.old.out.now ≤ spare_of self.new.out.now + 1 }
        ensures room { vec_capacity self.new.out.now ≡ vec_capacity self.old.out.now }
    {
        self.out.push_reserved(v);
    }

    /// A number in 4 bytes, which needs room for 4.
    pub fn u32(&mut self, v: u32)
        requires { 4 ≤ spare_of self.old.out.now }
        // it is the same vector
        ensures same { self.new.out.ghost_name ≡ self.old.out.ghost_name }
        // the vector's bytes grew by the field's spelling
        ensures value { self.new.out.now.items ≡ self.old.out.now.items ++ be4 v }
        // the room fell by no more than what was appended, and the capacity is as before: no memory is taken
        ensures spare { spare_of self.old.out.now ≤ spare_of self.new.out.now + 4 }
        ensures room { vec_capacity self.new.out.now ≡ vec_capacity self.old.out.now }
    {
        self.raw(&v.to_be_bytes());
    }

    /// A number in 8 bytes, which needs room for 8.
    pub fn u64(&mut self, v: u64)
        requires { 8 ≤ spare_of self.old.out.now }
        // it is the same vector
        ensures same { self.new.out.ghost_name ≡ self.old.out.ghost_name }
        // the vector's bytes grew by the field's spelling
        ensures value { self.new.out.now.items ≡ self.old.out.now.items ++ be8 v }
        // the room fell by no more than what was appended, and the capacity is as before: no memory is taken
        ensures spare { spare_of self.old.out.now ≤ spare_of self.new.out.now + 8 }
        ensures room { vec_capacity self.new.out.now ≡ vec_capacity self.old.out.now }
    {
        self.raw(&v.to_be_bytes());
    }

    /// Bytes as they are, which need room for as many.
    pub fn raw(&mut self, b: &[u8])
        requires { length b.now ≤ spare_of self.old.out.now }
        // it is the same vector
        ensures same { self.new.out.ghost_name ≡ self.old.out.ghost_name }
        // the vector's bytes grew by the field's spelling
        ensures value { self.new.out.now.items ≡ self.old.out.now.items ++ b.now }
        // the room fell by no more than what was appended, and the capacity is as before: no memory is taken
        ensures spare { spare_of self.old.out.now ≤ spare_of self.new.out.now + length b.now }
        ensures room { vec_capacity self.new.out.now ≡ vec_capacity self.old.out.now }
    {
        for x in b {
            self.out.push_reserved(*x);
        }
    }

    /// A text of fewer than 2^32 bytes: its length in 4 bytes, and then the text, which need room for 4 more than the
    /// text has.
    pub fn bytes(&mut self, b: &[u8])
        requires short { length b.now < 2 ^ 32 }
        requires spare { 4 + length b.now ≤ spare_of self.old.out.now }
        // it is the same vector
        ensures same { self.new.out.ghost_name ≡ self.old.out.ghost_name }
        // the vector's bytes grew by the field's spelling
        ensures value { self.new.out.now.items ≡ self.old.out.now.items ++ sized b.now }
        // the room fell by no more than what was appended, and the capacity is as before: no memory is taken
        ensures spare { spare_of self.old.out.now ≤ spare_of self.new.out.now + (4 + length b.now) }
        ensures room { vec_capacity self.new.out.now ≡ vec_capacity self.old.out.now }
    {
        self.u32(b.len() as u32);
        self.raw(b);
    }
}
