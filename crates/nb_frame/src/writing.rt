ghost use Rattle.std.specs.Prelude.{◌≡◌, ◌≤◌, ◌+◌, ◌∷◌, ◌++◌, length, vec_capacity};
ghost use Rattle.nb_units.specs.declared.frames.TheConstants.{FIRST_MAGIC, SECOND_MAGIC, VERSION, HEADER, LAST_KIND, MAX_BODY};
ghost use Rattle.nb_units.specs.Fields.{be4};
ghost use Rattle.nb_units.specs.Frames.{frame};
ghost use Rattle.nb_units.specs.Room.{spare_of};

use nb_units::Pen;
use nb_units::frames::{FIRST_MAGIC, SECOND_MAGIC, VERSION};

/// Appends the header of a frame, behind which so many bytes of body are to be appended. It needs room for 8 bytes, and takes no
/// memory.
pub fn write_header(kind: u8, body_len: u32, out: &mut Vec<u8>)
    requires { HEADER ≤ spare_of out.old }
    // The magic, the version, the kind and the length of the body, in 8 bytes.
    ensures bytes { out.new.items ≡ out.old.items ++ (FIRST_MAGIC ∷ SECOND_MAGIC ∷ VERSION ∷ kind ∷ be4 body_len) }
    ensures spare { spare_of out.old ≤ spare_of out.new + HEADER }
    ensures room { vec_capacity out.new ≡ vec_capacity out.old }
{
    let mut pen = Pen::over(out);
    pen.u8(FIRST_MAGIC);
    pen.u8(SECOND_MAGIC);
    pen.u8(VERSION);
    pen.u8(kind);
    pen.u32(body_len);
}

/// Appends the frame of a kind from 1 to 16 with a body of at most 1,048,576 bytes. It needs room for 8 bytes more than
/// the body has, and takes no memory.
pub fn write_frame(kind: u8, body: &[u8], out: &mut Vec<u8>)
    requires least { 1 ≤ kind }
    requires most { kind ≤ LAST_KIND }
    requires short { length body.now ≤ MAX_BODY }
    requires room { HEADER + length body.now ≤ spare_of out.old }
    // The frame's one spelling is appended.
    ensures bytes { out.new.items ≡ out.old.items ++ frame (record { kind = kind; body = body.now }) }
    ensures room { vec_capacity out.new ≡ vec_capacity out.old }
{
    write_header(kind, body.len() as u32, out);
    Pen::over(out).raw(body);
}
