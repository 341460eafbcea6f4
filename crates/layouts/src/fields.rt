// Fields of each width, one behind the other.

ghost use Rattle.std.specs.Prelude.{◌≤◌, length, IfOk};

use crate::telling;
use nb_lines::Told;
use nb_units::{Buffer, Cut, CutFault, Epoid, NoMemory, Pen, allow, is_reason, room};
use std::alloc::Global;

// The most bytes of the text, and all bytes of the other fields, with its length.
const MOST: u32 = 64;

const WIDTHS: usize = 33;

// A row of fields.
#[derive(Drop)]
struct FiveFields<'a> {
    byte: u8,
    short: u32,
    long: u64,
    epoid: Epoid,
    text: &'a [u8],
}

/// `row BYTES`: a byte, a number of 4 bytes, one of 8, an identifier and a text of at most 64 bytes, and whether a pen and a buffer spell them so;
/// or the first field that does not stand there.
pub fn row(told: &mut Told, words: &[&str]) -> Result<(), NoMemory> {
    let alloc = told.alloc();
    let [bytes] = words else {
        return told.unclear();
    };
    let bytes = nb_lines::spelled(alloc, *bytes);
    match read(&bytes) {
        Ok(row) => tell(told, &row, &bytes),
        Err(fault) => telling::fault(told, &fault),
    }
}

fn read(bytes: &[u8]) -> Result<FiveFields, CutFault>
    ensures { IfOk result (λ row. length row.text.now ≤ 64) }
{
    let mut cut = Cut::new(bytes);
    let byte = cut.u8()?;
    let short = cut.u32()?;
    let long = cut.u64()?;
    let epoid = Epoid::read(&cut.fixed16()?);
    let text = cut.bytes(MOST)?;
    cut.done()?;
    Ok(FiveFields {
        byte,
        short,
        long,
        epoid,
        text,
    })
}

fn tell(told: &mut Told, row: &FiveFields, bytes: &[u8]) -> Result<(), NoMemory>
    requires { length row.now.text.now ≤ 64 }
{
    let fields = (row.byte, row.short, row.long, row.epoid, row.text);
    let by_pen = penned(told.alloc(), row)?.as_slice() == bytes;
    let by_buffer = buffered(row).as_slice() == bytes;
    told.debug("", &fields)
        .show("; spelled so: ", &by_pen)
        .show(", ", &by_buffer)
        .done()
}

fn penned(alloc: Global, row: &FiveFields) -> Result<Vec<u8>, NoMemory>
    requires { length row.now.text.now ≤ 64 }
{
    let mut out = Vec::new(alloc);
    room(&mut out, WIDTHS + row.text.len())?;
    let mut pen = Pen::over(&mut out);
    pen.u8(row.byte);
    pen.u32(row.short);
    pen.u64(row.long);
    pen.raw(&row.epoid.write());
    pen.bytes(row.text);
    Ok(out)
}

fn buffered(row: &FiveFields) -> Buffer
    requires { length row.now.text.now ≤ 64 }
{
    let mut buffer = Buffer::new();
    buffer.u8(row.byte);
    buffer.u32(row.short);
    buffer.u64(row.long);
    buffer.raw(&row.epoid.write());
    buffer.bytes(row.text);
    buffer
}

/// `reason CODE PLACE`: whether a field at the place may have the code of a reason.
pub fn reason(told: &mut Told, words: &[&str]) -> Result<(), NoMemory> {
    let [code, place] = words else {
        return told.unclear();
    };
    let code = code.parse::<u8>().unwrap_or(0);
    match allow(is_reason(code), telling::short(*place) as usize) {
        Ok(()) => told.text("allowed").done(),
        Err(fault) => telling::fault(told, &fault),
    }
}
