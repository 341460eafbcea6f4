ghost use Rattle.std.specs.Prelude.{◌≡◌, ◌≤◌, ◌+◌, ◌++◌, length};
ghost use Rattle.std.specs.Fmt.{decimal};
ghost use Rattle.hex.specs.Hex.{encode_lower};
ghost use Rattle.nb_units.specs.declared.buffer.TheConstants.{MAX_BUFFER};
ghost use Rattle.nb_statement.specs.Statement as texts;

use crate::movement::{Movement, Way};
use nb_units::{AcctId, Buffer};

// The greatest width of a number, in places.
const WIDTH: usize = 20;

const BLANKS: [u8; WIDTH] = [b' '; WIDTH];

// The first line of a statement.
pub(crate) fn heading(account: AcctId) -> Buffer
    ensures { result ≡ texts.heading account }
{
    let mut line = Buffer::new();
    line.raw(b"account ");
    plain(&mut line, u64::from(account.0));
    line.raw(b"\n");
    line
}

// The last line of a statement.
pub(crate) fn closing(balance: u64) -> Buffer
    ensures { result ≡ texts.closing balance }
{
    let mut line = Buffer::new();
    line.raw(b"closing ");
    plain(&mut line, balance);
    line.raw(b"\n");
    line
}

// The line of a movement with this number, and this balance behind it.
pub(crate) fn line_of(number: u32, movement: &Movement, balance: u64) -> Buffer
    ensures { result ≡ texts.line number movement.now balance }
{
    let mut line = Buffer::new();
    right(&mut line, u64::from(number), 8);
    line.raw(b" ");
    line.raw(word_of(movement.way).as_slice());
    line.raw(b" ");
    digits(&mut line, &movement.name);
    line.raw(b" ");
    right(&mut line, movement.amount, WIDTH);
    line.raw(b" ");
    right(&mut line, balance, WIDTH);
    line.raw(b"\n");
    line
}

// The word of a way.
fn word_of(way: Way) -> [u8; 4]
    ensures { result ≡ texts.word_of way }
{
    match way {
        Way::Fund => *b"fund",
        Way::Out => *b"out ",
        Way::In => *b"in  ",
        Way::Fee => *b"fee ",
    }
}

// A number in decimal.
fn plain(line: &mut Buffer, n: u64)
    requires { length line.old + 20 ≤ MAX_BUFFER }
    ensures value { line.new ≡ line.old ++ decimal n }
    ensures short { length line.new ≤ length line.old + 20 }
{
    let mut text = itoa::Buffer::new();
    line.raw(text.format(n).as_bytes());
}

// A number in decimal, on the right of so many places.
fn right(line: &mut Buffer, n: u64, width: usize)
    requires room { length line.old + 40 ≤ MAX_BUFFER }
    requires width { width ≤ 20 }
    ensures value { line.new ≡ line.old ++ texts.right width (decimal n) }
    ensures short { length line.new ≤ length line.old + 20 }
{
    let mut text = itoa::Buffer::new();
    let text = text.format(n).as_bytes();
    line.raw(BLANKS.split_at(width.saturating_sub(text.len())).0);
    line.raw(text);
}

// A name of 16 bytes in 32 digits.
fn digits(line: &mut Buffer, name: &[u8; 16])
    requires { length line.old + 32 ≤ MAX_BUFFER }
    ensures value { line.new ≡ line.old ++ encode_lower name.now }
    ensures short { length line.new ≤ length line.old + 32 }
{
    let mut text = [0u8; 32];
    hex::encode_to_slice(name.as_slice(), &mut text).unwrap();
    line.raw(&text);
}
