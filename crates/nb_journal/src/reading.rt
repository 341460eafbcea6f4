// Bytes of a disk, and what they spell.

ghost use Rattle.std.specs.Prelude.{◌≡◌, ◌≤◌, ◌↔◌, IsTrue, length};
ghost use Rattle.std.specs.Int.{w32, from_be_bytes};
ghost use Rattle.nb_units.specs.Fields.{be2, be4};
ghost use Rattle.nb_journal.specs.States.{ByteGives};
ghost use Rattle.nb_journal.specs.Time.{Unwritten};

use nb_port::{Disk, DiskOut, DiskRead};
use nb_units::u32_of;

// What the read of one byte gives.
#[derive(Drop)]
pub(crate) enum ByteRead {
    Got(u8),
    Failed,
}

// Makes all that was written stay, and reads the byte at the place: 0 where the content ends before it.
pub(crate) fn synced_byte<D: Disk>(disk: &mut D, place: u64) -> ByteRead
    ensures gives { ByteGives (D.tells.faults disk.old) (D.tells.faults disk.new) (D.tells.content disk.old) (D.tells.allowed disk.new) place result }
    ensures nothing { Unwritten D.tells disk.old disk.new }
    ensures count { D.tells.faults disk.old ≤ D.tells.faults disk.new }
{
    match disk.sync() {
        DiskOut::Failed => return ByteRead::Failed,
        DiskOut::Done => {}
    }
    let mut byte = [0u8; 1];
    match disk.read(place, &mut byte) {
        DiskRead::Got(n) => {
            if n == 0 {
                return ByteRead::Got(0);
            }
            ByteRead::Got(byte[0])
        }
        DiskRead::Failed => ByteRead::Failed,
    }
}

// The number that four bytes spell.
pub(crate) fn number(word: &[u8]) -> u32
    requires { length word.now ≡ 4 }
    ensures value { result ≡ from_be_bytes w32 word.now }
    ensures spelled { be4 result ≡ word.now }
{
    u32_of(word)
}

// The number that two bytes spell.
pub(crate) fn short_number(word: &[u8]) -> u16
    requires { length word.now ≡ 2 }
    ensures { be2 result ≡ word.now }
{
    let mut bytes = [0u8; 2];
    bytes.copy_from_slice(word);
    u16::from_be_bytes(bytes)
}

// Whether the bytes are these.
pub(crate) fn same_bytes(bytes: &[u8], wanted: &[u8]) -> bool
    ensures { IsTrue result ↔ (bytes.now ≡ wanted.now) }
{
    bytes == wanted
}
