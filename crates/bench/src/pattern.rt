// The bytes that each row begins with.

ghost use Rattle.std.specs.Prelude.{◌≡◌, length, IfOk};

use nb_seal::NoMemory;
use std::alloc::Global;

/// The key of the codes, the seals and the keystream.
pub const KEY: [u8; 32] = [0x44; 32];

/// A pattern of so many bytes: byte i is i modulo 251.
pub fn pattern(alloc: Global, size: u32) -> Result<Vec<u8>, NoMemory>
    ensures { IfOk result (λ bytes. length bytes.items ≡ size) }
{
    let bytes = (0..size).map(|i| (i % 251) as u8).collect(alloc)?;
    Ok(bytes)
}

/// Writes the front over that of the bytes, as far as both reach.
pub fn write_over(front: &[u8], bytes: &mut [u8])
    ensures { length bytes.new ≡ length bytes.old }
{
    let n = front.len().min(bytes.len());
    bytes[..n].copy_from_slice(&front[..n]);
}
