ghost use Rattle.std.specs.Prelude.{◌≡◌, ◌↔◌, IsTrue};
ghost use Rattle.sha2.specs.Sha256.{sha256};

use crate::limits::CODE_BYTES;
use sha2::{Digest, Sha256};

/// The SHA-256 digest (FIPS 180-4) of the bytes, which has 32 bytes.
pub fn sha(bytes: &[u8]) -> [u8; CODE_BYTES]
    ensures { result ≡ sha256 bytes.now }
{
    Sha256::digest(bytes)
}

/// Whether two digests are the same in all 32 bytes.
pub fn same(a: &[u8; CODE_BYTES], b: &[u8; CODE_BYTES]) -> bool
    ensures { IsTrue result ↔ (a.now ≡ b.now) }
{
    *a == *b
}
