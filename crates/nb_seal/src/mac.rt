ghost use Rattle.std.specs.Prelude.{◌≡◌, ◌≤◌, ℕ, List, [], ◌++◌, bit_xor, length, map};
ghost use Rattle.nb_seal.specs.Hmac.{hmac_of, pad_of};
ghost use Rattle.nb_seal.specs.declared.limits.TheConstants.{BLOCK_BYTES};

use crate::limits::{BLOCK_BYTES, CODE_BYTES};
use sha2::{Digest, Sha256};

// The marks of the inner and of the outer hash (RFC 2104, section 2: ipad and opad).
pub(crate) const INNER: u8 = 0x36;

pub(crate) const OUTER: u8 = 0x5C;

/// HMAC-SHA-256 (RFC 2104) of a message that comes piece by piece.
///
/// Clauses speak of it by `MacHolds`: under which key it was begun, and which message the pieces make that it
/// took. [`Mac::new`] makes that so for no pieces, [`Mac::push`] keeps it with one piece more, and
/// [`Mac::finish`] gives the code of that message.
pub struct Mac {
    // The inner hash: it has taken the inner block and the pieces so far.
    inner: Sha256,
    // The block that the outer hash begins with.
    outer: [u8; BLOCK_BYTES],
}

impl Drop for Mac {
    fn drop(self) {
        let Self { inner: _, outer: _ } = self;
    }
}

impl Mac {
    ghost use Rattle.nb_seal.specs.Hmac.{MacHolds};

    /// Begins a code under a key of at most 64 bytes ([`BLOCK_BYTES`](crate::BLOCK_BYTES)).
    pub fn new(key: &[u8]) -> Mac
        requires { length key.now ≤ BLOCK_BYTES }
        ensures { MacHolds result key.now [] }
    {
        let mut inner = Sha256::new();
        inner.update(&padded(key, INNER));
        Mac {
            inner,
            outer: padded(key, OUTER),
        }
    }

    /// Takes the next piece of the message.
    pub fn push(&mut self, piece: &[u8])
        ensures { (key message : List ℕ) → MacHolds self.old key message
            → MacHolds self.new key (message ++ piece.now) }
    {
        self.inner.update(piece);
    }

    /// The code of the pieces joined, which has 32 bytes.
    #[tactic(auto, unfolding(crate::specs::Hmac::hmac_of))]
    pub fn finish(self) -> [u8; CODE_BYTES]
        ensures { (key message : List ℕ) → MacHolds self key message
            → result ≡ hmac_of key message }
    {
        let Mac { inner, outer } = self;
        let inside = inner.finalize();
        let mut hasher = Sha256::new();
        hasher.update(&outer);
        hasher.update(&inside);
        hasher.finalize()
    }
}

/// HMAC-SHA-256 (RFC 2104) of `head` followed by `tail`, under a key of at most 64 bytes
/// ([`BLOCK_BYTES`](crate::BLOCK_BYTES)). The code has 32 bytes ([`CODE_BYTES`](crate::CODE_BYTES)).
pub fn hmac(key: &[u8], head: &[u8], tail: &[u8]) -> [u8; CODE_BYTES]
    requires { length key.now ≤ BLOCK_BYTES }
    ensures { result ≡ hmac_of key.now (head.now ++ tail.now) }
{
    let mut mac = Mac::new(key);
    mac.push(head);
    mac.push(tail);
    mac.finish()
}

// The key padded with zeros to a block, each byte xored with the mark.
pub(crate) fn padded(key: &[u8], mark: u8) -> [u8; BLOCK_BYTES]
    requires { length key.now ≤ BLOCK_BYTES }
    ensures { result ≡ pad_of key.now mark }
{
    let mut block = [0u8; BLOCK_BYTES];
    block[..key.len()].copy_from_slice(key);
    mark_all(&mut block, mark);
    block
}

// Xors each byte of a block with the mark.
fn mark_all(block: &mut [u8; BLOCK_BYTES], mark: u8)
    ensures { block.new ≡ map (λ b. bit_xor b mark) block.old }
{
    for b in block.iter_mut() {
        *b ^= mark;
    }
}
