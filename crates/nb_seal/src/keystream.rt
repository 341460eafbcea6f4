ghost use Rattle.std.specs.Prelude.{◌≡◌, ◌≤◌, ◌<◌, ◌+◌, ◌*◌, ◌%◌, ℕ, List, length};
ghost use Rattle.nb_seal.specs.Keystream.{IsAtWord, xored};
ghost use Rattle.nb_seal.specs.declared.limits.TheConstants.{MAX_KEYSTREAM};

use crate::limits::CODE_BYTES;
use rand_chacha::ChaCha20Rng;
use rand_core::SeedableRng;
use rand_core::utils::NextWord;

/// Xors `buf` with the keystream of the key, from byte `first` of the keystream on. `first` is a multiple
/// of 4, and `first` plus the length of `buf` is at most [`MAX_KEYSTREAM`](crate::MAX_KEYSTREAM), 2^40.
///
/// The keystream is that of ChaCha20 with a block counter of 64 bits, from 0 on, and a nonce of 64 bits, which
/// is 0, as its author defined it. Up to byte 2^38 it is the same as that of RFC 8439, section 2.3, with a
/// nonce of zeros and the counter from 0 on; there the counter of 32 bits ends.
pub fn stream_xor(key: &[u8; CODE_BYTES], first: u64, buf: &mut [u8])
    requires aligned { first % 4 ≡ 0 }
    requires near { first + length buf.old ≤ MAX_KEYSTREAM }
    ensures { buf.new ≡ xored key.now first buf.old }
{
    let mut rng = ChaCha20Rng::from_seed(*key);
    if first > 0 {
        rng.set_word_pos(u128::from(first / 4));
    }
    let whole = buf.len() / 4;
    for i in 0..whole {
        xor_word(&mut rng, &mut buf[4 * i..4 * i + 4]);
    }
    xor_tail(&mut rng, &mut buf[4 * whole..]);
}

// Xors four bytes with the generator's next word.
fn xor_word(rng: &mut ChaCha20Rng, chunk: &mut [u8])
    requires { length chunk.old ≡ 4 }
    ensures value { (key : List ℕ) (word : ℕ) → word < MAX_KEYSTREAM → IsAtWord key word rng.old
        → chunk.new ≡ xored key (4 * word) chunk.old }
    ensures moved { (key : List ℕ) (word : ℕ) → word < MAX_KEYSTREAM → IsAtWord key word rng.old
        → IsAtWord key (word + 1) rng.new }
{
    let word = rng.next_word().to_le_bytes();
    chunk[0] ^= word[0];
    chunk[1] ^= word[1];
    chunk[2] ^= word[2];
    chunk[3] ^= word[3];
}

// Xors at most four bytes with the generator's next word.
fn xor_tail(rng: &mut ChaCha20Rng, tail: &mut [u8])
    requires { length tail.old ≤ 4 }
    ensures { (key : List ℕ) (word : ℕ) → word < MAX_KEYSTREAM → IsAtWord key word rng.old
        → tail.new ≡ xored key (4 * word) tail.old }
{
    let mut last = [0u8; 4];
    last[..tail.len()].copy_from_slice(tail);
    xor_word(rng, &mut last);
    tail.copy_from_slice(&last[..tail.len()]);
}
