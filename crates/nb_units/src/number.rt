//! Numbers that bytes spell, big-endian or in decimal.

ghost use Rattle.std.specs.Prelude.{◌≡◌, ◌<◌, ◌^◌, ◌↔◌, ℕ, length, IfSome, Some, IsTrue};
ghost use Rattle.std.specs.Fmt.{decimal};
ghost use Rattle.std.specs.Int.{w32, w64, from_be_bytes};
ghost use Rattle.nb_units.specs.Numerals.{IsPlain};

use std::str;

/// The number that 4 bytes spell, the greatest byte first.
pub fn u32_of(bytes: &[u8]) -> u32
    requires { length bytes.now ≡ 4 }
    ensures { result ≡ from_be_bytes w32 bytes.now }
{
    let mut word = [0u8; 4];
    word.copy_from_slice(bytes);
    u32::from_be_bytes(word)
}

// The number that 8 bytes spell.
pub(crate) fn u64_of(bytes: &[u8]) -> u64
    requires { length bytes.now ≡ 8 }
    ensures { result ≡ from_be_bytes w64 bytes.now }
{
    let mut word = [0u8; 8];
    word.copy_from_slice(bytes);
    u64::from_be_bytes(word)
}

/// The number below 2^64 that the word is in decimal, with no sign and no leading zero.
pub fn decimal_of(word: &[u8]) -> Option<u64>
    // Some only of a number whose decimal spelling, without sign and leading zero, is the word
    ensures some { IfSome result (λ n. word.now ≡ decimal n) }
    // Some of each such number that fits 64 bits
    ensures each { (n : ℕ) → n < 2 ^ 64 → word.now ≡ decimal n → result ≡ Some n }
{
    if !is_plain(word) {
        return None;
    }
    match str::from_utf8(word) {
        Ok(text) => match text.parse::<u64>() {
            Ok(n) => Some(n),
            Err(_) => None,
        },
        Err(_) => None,
    }
}

// Whether the word is not empty and has neither a plus nor a leading zero.
fn is_plain(word: &[u8]) -> bool
    ensures { IsTrue result ↔ IsPlain word.now }
{
    !word.is_empty() && word[0] != b'+' && (word[0] != b'0' || word.len() == 1)
}
