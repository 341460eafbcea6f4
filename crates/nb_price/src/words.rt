ghost use Rattle.std.specs.Prelude.{◌≡◌, ◌≤◌, ◌<◌, ◌^◌, ◌++◌, ◌∷◌, ℕ, List, length, IfSome, IsNone, Some};
ghost use Rattle.std.specs.Fmt.{decimal};
ghost use Rattle.nb_price.specs.Fields.{IsFree, IsNoDigit, IsNumbered};

use crate::limits::MAX_DIGITS;
use memchr::memchr;
use nb_units::decimal_of;

// The bytes before the first mark and those behind it, where at most so many stand before it.
pub(crate) fn split(bytes: &[u8], mark: u8, most: usize) -> Option<(&[u8], &[u8])>
    requires { most ≤ 64 }
    ensures some { IfSome result (λ p. bytes.now ≡ p.0.now ++ mark ∷ p.1.now) }
    ensures free { IfSome result (λ p. IsFree mark p.0.now) }
    ensures short { IfSome result (λ p. length p.0.now ≤ most) }
    ensures none { IsNone result → (word rest : List ℕ) → length word ≤ most → bytes.now ≡ word ++ mark ∷ rest → ⊥ }
{
    let (near, _) = bytes.split_at(bytes.len().min(most + 1));
    let i = memchr(mark, near)?;
    let (word, behind) = bytes.split_at(i);
    Some((word, behind.split_at(1).1))
}

/// The number of 32 bits before the mark, in decimal without sign or leading zero, and what follows the mark, which is no digit; or `None`
/// where no such number stands at the front of the bytes, with the mark behind it.
pub fn numbered(bytes: &[u8], mark: u8) -> Option<(u32, &[u8])>
    requires { IsNoDigit mark }
    // the bytes are the number's digits, the mark and what follows
    ensures some { IfSome result (λ p. bytes.now ≡ decimal p.0 ++ mark ∷ p.1.now) }
    // it fits 32 bits
    ensures fits { IfSome result (λ p. p.0 < 2 ^ 32) }
    // each number that stands so is found
    ensures each { (n : ℕ) (rest : List ℕ) → n < 2 ^ 32 → bytes.now ≡ decimal n ++ mark ∷ rest → IsNumbered result n rest }
{
    let (word, rest) = split(bytes, mark, MAX_DIGITS)?;
    let n = number_of(word)?;
    Some((n, rest))
}

// The number of 32 bits that the word is in decimal.
fn number_of(word: &[u8]) -> Option<u32>
    ensures some { IfSome result (λ n. word.now ≡ decimal n) }
    ensures each { (n : ℕ) → n < 2 ^ 32 → word.now ≡ decimal n → result ≡ Some n }
{
    match u32::try_from(decimal_of(word)?) {
        Ok(n) => Some(n),
        Err(_) => None,
    }
}
