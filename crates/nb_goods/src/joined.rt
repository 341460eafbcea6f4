ghost use Rattle.std.specs.Prelude.{◌≡◌, ◌≤◌, ◌++◌, false, length, take, drop, IfOk, IsTrue};
ghost use Rattle.nb_seal.specs.Seal.{iv_shown};
ghost use Rattle.nb_units.specs.declared.width.TheConstants.{SEAL};
ghost use Rattle.nb_goods.specs.declared.limits.TheConstants.{MAX_SEALED};
ghost use Rattle.nb_goods.specs.Goods.{OpensTo, OpensToNothing, joined};
ghost use Rattle.nb_goods.specs.Opening.{Opening};

use crate::goods::OpenGoods;
use crate::limits::GOODS_LABEL;
use nb_seal::{KeyState, same, stream_xor};
use nb_units::width::SEAL;
use nb_units::{Blob, NoMemory, Secret};
use std::alloc::Global;

/// The goods that the parts joined are sealed from under the key, as [`open_goods`](crate::open_goods) answers for the joined bytes. The
/// parts are any lists of bytes, of together at most [`MAX_SEALED`](crate::MAX_SEALED).
pub fn open_parts(alloc: Global, key: &Secret, parts: &[Blob]) -> Result<Blob, OpenGoods>
    requires { length (joined parts.now) ≤ MAX_SEALED }
    ensures { Opening key.now (joined parts.now) result }
{
    let (front, mut text) = divided(alloc, parts)?;
    let iv = padded(&front);
    if front.len() < SEAL {
        return Err(OpenGoods::BadSeal { iv });
    }
    if !open_text(&KeyState::new(key), &iv, &mut text) {
        return Err(OpenGoods::BadSeal { iv });
    }
    Ok(Blob::from_vec(text))
}

// How many bytes the parts have together.
fn length_of(parts: &[Blob]) -> usize
    requires { length (joined parts.now) ≤ MAX_SEALED }
    ensures { result ≡ length (joined parts.now) }
{
    let mut total = 0;
    for part in parts {
        total += part.as_slice().len();
    }
    total
}

// The first 32 bytes of the parts joined, or as many as there are, and what follows them.
fn divided(alloc: Global, parts: &[Blob]) -> Result<(Vec<u8>, Vec<u8>), NoMemory>
    requires { length (joined parts.now) ≤ MAX_SEALED }
    ensures front { IfOk result (λ p. p.0.items ≡ take SEAL (joined parts.now)) }
    ensures text { IfOk result (λ p. p.1.items ≡ drop SEAL (joined parts.now)) }
{
    let mut front = Vec::with_capacity(alloc, SEAL)?;
    let mut text = Vec::with_capacity(alloc, length_of(parts).saturating_sub(SEAL))?;
    for part in parts {
        let bytes = part.as_slice();
        let (near, far) = bytes.split_at(bytes.len().min(SEAL - front.len()));
        front.extend_from_slice(near)?;
        text.extend_from_slice(far)?;
    }
    Ok((front, text))
}

// At most 32 bytes, with zeros behind them where there are fewer.
pub(crate) fn padded(front: &[u8]) -> [u8; SEAL]
    requires { length front.now ≤ SEAL }
    ensures { result ≡ iv_shown front.now }
{
    let mut iv = [0u8; SEAL];
    iv[..front.len()].copy_from_slice(front);
    iv
}

// Combines the text with the keystream behind the iv, and says whether the iv is that of what it became.
fn open_text(key: &KeyState, iv: &[u8; SEAL], text: &mut [u8]) -> bool
    requires { length text.old ≤ MAX_SEALED }
    ensures opened { IsTrue result → OpensTo key.now (iv.now ++ text.old) text.new }
    ensures refused { result ≡ false → OpensToNothing key.now (iv.now ++ text.old) }
{
    stream_xor(&key.code(b"enc", iv), 0, text);
    same(iv, &key.code(&GOODS_LABEL, text))
}
