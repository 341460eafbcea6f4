ghost use Rattle.std.specs.Prelude.{◌≡◌, ◌≤◌, ◌+◌, ◌++◌, ℕ, List, false, codes, length, take, drop, IsTrue};
ghost use Rattle.nb_seal.specs.Hmac.{hmac_of, MacHolds};
ghost use Rattle.nb_seal.specs.Keystream.{xored};
ghost use Rattle.nb_units.specs.declared.width.TheConstants.{SEAL};
ghost use Rattle.nb_goods.specs.declared.limits.TheConstants.{MAX_SEALED};
ghost use Rattle.nb_goods.specs.declared.opened.TheConstants.{PUSHED};
ghost use Rattle.nb_goods.specs.Goods.{OpensTo, OpensToNothing, joined};

use crate::divided::CHUNK;
use crate::joined::padded;
use crate::limits::GOODS_LABEL;
use nb_seal::{Mac, hmac, same, stream_xor};
use nb_units::width::SEAL;
use nb_units::{Blob, Buffer, Secret};

// So many bytes of a text are combined with the keystream at once: with up to 3 bytes before them they fit a chunk.
const PUSHED: usize = CHUNK - 4;

/// Whether at most [`MAX_SEALED`](crate::MAX_SEALED) bytes are sealed goods under the key. They are read once, chunk by chunk, and no
/// memory is taken: it answers where [`open_goods`](crate::open_goods) has no memory for the goods.
pub fn opens(key: &Secret, sealed: &[u8]) -> bool
    requires { length sealed.now ≤ MAX_SEALED }
    // True: the bytes are some goods, sealed under the key.
    ensures opened { IsTrue result → (goods : List ℕ) × OpensTo key.now sealed.now goods }
    ensures refused { result ≡ false → OpensToNothing key.now sealed.now }
{
    if sealed.len() < SEAL {
        return false;
    }
    let (front, text) = sealed.split_at(SEAL);
    let mut iv = [0u8; SEAL];
    iv.copy_from_slice(front);
    let stream = hmac(key, b"enc", &iv);
    same(&iv, &iv_behind(key, &stream, text))
}

// The iv of the goods that the text is, combined with the keystream, which are made chunk by chunk.
fn iv_behind(key: &Secret, stream: &Secret, text: &[u8]) -> [u8; SEAL]
    requires { length text.now ≤ MAX_SEALED }
    ensures { result ≡ hmac_of key.now (codes "good" ++ xored stream.now 0 text.now) }
{
    let mut mac = Mac::new(key);
    mac.push(&GOODS_LABEL);
    push_text(&mut mac, stream, 0, text);
    mac.finish()
}

/// Whether the parts joined are sealed goods under the key, as [`opens`] answers for the joined bytes. The parts are any lists of bytes, of together at most
/// [`MAX_SEALED`](crate::MAX_SEALED). They are read once, chunk by chunk, and no memory is taken.
pub fn opens_parts(key: &Secret, parts: &[Blob]) -> bool
    requires { length (joined parts.now) ≤ MAX_SEALED }
    // True: the parts joined are some goods, sealed under the key.
    ensures opened { IsTrue result → (goods : List ℕ) × OpensTo key.now (joined parts.now) goods }
    ensures refused { result ≡ false → OpensToNothing key.now (joined parts.now) }
{
    let front = front_of(parts);
    if front.as_slice().len() < SEAL {
        return false;
    }
    let iv = padded(front.as_slice());
    let stream = hmac(key, b"enc", &iv);
    same(&iv, &iv_behind_parts(key, &stream, parts))
}

// The first 32 bytes of the parts joined, or as many as there are.
fn front_of(parts: &[Blob]) -> Buffer
    ensures { result ≡ take SEAL (joined parts.now) }
{
    let mut front = Buffer::new();
    for part in parts {
        let bytes = part.as_slice();
        let n = bytes.len().min(SEAL - front.as_slice().len());
        front.raw(bytes.split_at(n).0);
    }
    front
}

// The iv of the goods that the text behind the first 32 bytes of the parts joined is, combined with the keystream.
fn iv_behind_parts(key: &Secret, stream: &Secret, parts: &[Blob]) -> [u8; SEAL]
    requires { length (joined parts.now) ≤ MAX_SEALED }
    ensures { result ≡ hmac_of key.now (codes "good" ++ xored stream.now 0 (drop SEAL (joined parts.now))) }
{
    let mut mac = Mac::new(key);
    mac.push(&GOODS_LABEL);
    let mut front = 0;
    let mut from = 0;
    for part in parts {
        let bytes = part.as_slice();
        let (near, far) = bytes.split_at(bytes.len().min(SEAL - front));
        front += near.len();
        push_text(&mut mac, stream, from, far);
        from += far.len();
    }
    mac.finish()
}

// Pushes a text, combined with the keystream from a place on.
fn push_text(mac: &mut Mac, stream: &Secret, from: usize, text: &[u8])
    requires { from + length text.now ≤ MAX_SEALED }
    ensures { (key m : List ℕ) → MacHolds mac.old key m → MacHolds mac.new key (m ++ xored stream.now from text.now) }
{
    let whole = text.len() / PUSHED;
    for i in 0..whole {
        let (_, left) = text.split_at(i * PUSHED);
        push_chunk(mac, stream, from + i * PUSHED, left.split_at(PUSHED).0);
    }
    let (_, rest) = text.split_at(whole * PUSHED);
    push_chunk(mac, stream, from + whole * PUSHED, rest);
}

// Pushes a text of at most [`PUSHED`] bytes, combined with the keystream from a place on. The keystream is taken from a multiple of 4 on, so that up to 3 bytes
// stand before the text.
fn push_chunk(mac: &mut Mac, stream: &Secret, from: usize, text: &[u8])
    requires short { length text.now ≤ PUSHED }
    requires near { from ≤ MAX_SEALED }
    ensures { (key m : List ℕ) → MacHolds mac.old key m → MacHolds mac.new key (m ++ xored stream.now from text.now) }
{
    let before = from % 4;
    let mut chunk = [0u8; CHUNK];
    let (front, _) = chunk.split_at_mut(before + text.len());
    front[before..].copy_from_slice(text);
    stream_xor(stream, (from - before) as u64, front);
    mac.push(&front[before..]);
}
