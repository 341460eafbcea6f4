ghost use Rattle.std.specs.Prelude.{◌≡◌, ◌≢◌, ◌≤◌, ◌+◌, ◌-◌, ◌++◌, ℕ, List, false, IfErr, IfOk, IsOk, IsTrue, OnErr, OnOk, drop, length, take, vec_capacity, vec_len};
ghost use Rattle.nb_seal.specs.declared.limits.TheConstants.{CODE_BYTES, MAX_TEXT};
ghost use Rattle.nb_seal.specs.Room.{spare_of};
ghost use Rattle.nb_seal.specs.Seal as seals;
ghost use Rattle.nb_seal.specs.Unsealed.{Refuses};

use crate::digest::same;
use crate::key::KeyState;
use crate::keystream::stream_xor;
use crate::limits::CODE_BYTES;
use crate::memory::NoMemory;
use std::alloc::AllocError;
use std::{fmt, mem};

/// The bytes are the seal of no text under the key and the label.
#[derive(Clone, Copy, Debug)]
pub struct BadSeal {
    /// The first 32 bytes given, with zeros where there are fewer.
    pub iv: [u8; CODE_BYTES],
}

impl fmt::Display for BadSeal {
    fn fmt<W: fmt::Write>(&self, f: &mut fmt::Formatter<W>) -> fmt::Result {
        write!(f, "no seal under this key")
    }
}

/// Why bytes were not unsealed.
#[derive(Clone, Copy, Debug)]
pub enum Unsealed {
    /// The bytes are the seal of no text under the key and the label. The iv is the first 32 bytes
    /// given, with zeros where there are fewer.
    BadSeal { iv: [u8; CODE_BYTES] },
    /// There was no memory for the text.
    NoMemory,
}

impl fmt::Display for Unsealed {
    fn fmt<W: fmt::Write>(&self, f: &mut fmt::Formatter<W>) -> fmt::Result {
        match self {
            Unsealed::BadSeal { .. } => write!(f, "no seal under this key"),
            Unsealed::NoMemory => write!(f, "there is no memory"),
        }
    }
}

impl From<BadSeal> for Unsealed {
    ghost use Rattle.std.specs.Prelude.{◌≡◌};
    ghost use Rattle.nb_seal.specs.declared.seals.Unsealed.TheVariants as unsealed;

    ghost from_gives = { λ bad e. e ≡ unsealed.BadSeal bad.iv };

    fn from(bad: BadSeal) -> Unsealed {
        let BadSeal { iv } = bad;
        Unsealed::BadSeal { iv }
    }
}

impl From<AllocError> for Unsealed {
    ghost use Rattle.std.specs.Prelude.{◌≡◌};
    ghost use Rattle.nb_seal.specs.declared.seals.Unsealed.TheVariants as unsealed;

    ghost from_gives = { λ _ e. e ≡ unsealed.NoMemory };

    fn from(_error: AllocError) -> Unsealed {
        Unsealed::NoMemory
    }
}

/// Appends the seal of a text of at most [`MAX_TEXT`](crate::MAX_TEXT) bytes, 2^39, under the key and the
/// label: an iv of 32 bytes, and as many bytes as the text has. The iv is the HMAC-SHA-256 of the label
/// followed by the text, under the key. So the same text under the same key and label has the same seal.
///
/// It answers [`NoMemory`] where `out` has not the room for the seal and there is no memory for it. Then
/// `out` holds what it held, and keeps its capacity. Where the room is there, the call succeeds.
pub fn seal(
    key: &[u8; CODE_BYTES],
    label: &[u8; 4],
    plain: &[u8],
    out: &mut Vec<u8>,
) -> Result<(), NoMemory>
    requires { length plain.now ≤ MAX_TEXT }
    // After Ok the text's seal under the key and the label is appended.
    ensures sealed { OnOk result (out.new.items ≡ out.old.items ++ seals.seal_of key.now label.now plain.now) }
    ensures unchanged { OnErr result (out.new.items ≡ out.old.items) }
    ensures as_before { OnErr result (vec_capacity out.new ≡ vec_capacity out.old) }
    // Where the room was there before, the answer is Ok.
    ensures succeeds { CODE_BYTES + length plain.now ≤ spare_of out.old → IsOk result }
    // The room fell by no more than 32 bytes and the text.
    ensures spare { spare_of out.old ≤ spare_of out.new + (CODE_BYTES + length plain.now) }
{
    out.reserve(CODE_BYTES + plain.len())?;
    seal_spare(key, label, plain, out);
    Ok(())
}

/// Appends the seal as [`seal`] does, within the spare of `out`: at least 32 bytes more than the text has.
/// `out` keeps its capacity.
pub fn seal_spare(key: &[u8; CODE_BYTES], label: &[u8; 4], plain: &[u8], out: &mut Vec<u8>)
    requires short { length plain.now ≤ MAX_TEXT }
    // There is room for the seal.
    requires spare { CODE_BYTES + length plain.now ≤ spare_of out.old }
    // The seal is appended.
    ensures sealed { out.new.items ≡ out.old.items ++ seals.seal_of key.now label.now plain.now }
    // The room fell by no more than the seal.
    ensures spare { spare_of out.old ≤ spare_of out.new + (CODE_BYTES + length plain.now) }
    ensures room { vec_capacity out.new ≡ vec_capacity out.old }
{
    KeyState::new(key).seal_spare(label, plain, out);
}

/// Writes the seal of a text of at most [`MAX_TEXT`](crate::MAX_TEXT) bytes, 2^39, to the front of `buf`, which has at
/// least 32 bytes more than the text, and answers its length. What stands behind it in `buf` stays.
pub fn seal_to(key: &[u8; CODE_BYTES], label: &[u8; 4], plain: &[u8], buf: &mut [u8]) -> usize
    requires short { length plain.now ≤ MAX_TEXT }
    requires room { CODE_BYTES + length plain.now ≤ length buf.old }
    ensures sealed { take result buf.new ≡ seals.seal_of key.now label.now plain.now }
    ensures len { result ≡ CODE_BYTES + length plain.now }
    ensures rest { drop result buf.new ≡ drop result buf.old }
{
    KeyState::new(key).seal_to(label, plain, buf)
}

impl KeyState {
    /// Appends the seal under this key as [`seal_spare`] does.
    #[tactic(auto, unfolding(crate::specs::Seal::seal_of))]
    pub fn seal_spare(&self, label: &[u8; 4], plain: &[u8], out: &mut Vec<u8>)
        requires short { length plain.now ≤ MAX_TEXT }
        // There is room for the seal.
        requires spare { CODE_BYTES + length plain.now ≤ spare_of out.old }
        // The seal is appended.
        ensures sealed { out.new.items ≡ out.old.items ++ seals.seal_of self.now label.now plain.now }
        // The room fell by no more than the seal.
        ensures spare { spare_of out.old ≤ spare_of out.new + (CODE_BYTES + length plain.now) }
        ensures room { vec_capacity out.new ≡ vec_capacity out.old }
    {
        let iv = self.code(label, plain);
        append(out, &iv);
        let start = out.len();
        append(out, plain);
        stream_xor(&self.code(b"enc", &iv), 0, &mut out[start..]);
    }

    /// Writes the seal under this key to the front of `buf` as [`seal_to`] does.
    #[tactic(auto, unfolding(crate::specs::Seal::seal_of))]
    pub fn seal_to(&self, label: &[u8; 4], plain: &[u8], buf: &mut [u8]) -> usize
        requires short { length plain.now ≤ MAX_TEXT }
        requires room { CODE_BYTES + length plain.now ≤ length buf.old }
        ensures sealed { take result buf.new ≡ seals.seal_of self.now label.now plain.now }
        ensures len { result ≡ CODE_BYTES + length plain.now }
        ensures rest { drop result buf.new ≡ drop result buf.old }
    {
        let (front, behind) = buf.split_at_mut(CODE_BYTES);
        let (text, _) = behind.split_at_mut(plain.len());
        text.copy_from_slice(plain);
        let iv = self.code(label, text);
        front.copy_from_slice(&iv);
        stream_xor(&self.code(b"enc", &iv), 0, text);
        CODE_BYTES + plain.len()
    }

    /// Writes the text that the bytes open to under this key to the front of `buf` as [`unseal_to`] does.
    pub fn unseal_to(&self, label: &[u8; 4], bytes: &[u8], buf: &mut [u8]) -> Result<usize, BadSeal>
        requires short { length bytes.now ≤ CODE_BYTES + MAX_TEXT }
        requires room { length bytes.now ≤ length buf.old }
        // After Ok(n) the first n bytes of buf are a text whose seal the bytes are.
        ensures opened { IfOk result (λ n. seals.Opens self.now label.now bytes.now (take n buf.new)) }
        ensures len { IfOk result (λ n. n + CODE_BYTES ≡ length bytes.now) }
        // What stands behind the text in buf is as before.
        ensures rest { IfOk result (λ n. drop n buf.new ≡ drop n buf.old) }
        ensures refused { OnErr result (seals.IsNoSeal self.now label.now bytes.now) }
        ensures front { IfErr result (λ bad. bad.iv ≡ seals.iv_shown bytes.now) }
    {
        let (iv, text) = parts_of(bytes)?;
        let n = text.len();
        buf[..n].copy_from_slice(text);
        if open_text(self, label, &iv, &mut buf[..n]) {
            return Ok(n);
        }
        Err(BadSeal { iv })
    }
}

/// Appends the text that the bytes open to under the key and the label. The text has 32 bytes less than its
/// seal, and at most [`MAX_TEXT`](crate::MAX_TEXT), 2^39.
///
/// It answers [`Unsealed::BadSeal`] where the bytes are the seal of no text under the key and the label, also
/// where they are fewer than 32, and [`Unsealed::NoMemory`] where `out` has not the room for the text and
/// there is no memory for it: then it is not known whether the bytes open to a text. After either `out` holds
/// the bytes that it held, and its spare is not less.
pub fn unseal(
    key: &[u8; CODE_BYTES],
    label: &[u8; 4],
    bytes: &[u8],
    out: &mut Vec<u8>,
) -> Result<(), Unsealed>
    requires { length bytes.now ≤ CODE_BYTES + MAX_TEXT }
    ensures opened { OnOk result (seals.AppendsOpened key.now label.now bytes.now out.old.items out.new.items) }
    ensures refused { IfErr result (Refuses key.now label.now bytes.now) }
    ensures unchanged { OnErr result (out.new.items ≡ out.old.items) }
    ensures kept { OnErr result (spare_of out.old ≤ spare_of out.new) }
    // The room fell by no more than the text.
    ensures spare { spare_of out.old ≤ spare_of out.new + (length bytes.now - CODE_BYTES) }
    // Where the room for the text was there before, the answer is not `NoMemory`.
    ensures room { length bytes.now - CODE_BYTES ≤ spare_of out.old → result ≢ Err Unsealed.NoMemory }
{
    let (iv, text) = parts_of(bytes)?;
    let start = out.len();
    out.extend_from_slice(text)?;
    if open_text(&KeyState::new(key), label, &iv, &mut out[start..]) {
        return Ok(());
    }
    out.truncate(start);
    Err(Unsealed::BadSeal { iv })
}

/// Writes the text that the bytes open to under the key and the label to the front of `buf`, which is at
/// least as long as `bytes`, and answers its length. The text has 32 bytes less than its seal, and at most
/// [`MAX_TEXT`](crate::MAX_TEXT), 2^39. After a bad seal `buf` holds any bytes.
pub fn unseal_to(
    key: &[u8; CODE_BYTES],
    label: &[u8; 4],
    bytes: &[u8],
    buf: &mut [u8],
) -> Result<usize, BadSeal>
    requires short { length bytes.now ≤ CODE_BYTES + MAX_TEXT }
    requires room { length bytes.now ≤ length buf.old }
    // After Ok(n) the first n bytes of buf are a text whose seal the bytes are.
    ensures opened { IfOk result (λ n. seals.Opens key.now label.now bytes.now (take n buf.new)) }
    ensures len { IfOk result (λ n. n + CODE_BYTES ≡ length bytes.now) }
    // What stands behind the text in buf is as before.
    ensures rest { IfOk result (λ n. drop n buf.new ≡ drop n buf.old) }
    ensures refused { OnErr result (seals.IsNoSeal key.now label.now bytes.now) }
    ensures front { IfErr result (λ bad. bad.iv ≡ seals.iv_shown bytes.now) }
{
    KeyState::new(key).unseal_to(label, bytes, buf)
}

// The iv and the text of a seal, which has 32 bytes at least.
fn parts_of(bytes: &[u8]) -> Result<([u8; CODE_BYTES], &[u8]), BadSeal>
    ensures parts { IfOk result (λ p. bytes.now ≡ p.0 ++ p.1.now) }
    ensures front { IfOk result (λ p. p.0 ≡ seals.iv_shown bytes.now) }
    ensures short { OnErr result ((key label : List ℕ) → seals.IsNoSeal key label bytes.now) }
    ensures iv { IfErr result (λ bad. bad.iv ≡ seals.iv_shown bytes.now) }
{
    let iv = front(bytes);
    if bytes.len() < CODE_BYTES {
        return Err(BadSeal { iv });
    }
    Ok((iv, &bytes[CODE_BYTES..]))
}

// The first 32 bytes, with zeros where there are fewer.
fn front(bytes: &[u8]) -> [u8; CODE_BYTES]
    ensures { result ≡ seals.iv_shown bytes.now }
{
    let mut front = [0u8; CODE_BYTES];
    let n = bytes.len().min(CODE_BYTES);
    front[..n].copy_from_slice(&bytes[..n]);
    front
}

// Xors the text with the keystream behind the iv, and says whether the iv is that of what it became.
fn open_text(key: &KeyState, label: &[u8; 4], iv: &[u8; CODE_BYTES], text: &mut [u8]) -> bool
    requires { length text.old ≤ MAX_TEXT }
    ensures opened { IsTrue result → seals.Opens key.now label.now (iv.now ++ text.old) text.new }
    ensures refused { result ≡ false → seals.IsNoSeal key.now label.now (iv.now ++ text.old) }
{
    stream_xor(&key.code(b"enc", iv), 0, text);
    same(iv, &key.code(label, text))
}

// Appends the bytes within the spare of `out`. It pushes to a vector of its own, since that is faster: a seal of
// 1 MiB that pushed to `out` itself took 12 in 100 longer.
fn append(out: &mut Vec<u8>, bytes: &[u8])
    requires { length bytes.now ≤ spare_of out.old }
    ensures items { out.new.items ≡ out.old.items ++ bytes.now }
    ensures len { vec_len out.new ≡ vec_len out.old + length bytes.now }
    ensures room { vec_capacity out.new ≡ vec_capacity out.old }
{
    let alloc = *out.allocator();
    let mut held = mem::replace(out, Vec::new(alloc));
    for &b in bytes {
        held.push_reserved(b);
    }
    *out = held;
}
