ghost use Rattle.std.specs.Prelude.{◌≡◌, ◌≤◌, ◌<◌, ◌+◌, ◌%◌, ◌++◌, ℕ, List, length, drop, take, IfOk};
ghost use Rattle.sha2.specs.Sha256.{sha256};
ghost use Rattle.sha2.specs.Hashers.{Holds256};
ghost use Rattle.nb_seal.specs.Keystream.{xored};
ghost use Rattle.nb_goods.specs.declared.limits.TheConstants.{MAX_SEALED, PART_BYTES};
ghost use Rattle.nb_goods.specs.declared.divided.TheConstants.{CHUNK};
ghost use Rattle.nb_goods.specs.Goods.{sealed_goods, part_at};
ghost use Rattle.nb_goods.specs.Parts.{parts_of};

use crate::limits::{GOODS_LABEL, PART_BYTES};
use nb_seal::{KeyState, stream_xor};
use nb_units::width::SEAL;
use nb_units::{Blob, Digest, NoMemory, Secret};
use sha2::{Digest as _, Sha256};
use std::alloc::Global;
use std::marker::Model;

// So many bytes of goods are ciphered at once, for the checksum and where it is told whether bytes open: a multiple of 4.
pub(crate) const CHUNK: usize = 8192;

/// What the parts of one sale's sealed goods are made from, beside the goods: the key, the iv, the total and the checksum. The goods
/// are not kept.
#[derive(Drop)]
pub struct Parts {
    key: Secret,
    iv: [u8; SEAL],
    // The key of the keystream behind the iv.
    stream: Secret,
    total: u64,
    checksum: Digest,
}

impl Model for Parts {
    ghost use Rattle.std.specs.Prelude.{◌≡◌, ◌≤◌, ◌+◌};
    ghost use Rattle.nb_seal.specs.Seal.{stream_key_of};
    ghost use Rattle.nb_goods.specs.declared.limits.TheConstants.{MAX_SEALED};
    ghost use Rattle.nb_goods.specs.Divided.{Divided};

    ghost Value = { Divided };

    ghost view = { λ p. record { key = p.key; iv = p.iv; total = p.total; checksum = p.checksum } };

    ghost invariant = { λ p. (p.stream ≡ stream_key_of p.key p.iv) × (p.total ≤ 32 + MAX_SEALED) };
}

impl Parts {
    // What the parts of goods, sealed under the key, are made from.
    pub(crate) fn of(key: &Secret, goods: &[u8]) -> Parts
        requires { length goods.now ≤ MAX_SEALED }
        ensures { result ≡ parts_of key.now goods.now }
    {
        let state = KeyState::new(key);
        let iv = state.code(&GOODS_LABEL, goods);
        let stream = state.code(b"enc", &iv);
        Parts {
            key: *key,
            iv,
            stream,
            total: (SEAL + goods.len()) as u64,
            checksum: digest_of(&iv, &stream, goods),
        }
    }

    /// How many bytes the sealed goods have: those of the goods, and 32.
    pub fn total(&self) -> u64
        ensures { result ≡ self.now.total }
    {
        self.total
    }

    /// The checksum of the sealed goods, as [`checksum`](crate::checksum) gives it.
    pub fn checksum(&self) -> Digest
        ensures { result ≡ self.now.checksum }
    {
        self.checksum
    }

    /// The part of the sealed goods at a place, [`PART_BYTES`] bytes or as many as are left. The goods are those that
    /// [`parts`](crate::parts) was given, and the place is a multiple of [`PART_BYTES`] below the total. Only the bytes of this part are
    /// ciphered. Answers [`NoMemory`] where there is none for the part.
    pub fn part(&self, alloc: Global, goods: &[u8], place: u64) -> Result<Blob, NoMemory>
        requires same_goods { self.now ≡ parts_of self.now.key goods.now }
        requires place { place % PART_BYTES ≡ 0 }
        requires within { place < self.now.total }
        // After Ok the slice of the sealed goods from the place on: 1,000,000 bytes, or those that are left.
        ensures { IfOk result (λ part. part ≡ part_at (sealed_goods self.now.key goods.now) place) }
    {
        let start = place as usize;
        let (_, front) = self.iv.split_at(start.min(SEAL));
        let from = start.saturating_sub(SEAL);
        let (_, left) = goods.split_at(from);
        let (text, _) = left.split_at(left.len().min(PART_BYTES - front.len()));
        ciphered(alloc, front, &self.stream, from, text)
    }
}

// The front, and behind it the text combined with the keystream from a place on.
fn ciphered(
    alloc: Global,
    front: &[u8],
    stream: &Secret,
    from: usize,
    text: &[u8],
) -> Result<Blob, NoMemory>
    requires aligned { from % 4 ≡ 0 }
    requires short { length front.now + length text.now ≤ PART_BYTES }
    requires near { from ≤ MAX_SEALED }
    ensures { IfOk result (λ part. part ≡ front.now ++ xored stream.now from text.now) }
{
    let mut part = Vec::with_capacity(alloc, front.len() + text.len())?;
    part.extend_from_slice(front)?;
    part.extend_from_slice(text)?;
    stream_xor(stream, from as u64, &mut part[front.len()..]);
    Ok(Blob::from_vec(part))
}

// The digest of the sealed goods, which are made chunk by chunk.
fn digest_of(iv: &[u8; SEAL], stream: &Secret, goods: &[u8]) -> Digest
    requires { length goods.now ≤ MAX_SEALED }
    ensures { result ≡ sha256 (iv.now ++ xored stream.now 0 goods.now) }
{
    let mut hasher = Sha256::new();
    hasher.update(iv);
    let whole = goods.len() / CHUNK;
    for i in 0..whole {
        let (_, left) = goods.split_at(i * CHUNK);
        hash_chunk(&mut hasher, stream, i * CHUNK, left.split_at(CHUNK).0);
    }
    let (_, rest) = goods.split_at(whole * CHUNK);
    hash_chunk(&mut hasher, stream, whole * CHUNK, rest);
    hasher.finalize()
}

// Hashes at most a chunk of goods, combined with the keystream from a place on.
fn hash_chunk(hasher: &mut Sha256, stream: &Secret, from: usize, text: &[u8])
    requires aligned { from % 4 ≡ 0 }
    requires short { length text.now ≤ CHUNK }
    requires near { from ≤ MAX_SEALED }
    ensures { (m : List ℕ) → Holds256 hasher.old m → Holds256 hasher.new (m ++ xored stream.now from text.now) }
{
    let mut chunk = [0u8; CHUNK];
    let (front, _) = chunk.split_at_mut(text.len());
    front.copy_from_slice(text);
    stream_xor(stream, from as u64, front);
    hasher.update(&*front);
}
