ghost use Rattle.std.specs.Prelude.{◌≡◌, ◌≤◌, length, IfOk};
ghost use Rattle.sha2.specs.Sha256.{sha256};
ghost use Rattle.nb_goods.specs.declared.limits.TheConstants.{MAX_SEALED};
ghost use Rattle.nb_goods.specs.Goods.{goods_key_of, sealed_goods};
ghost use Rattle.nb_goods.specs.Opening.{Opening};
ghost use Rattle.nb_goods.specs.Parts.{parts_of};

use crate::divided::Parts;
use crate::limits::GOODS_LABEL;
use nb_seal::{Unsealed, hmac, seal_spare, sha, unseal};
use nb_units::width::SEAL;
use nb_units::{Blob, Buffer, Digest, NoMemory, PartyId, Secret};
use std::alloc::Global;
use std::fmt;

// What the key of goods is made of begins with this.
const KEY_LABEL: [u8; 5] = *b"goods";

/// Why sealed goods were not opened.
#[derive(Clone, Copy, Debug)]
pub enum OpenGoods {
    /// The bytes are no sealed goods under the key. The iv is the first 32 bytes given, with zeros where there are fewer.
    BadSeal { iv: [u8; 32] },
    /// There was no memory for the goods.
    NoMemory,
}

impl fmt::Display for OpenGoods {
    fn fmt<W: fmt::Write>(&self, f: &mut fmt::Formatter<W>) -> fmt::Result {
        match self {
            OpenGoods::BadSeal { .. } => write!(f, "no goods sealed under this key"),
            OpenGoods::NoMemory => write!(f, "there is no memory"),
        }
    }
}

impl From<Unsealed> for OpenGoods {
    ghost use Rattle.std.specs.Prelude.{◌≡◌};
    ghost use Rattle.nb_goods.specs.Opening.{goods_fault};

    ghost from_gives = { λ fault e. e ≡ goods_fault fault };

    fn from(fault: Unsealed) -> OpenGoods {
        match fault {
            Unsealed::BadSeal { iv } => OpenGoods::BadSeal { iv },
            Unsealed::NoMemory => OpenGoods::NoMemory,
        }
    }
}

impl From<NoMemory> for OpenGoods {
    ghost use Rattle.std.specs.Prelude.{◌≡◌};
    ghost use Rattle.nb_goods.specs.declared.goods.OpenGoods.TheVariants as fault;

    ghost from_gives = { λ _ e. e ≡ fault.NoMemory };

    fn from(_fault: NoMemory) -> OpenGoods {
        OpenGoods::NoMemory
    }
}

/// The key of one sale's goods: the HMAC-SHA-256 (RFC 2104) of "goods", the merchant and the serial number, 4 bytes each and big-endian,
/// under the merchant's master key.
pub fn goods_key(master: &Secret, merchant: PartyId, serial: u32) -> Secret
    ensures { result ≡ goods_key_of master.now merchant serial }
{
    let mut named = Buffer::new();
    named.u32(merchant.0);
    named.u32(serial);
    hmac(master, &KEY_LABEL, named.as_slice())
}

/// The sealed goods: the iv of the goods, 32 bytes, and the goods combined with the keystream behind it. The iv is the HMAC-SHA-256
/// (RFC 2104) of "good" and the goods under the key, so that the same goods under the same key are sealed the same.
///
/// The goods have at most [`MAX_SEALED`](crate::MAX_SEALED) bytes; what is sealed of more than [`MAX_GOODS`](crate::MAX_GOODS) is longer
/// than what [`open_goods`] takes. Answers [`NoMemory`] where there is none for the sealed goods.
pub fn sealed(alloc: Global, key: &Secret, goods: &[u8]) -> Result<Blob, NoMemory>
    requires { length goods.now ≤ MAX_SEALED }
    // After Ok the seal of the goods under the key and the label "good".
    ensures { IfOk result (λ bytes. bytes ≡ sealed_goods key.now goods.now) }
{
    let mut bytes = Vec::with_capacity(alloc, SEAL + goods.len())?;
    seal_spare(key, &GOODS_LABEL, goods, &mut bytes);
    Ok(Blob::from_vec(bytes))
}

/// The checksum of sealed goods: their SHA-256 digest (FIPS 180-4).
pub fn checksum(sealed: &[u8]) -> Digest
    ensures { result ≡ sha256 sealed.now }
{
    sha(sealed)
}

/// The goods that at most [`MAX_SEALED`](crate::MAX_SEALED) bytes are sealed from under the key. It answers [`OpenGoods::BadSeal`] where
/// they are no sealed goods under the key, also where they are fewer than 32, and [`OpenGoods::NoMemory`] where there is no memory for
/// the goods: then it is not known whether the bytes open.
pub fn open_goods(alloc: Global, key: &Secret, sealed: &[u8]) -> Result<Blob, OpenGoods>
    requires { length sealed.now ≤ MAX_SEALED }
    ensures { Opening key.now sealed.now result }
{
    let mut goods = Vec::new(alloc);
    unseal(key, &GOODS_LABEL, sealed, &mut goods)?;
    Ok(Blob::from_vec(goods))
}

/// What the parts of goods, sealed under the key, are made from. The goods have at most [`MAX_SEALED`](crate::MAX_SEALED) bytes. They are
/// read once for the iv and once for the checksum, and no memory is taken.
pub fn parts(key: &Secret, goods: &[u8]) -> Parts
    requires { length goods.now ≤ MAX_SEALED }
    ensures { result ≡ parts_of key.now goods.now }
{
    Parts::of(key, goods)
}
