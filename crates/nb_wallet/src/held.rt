ghost use Rattle.std.specs.Prelude.{◌≡◌, ◌≤◌, ◌+◌, ◌++◌, [], length, is_some, IfOk, OnOk, OnErr, codes};
ghost use Rattle.sha2.specs.Sha256.{sha256};
ghost use Rattle.nb_seal.specs.Seal.{text_in};
ghost use Rattle.nb_goods.specs.declared.limits.TheConstants.{MAX_SEALED};

use nb_goods::{OpenGoods, open_parts, opens_parts};
use nb_units::{Blob, Digest, NoMemory, Secret};
use sha2::{Digest as _, Sha256};
use std::alloc::Global;
use std::marker::Model;

/// The parts of sealed goods that came, in order, and the state of the digest of all of them. They are seen as the bytes joined.
pub struct Held {
    parts: Vec<Blob>,
    // How many bytes they have together.
    len: usize,
    // It has taken all of them.
    hasher: Sha256,
}

impl Drop for Held {
    fn drop(self) {
        let Self {
            parts: _,
            len: _,
            hasher: _,
        } = self;
    }
}

impl Model for Held {
    ghost use Rattle.std.specs.Prelude.{◌≡◌, ◌≤◌, List, ℕ, length};
    ghost use Rattle.sha2.specs.Hashers.{Holds256};
    ghost use Rattle.nb_goods.specs.Goods.{joined};
    ghost use Rattle.nb_goods.specs.declared.limits.TheConstants.{MAX_SEALED};

    ghost Value = { List ℕ };

    ghost view = { λ h. joined h.parts.items };

    ghost invariant = { λ h. record {
      len : h.len ≡ length (joined h.parts.items);
      short : h.len ≤ MAX_SEALED;
      hashed : Holds256 h.hasher (joined h.parts.items);
    } };
}

impl Held {
    /// No part. It takes no memory now.
    pub fn new(alloc: Global) -> Held
        ensures { result ≡ [] }
    {
        Held {
            parts: Vec::new(alloc),
            len: 0,
            hasher: Sha256::new(),
        }
    }

    /// How many bytes came, 8 bytes wide.
    pub fn len(&self) -> u64
        ensures len { result ≡ length self.now }
        ensures short { result ≤ MAX_SEALED }
    {
        self.len as u64
    }

    /// The SHA-256 digest (FIPS 180-4) of the bytes that came and of one part more. Only the part is hashed.
    pub fn digest_with(&self, part: &[u8]) -> Digest
        ensures { result ≡ sha256 (self.now ++ part.now) }
    {
        let mut hasher = self.hasher.clone().unwrap();
        hasher.update(part);
        hasher.finalize()
    }

    /// One part more, with which there are at most [`MAX_SEALED`](nb_goods::MAX_SEALED) bytes. Answers [`NoMemory`] where there is none for it, and then
    /// all is as before.
    pub fn push(&mut self, part: Blob) -> Result<(), NoMemory>
        requires { length self.old + length part ≤ MAX_SEALED }
        ensures bytes { OnOk result (self.new ≡ self.old ++ part) }
        ensures err { OnErr result (self.new ≡ self.old) }
    {
        self.parts.reserve(1)?;
        self.hasher.update(part.as_slice());
        self.len += part.as_slice().len();
        self.parts.push_reserved(part);
        Ok(())
    }

    /// Forgets all parts.
    pub fn forget(&mut self)
        ensures { self.new ≡ [] }
    {
        self.parts.clear();
        self.len = 0;
        self.hasher = Sha256::new();
    }

    /// Whether the bytes are sealed goods under the key. They are read once, and no memory is taken.
    pub fn opens(&self, key: &Secret) -> bool
        ensures { result ≡ is_some (text_in key.now (codes "good") self.now) }
    {
        opens_parts(key, self.parts.as_slice())
    }

    /// The goods that the bytes are sealed from under the key, or `None` where they are no sealed goods under it. Answers [`NoMemory`] where there is
    /// none for the goods.
    pub fn open(&self, alloc: Global, key: &Secret) -> Result<Option<Blob>, NoMemory>
        ensures { IfOk result (λ goods. goods ≡ text_in key.now (codes "good") self.now) }
    {
        match open_parts(alloc, key, self.parts.as_slice()) {
            Ok(goods) => Ok(Some(goods)),
            Err(OpenGoods::BadSeal { .. }) => Ok(None),
            Err(OpenGoods::NoMemory) => Err(NoMemory),
        }
    }
}
