ghost use Rattle.std.specs.Prelude.{◌≡◌, ◌↔◌, ◌++◌, IsTrue};
ghost use Rattle.nb_seal.specs.Hmac.{hmac_of};

use crate::limits::CODE_BYTES;
use crate::mac::{INNER, OUTER, padded};
use sha2::{Digest, Sha256};
use std::marker::Model;

/// A key of 32 bytes, and the two states of the hash behind its padded blocks: a code under it costs two blocks of the hash less
/// than one by [`hmac`]. It is seen as the key's bytes.
pub struct KeyState {
    key: [u8; CODE_BYTES],
    // The hashes that have taken the inner and the outer block (RFC 2104, section 2).
    inner: Sha256,
    outer: Sha256,
}

impl Drop for KeyState {
    fn drop(self) {
        let Self {
            key: _,
            inner: _,
            outer: _,
        } = self;
    }
}

impl Model for KeyState {
    ghost use Rattle.std.specs.Prelude.{ℕ, List};
    ghost use Rattle.nb_seal.specs.Hmac.{IsBehind};

    ghost Value = { List ℕ };

    ghost view = { λ k. k.key };

    ghost invariant = { λ k. record { inside : IsBehind k.inner k.key 0x36; outside : IsBehind k.outer k.key 0x5C } };
}

impl KeyState {
    /// The state of a key.
    pub fn new(key: &[u8; CODE_BYTES]) -> KeyState
        ensures { result ≡ key.now }
    {
        let mut inner = Sha256::new();
        inner.update(&padded(key, INNER));
        let mut outer = Sha256::new();
        outer.update(&padded(key, OUTER));
        KeyState {
            key: *key,
            inner,
            outer,
        }
    }

    /// Whether this is the state of the key: all 32 bytes are compared.
    pub fn is_of(&self, key: &[u8; CODE_BYTES]) -> bool
        ensures { IsTrue result ↔ (self.now ≡ key.now) }
    {
        self.key == *key
    }

    /// A state of the same key. No block of the hash is made again.
    pub fn copy(&self) -> KeyState
        ensures { result ≡ self.now }
    {
        KeyState {
            key: self.key,
            inner: self.inner.clone().unwrap(),
            outer: self.outer.clone().unwrap(),
        }
    }

    /// The code of `head` followed by `tail` under the key, as [`hmac`] gives it.
    #[tactic(auto, unfolding(crate::specs::Hmac::hmac_of))]
    pub fn code(&self, head: &[u8], tail: &[u8]) -> [u8; CODE_BYTES]
        ensures { result ≡ hmac_of self.now (head.now ++ tail.now) }
    {
        let mut inner = self.inner.clone().unwrap();
        inner.update(head);
        inner.update(tail);
        let mut outer = self.outer.clone().unwrap();
        outer.update(&inner.finalize());
        outer.finalize()
    }
}
