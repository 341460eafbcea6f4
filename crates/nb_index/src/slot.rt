ghost use Rattle.std.specs.Prelude.{◌≡◌, ◌<◌, length};
ghost use Rattle.std.specs.Int.{w64, from_be_bytes};
ghost use Rattle.nb_index.specs.Slots as slots_spec;

use sha2::{Digest, Sha256};

// The slot on which a key falls, in an index with this key of its own and so many slots.
#[tactic(auto, unfolding(crate::specs::Slots::slot_of))]
pub(crate) fn slot_of(index: &[u8; 16], slots: u32, key: &[u8; 16]) -> u32
    requires { 0 < slots }
    ensures slot { result ≡ slots_spec.slot_of index.now slots key.now }
    ensures within { result < slots }
{
    let mut hasher = Sha256::new();
    hasher.update(index);
    hasher.update(key);
    let digest = hasher.finalize();
    (number(&digest[..8]) % u64::from(slots)) as u32
}

// The number that 8 bytes spell.
fn number(bytes: &[u8]) -> u64
    requires { length bytes.now ≡ 8 }
    ensures { result ≡ from_be_bytes w64 bytes.now }
{
    let mut word = [0u8; 8];
    word.copy_from_slice(bytes);
    u64::from_be_bytes(word)
}
