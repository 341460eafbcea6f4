ghost use Rattle.std.specs.Prelude.{◌≡◌, length};
ghost use Rattle.std.specs.Int.{w64, from_be_bytes};
ghost use Rattle.nb_wallet.specs.Head.{IsWallet, head_bytes, wallet_of};

use crate::wallet::Wallet;
use nb_units::width::SECRET;
use nb_units::{AcctId, Buffer, HEAD, PartyId, u32_of};

#[tactic(auto, unfolding(crate::specs::Head::wallet_of, crate::specs::Head::head_bytes))]
impl Wallet {
    /// The wallet whose journal has this head. Any 80 bytes are the head of one; the last 32 are not looked at.
    pub fn of_head(head: &[u8; HEAD]) -> Wallet
        ensures { result ≡ wallet_of head.now }
    {
        let mut key = [0u8; SECRET];
        key.copy_from_slice(&head[16..48]);
        Wallet {
            id: PartyId(u32_of(&head[..4])),
            acct: AcctId(u32_of(&head[4..8])),
            nonce: u64_of(&head[8..16]),
            key,
        }
    }

    /// The head of its journal, which [`Wallet::of_head`] reads. The last 32 bytes are 0.
    pub fn head(&self) -> [u8; HEAD]
        ensures bytes { result ≡ head_bytes self.now }
        // Each of its parts fits its width.
        ensures fits { IsWallet self.now }
    {
        let PartyId(id) = self.id;
        let AcctId(acct) = self.acct;
        let mut fields = Buffer::new();
        fields.u32(id);
        fields.u32(acct);
        fields.u64(self.nonce);
        fields.raw(&self.key);
        fields.raw(&[0; SECRET]);
        let mut head = [0u8; HEAD];
        head.copy_from_slice(fields.as_slice());
        head
    }
}

// The number that 8 bytes spell, the greatest byte first.
fn u64_of(bytes: &[u8]) -> u64
    requires { length bytes.now ≡ 8 }
    ensures { result ≡ from_be_bytes w64 bytes.now }
{
    let mut word = [0u8; 8];
    word.copy_from_slice(bytes);
    u64::from_be_bytes(word)
}
