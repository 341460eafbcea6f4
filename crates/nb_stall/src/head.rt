ghost use Rattle.std.specs.Prelude.{◌≡◌};
ghost use Rattle.nb_stall.specs.Head.{IsStall, head_bytes, stall_of};

use crate::stall::Stall;
use nb_units::width::{NONCE, SECRET};
use nb_units::{AcctId, Buffer, HEAD, PartyId, u32_of};

#[tactic(auto, unfolding(crate::specs::Head::stall_of, crate::specs::Head::head_bytes))]
impl Stall {
    /// The stall whose journal has this head. Any 80 bytes are the head of one; the 8 behind the account are not looked at.
    pub fn of_head(head: &[u8; HEAD]) -> Stall
        ensures { result ≡ stall_of head.now }
    {
        let mut key = [0u8; SECRET];
        key.copy_from_slice(&head[16..48]);
        let mut master = [0u8; SECRET];
        master.copy_from_slice(head.split_at(48).1);
        Stall {
            id: PartyId(u32_of(&head[..4])),
            acct: AcctId(u32_of(&head[4..8])),
            key,
            master,
        }
    }

    /// The head of its journal, which [`Stall::of_head`] reads. The 8 bytes behind the account are 0.
    pub fn head(&self) -> [u8; HEAD]
        ensures bytes { result ≡ head_bytes self.now }
        // Each of its parts fits its width.
        ensures fits { IsStall self.now }
    {
        let PartyId(id) = self.id;
        let AcctId(acct) = self.acct;
        let mut fields = Buffer::new();
        fields.u32(id);
        fields.u32(acct);
        fields.raw(&[0; NONCE]);
        fields.raw(&self.key);
        fields.raw(&self.master);
        let mut head = [0u8; HEAD];
        head.copy_from_slice(fields.as_slice());
        head
    }
}
