ghost use Rattle.std.specs.Prelude.{◌≡◌, ◌⊎◌, ◌≤◌, ◌++◌, length, vec_capacity};
ghost use Rattle.nb_units.specs.Frames.{frame};
ghost use Rattle.nb_units.specs.Room.{spare_of};
ghost use Rattle.nb_journal.specs.Time.{LeavesOnly};
ghost use Rattle.nb_escrow.specs.Head.{head_of};
ghost use Rattle.nb_vault.specs.Vaults.{Keeps, StandsForState, entries_in, state_of};
ghost use Rattle.nb_standby.specs.Following.{FollowsAs, IsTaken, house_key};
ghost use Rattle.nb_standby.specs.Reading.{shipped_of};
ghost use Rattle.nb_standby.specs.Spelling.{acknowledged_bytes, told};
ghost use Rattle.nb_standby.specs.declared.limits.TheConstants.{ACKNOWLEDGED_FRAME, ACKNOWLEDGED_ROOM};

use crate::acknowledged::acknowledge;
use crate::code::{BAD_RECORD, BAD_TAG, of};
use crate::limits::PRIMARY;
use crate::shipped::Shipped;
use nb_port::Disk;
use nb_seal::KeyState;
use nb_vault::Vault;

/// Takes the record in that this body spells, appends the frame of an acknowledgement, and answers its [`code`](crate::code). The acknowledgement
/// tells how many entries stand behind this call. It needs room for [`ACKNOWLEDGED_ROOM`](crate::ACKNOWLEDGED_ROOM) bytes, and takes no memory.
pub fn follow<D: Disk>(vault: &mut Vault<D>, body: &[u8], out: &mut Vec<u8>) -> u8
    requires { ACKNOWLEDGED_ROOM ≤ spare_of out.old }
    // The code, and what was done to the vault.
    ensures follows { FollowsAs D.tells vault.old vault.new (shipped_of body.now) result }
    // The acknowledgement is made behind that, of the code and of how many entries stand then.
    ensures acknowledged { out.new.items ≡ out.old.items ++ frame (record { kind = ACKNOWLEDGED_FRAME; body = acknowledged_bytes (told (house_key vault.old) result (length (entries_in vault.new))) }) }
    ensures origin { vault.new.origin ≡ vault.old.origin }
    // A stop at any moment of it leaves what stands for the entries before it or behind it, each without those in doubt or with them.
    ensures any_moment { LeavesOnly D.tells vault.old.disk vault.new.disk
        (λ image. StandsForState vault.old image ⊎ StandsForState vault.new image) }
    // Where the state of the house stays as it was the content of the disk does.
    ensures quiet { state_of vault.new ≡ state_of vault.old → D.tells.content vault.new.disk ≡ D.tells.content vault.old.disk }
    ensures keeps { Keeps D.tells vault.new }
    // The disk's count of faults did not fall.
    ensures count { D.tells.faults vault.old.disk ≤ D.tells.faults vault.new.disk }
    ensures room { vec_capacity out.new ≡ vec_capacity out.old }
{
    let house = vault.house_state();
    let code = taken_as(vault, &house, body);
    acknowledge(code, u64::from(vault.entries()), &house, out);
    code
}

// Takes in what the body spells, and gives the code.
fn taken_as<D: Disk>(vault: &mut Vault<D>, house: &KeyState, body: &[u8]) -> u8
    requires { house.now ≡ house_key vault.old }
    ensures follows { FollowsAs D.tells vault.old vault.new (shipped_of body.now) result }
    ensures origin { vault.new.origin ≡ vault.old.origin }
    ensures any_moment { LeavesOnly D.tells vault.old.disk vault.new.disk
        (λ image. StandsForState vault.old image ⊎ StandsForState vault.new image) }
    ensures quiet { state_of vault.new ≡ state_of vault.old → D.tells.content vault.new.disk ≡ D.tells.content vault.old.disk }
    ensures keeps { Keeps D.tells vault.new }
    ensures count { D.tells.faults vault.old.disk ≤ D.tells.faults vault.new.disk }
{
    match Shipped::read(body) {
        Ok(shipped) => {
            if !shipped.is_signed(body, house) {
                vault.witness();
                return BAD_TAG;
            }
            of(vault.take_in(PRIMARY, shipped.place, &shipped.entry))
        }
        Err(_) => {
            vault.witness();
            BAD_RECORD
        }
    }
}
