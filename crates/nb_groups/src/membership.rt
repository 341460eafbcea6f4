ghost use Rattle.std.specs.Prelude.{◌≡◌, ◌≤◌, ◌+◌, ◌*◌, length, IsTrue};
ghost use Rattle.nb_units.specs.Reads.{Reads};
ghost use Rattle.nb_groups.specs.declared.limits.TheConstants.{CREDENTIAL_BYTES};
ghost use Rattle.nb_groups.specs.Groups.{are_groups};
ghost use Rattle.nb_groups.specs.Spelling.{membership_bytes, credential_of};
ghost use Rattle.nb_groups.specs.Reading.{membership_of, membership_in};

use crate::groups::{Groups, are_groups, spelled};
use crate::limits::{CREDENTIAL_BYTES, CREDENTIAL_LABEL, GROUP, GROUPS_BYTES};
use crate::quoting::Denial;
use nb_seal::{BadSeal, seal_to, unseal_to};
use nb_units::{Buffer, Cut, Malformed, PartyId, Secret, Small, allow};

// What a credential says: a consumer, the last second at which it holds, and the groups of which the consumer is a member.
#[derive(Drop)]
pub(crate) struct Membership {
    pub(crate) consumer: PartyId,
    pub(crate) until: u64,
    pub(crate) groups: Groups,
}

/// A credential, sealed under the keeper's key and the label "cred": 52 to 64 bytes ([`CREDENTIAL_BYTES`]). What is sealed is consumer 4, the last
/// second 8, and the groups behind their length, 4 bytes each: 1 to 4, each greater than the one before it ([`are_groups`]). The last second at
/// which it holds is in seconds since 1970-01-01 00:00 UTC.
pub fn credential(key: &Secret, consumer: PartyId, until: u64, groups: &[u32]) -> Small
    requires { IsTrue (are_groups groups.now) }
    ensures sealed { result ≡ credential_of key.now (record { consumer = consumer; until = until; groups = groups.now }) }
    ensures long { length result ≡ 48 + 4 * length groups.now }
{
    let plain = plain(consumer, until, groups);
    let mut sealed = [0u8; CREDENTIAL_BYTES];
    let n = seal_to(key, &CREDENTIAL_LABEL, plain.as_slice(), &mut sealed);
    Small::of(sealed.split_at(n).0).unwrap()
}

// The bytes of a credential before it is sealed.
#[tactic(auto, unfolding(crate::specs::Spelling::membership_bytes))]
fn plain(consumer: PartyId, until: u64, groups: &[u32]) -> Buffer
    requires { IsTrue (are_groups groups.now) }
    ensures bytes { result ≡ membership_bytes (record { consumer = consumer; until = until; groups = groups.now }) }
    ensures long { length result ≡ 16 + 4 * length groups.now }
{
    let mut bytes = Buffer::new();
    bytes.u32(consumer.0);
    bytes.u64(until);
    bytes.bytes(spelled(groups).as_slice());
    bytes
}

// What the credential says that the bytes are under the keeper's key, or why they are none.
pub(crate) fn opened(bytes: &[u8], key: &Secret) -> Result<Membership, Denial>
    requires { length bytes.now ≤ CREDENTIAL_BYTES }
    ensures { result ≡ membership_in key.now bytes.now }
{
    if bytes.is_empty() {
        return Err(Denial::NoCredential);
    }
    let mut plain = [0u8; CREDENTIAL_BYTES];
    match unseal_to(key, &CREDENTIAL_LABEL, bytes, &mut plain) {
        Ok(n) => match read(plain.split_at(n).0) {
            Ok(membership) => Ok(membership),
            Err(bad) => Err(Denial::Malformed { place: bad.place }),
        },
        Err(bad) => {
            let BadSeal { iv } = bad;
            Err(Denial::BadSeal { iv })
        }
    }
}

// What the bytes spell, or the place of the first field that fails.
#[tactic(auto, unfolding(crate::specs::Reading::membership_of))]
fn read(bytes: &[u8]) -> Result<Membership, Malformed>
    ensures reads { Reads result (membership_of bytes.now) }
{
    let mut cut = Cut::new(bytes);
    let consumer = cut.u32()?;
    let until = cut.u64()?;
    let place = cut.place();
    let text = cut.bytes(GROUPS_BYTES as u32)?;
    let groups = Groups::read(text);
    allow(
        text.len() == GROUP * groups.as_slice().len() && are_groups(groups.as_slice()),
        place,
    )?;
    cut.done()?;
    Ok(Membership {
        consumer: PartyId(consumer),
        until,
        groups,
    })
}
