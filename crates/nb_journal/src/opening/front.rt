// The front of a journal: what stands before the first gate.

ghost use Rattle.std.specs.Prelude.{◌≡◌, ◌≤◌, ◌-◌, length, IfSome, IfNone};
ghost use Rattle.nb_journal.specs.declared.limits.TheConstants.{FRONT, MAGIC_BYTES};
ghost use Rattle.nb_journal.specs.Reading.{found_in};
ghost use Rattle.nb_journal.specs.Scanning.{FrontFrom, FrontGives, TermsAre, NoTerms};
ghost use Rattle.nb_journal.specs.Time.{Untouched};

use crate::limits::{CAP, FRONT, HEAD, MAGIC_BYTES, MAX_CAP, RATE, ZEROS};
use crate::reading::{number, same_bytes, short_number};
use crate::versions::{may_have, version_of};
use nb_port::{Disk, DiskRead};
use nb_units::Charter;

// What a front says of its journal.
#[derive(Clone, Copy)]
pub(crate) struct Terms {
    pub(crate) cap: u32,
    pub(crate) charter: Charter,
}

// What the first bytes of an image are.
#[derive(Drop)]
pub(crate) enum FrontRead {
    Is(Terms),
    // They begin with no magic, but with this.
    Unborn { found: [u8; MAGIC_BYTES] },
    // They begin with a magic and are no front.
    Missing,
    // The disk failed.
    Failed,
}

// Reads the front.
pub(crate) fn read_front<D: Disk>(disk: &mut D) -> FrontRead
    ensures gives { FrontGives (D.tells.faults disk.old) (D.tells.faults disk.new) (D.tells.content disk.old) result }
    ensures nothing { Untouched D.tells disk.old disk.new }
    ensures count { D.tells.faults disk.old ≤ D.tells.faults disk.new }
{
    let mut bytes = [0u8; FRONT as usize];
    match disk.read(0, &mut bytes) {
        DiskRead::Failed => FrontRead::Failed,
        DiskRead::Got(n) => front_of(bytes.as_slice().split_at(n).0),
    }
}

// What the bytes are, where these are all of an image, or the first ninety-six of them.
fn front_of(bytes: &[u8]) -> FrontRead
    requires { length bytes.now ≤ FRONT }
    ensures { FrontFrom bytes.now result }
{
    let found = first_eight(bytes);
    let Some(version) = version_of(&found) else {
        return FrontRead::Unborn { found };
    };
    if bytes.len() < FRONT as usize {
        return FrontRead::Missing;
    }
    match terms_of(bytes.split_at(MAGIC_BYTES).1, version) {
        Some(terms) => FrontRead::Is(terms),
        None => FrontRead::Missing,
    }
}

// The first eight bytes, where missing ones are zeros.
pub(crate) fn first_eight(bytes: &[u8]) -> [u8; MAGIC_BYTES]
    ensures { result ≡ found_in bytes.now }
{
    let mut found = [0u8; MAGIC_BYTES];
    let n = bytes.len().min(MAGIC_BYTES);
    found[..n].copy_from_slice(bytes.split_at(n).0);
    found
}

// What the bytes behind the magic of the version say, where the cap is in its range, the version may have the rate and the zeros
// are zeros.
fn terms_of(bytes: &[u8], version: u8) -> Option<Terms>
    requires { length bytes.now ≡ FRONT - MAGIC_BYTES }
    ensures some { IfSome result (TermsAre version bytes.now) }
    ensures none { IfNone result (NoTerms version bytes.now) }
{
    let (word, rest) = bytes.split_at(CAP);
    let (front, behind) = rest.split_at(HEAD);
    let (thousandths, zeros) = behind.split_at(RATE);
    let cap = number(word);
    let rate = short_number(thousandths);
    if cap < 1 {
        return None;
    }
    if cap > MAX_CAP {
        return None;
    }
    if !may_have(version, rate) {
        return None;
    }
    if !same_bytes(zeros, &[0; ZEROS]) {
        return None;
    }
    let mut head = [0u8; HEAD];
    head.copy_from_slice(front);
    let charter = Charter {
        head,
        version,
        rate,
    };
    Some(Terms { cap, charter })
}
