ghost use Rattle.std.specs.Prelude.{◌≡◌, ◌≢◌, ◌≤◌, IsTrue};
ghost use Rattle.nb_groups.specs.Groups.{are_groups};
ghost use Rattle.nb_commands.specs.declared.granting.GrantEnd.TheVariants as ends;
ghost use Rattle.nb_commands.specs.Granting.{GrantsAs, credential_for, grant_ending};

use crate::ending::{BAD_INPUT, CLEAN, Ending, OUT_OF_MEMORY, SINK_FAILED, SOURCE_FAILED};
use crate::input::{InputRead, read_most};
use nb_batch::{Sent, send_all};
use nb_groups::{Groups, credential};
use nb_port::{Sink, Source};
use nb_units::PartyId;
use nb_units::width::SECRET;
use std::alloc::Global;

/// How writing a credential ended.
#[derive(Clone, Copy)]
pub enum GrantEnd {
    /// It was written.
    Granted,
    /// The source failed. Nothing was written, as at the next, and for want of memory.
    ReadFault,
    /// The input is not as long as a key. So many bytes were read, at most one more than a key has.
    BadKey { bytes: u64 },
    /// A write failed. A part of the credential was written, from its front.
    WriteFault,
    /// There was no memory.
    NoMemory,
}

impl GrantEnd {
    /// How it ends the program.
    pub fn ending(self) -> Ending
        ensures { result ≡ grant_ending self }
    {
        match self {
            GrantEnd::Granted => Ending::at_no_place(CLEAN),
            GrantEnd::ReadFault => Ending::at_no_place(SOURCE_FAILED),
            GrantEnd::BadKey { bytes } => Ending {
                status: BAD_INPUT,
                place: bytes,
            },
            GrantEnd::WriteFault => Ending::at_no_place(SINK_FAILED),
            GrantEnd::NoMemory => Ending::at_no_place(OUT_OF_MEMORY),
        }
    }
}

/// Writes the credential of a consumer for these groups, up to this second, under the keeper's key that is the whole input.
pub fn grant<S: Source, K: Sink>(
    alloc: Global,
    consumer: PartyId,
    until: u64,
    groups: &Groups,
    source: &mut S,
    sink: &mut K,
) -> GrantEnd
    requires { IsTrue (are_groups groups.now) }
    ensures grants { GrantsAs (S.left source.old) (S.left source.new) (S.faults source.old) (S.faults source.new) (K.sent sink.old) (K.sent sink.new) (K.faults sink.old) (K.faults sink.new)
        (credential_for consumer until groups.now) result }
    // No count of faults falls.
    ensures counts { (S.faults source.old ≤ S.faults source.new) × (K.faults sink.old ≤ K.faults sink.new) }
    // The sink is as before but where the credential was written, or a write failed.
    ensures silent { (result ≢ ends.Granted) → (result ≢ ends.WriteFault) → sink.new ≡ sink.old }
{
    let input = match read_most(alloc, source, SECRET) {
        InputRead::All(input) => input,
        InputRead::Longer => return GrantEnd::BadKey {
            bytes: SECRET as u64 + 1,
        },
        InputRead::Failed => return GrantEnd::ReadFault,
        InputRead::NoMemory => return GrantEnd::NoMemory,
    };
    if input.len() != SECRET {
        return GrantEnd::BadKey {
            bytes: input.len() as u64,
        };
    }
    let mut key = [0u8; SECRET];
    key.copy_from_slice(input.as_slice());
    let sealed = credential(&key, consumer, until, groups.as_slice());
    match send_all(sink, sealed.as_slice()) {
        Sent::All => GrantEnd::Granted,
        Sent::Failed => GrantEnd::WriteFault,
    }
}
