ghost use Rattle.std.specs.Prelude.{◌≡◌, ◌<◌, ◌+◌, ◌^◌, ◌++◌, length, vec_len, vec_capacity, OnOk};
ghost use Rattle.std.specs.Option.{option_to_list};
ghost use Rattle.nb_msgs.specs.Steps.{StepKeepsRules, kept_in};
ghost use Rattle.nb_packets.specs.Doing.{did_of, DidSo, is_nothing, packets_did};

use crate::packet::{Content, Parcel, fits};
use nb_msgs::{Message, Step, To};
use nb_units::{Blob, NoMemory};
use nb_world::Maker;

/// What a node did: nothing, or it went on, and may have sent something.
#[derive(Drop)]
pub enum Did {
    /// Nothing.
    Stayed,
    /// It went on.
    Went,
    /// It went on, and sent a message.
    Sent { to: To, message: Message },
}

impl Did {
    /// It did nothing.
    pub fn is_nothing(&self) -> bool
        ensures { result ≡ is_nothing self.now }
    {
        match self {
            Did::Stayed => true,
            Did::Went | Did::Sent { .. } => false,
        }
    }
}

/// Makes room for one item more. A journal has fewer than 2^32 items: answers [`NoMemory`] where it has as many as it may have, or there is no memory.
pub fn make_room(kept: &mut Vec<Blob>) -> Result<(), NoMemory>
    ensures same { kept.new.items ≡ kept.old.items }
    // after Ok: an item more can be pushed, and there are fewer than 2^32 then
    ensures room { OnOk result ((vec_len kept.new < vec_capacity kept.new) × (length kept.new.items + 1 < 2 ^ 32)) }
{
    if kept.len() >= u32::MAX as usize {
        return Err(NoMemory);
    }
    kept.reserve(1)?;
    Ok(())
}

// Keeps an item, if there is one.
fn keep_some(kept: &mut Vec<Blob>, item: Option<Blob>)
    requires { vec_len kept.old < vec_capacity kept.old }
    ensures { kept.new.items ≡ kept.old.items ++ option_to_list item }
{
    match item {
        Some(item) => kept.push_reserved(item),
        None => {}
    }
}

/// Keeps what a step keeps, and hands out what was done. There is room for an item more ([`make_room`]).
pub fn carry_out(kept: &mut Vec<Blob>, step: Step) -> Did
    requires room { vec_len kept.old < vec_capacity kept.old }
    requires lawful { StepKeepsRules step }
    // Its item, if there is one, is behind the others.
    ensures kept { kept.new.items ≡ kept.old.items ++ kept_in step }
    ensures did { result ≡ did_of step }
    // What was sent can be written.
    ensures so { DidSo result }
{
    match step {
        Step::Move { keep, to, message } => {
            fits(&message);
            keep_some(kept, keep);
            Did::Sent { to, message }
        }
        Step::Ended { keep, .. } => {
            kept.push_reserved(keep);
            Did::Went
        }
        Step::Ignored(_) => Did::Stayed,
    }
}

/// Puts what a node sent on the network, in its name. There is room for a packet more.
pub fn send(packets: &mut Vec<Parcel>, maker: Maker, did: Did)
    requires room { vec_len packets.old < vec_capacity packets.old }
    requires so { DidSo did }
    // The packet of what was sent, if anything, is behind the others.
    ensures { packets.new.items ≡ packets.old.items ++ packets_did maker did }
{
    match did {
        Did::Sent { to, message } => packets.push_reserved(Parcel {
            content: Content::Said(message),
            maker,
            to,
        }),
        Did::Stayed | Did::Went => {}
    }
}
