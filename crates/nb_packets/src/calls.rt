ghost use Rattle.std.specs.Prelude.{◌≡◌, ◌<◌, ◌++◌, length, map, vec_len, vec_capacity, IfSome, slice_get, option_map};
ghost use Rattle.std.specs.Option.{option_to_list};
ghost use Rattle.nb_world.specs.Steps.{set_phase, stopped, phase_stopped, acknowledged_by, reply_to};
ghost use Rattle.nb_packets.specs.Calls.{asker_among, turn_may_answer, left_of, StopsAt};
ghost use Rattle.nb_packets.specs.Parcels.{IsKind};

use crate::packet::{Content, Parcel};
use nb_entry::Entry;
use nb_msgs::To;
use nb_world::{Acknowledged, Call, CallPhase, Maker, Stage, Turning, Verdict};

/// The call of this number, counted from 0; none where there is none.
pub fn call_at(calls: &[Call], number: u32) -> Option<Call>
    ensures { result ≡ slice_get calls.now number }
{
    calls.get(number as usize).copied()
}

/// The call of this number, if there is one, comes to a phase.
pub fn come_to(calls: &mut Vec<Call>, number: u32, phase: CallPhase)
    ensures calls { calls.new.items ≡ set_phase phase calls.old.items number }
    ensures len { length calls.new.items ≡ length calls.old.items }
{
    match call_at(calls.as_slice(), number) {
        Some(call) => calls[number as usize] = Call { phase, ..call },
        None => {}
    }
}

// The phase of a call behind a stop: it is gone, where it is not answered.
fn stopped_phase(phase: CallPhase) -> CallPhase
    ensures { result ≡ phase_stopped phase }
{
    match phase {
        CallPhase::Answered => CallPhase::Answered,
        CallPhase::Waiting | CallPhase::InTurn | CallPhase::Gone => CallPhase::Gone,
    }
}

// The call at a place is behind a stop.
fn stop_at(calls: &mut Vec<Call>, i: usize)
    requires { i < length calls.old.items }
    ensures stopped { StopsAt calls.old.items calls.new.items i }
    ensures len { length calls.new.items ≡ length calls.old.items }
{
    let call = calls[i];
    calls[i] = Call {
        phase: stopped_phase(call.phase),
        ..call
    };
}

/// Each call that is not answered is gone.
pub fn let_go(calls: &mut Vec<Call>)
    ensures calls { calls.new.items ≡ map stopped calls.old.items }
    ensures len { length calls.new.items ≡ length calls.old.items }
{
    for i in 0..calls.len() {
        stop_at(calls, i);
    }
}

/// Whom the packet of this number, counted from 0, is for; none where there is none.
pub fn addressee(packets: &[Parcel], number: u32) -> Option<To>
    // It is what the packet says, where there is one.
    ensures to { result ≡ option_map (λ p. p.to) (slice_get packets.now number) }
    ensures within { IfSome result (λ _. number < length packets.now) }
{
    match packets.get(number as usize) {
        Some(packet) => Some(packet.to),
        None => None,
    }
}

/// The node that made the packet of a call; none where there is no such call or packet, or where the house or the network made it.
pub fn asker_of(calls: &[Call], packets: &[Parcel], number: u32) -> Option<To>
    ensures { result ≡ asker_among calls.now packets.now number }
{
    let call = calls.get(number as usize)?;
    let packet = packets.get(call.packet as usize)?;
    match packet.maker {
        Maker::Consumer(id) => Some(To::Consumer(id)),
        Maker::Merchant(id) => Some(To::Merchant(id)),
        Maker::Server { .. } | Maker::Network => None,
    }
}

/// Whether the call of this number has the turn, and its reply may be handed out.
pub fn may_answer(turn: &Option<Turning>, number: u32) -> bool
    ensures { result ≡ turn_may_answer turn.now number }
{
    match turn {
        Some(turn) => {
            turn.call == number
                && match turn.stage {
                    Stage::Opened => true,
                    Stage::Decided => turn.verdict.entry.is_none(),
                    Stage::Written => false,
                }
        }
        None => false,
    }
}

/// What a stop leaves of the entry that is written and not opened, and the call that it came by. `keep` says whether the stop leaves it.
pub fn left_by_stop(turn: &Option<Turning>, keep: bool) -> Option<(u32, Entry)>
    ensures { result ≡ left_of turn.now keep }
{
    match turn {
        Some(turn) if keep => match turn.stage {
            Stage::Written => match turn.verdict.entry {
                Some(entry) => Some((turn.call, entry)),
                None => None,
            },
            Stage::Decided | Stage::Opened => None,
        },
        _ => None,
    }
}

/// Acknowledges the entry of a turn, if it has one. There is room for one more.
pub fn acknowledge(acknowledged: &mut Vec<Acknowledged>, turn: &Turning)
    requires { vec_len acknowledged.old < vec_capacity acknowledged.old }
    // That entry is acknowledged behind the others.
    ensures { acknowledged.new.items ≡ acknowledged.old.items ++ acknowledged_by turn.now }
{
    match turn.verdict.entry {
        Some(entry) => acknowledged.push_reserved(Acknowledged {
            entry,
            place: turn.at,
        }),
        None => {}
    }
}

/// Puts the reply of a turn on the network, where a node asked. There is room for a packet more.
pub fn hand_out(packets: &mut Vec<Parcel>, turn: Turning, asker: Option<To>)
    requires room { vec_len packets.old < vec_capacity packets.old }
    requires kind { IsKind turn.verdict.kind }
    // The packet of the reply, where a node asked, is behind the others.
    ensures { packets.new.items ≡ packets.old.items ++ option_to_list (option_map (reply_to turn) asker) }
{
    match asker {
        Some(to) => {
            let Turning {
                call,
                at,
                verdict,
                ..
            } = turn;
            let Verdict { kind, body, .. } = verdict;
            packets.push_reserved(Parcel {
                content: Content::Raw { kind, body },
                maker: Maker::Server { call, at },
                to,
            });
        }
        None => {}
    }
}
