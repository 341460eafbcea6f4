ghost use Rattle.std.specs.Prelude.{◌≡◌, ◌≤◌, ◌+◌, ◌*◌, ◌++◌, [], map, length, vec_len, vec_capacity};
ghost use Rattle.std.specs.List.{All, flat_map};
ghost use Rattle.nb_units.specs.Room.{spare_of};
ghost use Rattle.nb_msgs.specs.declared.reply.TheConstants.{REPLY_ROOM};
ghost use Rattle.nb_msgs.specs.ReplyBytes.{reply_bytes};
ghost use Rattle.nb_endorse.specs.Keys.{no_keys};
ghost use Rattle.nb_endorse.specs.declared.reply.Reply.TheVariants.{Refused};
ghost use Rattle.nb_turn.specs.Passes.{sees};
ghost use Rattle.nb_turns.specs.declared.limits.TheConstants.{MAX_REQUESTS};
ghost use Rattle.nb_turns.specs.declared.mark.Mark.TheVariants.{At};
ghost use Rattle.nb_vault.specs.declared.answer.AskAt.{AskAt};
ghost use Rattle.nb_vault.specs.Asking.{IsWithin, requests_of};
ghost use Rattle.nb_desk.specs.Desks.{IsAt};
ghost use Rattle.nb_session.specs.Steps.{AnswersTurn, HasPlaces};

use crate::outside::Outside;
use nb_desk::{AskedAll, Desk, Pass};
use nb_endorse::refusal::{DISK_FAULT, WORN};
use nb_endorse::{Refusal, Reply, ReplyKeys};
use nb_msgs::{REPLY_ROOM, write_each, write_reply};
use nb_port::Disk;
use nb_turns::Mark;
use nb_vault::AskAt;
use std::sync::Wait;

/// Has requests answered by one turn of the desk, each by its reply or by the refusal that says why there is none. Their marks stand
/// behind `marks`, and the replies in `out`, where they are written when the turn was given back.
pub fn answer<R: Wait, D: Disk + Drop>(
    rt: &R,
    desk: &Desk<D>,
    pass: Pass<D>,
    bytes: &[u8],
    asks: &[AskAt],
    outside: &mut Outside,
    ats: &mut Vec<u64>,
    marks: &mut Vec<Mark>,
    out: &mut Vec<u8>,
) -> Pass<D>
    requires desk { IsAt pass desk.now }
    requires some { 1 ≤ length asks.now }
    requires most { length asks.now ≤ MAX_REQUESTS }
    requires within { All (IsWithin bytes.now) asks.now }
    requires outside { HasPlaces outside.old }
    requires none { ats.old.items ≡ [] }
    requires empty { out.old.items ≡ [] }
    requires places { length asks.now ≤ vec_capacity ats.old }
    requires marks { vec_len marks.old + length asks.now ≤ vec_capacity marks.old }
    requires room { REPLY_ROOM * length asks.now ≤ vec_capacity out.old }
    ensures desk { IsAt result desk.now }
    ensures number { result.number ≡ pass.number }
    ensures answers { AnswersTurn D.tells pass.number (sees pass) (sees result) (requests_of bytes.now asks.now) marks.old.items marks.new.items out.new.items }
    ensures outside { HasPlaces outside.new }
    ensures room { (vec_capacity ats.new ≡ vec_capacity ats.old) × (vec_capacity marks.new ≡ vec_capacity marks.old) × (vec_capacity out.new ≡ vec_capacity out.old) }
{
    let Outside {
        opened,
        drafts,
        kept,
    } = outside;
    drafts.clear();
    let (pass, asked) = desk.decide_all(rt, pass, bytes, asks, opened.as_slice(), ats, drafts);
    match asked {
        AskedAll::Served => {
            mark_places(ats.as_slice(), marks);
            write_each(drafts.as_slice(), kept, out);
            pass
        }
        AskedAll::DiskFault { before, after } => {
            let refusal = Refusal::of(DISK_FAULT, before, after);
            refuse_each(asks, Mark::Fault { before, after }, refusal, marks, out);
            pass
        }
        AskedAll::Worn { faults } => {
            let refusal = Refusal::of(WORN, u64::from(faults), 0);
            refuse_each(asks, Mark::Worn, refusal, marks, out);
            pass
        }
        AskedAll::Busy { .. } => pass,
    }
}

// Marks requests that were decided, each at its own place.
fn mark_places(ats: &[u64], marks: &mut Vec<Mark>)
    requires { vec_len marks.old + length ats.now ≤ vec_capacity marks.old }
    ensures marks { marks.new.items ≡ marks.old.items ++ map (λ at. At at) ats.now }
    ensures room { vec_capacity marks.new ≡ vec_capacity marks.old }
{
    for at in ats {
        marks.push_reserved(Mark::At(*at));
    }
}

// Marks requests of a turn that did not decide, each alike, and refuses each of them.
fn refuse_each(
    asks: &[AskAt],
    mark: Mark,
    refusal: Refusal,
    marks: &mut Vec<Mark>,
    out: &mut Vec<u8>,
)
    requires marks { vec_len marks.old + length asks.now ≤ vec_capacity marks.old }
    requires room { REPLY_ROOM * length asks.now ≤ spare_of out.old }
    ensures marks { marks.new.items ≡ marks.old.items ++ map (λ (ask : AskAt). mark) asks.now }
    ensures bytes { out.new.items ≡ out.old.items ++ flat_map (λ (ask : AskAt). reply_bytes no_keys (Refused refusal)) asks.now }
    ensures places { vec_capacity marks.new ≡ vec_capacity marks.old }
    ensures room { vec_capacity out.new ≡ vec_capacity out.old }
{
    for _ in 0..asks.len() {
        marks.push_reserved(mark);
        write_reply(&Reply::Refused(refusal), &ReplyKeys::none(), out);
    }
}
