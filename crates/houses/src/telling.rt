// What a house does, in words.

use nb_frame::FrameFault;
use nb_lines::Told;
use nb_server::How;
use nb_session::SessionEnd;
use nb_turns::{Line, Mark};
use nb_wire::{LinkEnd, Sent};

// The most marks and lines that are shown.
const LAST: usize = 9;

// How a session ended.
pub(crate) fn end(told: &mut Told, end: SessionEnd) -> &mut Told {
    match end {
        SessionEnd::Clean => told.text("clean"),
        SessionEnd::Cut { place } => told.show("cut at ", &place),
        SessionEnd::BadFrame(fault) => bad_frame(told, fault),
        SessionEnd::ReadFault => told.text("read fault"),
        SessionEnd::WriteFault => told.text("write fault"),
        SessionEnd::Spent => told.text("spent"),
        SessionEnd::NoMemory => told.text("no memory"),
    }
}

// Why no frame comes over a link any more.
pub(crate) fn link_end(told: &mut Told, end: LinkEnd) -> &mut Told {
    match end {
        LinkEnd::Ended { rest } => told.show("ended with ", &rest).text(" left"),
        LinkEnd::BadFrame(fault) => bad_frame(told, fault),
        LinkEnd::ReadFault => told.text("read fault"),
    }
}

// How sending went.
pub(crate) fn sent(sent: Sent) -> &'static str {
    match sent {
        Sent::All => "all sent",
        Sent::Failed => "write fault",
    }
}

fn bad_frame(told: &mut Told, fault: FrameFault) -> &mut Told {
    match fault {
        FrameFault::BadMagic { place, found } => {
            told.show("bad magic ", &found).show(" at ", &place)
        }
        FrameFault::BadVersion { place, found } => {
            told.show("bad version ", &found).show(" at ", &place)
        }
        FrameFault::BadKind { place, found } => told.show("bad kind ", &found).show(" at ", &place),
        FrameFault::TooLong { place, len } => told.show("too long ", &len).show(" at ", &place),
    }
}

// Why a worker stopped.
pub(crate) fn how(how: How) -> &'static str {
    match how {
        How::Closed => "closed",
        How::PortFault => "port fault",
        How::NoMemory => "no memory",
    }
}

fn mark(told: &mut Told, mark: Mark) {
    match mark {
        Mark::At(place) => told.show(" ", &place),
        Mark::Fault { before, after } => told.show(" fault ", &before).show("-", &after),
        Mark::Worn => told.text(" worn"),
    };
}

// The last marks of a session.
pub(crate) fn marks(told: &mut Told, marks: &[Mark]) {
    told.show("", &marks.len()).text(" marks:");
    for one in marks.iter().skip(marks.len().saturating_sub(LAST)) {
        mark(told, *one);
    }
}

fn kind(line: &Line) -> &'static str {
    match *line {
        Line::Commit { .. } => "commit",
        Line::Adopted { .. } => "adopted",
        Line::Doubt { .. } => "doubt",
        Line::Fault { .. } => "fault",
    }
}

// The last lines of a vault: what each tells of, its turn, and who asked.
pub(crate) fn lines(told: &mut Told, lines: &[Line]) {
    told.show("", &lines.len()).text(" lines:");
    for line in lines.iter().skip(lines.len().saturating_sub(LAST)) {
        told.text(" ")
            .text(kind(line))
            .show(" ", &line.turn())
            .show(" by ", &line.by());
    }
}
