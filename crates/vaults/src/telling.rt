// What vaults and desks do, in words.

use crate::names::Names;
use nb_desk::{Asked, AskedAll};
use nb_lines::Told;
use nb_turns::Line;
use nb_vault::VaultFault;

// Why no vault was opened.
pub(crate) fn fault(told: &mut Told, fault: VaultFault) {
    match fault {
        VaultFault::Unborn { found } => told.hex("unborn ", &found),
        VaultFault::Damaged { item, place } => {
            told.show("damaged in item ", &item).show(" at ", &place)
        }
        VaultFault::BadEntry { item } => told.show("bad entry in item ", &item),
        VaultFault::DiskFault { before, after } => disk_fault(told, before, after),
        VaultFault::NoMemory => told.text("no memory"),
    };
}

fn disk_fault(told: &mut Told, before: u64, after: u64) -> &mut Told {
    told.show("disk fault ", &before).show("-", &after)
}

// How one request was answered, and by which reply.
pub(crate) fn asked(told: &mut Told, asked: Asked, reply: &[u8]) {
    match asked {
        Asked::Served { at } => told.show("answered ", &at),
        Asked::Busy { word } => told.show("busy ", &word),
        Asked::DiskFault { before, after } => disk_fault(told, before, after),
        Asked::Worn { faults } => told.show("worn ", &faults),
    };
    told.bytes(": ", reply);
}

// How several requests were answered, at which places, and by which replies.
pub(crate) fn asked_all(told: &mut Told, asked: AskedAll, ats: &[u64], replies: &[u8]) {
    match asked {
        AskedAll::Served => told.text("answered"),
        AskedAll::Busy { word } => told.show("busy ", &word),
        AskedAll::DiskFault { before, after } => disk_fault(told, before, after),
        AskedAll::Worn { faults } => told.show("worn ", &faults),
    };
    for at in ats {
        told.show(" ", at);
    }
    told.bytes(": ", replies);
}

// A line: what it tells of, its turn, and who asked.
pub(crate) fn line(told: &mut Told, names: &Names, line: &Line) {
    let kind = match *line {
        Line::Commit { .. } => "; commit ",
        Line::Adopted { .. } => "; adopted ",
        Line::Doubt { .. } => "; doubt ",
        Line::Fault { .. } => "; fault ",
    };
    told.show(kind, &line.turn()).show(" by ", &line.by());
    match *line {
        Line::Commit { entry, .. } | Line::Adopted { entry, .. } | Line::Doubt { entry, .. } => {
            told.text(" ").text(names.of_entry(&entry))
        }
        Line::Fault { before, after, .. } => told.show(" ", &before).show("-", &after),
    };
}
