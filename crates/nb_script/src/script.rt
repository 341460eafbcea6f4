ghost use Rattle.std.specs.Prelude.{◌≡◌, IfOk};
ghost use Rattle.nb_script.specs.Reads as reads;

use crate::act::Act;
use crate::fault::PlayFault;
use crate::limits::{LINE_FEED, MAX_LINES};
use crate::line::{Consumer, Merchant, Shelf, cap_in, head_in, line_in};
use crate::scene::Scene;
use crate::words::{Words, cut};
use nb_entry::Entry;
use nb_units::{HEAD, NoMemory};
use std::alloc::Global;

/// What a script says.
#[derive(Drop)]
pub struct Script {
    /// The bytes of the house's head: its own key, the operator's, and the key of its index.
    pub head: [u8; HEAD],
    /// How many entries the house can have, from 1 to [`MAX_SCRIPT_CAP`](crate::MAX_SCRIPT_CAP).
    pub cap: u32,
    /// The entries that the house has, in the order of their lines.
    pub entries: Vec<Entry>,
    /// Who buys, in the order of their lines.
    pub consumers: Vec<Consumer>,
    /// Who sells, in the order of their lines.
    pub merchants: Vec<Merchant>,
    /// What is sold, in the order of the lines.
    pub shelves: Vec<Shelf>,
    /// What happens, in order.
    pub acts: Vec<Act>,
}

/// The script that bytes spell, or the number of the first bad line ([`PlayFault::BadLine`]). Lines are counted from 1. Each ends with a line feed; bytes that
/// stand behind the last one are a bad line. The first line is `house HEX`, the second `cap N`; where one of them is missing, the line behind the last is
/// bad. There are at most [`MAX_LINES`] lines. It answers [`PlayFault::NoMemory`] where there is none for what is read.
pub fn read_script(alloc: Global, text: &[u8]) -> Result<Script, PlayFault>
    ensures { reads.ReadsScript text.now result }
{
    let Some((first, rest)) = cut(text, LINE_FEED) else {
        return Err(PlayFault::BadLine { line: 1 });
    };
    let words = Words::of(alloc, first)?;
    let Some(head) = head_in(&words) else {
        return Err(PlayFault::BadLine { line: 1 });
    };
    let Some((second, rest)) = cut(rest, LINE_FEED) else {
        return Err(PlayFault::BadLine { line: 2 });
    };
    let words = Words::of(alloc, second)?;
    let Some(cap) = cap_in(&words) else {
        return Err(PlayFault::BadLine { line: 2 });
    };
    let mut scene = Scene::new(alloc, head, cap)?;
    match read_lines(alloc, &mut scene, rest) {
        Ok(()) => Ok(scene.into_script()),
        Err(fault) => Err(fault),
    }
}

// Takes the lines behind the first two.
fn read_lines(alloc: Global, scene: &mut Scene, text: &[u8]) -> Result<(), PlayFault>
    ensures { reads.ReadsRest scene.old text.now scene.new result }
{
    let mut rest = text;
    let mut number = 2;
    'lines: while let Some((line, behind)) = cut(rest, LINE_FEED) {
        number += 1;
        if number > MAX_LINES {
            return Err(PlayFault::BadLine { line: number });
        }
        if !take_line(alloc, scene, number, line)? {
            return Err(PlayFault::BadLine { line: number });
        }
        rest = behind;
    }
    if !rest.is_empty() {
        return Err(PlayFault::BadLine { line: number + 1 });
    }
    Ok(())
}

// Takes the line of this number, where it is one that may stand there.
fn take_line(alloc: Global, scene: &mut Scene, number: u32, line: &[u8]) -> Result<bool, NoMemory>
    ensures { IfOk result (reads.TakesLine scene.old number line.now scene.new) }
{
    let words = Words::of(alloc, line)?;
    match line_in(alloc, &words)? {
        Some(line) => scene.take(number, line),
        None => Ok(false),
    }
}
