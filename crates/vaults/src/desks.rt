// A desk that is asked by one caller after another.

ghost use Rattle.std.specs.Prelude.{IfOk, IfSome};
ghost use Rattle.nb_desk.specs.Desks.{IsAt};

use crate::batch::{Batch, are_within};
use crate::house::House;
use crate::names::{Names, Request};
use crate::telling;
use nb_desk::{Desk, Pass, SplitFault};
use nb_lines::Told;
use nb_msgs::REPLY_ROOM;
use nb_port::{Disk, MemDisk};
use nb_turn::MAX_PASSES;
use nb_turns::MAX_REQUESTS;
use nb_units::NoMemory;
use nb_vault::Vault;
use std::alloc::Global;
use std::sync::Wait;

impl House {
    /// `desk / STEP / STEP ..`: a desk over the next disk, whose first pass takes these steps: `ask NAME`, `try NAME`, `all NAME..`,
    /// `tries NAME..`, `split NUMBER`, which splits a pass off and joins it, and `drop NUMBER`, which splits one off and drops it. The vault that
    /// comes out is open then.
    pub fn desk<R: Wait>(&mut self, rt: &R, told: &mut Told, line: &str) -> Result<(), NoMemory> {
        let disk = self.next_disk()?;
        match vault_behind(rt, told, &self.names, disk, line)? {
            Some(vault) => {
                self.hold(Some(vault));
                self.tell_lines(told)
            }
            None => told.unclear(),
        }
    }
}

// The vault that comes out of a desk over a disk whose first pass took the steps of a line.
fn vault_behind<R: Wait>(
    rt: &R,
    told: &mut Told,
    names: &Names,
    disk: MemDisk,
    line: &str,
) -> Result<Option<Vault<MemDisk>>, NoMemory> {
    let steps: Vec<&str> = line.split('/').collect(told.alloc())?;
    match desk_over(told.alloc(), disk) {
        Some((desk, pass)) => Ok(Some(take_steps(rt, told, names, desk, pass, &steps)?)),
        None => Ok(None),
    }
}

/// Opens a desk over a disk.
pub(crate) fn desk_over<D: Disk + Drop>(alloc: Global, disk: D) -> Option<(Desk<D>, Pass<D>)>
    ensures { IfSome result (λ r. IsAt r.1 r.0) }
{
    let vault = Vault::open(alloc, disk).ok()?;
    Desk::open(alloc, vault).ok()
}

fn take_steps<R: Wait>(
    rt: &R,
    told: &mut Told,
    names: &Names,
    desk: Desk<MemDisk>,
    pass: Pass<MemDisk>,
    steps: &[&str],
) -> Result<Vault<MemDisk>, NoMemory>
    requires { IsAt pass desk }
{
    let mut desk = desk;
    let mut pass = pass;
    for step in steps {
        pass = take_step(rt, told, names, &mut desk, pass, *step)?;
    }
    told.show("", &pass.seen()).text(" lines seen");
    Ok(desk.close(rt, pass))
}

fn take_step<R: Wait>(
    rt: &R,
    told: &mut Told,
    names: &Names,
    desk: &mut Desk<MemDisk>,
    pass: Pass<MemDisk>,
    step: &str,
) -> Result<Pass<MemDisk>, NoMemory>
    requires { IsAt pass desk.old }
    ensures { IfOk result (λ p. IsAt p desk.new) }
{
    let words: Vec<&str> = step.split_whitespace().collect(told.alloc())?;
    match words.as_slice() {
        [] => {
            told.text("no such line");
            Ok(pass)
        }
        [word, rest @ ..] => match *word {
            "desk" => Ok(pass),
            "split" | "drop" => split_off(told, desk, pass, rest, *word == "split"),
            _ => ask_by(rt, told, names, desk, pass, *word, rest),
        },
    }
}

// Splits a pass of a number off, and joins it again or drops it.
fn split_off(
    told: &mut Told,
    desk: &mut Desk<MemDisk>,
    pass: Pass<MemDisk>,
    words: &[&str],
    joins: bool,
) -> Result<Pass<MemDisk>, NoMemory>
    requires { IsAt pass desk.old }
    ensures { IfOk result (λ p. IsAt p desk.new) }
{
    let number = match words {
        [number] => nb_lines::number(*number),
        _ => MAX_PASSES,
    };
    if number >= MAX_PASSES {
        told.text("no such line");
        return Ok(pass);
    }
    match desk.split(pass, number) {
        Ok((first, second)) => {
            told.show("pass ", &second.number()).text("\n");
            Ok(rejoined(desk, first, second, joins))
        }
        Err((SplitFault::Taken { word }, pass)) => {
            told.show("taken ", &word).text("\n");
            Ok(pass)
        }
        Err((SplitFault::NoMemory, _)) => Err(NoMemory),
    }
}

fn rejoined(
    desk: &mut Desk<MemDisk>,
    first: Pass<MemDisk>,
    second: Pass<MemDisk>,
    joins: bool,
) -> Pass<MemDisk>
    requires first { IsAt first desk.old }
    requires second { IsAt second desk.old }
    ensures { IsAt result desk.new }
{
    if joins {
        desk.join(first, second)
    } else {
        drop(second);
        first
    }
}

// Asks in one of the four ways; nothing is asked where the word is none of them.
fn ask_by<R: Wait>(
    rt: &R,
    told: &mut Told,
    names: &Names,
    desk: &Desk<MemDisk>,
    pass: Pass<MemDisk>,
    word: &str,
    named: &[&str],
) -> Result<Pass<MemDisk>, NoMemory>
    requires { IsAt pass desk.now }
    ensures { IfOk result (λ p. IsAt p desk.now) }
{
    let pass = match word {
        "ask" | "try" => ask_named(rt, told, names, desk, pass, named, word == "try")?,
        "all" | "tries" => ask_several(rt, told, names, desk, pass, named, word == "tries")?,
        _ => {
            told.text("no such line");
            pass
        }
    };
    told.text("\n");
    Ok(pass)
}

// Asks for the request of this name; nothing is asked where there is none.
fn ask_named<R: Wait>(
    rt: &R,
    told: &mut Told,
    names: &Names,
    desk: &Desk<MemDisk>,
    pass: Pass<MemDisk>,
    named: &[&str],
    tries: bool,
) -> Result<Pass<MemDisk>, NoMemory>
    requires { IsAt pass desk.now }
    ensures { IfOk result (λ p. IsAt p desk.now) }
{
    if let [name] = named
        && let Some(request) = names.request(*name)
    {
        return ask_one(rt, told, desk, pass, request, tries);
    }
    told.text("no such line");
    Ok(pass)
}

/// Asks for one request, or tries to.
pub(crate) fn ask_one<R: Wait, D: Disk + Drop>(
    rt: &R,
    told: &mut Told,
    desk: &Desk<D>,
    pass: Pass<D>,
    request: &Request,
    tries: bool,
) -> Result<Pass<D>, NoMemory>
    requires { IsAt pass desk.now }
    ensures { IfOk result (λ p. IsAt p desk.now) }
{
    let (kind, moment) = (request.kind(), request.moment);
    let mut out = Vec::with_capacity(told.alloc(), REPLY_ROOM)?;
    let (pass, asked) = if tries {
        desk.try_ask(pass, kind, request.body(), moment, &mut out)
    } else {
        desk.ask(rt, pass, kind, request.body(), moment, &mut out)
    };
    telling::asked(told, asked, &out);
    Ok(pass)
}

// Asks for the requests of these names in one turn.
fn ask_several<R: Wait>(
    rt: &R,
    told: &mut Told,
    names: &Names,
    desk: &Desk<MemDisk>,
    pass: Pass<MemDisk>,
    named: &[&str],
    tries: bool,
) -> Result<Pass<MemDisk>, NoMemory>
    requires { IsAt pass desk.now }
    ensures { IfOk result (λ p. IsAt p desk.now) }
{
    let batch = Batch::of(told.alloc(), names, named)?;
    ask_all(rt, told, desk, pass, &batch, tries)
}

// Asks for several requests, or tries to; nothing is asked where these are not from 1 to 32.
fn ask_all<R: Wait>(
    rt: &R,
    told: &mut Told,
    desk: &Desk<MemDisk>,
    pass: Pass<MemDisk>,
    batch: &Batch,
    tries: bool,
) -> Result<Pass<MemDisk>, NoMemory>
    requires { IsAt pass desk.now }
    ensures { IfOk result (λ p. IsAt p desk.now) }
{
    let (bytes, asks) = (batch.bytes.as_slice(), batch.asks.as_slice());
    if asks.is_empty() || asks.len() > MAX_REQUESTS || !are_within(bytes, asks) {
        told.text("no such line");
        return Ok(pass);
    }
    let mut ats = Vec::with_capacity(told.alloc(), MAX_REQUESTS)?;
    let mut out = Vec::with_capacity(told.alloc(), REPLY_ROOM * MAX_REQUESTS)?;
    let (pass, asked) = if tries {
        desk.try_ask_all(pass, bytes, asks, &mut ats, &mut out)
    } else {
        desk.ask_all(rt, pass, bytes, asks, &mut ats, &mut out)
    };
    telling::asked_all(told, asked, &ats, &out);
    Ok(pass)
}
