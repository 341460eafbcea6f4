//! A program that takes worlds of `nb_simulator` on by the events that the lines of standard input say, and prints what became of each: the trials of a
//! world. Each line is a word and what it is about. `world` makes one ([`sets`]), each event has its word ([`events`]), `phase` and `balances` tell how
//! far a purchase has come and what is in the accounts. A line that begins with `#` is printed as it is.
//!
//! It claims nothing: what it prints is compared with what another program wrote.
#![tactic(auto)]

mod events;
mod sets;

use anyhow::anyhow;
use nb_consumer::Phase;
use nb_lines::Told;
use nb_script::PlayFault;
use nb_simulator::{Event, Setup, SetupFault, Stepped, World};
use nb_units::{AcctId, NoMemory, PartyId};
use std::alloc::Global;
use std::str;

// The world that there is, if one was made.
#[derive(Drop)]
struct Scene {
    alloc: Global,
    world: Option<World>,
}

fn main(rt: HostRuntime) -> anyhow::Result<()> {
    let mut scene = Scene {
        alloc: rt.alloc(),
        world: None,
    };
    let ended = do_lines(&rt, &mut scene);
    drop(scene);
    ended
}

// Does what each line says.
fn do_lines(rt: &HostRuntime, scene: &mut Scene) -> anyhow::Result<()> {
    for line in rt.lines(rt.alloc()) {
        do_line(rt, scene, line?.as_str())?;
    }
    Ok(())
}

// Does what a line says, and prints what is told of it; nothing where the line is empty.
fn do_line(rt: &HostRuntime, scene: &mut Scene, line: &str) -> anyhow::Result<()> {
    let mut told = Told::new(rt.alloc());
    if done(scene, &mut told, line).is_err() || told.done().is_err() {
        return Err(anyhow!("out of memory"));
    }
    let told = told.as_str();
    if !told.is_empty() {
        println!(rt; "{told}")?;
    }
    Ok(())
}

fn done(scene: &mut Scene, told: &mut Told, line: &str) -> Result<(), NoMemory> {
    let words: Vec<&str> = line.split_whitespace().collect(told.alloc())?;
    match words.as_slice() {
        [] => Ok(()),
        ["#", ..] => told.text(line).done(),
        [word, rest @ ..] => done_by_word(scene, told, *word, rest),
    }
}

// What is done at a line of this first word, by the words behind it.
fn done_by_word(
    scene: &mut Scene,
    told: &mut Told,
    word: &str,
    words: &[&str],
) -> Result<(), NoMemory> {
    match word {
        "world" => set(scene, told, words),
        "phase" => phase(scene, told, words),
        "balances" => balances(scene, told),
        "play" => play(told, words),
        _ => take_on(scene, told, word, words),
    }
}

// `world LENGTH CAP VERSION RATE CHANGE`: a world of the set-up that these words say.
fn set(scene: &mut Scene, told: &mut Told, words: &[&str]) -> Result<(), NoMemory> {
    match sets::setup(scene.alloc, words)? {
        Some(setup) => make(scene, told, setup),
        None => told.unclear(),
    }
}

// Makes a world of a set-up, where it is as it must be.
fn make(scene: &mut Scene, told: &mut Told, setup: Setup) -> Result<(), NoMemory> {
    match World::try_new(scene.alloc, setup) {
        Ok(world) => {
            scene.world = Some(world);
            told.text("made").done()
        }
        Err(SetupFault::Unlawful) => told.text("unlawful").done(),
        Err(SetupFault::NoMemory) => Err(NoMemory),
    }
}

// Takes the world on by the event that a line says.
fn take_on(scene: &mut Scene, told: &mut Told, word: &str, words: &[&str]) -> Result<(), NoMemory> {
    let Some(event) = events::event(scene.alloc, word, words)? else {
        return told.unclear();
    };
    match &mut scene.world {
        Some(world) => step(told, world, &event),
        None => told.text("no world").done(),
    }
}

fn step(told: &mut Told, world: &mut World, event: &Event) -> Result<(), NoMemory> {
    if world.packets() == u32::MAX || world.calls() == u32::MAX {
        return told.text("full").done();
    }
    match world.step(event)? {
        Stepped::Moved => told.text("moved"),
        Stepped::Unfit => told.text("unfit"),
    };
    told.show(": ", &world.packets())
        .show(" packets, ", &world.calls())
        .show(" calls, ", &world.list().len())
        .text(" entries")
        .done()
}

// `phase CONSUMER TRANSACTION`: how far a purchase has come; unclear where there is no world.
fn phase(scene: &Scene, told: &mut Told, words: &[&str]) -> Result<(), NoMemory> {
    match (&scene.world, words) {
        (Some(world), [consumer, transaction]) => tell(
            told,
            world.phase(party(*consumer), nb_lines::number(*transaction)),
        ),
        _ => told.unclear(),
    }
}

// `play HEX`: a script, played: its report, or its first bad line.
fn play(told: &mut Told, words: &[&str]) -> Result<(), NoMemory> {
    let script = nb_lines::spelled(told.alloc(), words.first().copied().unwrap_or(""));
    let mut report = Vec::new(told.alloc());
    match nb_player::play(told.alloc(), &script, &mut report) {
        Ok(()) => match str::from_utf8(&report) {
            Ok(text) => told.text(text.trim_end()).done(),
            Err(_) => told.unclear(),
        },
        Err(PlayFault::BadLine { line }) => told.show("bad line ", &line).done(),
        Err(PlayFault::NoMemory) => Err(NoMemory),
    }
}

fn tell(told: &mut Told, phase: Option<Phase>) -> Result<(), NoMemory> {
    match phase {
        None => told.text("none"),
        Some(Phase::Ticketing) => told.text("ticketing"),
        Some(Phase::Asked) => told.text("asked"),
        Some(Phase::Wanted) => told.text("wanted"),
        Some(Phase::Ordered) => told.text("ordered"),
        Some(Phase::Paid { len }) => told.show("paid: ", &len).text(" bytes"),
        Some(Phase::Refused { code }) => told.show("refused: ", &code),
        Some(Phase::Foul) => told.text("foul"),
    };
    told.done()
}

// The party whose number a word is in decimal; that of number 0 where it is none.
fn party(word: &str) -> PartyId {
    PartyId(word.parse::<u32>().unwrap_or(0))
}

// `balances`: what is in the accounts 1, 2 and 3, and in the house's.
fn balances(scene: &Scene, told: &mut Told) -> Result<(), NoMemory> {
    let Some(world) = &scene.world else {
        return told.text("no world").done();
    };
    told.text("balances");
    for acct in 1..4 {
        match world.list().account(AcctId(acct)) {
            Some(account) => told.show(" ", &account.balance),
            None => told.text(" -"),
        };
    }
    told.show(", fees ", &world.list().fees()).done()
}
