ghost use Rattle.std.specs.Prelude.{◌≡◌, ◌⊎◌, ◌≤◌, ℕ, [], map, string_bytes};
ghost use Rattle.nb_port.specs.Faults.{Rose};
ghost use Rattle.nb_commands.specs.declared.ending.TheConstants.{BAD_WORDS, SOURCE_FAILED, SINK_FAILED, DISK_FAILED};
ghost use Rattle.nb_commands.specs.declared.ending.Job.TheVariants as jobs;
ghost use Rattle.nb_commands.specs.declared.ending.Outcome.TheVariants as outcomes;
ghost use Rattle.nb_commands.specs.Ending.{EndsWith};
ghost use Rattle.nb_words.specs.Words.{IsCommand};
ghost use Rattle.nb_run.specs.Run as runs;

use crate::playing::play_input;
use nb_answers::{Batched, answer_batch, drill};
use nb_batch::Answerer::{House, Standby};
use nb_commands::{
    BAD_WORDS, Ending, Job, OUT_OF_MEMORY, Outcome, ask_with, grant, make_journal, move_journal,
    promote, rule_on, ship_records, take_offers, take_stock, write_statement,
};
use nb_port::{Clock, Disk, Sink, Source};
use nb_units::{NoMemory, PartyId, Price, Small};
use nb_words::{Command, command_of};
use std::alloc::Global;

/// Runs the program on its words, over the input, the output, the journal's disk and the clock. The disk is handed
/// back. `init JOURNAL CAP` makes a journal without entries, whose head is the input, and `init JOURNAL CAP PERMILLE` one whose house keeps a fee
/// of that rate; `batch JOURNAL` answers the frames of the
/// input in order; `drill SEED ORDERS` answers those that a seed gives over a journal that it makes, and tells in one line what came of them; `serve JOURNAL ADDRESS WORKERS SESSIONS` is work over links, which is left to do; `migrate JOURNAL PERMILLE` makes a journal
/// whose house keeps a fee of that rate, with the cap, the head and the entries of the input, which is a journal without fees;
/// `statement JOURNAL ACCT` writes the statement of the account, 0 being the house's own, to the output; `ship JOURNAL FROM` writes the records of the entries
/// from a place on, `follow JOURNAL` takes records of the input in and writes acknowledgements, and `promote JOURNAL` tells how many entries stand; `judge` writes what is ruled of the case that is
/// the input; `play` writes the report of the script that is the input; `buy WALLET SERVER SELLER MERCHANT PRODUCT LIMIT TID` is work over links, too, and so is
/// `sell STALL ADDRESS SERVER LINKS`, with the shelf that is the input; `credential CONSUMER UNTIL GROUPS` writes a credential, sealed under the key that is
/// the input; `buywith` is `buy` with the request that is the input, and `selloffers` is `sell` with the offers that stand before the shelf, and an empty line between
/// them.
pub fn run<S: Source, K: Sink, D: Disk, C: Clock>(
    alloc: Global,
    words: &[String],
    source: &mut S,
    sink: &mut K,
    disk: D,
    clock: &mut C,
) -> (Outcome, D)
    // The words are a command, and this is what it did; or they are none, or there was no memory to read them.
    ensures ran { runs.Ran D.tells
        (runs.around S.left S.faults K.sent K.faults C.moments source.old sink.old disk clock.old)
        (runs.around S.left S.faults K.sent K.faults C.moments source.new sink.new result.1 clock.new)
        result.0 (map string_bytes words.now) }
    // A run that is over ended with one of these statuses, or with 2, and then the words are no command.
    ensures status { (status : ℕ) → EndsWith result.0 status → runs.IsStatus status ⊎ ((status ≡ BAD_WORDS) × (IsCommand (map string_bytes words.now) → ⊥)) }
    // No count of faults falls.
    ensures counts { (S.faults source.old ≤ S.faults source.new) × (K.faults sink.old ≤ K.faults sink.new) × (D.tells.faults disk ≤ D.tells.faults result.1) }
    // A fault is answered only where the count of that object rose.
    ensures source { EndsWith result.0 SOURCE_FAILED → Rose (S.faults source.old) (S.faults source.new) }
    // Of the sink.
    ensures sink { EndsWith result.0 SINK_FAILED → Rose (K.faults sink.old) (K.faults sink.new) }
    // Of the disk.
    ensures fault { EndsWith result.0 DISK_FAILED → Rose (D.tells.faults disk) (D.tells.faults result.1) }
{
    match command_of(alloc, words) {
        Ok(Some(command)) => do_command(alloc, command, source, sink, disk, clock),
        Ok(None) => (Outcome::Done(Ending::at_no_place(BAD_WORDS)), disk),
        Err(NoMemory) => (Outcome::Done(Ending::at_no_place(OUT_OF_MEMORY)), disk),
    }
}

// What a command that is over comes to, with the disk that it hands back.
fn over<D>(done: (Ending, D)) -> (Outcome, D)
    ensures { result ≡ (outcomes.Done done.0, done.1) }
{
    let (ending, disk) = done;
    (Outcome::Done(ending), disk)
}

// What a batch comes to, with the disk that it hands back. Nobody asks for its lines.
fn batch_over<D>(batched: Batched<D>) -> (Outcome, D)
    ensures { result ≡ (outcomes.Done batched.ending, batched.disk) }
{
    let Batched {
        ending,
        disk,
        lines: _,
    } = batched;
    (Outcome::Done(ending), disk)
}

// A purchase without a request, which is left to do.
fn buy_alone(merchant: PartyId, product: u32, limit: Price, transaction: u64) -> Outcome
    ensures { result ≡ outcomes.Work (jobs.Buy merchant product limit transaction []) }
{
    Outcome::Work(Job::Buy {
        merchant,
        product,
        limit,
        transaction,
        request: Small::of(&[]).unwrap(),
    })
}

// Does what a command asks for, but for the work over links, which is left to do.
fn do_command<S: Source, K: Sink, D: Disk, C: Clock>(
    alloc: Global,
    command: Command,
    source: &mut S,
    sink: &mut K,
    mut disk: D,
    clock: &mut C,
) -> (Outcome, D)
    // Its numbers are within their limits.
    requires { runs.HasWords command }
    ensures does { runs.Does D.tells
        (runs.around S.left S.faults K.sent K.faults C.moments source.old sink.old disk clock.old)
        (runs.around S.left S.faults K.sent K.faults C.moments source.new sink.new result.1 clock.new)
        result.0 command }
    ensures status { (status : ℕ) → EndsWith result.0 status → runs.IsStatus status }
    ensures counts { (S.faults source.old ≤ S.faults source.new) × (K.faults sink.old ≤ K.faults sink.new) × (D.tells.faults disk ≤ D.tells.faults result.1) }
    ensures source { EndsWith result.0 SOURCE_FAILED → Rose (S.faults source.old) (S.faults source.new) }
    ensures sink { EndsWith result.0 SINK_FAILED → Rose (K.faults sink.old) (K.faults sink.new) }
    ensures fault { EndsWith result.0 DISK_FAILED → Rose (D.tells.faults disk) (D.tells.faults result.1) }
{
    match command {
        Command::Init { cap, rate } => {
            let end = make_journal(source, &mut disk, cap, rate);
            (Outcome::Done(end.ending()), disk)
        }
        Command::Migrate { rate } => {
            let end = move_journal(alloc, source, &mut disk, rate);
            (Outcome::Done(end.ending()), disk)
        }
        Command::Statement { acct } => over(write_statement(alloc, acct, sink, disk)),
        Command::Ship { from } => over(ship_records(alloc, from, sink, disk)),
        Command::Promote => over(promote(alloc, sink, disk)),
        Command::Batch => batch_over(answer_batch(alloc, House, source, sink, disk, clock)),
        Command::Follow => batch_over(answer_batch(alloc, Standby, source, sink, disk, clock)),
        Command::Drill { seed, orders } => over(drill(alloc, seed, orders, sink, disk)),
        Command::Judge => over((rule_on(alloc, source, sink).ending(), disk)),
        Command::Play => over((play_input(alloc, source, sink).ending(), disk)),
        Command::Credential {
            consumer,
            until,
            groups,
        } => {
            let end = grant(alloc, consumer, until, &groups, source, sink);
            (Outcome::Done(end.ending()), disk)
        }
        Command::Serve { workers, sessions } => {
            (Outcome::Work(Job::Serve { workers, sessions }), disk)
        }
        Command::Buy {
            merchant,
            product,
            limit,
            transaction,
        } => (buy_alone(merchant, product, limit, transaction), disk),
        Command::BuyWith {
            merchant,
            product,
            limit,
            transaction,
        } => {
            let outcome = ask_with(alloc, merchant, product, limit, transaction, source);
            (outcome, disk)
        }
        Command::Sell { links } => (take_stock(alloc, links, source), disk),
        Command::SellOffers { links } => (take_offers(alloc, links, source), disk),
    }
}
