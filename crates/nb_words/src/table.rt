ghost use Rattle.std.specs.Prelude.{◌≡◌, ◌↔◌, ◌≤◌, ◌<◌, ◌^◌, ℕ, List, [], codes, map, IsTrue, IfOk, IfSome, IsSome, Option, Some, None};
ghost use Rattle.std.specs.Fmt.{decimal};
ghost use Rattle.clap.specs.Walk.{first_of};
ghost use Rattle.clap.specs.Words.{app_of, found_of, rows_of, subcommand_rows_of, with_subcommand};
ghost use Rattle.nb_groups.specs.Groups.{AreGroups, groups_text};
ghost use Rattle.nb_words.specs.Table as table;
ghost use Rattle.nb_words.specs.declared.words.Command.TheVariants as commands;
ghost use Rattle.nb_words.specs.Words.{AreServed};
ghost use Rattle.nb_units.specs.declared.limits.TheConstants.{MAX_RATE};

use crate::words::{Command, MAX_LINKS, MAX_WORKERS};
use clap::{Arg, ArgMatches, Command as Shape};
use nb_groups::Groups;
use nb_play::MAX_ORDERS;
use nb_units::{AcctId, MAX_RATE, PartyId, Price, decimal_of};
use std::alloc::{AllocError, Global};

/// The program, as clap reads its words: each row is a command, with its name, the names of what stands behind it, and of what may stand behind
/// that.
pub(crate) fn program<'a>(alloc: Global) -> Result<Shape<'a>, AllocError>
    ensures { IfOk result (λ program. app_of program ≡ table.program) }
{
    let program = first_commands(alloc)?;
    let program = with_house_commands(alloc, program)?;
    let program = with_party_commands(alloc, program)?;
    let program = with(alloc, program, "play", &[], &[])?;
    with_standby_commands(alloc, program)
}

// The program with its first rows.
fn first_commands<'a>(alloc: Global) -> Result<Shape<'a>, AllocError>
    ensures { IfOk result (λ program. app_of program ≡ table.first_commands) }
{
    let program = Shape::new(alloc, "netbill")
        .no_binary_name(true)
        .disable_help_flag(true)
        .disable_help_subcommand(true)
        .subcommand_required(true);
    let program = with(alloc, program, "init", &["JOURNAL", "CAP"], &["PERMILLE"])?;
    let program = with(alloc, program, "batch", &["JOURNAL"], &[])?;
    with(alloc, program, "drill", &["SEED", "ORDERS"], &[])
}

// The program with the further commands of a house.
fn with_house_commands<'a>(alloc: Global, program: Shape<'a>) -> Result<Shape<'a>, AllocError>
    ensures { IfOk result (λ more. app_of more ≡ table.with_house_commands (app_of program.entry)) }
{
    let program = with(
        alloc,
        program,
        "serve",
        &["JOURNAL", "ADDRESS", "WORKERS", "SESSIONS"],
        &[],
    )?;
    let program = with(alloc, program, "migrate", &["JOURNAL", "PERMILLE"], &[])?;
    let program = with(alloc, program, "statement", &["JOURNAL", "ACCT"], &[])?;
    with(alloc, program, "judge", &[], &[])
}

// The program with the commands of a consumer, a merchant and a keeper of groups.
fn with_party_commands<'a>(alloc: Global, program: Shape<'a>) -> Result<Shape<'a>, AllocError>
    ensures { IfOk result (λ more. app_of more ≡ table.with_party_commands (app_of program.entry)) }
{
    let program = with_purchase(alloc, program, "buy")?;
    let program = with_sale(alloc, program, "sell")?;
    let program = with(
        alloc,
        program,
        "credential",
        &["CONSUMER", "UNTIL", "GROUPS"],
        &[],
    )?;
    let program = with_purchase(alloc, program, "buywith")?;
    with_sale(alloc, program, "selloffers")
}

// The program with the commands of a standby and its primary.
fn with_standby_commands<'a>(alloc: Global, program: Shape<'a>) -> Result<Shape<'a>, AllocError>
    ensures { IfOk result (λ more. app_of more ≡ table.with_standby_commands (app_of program.entry)) }
{
    let program = with(alloc, program, "ship", &["JOURNAL", "FROM"], &[])?;
    let program = with_journal(alloc, program, "follow")?;
    with_journal(alloc, program, "promote")
}

// The program with a command of a journal alone more.
fn with_journal<'a>(
    alloc: Global,
    program: Shape<'a>,
    name: &'static str,
) -> Result<Shape<'a>, AllocError>
    ensures { IfOk result (λ more. app_of more ≡ with_subcommand (app_of program.entry) (table.shape name.now table.journal_position [])) }
{
    with(alloc, program, name, &["JOURNAL"], &[])
}

// The program with a command of a purchase more.
fn with_purchase<'a>(
    alloc: Global,
    program: Shape<'a>,
    name: &'static str,
) -> Result<Shape<'a>, AllocError>
    ensures { IfOk result (λ more. app_of more ≡ with_subcommand (app_of program.entry) (table.shape name.now table.buy_positions [])) }
{
    with(
        alloc,
        program,
        name,
        &[
            "WALLET", "SERVER", "SELLER", "MERCHANT", "PRODUCT", "LIMIT", "TID",
        ],
        &[],
    )
}

// The program with a command of a sale more.
fn with_sale<'a>(
    alloc: Global,
    program: Shape<'a>,
    name: &'static str,
) -> Result<Shape<'a>, AllocError>
    ensures { IfOk result (λ more. app_of more ≡ with_subcommand (app_of program.entry) (table.shape name.now table.sell_positions [])) }
{
    with(
        alloc,
        program,
        name,
        &["STALL", "ADDRESS", "SERVER", "LINKS"],
        &[],
    )
}

/// The command that was read: each row is a command, with the ranges of its numbers.
pub(crate) fn command_in(matches: &ArgMatches<'_>) -> Option<Command>
    ensures { table.CommandIn (subcommand_rows_of matches.now) result }
{
    let (name, given) = matches.subcommand()?;
    if is_init(name) {
        let cap = small_in(given, "CAP", u32::MAX)?;
        let rate = rate_in(given)?;
        return Some(Command::Init { cap, rate });
    }
    if is_batch(name) {
        return Some(Command::Batch);
    }
    if is_drill(name) {
        let seed = number_in(given, "SEED")?;
        let orders = small_in(given, "ORDERS", MAX_ORDERS)?;
        return Some(Command::Drill { seed, orders });
    }
    if is_serve(name) {
        return server_in(given);
    }
    if is_migrate(name) {
        let rate = permille_in(given)?;
        return Some(Command::Migrate { rate });
    }
    if is_statement(name) {
        let acct = AcctId(small_in(given, "ACCT", u32::MAX)?);
        return Some(Command::Statement { acct });
    }
    if is_judge(name) {
        return Some(Command::Judge);
    }
    if is_buy(name) {
        return Some(buy_of(purchase_in(given)?));
    }
    if is_sell(name) {
        let links = links_in(given)?;
        return Some(Command::Sell { links });
    }
    if is_credential(name) {
        return credential_in(given);
    }
    if is_buywith(name) {
        return Some(buy_with_of(purchase_in(given)?));
    }
    if is_selloffers(name) {
        let links = links_in(given)?;
        return Some(Command::SellOffers { links });
    }
    if is_play(name) {
        return Some(Command::Play);
    }
    if is_ship(name) {
        let from = number_in(given, "FROM")?;
        return Some(Command::Ship { from });
    }
    if is_follow(name) {
        return Some(Command::Follow);
    }
    if is_promote(name) {
        return Some(Command::Promote);
    }
    None
}

// The server whose numbers were read, where there may be such a one.
fn server_in(given: &ArgMatches<'_>) -> Option<Command>
    ensures some { IfSome result (table.IsServerIn (rows_of (found_of given.now))) }
    ensures each { (workers sessions : ℕ) → table.ServeIn (rows_of (found_of given.now)) workers sessions → IsSome result }
{
    let workers = small_in(given, "WORKERS", MAX_WORKERS)?;
    let sessions = small_in(given, "SESSIONS", MAX_LINKS)?;
    if !is_served(workers, sessions) {
        return None;
    }
    Some(Command::Serve { workers, sessions })
}

// The number of the links of who sells.
fn links_in(given: &ArgMatches<'_>) -> Option<u32>
    ensures some { IfSome result (table.SellIn (rows_of (found_of given.now))) }
    ensures each { (links : ℕ) → table.SellIn (rows_of (found_of given.now)) links → result ≡ Some links }
{
    small_in(given, "LINKS", u32::MAX)
}

// What the numbers of a purchase are.
#[derive(Clone, Copy)]
struct Purchase {
    merchant: PartyId,
    product: u32,
    limit: Price,
    transaction: u64,
}

// The purchase whose numbers were read.
fn purchase_in(given: &ArgMatches<'_>) -> Option<Purchase>
    ensures some { IfSome result (λ p. table.BuyIn (rows_of (found_of given.now)) p.merchant.0 p.product p.limit.0 p.transaction) }
    ensures each { (merchant product limit transaction : ℕ) → table.BuyIn (rows_of (found_of given.now)) merchant product limit transaction → IsSome result }
{
    let merchant = PartyId(small_in(given, "MERCHANT", u32::MAX)?);
    let product = small_in(given, "PRODUCT", u32::MAX)?;
    let limit = Price(number_in(given, "LIMIT")?);
    let transaction = number_in(given, "TID")?;
    Some(Purchase {
        merchant,
        product,
        limit,
        transaction,
    })
}

// The purchase as a command without a request.
fn buy_of(purchase: Purchase) -> Command
    ensures { result ≡ commands.Buy purchase.merchant purchase.product purchase.limit purchase.transaction }
{
    Command::Buy {
        merchant: purchase.merchant,
        product: purchase.product,
        limit: purchase.limit,
        transaction: purchase.transaction,
    }
}

// The purchase as a command whose request is the input.
fn buy_with_of(purchase: Purchase) -> Command
    ensures { result ≡ commands.BuyWith purchase.merchant purchase.product purchase.limit purchase.transaction }
{
    Command::BuyWith {
        merchant: purchase.merchant,
        product: purchase.product,
        limit: purchase.limit,
        transaction: purchase.transaction,
    }
}

// The credential whose numbers were read.
fn credential_in(given: &ArgMatches<'_>) -> Option<Command>
    ensures some { IfSome result (table.IsCredentialIn (rows_of (found_of given.now))) }
    ensures each { (consumer until : ℕ) (groups : List ℕ) → table.CredentialIn (rows_of (found_of given.now)) consumer until groups → IsSome result }
{
    let consumer = PartyId(small_in(given, "CONSUMER", u32::MAX)?);
    let until = number_in(given, "UNTIL")?;
    let groups = groups_in(given, "GROUPS")?;
    Some(Command::Credential {
        consumer,
        until,
        groups,
    })
}

// The program with one command more. What is needed has to be there, and what is optional may be missing behind it; all of it is read as texts.
fn with<'a>(
    alloc: Global,
    program: Shape<'a>,
    name: &'static str,
    needed: &[&'static str],
    optional: &[&'static str],
) -> Result<Shape<'a>, AllocError>
    ensures { IfOk result (λ more. app_of more ≡ with_subcommand (app_of program.entry) (table.shape name.now (map (λ id. id.now) needed.now) (map (λ id. id.now) optional.now))) }
{
    let command = Shape::new(alloc, name);
    let command = with_positions(alloc, command, needed, true)?;
    let command = with_positions(alloc, command, optional, false)?;
    program.subcommand(command)
}

// The command with these positions behind its own. All of them have to be there, or each may be missing.
fn with_positions<'a>(
    alloc: Global,
    command: Shape<'a>,
    positions: &[&'static str],
    required: bool,
) -> Result<Shape<'a>, AllocError>
    ensures { IfOk result (λ more. app_of more ≡ table.with_positions (app_of command.entry) (map (λ id. id.now) positions.now) required) }
{
    let mut more = command;
    'adding: for position in positions {
        more = more.arg(Arg::new(alloc, position).required(required))?;
    }
    Ok(more)
}

// What stands at the position of the rate: nothing, or a rate. None where it is something else.
fn rate_in(given: &ArgMatches<'_>) -> Option<Option<u16>>
    ensures some { IfSome result (table.RateIn (rows_of (found_of given.now))) }
    ensures each { (rate : Option ℕ) → table.RateIn (rows_of (found_of given.now)) rate → result ≡ Some rate }
{
    if is_missing(given, "PERMILLE") {
        return Some(None);
    }
    let rate = permille_in(given)?;
    Some(Some(rate))
}

// The rate at its position, in thousandths.
fn permille_in(given: &ArgMatches<'_>) -> Option<u16>
    ensures some { IfSome result (table.IsSmallAt (codes "PERMILLE") (rows_of (found_of given.now)) MAX_RATE) }
    ensures each { (n : ℕ) → table.IsSmallAt (codes "PERMILLE") (rows_of (found_of given.now)) MAX_RATE n → result ≡ Some n }
{
    let rate = small_in(given, "PERMILLE", u32::from(MAX_RATE))?;
    Some(rate as u16)
}

// Whether nothing stands at a position.
fn is_missing(given: &ArgMatches<'_>, position: &str) -> bool
    ensures { IsTrue result ↔ (first_of position.now (rows_of (found_of given.now)) ≡ None) }
{
    given.get_str(position).is_none()
}

// The number at a position, of 64 bits.
fn number_in(given: &ArgMatches<'_>, position: &str) -> Option<u64>
    ensures some { IfSome result (λ n. first_of position.now (rows_of (found_of given.now)) ≡ Some (decimal n)) }
    ensures each { (n : ℕ) → n < 2 ^ 64 → first_of position.now (rows_of (found_of given.now)) ≡ Some (decimal n) → result ≡ Some n }
{
    decimal_of(given.get_str(position)?.as_bytes())
}

// The number at a position, where it is at most this.
fn small_in(given: &ArgMatches<'_>, position: &str, most: u32) -> Option<u32>
    ensures some { IfSome result (λ n. table.IsSmallAt position.now (rows_of (found_of given.now)) most n) }
    ensures each { (n : ℕ) → table.IsSmallAt position.now (rows_of (found_of given.now)) most n → result ≡ Some n }
{
    let n = number_in(given, position)?;
    if n > u64::from(most) {
        return None;
    }
    Some(n as u32)
}

// The groups at a position.
fn groups_in(given: &ArgMatches<'_>, position: &str) -> Option<Groups>
    ensures some { IfSome result (λ groups. (first_of position.now (rows_of (found_of given.now)) ≡ Some (groups_text groups)) × AreGroups groups) }
    ensures each { (groups : List ℕ) → AreGroups groups → first_of position.now (rows_of (found_of given.now)) ≡ Some (groups_text groups) → result ≡ Some groups }
{
    Groups::named(given.get_str(position)?.as_bytes())
}

fn is_init(word: &str) -> bool
    ensures { IsTrue result ↔ (word.now ≡ codes "init") }
{
    word == "init"
}

fn is_batch(word: &str) -> bool
    ensures { IsTrue result ↔ (word.now ≡ codes "batch") }
{
    word == "batch"
}

fn is_drill(word: &str) -> bool
    ensures { IsTrue result ↔ (word.now ≡ codes "drill") }
{
    word == "drill"
}

fn is_serve(word: &str) -> bool
    ensures { IsTrue result ↔ (word.now ≡ codes "serve") }
{
    word == "serve"
}

fn is_migrate(word: &str) -> bool
    ensures { IsTrue result ↔ (word.now ≡ codes "migrate") }
{
    word == "migrate"
}

fn is_statement(word: &str) -> bool
    ensures { IsTrue result ↔ (word.now ≡ codes "statement") }
{
    word == "statement"
}

fn is_judge(word: &str) -> bool
    ensures { IsTrue result ↔ (word.now ≡ codes "judge") }
{
    word == "judge"
}

fn is_play(word: &str) -> bool
    ensures { IsTrue result ↔ (word.now ≡ codes "play") }
{
    word == "play"
}

fn is_ship(word: &str) -> bool
    ensures { IsTrue result ↔ (word.now ≡ codes "ship") }
{
    word == "ship"
}

fn is_follow(word: &str) -> bool
    ensures { IsTrue result ↔ (word.now ≡ codes "follow") }
{
    word == "follow"
}

fn is_promote(word: &str) -> bool
    ensures { IsTrue result ↔ (word.now ≡ codes "promote") }
{
    word == "promote"
}

fn is_buy(word: &str) -> bool
    ensures { IsTrue result ↔ (word.now ≡ codes "buy") }
{
    word == "buy"
}

fn is_sell(word: &str) -> bool
    ensures { IsTrue result ↔ (word.now ≡ codes "sell") }
{
    word == "sell"
}

fn is_credential(word: &str) -> bool
    ensures { IsTrue result ↔ (word.now ≡ codes "credential") }
{
    word == "credential"
}

fn is_buywith(word: &str) -> bool
    ensures { IsTrue result ↔ (word.now ≡ codes "buywith") }
{
    word == "buywith"
}

fn is_selloffers(word: &str) -> bool
    ensures { IsTrue result ↔ (word.now ≡ codes "selloffers") }
{
    word == "selloffers"
}

// Whether a server may have so many workers of so many links.
fn is_served(workers: u32, sessions: u32) -> bool
    ensures { IsTrue result ↔ AreServed workers sessions }
{
    1 <= workers
        && workers <= MAX_WORKERS
        && 1 <= sessions
        && u64::from(workers) * u64::from(sessions) <= u64::from(MAX_LINKS)
}
