ghost use Rattle.std.specs.Prelude.{◌≡◌, [], List, IfOk, map};
ghost use Rattle.nb_world.specs.declared.event.Event.{Event};
ghost use Rattle.nb_simulator.specs.declared.setup.Setup.{Setup};
ghost use Rattle.nb_simulator.specs.Setups.{IsLawful};
ghost use Rattle.nb_simulator.specs.Laws.{IsBehind};
ghost use Rattle.nb_script.specs.Settings.{AreShelves, setting_of};
ghost use Rattle.nb_player.specs.Playing as playing;

use crate::happening::happen;
use crate::report::report_of;
use crate::stock::merchants_of;
use nb_script::{Act, Consumer, PlayFault, Script, read_script};
use nb_simulator::{Setup, World};
use nb_units::{FIRST_VERSION, NoMemory};
use nb_wallet::Wallet;
use std::alloc::Global;

/// Plays a script: makes the world that it sets up, takes it on by what its lines let happen, and appends the report. Where a line is bad it answers
/// [`PlayFault::BadLine`] with the number of the first one, and where there is no memory [`PlayFault::NoMemory`]; nothing is appended then.
pub fn play(alloc: Global, script: &[u8], out: &mut Vec<u8>) -> Result<(), PlayFault>
    ensures { playing.PlayIs script.now out.old.items out.new.items result }
{
    nb_script::laws::scripts_have_shelves();
    crate::laws::set_ups_are_lawful();
    let script = read_script(alloc, script)?;
    let report = play_script(alloc, script)?;
    match out.extend_from_slice(report.as_slice()) {
        Ok(()) => Ok(()),
        Err(_) => Err(PlayFault::NoMemory),
    }
}

// Who buys, in the order of their lines.
fn wallets_of(alloc: Global, listed: &[Consumer]) -> Result<Vec<Wallet>, NoMemory>
    ensures { IfOk result (λ wallets. wallets.items ≡ map playing.wallet_of listed.now) }
{
    let mut wallets = Vec::new(alloc);
    for c in listed {
        wallets.push(Wallet {
            id: c.id,
            acct: c.acct,
            nonce: c.nonce,
            key: c.key,
        })?;
    }
    Ok(wallets)
}

// The set-up of a script, and what happens then.
fn setup_of(alloc: Global, script: Script) -> Result<(Setup, Vec<Act>), NoMemory>
    requires { AreShelves script.shelves.items }
    ensures setup { IfOk result (λ p. playing.IsSetUpOf (setting_of script) p.0) }
    ensures acts { IfOk result (λ p. p.1.items ≡ script.acts.items) }
{
    let merchants = merchants_of(alloc, &script)?;
    let consumers = wallets_of(alloc, script.consumers.as_slice())?;
    let Script {
        head,
        cap,
        entries,
        acts,
        ..
    } = script;
    let setup = Setup {
        head,
        version: FIRST_VERSION,
        rate: 0,
        cap,
        consumers,
        merchants,
        entries,
    };
    Ok((setup, acts))
}

// Takes the world on by all that lines let happen.
fn happen_all(alloc: Global, world: &mut World, acts: &[Act]) -> Result<(), NoMemory>
    ensures { IfOk result (λ _. (s : Setup) → IsBehind s [] world.old → IsBehind s (playing.events_behind s [] acts.now) world.new) }
{
    for act in acts {
        happen(alloc, world, act)?;
    }
    Ok(())
}

// The report of a script.
fn play_script(alloc: Global, script: Script) -> Result<Vec<u8>, NoMemory>
    requires shelves { AreShelves script.shelves.items }
    requires lawful { (s : Setup) → playing.IsSetUpOf (setting_of script) s → IsLawful s }
    ensures { IfOk result (λ report. playing.TellsOf (setting_of script) report.items) }
{
    let (setup, acts) = setup_of(alloc, script)?;
    let mut world = World::new(alloc, setup)?;
    happen_all(alloc, &mut world, acts.as_slice())?;
    report_of(alloc, &world)
}
