//! What a line lets happen in a world.

ghost use Rattle.std.specs.Prelude.{◌≡◌, ◌++◌, ◌∷◌, [], List, IfOk};
ghost use Rattle.nb_world.specs.declared.event.Event.{Event};
ghost use Rattle.nb_simulator.specs.declared.setup.Setup.{Setup};
ghost use Rattle.nb_simulator.specs.Laws.{IsBehind};
ghost use Rattle.nb_player.specs.Playing as playing;
ghost use Rattle.nb_player.specs.Playing.{events_of, served};

use nb_msgs::To;
use nb_script::{Act, Addressee};
use nb_simulator::{Event, World};
use nb_units::{Blob, NoMemory, PartyId, Price, Small};
use nb_wallet::Start;
use std::alloc::Global;

// Takes the world on by an event. Where all numbers of packets or of calls are used there is no room for it; a script has too few lines for that.
fn step(world: &mut World, event: &Event) -> Result<(), NoMemory>
    ensures { IfOk result (λ _. (s : Setup) (es : List Event) → IsBehind s es world.old → IsBehind s (es ++ event.now ∷ []) world.new) }
{
    if world.packets() == u32::MAX || world.calls() == u32::MAX {
        return Err(NoMemory);
    }
    world.step(event)?;
    Ok(())
}

// Delivers a packet, and takes the call of this number, which that makes, through its steps.
fn serve(world: &mut World, packet: u32, call: u32) -> Result<(), NoMemory>
    ensures { IfOk result (λ _. (s : Setup) (es : List Event) → IsBehind s es world.old → IsBehind s (es ++ served packet call) world.new) }
{
    step(world, &Event::Deliver { packet })?;
    step(world, &Event::Turn { call })?;
    step(world, &Event::Write { call })?;
    step(world, &Event::Open { call })?;
    step(world, &Event::Answer { call })
}

// Whom a packet is for.
fn addressee(to: Addressee) -> To
    ensures { result ≡ playing.addressee to }
{
    match to {
        Addressee::Server => To::Server,
        Addressee::Consumer(id) => To::Consumer(id),
        Addressee::Merchant(id) => To::Merchant(id),
    }
}

// What a consumer starts: with an empty request and an empty memo.
fn start_of(transaction: u64, merchant: PartyId, product: u32, limit: Price) -> Start
    ensures transaction { result.transaction ≡ transaction }
    ensures merchant { result.merchant ≡ merchant }
    ensures product { result.product ≡ product }
    ensures limit { result.limit ≡ limit }
    ensures request { result.request ≡ [] }
    ensures memo { result.memo ≡ [] }
{
    Start {
        transaction,
        merchant,
        product,
        limit,
        request: Small::of(&[]).unwrap(),
        memo: Small::of(&[]).unwrap(),
    }
}

// The event of what a line lets happen; of a served packet its delivery.
fn event_of(alloc: Global, act: &Act) -> Result<Event, NoMemory>
    ensures { IfOk result (λ e. e ≡ playing.event_of act.now) }
{
    match act {
        Act::Clock { moment } => Ok(Event::Clock { moment: *moment }),
        Act::Buy {
            consumer,
            tid,
            merchant,
            product,
            limit,
        } => Ok(Event::Buy {
            consumer: *consumer,
            start: start_of(*tid, *merchant, *product, *limit),
        }),
        Act::Deliver { packet } => Ok(Event::Deliver { packet: *packet }),
        Act::Turn { call } => Ok(Event::Turn { call: *call }),
        Act::Write { call } => Ok(Event::Write { call: *call }),
        Act::Open { call } => Ok(Event::Open { call: *call }),
        Act::Answer { call } => Ok(Event::Answer { call: *call }),
        Act::Serve { packet } => Ok(Event::Deliver { packet: *packet }),
        Act::QuietConsumer { consumer, tid } => Ok(Event::QuietConsumer {
            consumer: *consumer,
            tid: *tid,
        }),
        Act::QuietMerchant {
            merchant,
            consumer,
            tid,
        } => Ok(Event::QuietMerchant {
            merchant: *merchant,
            consumer: *consumer,
            tid: *tid,
        }),
        Act::Stop { with } => Ok(Event::Stop { with: *with }),
        Act::RestartConsumer { consumer } => Ok(Event::RestartConsumer {
            consumer: *consumer,
        }),
        Act::RestartMerchant { merchant } => Ok(Event::RestartMerchant {
            merchant: *merchant,
        }),
        Act::Inject { to, kind, body } => Ok(Event::Inject {
            to: addressee(*to),
            kind: *kind,
            body: Blob::of(alloc, body.as_slice())?,
        }),
    }
}

// Takes the world on by the events of what a line lets happen.
pub(crate) fn happen(alloc: Global, world: &mut World, act: &Act) -> Result<(), NoMemory>
    ensures { IfOk result (λ _. (s : Setup) (es : List Event) → IsBehind s es world.old → IsBehind s (es ++ events_of world.old.world act.now) world.new) }
{
    if let Act::Serve { packet } = act {
        let call = world.calls();
        return serve(world, *packet, call);
    }
    step(world, &event_of(alloc, act)?)
}
