ghost use Rattle.std.specs.Prelude.{◌≡◌, OnOk, OnErr, IfOk};
ghost use Rattle.std.specs.Option.{is_some};
ghost use Rattle.nb_msgs.specs.Bodies.{MessageKeepsRules};
ghost use Rattle.nb_stall.specs.Sales.{sale_in};
ghost use Rattle.nb_merchant.specs.Shop.{new_shop};
ghost use Rattle.nb_merchant.specs.Table.{silent, purchase_by, step_of, after};
ghost use Rattle.nb_msgs.specs.Steps.{StepKeepsRules};
ghost use Rattle.nb_parties.specs.Rules.{shop_goes, shop_row};
ghost use Rattle.nb_packets.specs.Doing.{Follows, DidSo};

use nb_merchant::Merchant;
use nb_msgs::{Message, RestartFault, Step};
use nb_packets::{Did, carry_out, make_room};
use nb_price::Catalogue;
use nb_stall::Stall;
use nb_units::{Blob, NoMemory, PartyId};
use std::alloc::Global;
use std::marker::Model;

// A merchant, with the items of its journal. It is seen as who it is, what it sells and what it kept.
#[derive(Drop)]
pub(crate) struct Selling {
    core: Merchant,
    kept: Vec<Blob>,
}

impl Model for Selling {
    ghost use Rattle.std.specs.Prelude.{◌≡◌, ◌<◌, ◌^◌, length, map};
    ghost use Rattle.nb_stall.specs.Spelling.{item_bytes};
    ghost use Rattle.nb_merchant.specs.Shop.{Shop};

    ghost Value = { Shop };

    ghost view = { λ s. s.core };

    ghost invariant = { λ s. record {
      kept : s.kept.items ≡ map item_bytes s.core.items;
      few : length s.kept.items < 2 ^ 32;
    } };
}

// What a merchant does at a message: that of a result is taken as the house's, and any other as a consumer's.
fn step_at(core: &mut Merchant, message: &Message, moment: u64) -> Result<Step, NoMemory>
    requires { MessageKeepsRules message.now }
    ensures step { IfOk result (λ step. step ≡ step_of (shop_row core.old message.now moment)) }
    ensures kept { OnOk result (core.new ≡ after core.old (shop_row core.old message.now moment)) }
    ensures lawful { IfOk result StepKeepsRules }
    ensures err { OnErr result (core.new ≡ core.old) }
{
    match message {
        Message::Result { .. } => core.on_server(message),
        _ => core.on_consumer(message, moment),
    }
}

impl Selling {
    // A merchant that has kept nothing.
    pub(crate) fn new(alloc: Global, stall: Stall, catalogue: Catalogue) -> Selling
        ensures { result ≡ new_shop stall catalogue None }
    {
        Selling {
            core: Merchant::new(alloc, stall, catalogue),
            kept: Vec::new(alloc),
        }
    }

    // Whether it knows the consumer's purchase of this number.
    pub(crate) fn knows(&self, consumer: PartyId, transaction: u64) -> bool
        ensures { result ≡ is_some (sale_in self.now.items (purchase_by consumer transaction)) }
    {
        self.core.state(consumer, transaction).is_some()
    }

    // It hears a message at a moment.
    pub(crate) fn hear(&mut self, message: &Message, moment: u64) -> Result<Did, NoMemory>
        requires { MessageKeepsRules message.now }
        ensures goes { IfOk result (λ did. Follows (shop_goes self.old (shop_row self.old message.now moment)) self.old self.new did × DidSo did) }
        ensures same { self.new.stall ≡ self.old.stall }
        ensures err { OnErr result (self.new ≡ self.old) }
    {
        make_room(&mut self.kept)?;
        let step = step_at(&mut self.core, message, moment)?;
        Ok(carry_out(&mut self.kept, step))
    }

    // It has heard nothing of a consumer's purchase for long.
    pub(crate) fn quiet(&mut self, consumer: PartyId, transaction: u64) -> Result<Did, NoMemory>
        ensures goes { IfOk result (λ did. Follows (shop_goes self.old (silent self.old (purchase_by consumer transaction))) self.old self.new did × DidSo did) }
        ensures same { self.new.stall ≡ self.old.stall }
        ensures err { OnErr result (self.new ≡ self.old) }
    {
        make_room(&mut self.kept)?;
        let step = self.core.quiet(consumer, transaction)?;
        Ok(carry_out(&mut self.kept, step))
    }

    // It starts again, with what it kept.
    pub(crate) fn restart(&mut self) -> Result<(), NoMemory>
        ensures { self.new ≡ self.old }
    {
        nb_merchant::laws::restart_gives_back();
        self.core.witness();
        match self.core.start_again(self.kept.as_slice()) {
            Ok(()) => Ok(()),
            Err(RestartFault::NoMemory) => Err(NoMemory),
            Err(RestartFault::BadItem { .. }) => unreachable!(),
        }
    }
}
