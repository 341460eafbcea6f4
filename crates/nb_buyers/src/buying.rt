ghost use Rattle.std.specs.Prelude.{◌≡◌, OnOk, OnErr, IfOk, map};
ghost use Rattle.nb_msgs.specs.Bodies.{MessageKeepsRules};
ghost use Rattle.nb_wallet.specs.Spelling.{StartKeepsRules};
ghost use Rattle.nb_consumer.specs.Goods.{phase_in};
ghost use Rattle.nb_consumer.specs.Restart.{untold};
ghost use Rattle.nb_consumer.specs.State.{new_buyer, number_of, purchase_of};
ghost use Rattle.nb_consumer.specs.Table.{started, heard, silent};
ghost use Rattle.nb_parties.specs.Rules.{buyer_goes};
ghost use Rattle.nb_packets.specs.Doing.{Follows, DidSo};
ghost use Rattle.std.specs.Option.{is_some};

use nb_consumer::{Consumer, Phase};
use nb_msgs::{Message, RestartFault};
use nb_packets::{Did, carry_out, make_room};
use nb_units::{Blob, NoMemory, PartyId};
use nb_wallet::{Start, Wallet};
use std::alloc::Global;
use std::marker::Model;

// A consumer, with the items of its journal. It is seen as what it knows.
#[derive(Drop)]
pub(crate) struct Buying {
    core: Consumer,
    wallet: Wallet,
    kept: Vec<Blob>,
}

impl Model for Buying {
    ghost use Rattle.std.specs.Prelude.{◌≡◌, ◌<◌, ◌^◌, length};
    ghost use Rattle.nb_consumer.specs.Restart.{Kept};
    ghost use Rattle.nb_consumer.specs.State.{Buyer};

    ghost Value = { Buyer };

    ghost view = { λ b. b.core };

    ghost invariant = { λ b. record {
      wallet : b.wallet ≡ b.core.wallet;
      kept : Kept b.kept.items b.core;
      few : length b.kept.items < 2 ^ 32;
    } };
}

impl Buying {
    // A consumer that has kept nothing.
    pub(crate) fn new(alloc: Global, wallet: Wallet) -> Buying
        ensures { result ≡ new_buyer wallet }
    {
        Buying {
            core: Consumer::new(alloc, wallet),
            wallet,
            kept: Vec::new(alloc),
        }
    }

    // Whether it knows a purchase of this number.
    pub(crate) fn knows(&self, transaction: u64) -> bool
        ensures { result ≡ is_some (purchase_of self.now transaction) }
    {
        self.core.knows(transaction)
    }

    // Its number, and those of its purchases.
    pub(crate) fn purchases(&self) -> (PartyId, &[u64])
        ensures id { result.0 ≡ self.now.wallet.id }
        ensures numbers { result.1.now ≡ map number_of self.now.purchases }
    {
        (self.wallet.id, self.core.numbers())
    }

    // How far a purchase has come.
    pub(crate) fn phase(&self, transaction: u64) -> Option<Phase>
        ensures { result ≡ phase_in (purchase_of self.now transaction) }
    {
        self.core.state(transaction)
    }

    // It starts a purchase.
    pub(crate) fn start(&mut self, start: &Start) -> Result<Did, NoMemory>
        requires { StartKeepsRules start.now }
        ensures goes { IfOk result (λ did. Follows (buyer_goes self.old (started self.old start.now)) self.old self.new did × DidSo did) }
        ensures same { self.new.wallet ≡ self.old.wallet }
        ensures err { OnErr result (self.new ≡ self.old) }
    {
        nb_consumer::laws::keeps_restarting();
        make_room(&mut self.kept)?;
        let step = self.core.start(start)?;
        Ok(carry_out(&mut self.kept, step))
    }

    // It hears a message.
    pub(crate) fn hear(&mut self, message: &Message) -> Result<Did, NoMemory>
        requires { MessageKeepsRules message.now }
        ensures goes { IfOk result (λ did. Follows (buyer_goes self.old (heard self.old message.now)) self.old self.new did × DidSo did) }
        ensures same { self.new.wallet ≡ self.old.wallet }
        ensures err { OnErr result (self.new ≡ self.old) }
    {
        nb_consumer::laws::keeps_restarting();
        make_room(&mut self.kept)?;
        let step = self.core.on(message)?;
        Ok(carry_out(&mut self.kept, step))
    }

    // It has heard nothing of a purchase for long.
    pub(crate) fn quiet(&mut self, transaction: u64) -> Result<Did, NoMemory>
        ensures goes { IfOk result (λ did. Follows (buyer_goes self.old (silent self.old transaction)) self.old self.new did × DidSo did) }
        ensures same { self.new.wallet ≡ self.old.wallet }
        ensures err { OnErr result (self.new ≡ self.old) }
    {
        nb_consumer::laws::keeps_restarting();
        make_room(&mut self.kept)?;
        let step = self.core.quiet(transaction)?;
        Ok(carry_out(&mut self.kept, step))
    }

    // It starts again, with what it kept.
    pub(crate) fn restart(&mut self, alloc: Global) -> Result<(), NoMemory>
        ensures again { OnOk result (self.new ≡ untold self.old) }
        ensures same { self.new.wallet ≡ self.old.wallet }
        ensures err { OnErr result (self.new ≡ self.old) }
    {
        match Consumer::restart(alloc, self.wallet, self.kept.as_slice()) {
            Ok(core) => {
                self.core = core;
                Ok(())
            }
            Err(RestartFault::NoMemory) => Err(NoMemory),
            Err(RestartFault::BadItem { .. }) => unreachable!(),
        }
    }
}
