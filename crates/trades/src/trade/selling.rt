// The lines of a merchant.

ghost use Rattle.std.specs.Prelude.{IfOk};
ghost use Rattle.nb_merchant.specs.Sending.{StepIs};

use crate::trade::Trade;
use crate::{bytes, shelves, telling};
use nb_groups::{OFFERS_BYTES, Offers};
use nb_lines::Told;
use nb_merchant::Merchant;
use nb_msgs::Step;
use nb_price::Catalogue;
use nb_stall::Stall;
use nb_units::{AcctId, Blob, NoMemory, PartyId};
use std::alloc::Global;
use std::mem;

pub(crate) const STALL: Stall = Stall {
    id: PartyId(2),
    acct: AcctId(2),
    key: [0x55; 32],
    master: [0x66; 32],
};

// A merchant that sells this, and kept nothing.
pub(crate) fn new_merchant(alloc: Global, catalogue: Catalogue) -> Merchant {
    Merchant::new(alloc, STALL, catalogue)
}

impl Trade {
    /// `shelf LINE..`: what the merchant sells from its next start on, which are these lines, with a line feed between two.
    pub fn shelf(&mut self, words: &[&str]) -> Result<(), NoMemory> {
        let mut shelf = Vec::new(self.alloc);
        for line in words {
            if !shelf.is_empty() {
                shelf.push(0x0A)?;
            }
            shelf.extend_from_slice(line.as_bytes())?;
        }
        self.shelf = shelf;
        Ok(())
    }

    /// `offers HEX`: what it offers to the members of groups from its next start on: these offers, or nothing.
    pub fn offers(&mut self, told: &mut Told, words: &[&str]) -> Result<(), NoMemory> {
        if words.len() > 1 {
            return told.unclear();
        }
        self.offers = nb_lines::spelled(self.alloc, words.first().copied().unwrap_or(""));
        Ok(())
    }

    /// `stall ITEM..`: a merchant starts with these items, each a number or spelled, sells what is on the shelf and offers what was said.
    pub fn stall(&mut self, told: &mut Told, words: &[&str]) -> Result<(), NoMemory> {
        let items = self.items_of(words)?;
        match shelves::read(self.alloc, &self.shelf) {
            Ok(catalogue) => self.open(told, catalogue, &items),
            Err(fault) => shelves::fault(told, fault),
        }
    }

    /// `anew ITEM..`: the merchant that is there starts again with these items, and sells what it sold.
    pub fn anew(&mut self, told: &mut Told, words: &[&str]) -> Result<(), NoMemory> {
        let items = self.items_of(words)?;
        if items.len() > 100 {
            return told.unclear();
        }
        match self.merchant.start_again(&items) {
            Ok(()) => Ok(()),
            Err(fault) => telling::fault(told, fault),
        }
    }

    fn items_of(&self, words: &[&str]) -> Result<Vec<Blob>, NoMemory> {
        let mut items = Vec::new(self.alloc);
        for word in words {
            let item = self.named(*word)?;
            items.push(item)?;
        }
        Ok(items)
    }

    fn open(
        &mut self,
        told: &mut Told,
        catalogue: Catalogue,
        items: &[Blob],
    ) -> Result<(), NoMemory> {
        if items.len() > 100 || self.offers.len() > OFFERS_BYTES {
            return told.unclear();
        }
        let restarted = match Offers::read(self.alloc, &self.offers) {
            Ok(offers) => Merchant::restart_with(self.alloc, STALL, catalogue, offers, items),
            Err(_) if self.offers.is_empty() => {
                Merchant::restart(self.alloc, STALL, catalogue, items)
            }
            Err(_) => return told.unclear(),
        };
        match restarted {
            Ok(merchant) => {
                drop(mem::replace(&mut self.merchant, merchant));
                Ok(())
            }
            Err(fault) => telling::fault(told, fault),
        }
    }

    // Remembers what a step of the merchant keeps and sends, and tells it.
    fn sold(&mut self, told: &mut Told, step: Result<Step, NoMemory>) -> Result<(), NoMemory>
        requires { IfOk step (StepIs self.old.merchant) }
    {
        let step = step?;
        let done = self.remember_sale(told, &step);
        drop(step);
        done
    }

    fn remember_sale(&mut self, told: &mut Told, step: &Step) -> Result<(), NoMemory>
        requires { StepIs self.old.merchant step.now }
    {
        match step {
            Step::Move { keep, to, message } => {
                self.kept = bytes::kept(self.alloc, keep)?;
                self.moved(told, message)?;
                telling::sent(told, *to).done()
            }
            Step::Ended { .. } => told.unclear(),
            Step::Ignored(why) => telling::why(told, *why).done(),
        }
    }

    /// `consumer KIND BODY MOMENT`: a message of a consumer comes to the merchant at this moment.
    pub fn consumer_says(&mut self, told: &mut Told, words: &[&str]) -> Result<(), NoMemory> {
        let [kind, body, moment] = words else {
            return told.unclear();
        };
        let Some(message) = bytes::said(self.alloc, *kind, *body) else {
            return told.unclear();
        };
        let moment = nb_lines::number(*moment);
        let step = self.merchant.on_consumer(&message, moment);
        drop(message);
        self.sold(told, step)
    }

    /// `house KIND BODY`: a message of the house comes to the merchant.
    pub fn house_says(&mut self, told: &mut Told, words: &[&str]) -> Result<(), NoMemory> {
        let [kind, body] = words else {
            return told.unclear();
        };
        let Some(message) = bytes::said(self.alloc, *kind, *body) else {
            return told.unclear();
        };
        let step = self.merchant.on_server(&message);
        drop(message);
        self.sold(told, step)
    }

    /// `silent CONSUMER NUMBER`: the merchant heard nothing of a purchase for long.
    pub fn silent(&mut self, told: &mut Told, words: &[&str]) -> Result<(), NoMemory> {
        let [consumer, number] = words else {
            return told.unclear();
        };
        let number = nb_lines::number(*number);
        let step = self.merchant.quiet(bytes::party(*consumer), number);
        self.sold(told, step)
    }

    /// `stage CONSUMER NUMBER`: how far a purchase of the merchant has come.
    pub fn stage(&self, told: &mut Told, words: &[&str]) -> Result<(), NoMemory> {
        let [consumer, number] = words else {
            return told.unclear();
        };
        let number = nb_lines::number(*number);
        telling::stage(told, self.merchant.state(bytes::party(*consumer), number)).done()
    }

    /// `asker KIND BODY MOMENT`: whose ticket a message to the merchant shows at this moment.
    pub fn asker(&self, told: &mut Told, words: &[&str]) -> Result<(), NoMemory> {
        let [kind, body, moment] = words else {
            return told.unclear();
        };
        let Some(message) = bytes::said(self.alloc, *kind, *body) else {
            return told.unclear();
        };
        let moment = nb_lines::number(*moment);
        let asker = self.merchant.asker(&message, moment);
        drop(message);
        telling::asker(told, asker).done()
    }
}
