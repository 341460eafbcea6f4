ghost use Rattle.std.specs.Prelude.{IfOk};
ghost use Rattle.nb_msgs.specs.Steps.{StepKeepsRules};
ghost use Rattle.nb_msgs.specs.Bodies.{MessageKeepsRules};

pub(crate) mod selling;

use crate::{bytes, telling};
use nb_consumer::Consumer;
use nb_lines::Told;
use nb_merchant::Merchant;
use nb_msgs::{Message, Step};
use nb_units::{AcctId, Blob, NoMemory, PartyId};
use nb_wallet::Wallet;
use std::alloc::Global;
use std::mem;

pub(crate) const WALLET: Wallet = Wallet {
    id: PartyId(1),
    acct: AcctId(1),
    nonce: 7,
    key: [0x44; 32],
};

/// A consumer and a merchant, and what the last step of one of them kept and sent.
#[derive(Drop)]
pub struct Trade {
    alloc: Global,
    // The items that the script names by their numbers.
    known: Vec<Blob>,
    // All items that the consumer kept.
    items: Vec<Blob>,
    consumer: Consumer,
    // What a merchant sells that starts.
    shelf: Vec<u8>,
    // What it offers to the members of groups, or nothing.
    offers: Vec<u8>,
    merchant: Merchant,
    // What the last step kept and sent.
    kept: Vec<u8>,
    sent: Vec<u8>,
    goods: Blob,
}

impl Trade {
    /// A consumer and a merchant that kept nothing.
    pub fn new(alloc: Global) -> Result<Trade, NoMemory> {
        Ok(Trade {
            alloc,
            known: Vec::new(alloc),
            items: Vec::new(alloc),
            consumer: Consumer::new(alloc, WALLET),
            shelf: Vec::new(alloc),
            offers: Vec::new(alloc),
            merchant: selling::new_merchant(alloc, bytes::empty_catalogue(alloc)?),
            kept: Vec::new(alloc),
            sent: Vec::new(alloc),
            goods: Blob::from_vec(Vec::new(alloc)),
        })
    }

    /// `item HEX`: this item has the next number, from 0 on.
    pub fn item(&mut self, told: &mut Told, words: &[&str]) -> Result<(), NoMemory> {
        let [text] = words else {
            return told.unclear();
        };
        let item = Blob::from_vec(nb_lines::spelled(self.alloc, *text));
        self.known.push(item)?;
        Ok(())
    }

    // The item of a number, or the one that a longer word spells.
    fn named(&self, word: &str) -> Result<Blob, NoMemory> {
        if word.len() > 1 {
            return Ok(Blob::from_vec(nb_lines::spelled(self.alloc, word)));
        }
        let at = word.parse::<usize>().unwrap_or(usize::MAX);
        match self.known.get(at) {
            Some(item) => Blob::of(self.alloc, item.as_slice()),
            None => Ok(Blob::from_vec(Vec::new(self.alloc))),
        }
    }

    /// `kept ITEM..`: a consumer starts with these items, each a number or spelled.
    pub fn kept(&mut self, told: &mut Told, words: &[&str]) -> Result<(), NoMemory> {
        self.items.clear();
        for word in words {
            let item = self.named(*word)?;
            self.items.push(item)?;
        }
        self.again(told)
    }

    /// `again`: the consumer starts again with all items that it kept.
    pub fn again(&mut self, told: &mut Told) -> Result<(), NoMemory> {
        if self.items.len() > 100 {
            return told.unclear();
        }
        match Consumer::restart(self.alloc, WALLET, &self.items) {
            Ok(consumer) => {
                drop(mem::replace(&mut self.consumer, consumer));
                Ok(())
            }
            Err(fault) => telling::fault(told, fault),
        }
    }

    // Remembers what a step keeps and sends, and tells it.
    fn did(&mut self, told: &mut Told, step: Result<Step, NoMemory>) -> Result<(), NoMemory>
        requires { IfOk step StepKeepsRules }
    {
        let step = step?;
        let done = self.remember(told, &step);
        drop(step);
        done
    }

    fn remember(&mut self, told: &mut Told, step: &Step) -> Result<(), NoMemory>
        requires { StepKeepsRules step.now }
    {
        match step {
            Step::Move { keep, message, .. } => {
                self.keep(keep)?;
                self.moved(told, message)
            }
            Step::Ended { keep, end } => {
                self.sent.clear();
                telling::end(told, end);
                self.keep_item(keep)
            }
            Step::Ignored(why) => telling::why(told, *why).done(),
        }
    }

    // Remembers what a step sends, and tells it with what it keeps.
    fn moved(&mut self, told: &mut Told, message: &Message) -> Result<(), NoMemory>
        requires { MessageKeepsRules message.now }
    {
        telling::moved(told, &self.kept, message);
        self.sent = telling::frame(self.alloc, message)?;
        Ok(())
    }

    fn keep(&mut self, keep: &Option<Blob>) -> Result<(), NoMemory> {
        match keep {
            Some(item) => self.keep_item(item),
            None => {
                self.kept.clear();
                Ok(())
            }
        }
    }

    fn keep_item(&mut self, item: &Blob) -> Result<(), NoMemory> {
        self.kept = Vec::from_slice(self.alloc, item.as_slice())?;
        self.items.push(Blob::of(self.alloc, item.as_slice())?)?;
        Ok(())
    }

    /// `start NUMBER LIMIT`: a purchase starts.
    pub fn start(&mut self, told: &mut Told, words: &[&str]) -> Result<(), NoMemory> {
        let [number, limit] = words else {
            return told.unclear();
        };
        let wish = bytes::wish(nb_lines::number(*number), nb_lines::number(*limit));
        let step = self.consumer.start(&wish);
        self.did(told, step)
    }

    /// `hear KIND BODY`: a message comes.
    pub fn hear(&mut self, told: &mut Told, words: &[&str]) -> Result<(), NoMemory> {
        let [kind, body] = words else {
            return told.unclear();
        };
        let kind = bytes::first(self.alloc, *kind);
        self.hear_body(told, kind, &nb_lines::spelled(self.alloc, *body))
    }

    fn hear_body(&mut self, told: &mut Told, kind: u8, body: &[u8]) -> Result<(), NoMemory> {
        match bytes::message(self.alloc, kind, body) {
            Some(message) => {
                let done = self.hear_message(told, &message);
                drop(message);
                done
            }
            None => told.unclear(),
        }
    }

    fn hear_message(&mut self, told: &mut Told, message: &Message) -> Result<(), NoMemory>
        requires { MessageKeepsRules message.now }
    {
        let step = self.consumer.on(message);
        self.did(told, step)
    }

    /// `quiet NUMBER`: nothing was heard of a purchase for long.
    pub fn quiet(&mut self, told: &mut Told, words: &[&str]) -> Result<(), NoMemory> {
        let [number] = words else {
            return told.unclear();
        };
        let step = self.consumer.quiet(nb_lines::number(*number));
        self.did(told, step)
    }

    /// `phase NUMBER`: how far a purchase has come.
    pub fn phase(&self, told: &mut Told, words: &[&str]) -> Result<(), NoMemory> {
        let [number] = words else {
            return told.unclear();
        };
        telling::phase(told, self.consumer.state(nb_lines::number(*number))).done()
    }

    /// `goods NUMBER`: the goods of a purchase, by their number of bytes and their digest.
    pub fn goods(&self, told: &mut Told, words: &[&str]) -> Result<(), NoMemory> {
        let [number] = words else {
            return told.unclear();
        };
        let goods = self.consumer.goods(nb_lines::number(*number))?;
        telling::goods(told, &goods).done()
    }

    /// `bytes`: the item that the last step kept, and the frame that it sent.
    pub fn bytes(&self, told: &mut Told) -> Result<(), NoMemory> {
        told.bytes("kept ", &self.kept)
            .bytes("\nsent ", &self.sent)
            .done()
    }

    /// `seal BYTES`: so many bytes of goods, which count up, are sealed for purchase 1. They are told by their number and their digest.
    pub fn seal(&mut self, told: &mut Told, words: &[&str]) -> Result<(), NoMemory> {
        let [len] = words else {
            return told.unclear();
        };
        let goods = bytes::counting(self.alloc, nb_lines::number(*len))?;
        self.goods = bytes::seal_up(self.alloc, &goods)?;
        told.bytes("", self.goods.as_slice()).done()
    }

    /// `part HEAD FROM TO BENT`: a part of these goods comes, under this sealed head, with the last bit of one of its bytes turned.
    pub fn part(&mut self, told: &mut Told, words: &[&str]) -> Result<(), NoMemory> {
        let [head, from, to, bent] = words else {
            return told.unclear();
        };
        let part = self.piece(*from, *to, *bent)?;
        let body = bytes::goods_body(self.alloc, &nb_lines::spelled(self.alloc, *head), &part)?;
        self.hear_body(told, 0x04, &body)
    }

    // The bytes of the sealed goods from one place to another.
    fn piece(&self, from: &str, to: &str, bent: &str) -> Result<Vec<u8>, NoMemory> {
        let (Ok(from), Ok(to)) = (from.parse::<usize>(), to.parse::<usize>()) else {
            return Ok(Vec::new(self.alloc));
        };
        let bent = bent.parse::<usize>().ok();
        bytes::piece(self.alloc, self.goods.as_slice(), from, to, bent)
    }
}
