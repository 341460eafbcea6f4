// Scripts, read.

use crate::entries::in_words;
use crate::trial::Trial;
use crate::words::Words;
use nb_lines::Told;
use nb_script::{Act, Addressee, PlayFault, Script, read_script};
use nb_units::NoMemory;

impl Trial {
    /// `script HEX`: the content, and these bytes behind it, read as a script: its first bad line, or what it sets up and what happens, in words.
    pub fn of_script(&self, told: &mut Told, words: &[&str]) -> Result<(), NoMemory> {
        let mut text = self.content.clone()?;
        text.extend_from_slice(&Words::new(words).bytes(self.alloc))?;
        match read_script(self.alloc, &text) {
            Ok(script) => {
                set_up(told, &script);
                for act in &script.acts {
                    happens(told, act);
                }
                Ok(())
            }
            Err(PlayFault::BadLine { line }) => told.show("bad line ", &line).done(),
            Err(PlayFault::NoMemory) => Err(NoMemory),
        }
    }
}

// What is set up: the house, its entries, who buys and who sells, and what is sold.
fn set_up(told: &mut Told, script: &Script) {
    told.hex("house ", &script.head).show(" cap ", &script.cap);
    for entry in &script.entries {
        told.text("\n");
        in_words(told, entry);
    }
    for consumer in &script.consumers {
        told.show("\nconsumer ", &consumer.id.0)
            .show(" ", &consumer.acct.0)
            .show(" ", &consumer.nonce)
            .hex(" ", &consumer.key);
    }
    for merchant in &script.merchants {
        told.show("\nmerchant ", &merchant.id.0)
            .show(" ", &merchant.acct.0)
            .hex(" ", &merchant.key)
            .hex(" ", &merchant.master);
    }
    for shelf in &script.shelves {
        told.show("\nshelf ", &shelf.merchant.0)
            .show(" ", &shelf.product)
            .show(" ", &shelf.price.0)
            .show(" ", &shelf.length);
    }
}

// What happens, in words.
fn happens(told: &mut Told, act: &Act) {
    match act {
        Act::Clock { moment } => told.show("\nclock ", moment),
        Act::Deliver { packet } => told.show("\ndeliver ", packet),
        Act::Serve { packet } => told.show("\nserve ", packet),
        Act::Turn { call } => told.show("\nturn ", call),
        Act::Write { call } => told.show("\nwrite ", call),
        Act::Open { call } => told.show("\nopen ", call),
        Act::Answer { call } => told.show("\nanswer ", call),
        Act::Stop { with: true } => told.text("\nstop with"),
        Act::Stop { with: false } => told.text("\nstop without"),
        _ => {
            of_parties(told, act);
            told
        }
    };
}

// What happens to parties.
fn of_parties(told: &mut Told, act: &Act) {
    match act {
        Act::Buy {
            consumer,
            tid,
            merchant,
            product,
            limit,
        } => {
            told.show("\nbuy ", &consumer.0)
                .show(" ", tid)
                .show(" ", &merchant.0)
                .show(" ", product)
                .show(" ", &limit.0);
        }
        Act::QuietConsumer { consumer, tid } => {
            told.show("\nquiet consumer ", &consumer.0).show(" ", tid);
        }
        Act::QuietMerchant {
            merchant,
            consumer,
            tid,
        } => {
            told.show("\nquiet merchant ", &merchant.0)
                .show(" ", &consumer.0)
                .show(" ", tid);
        }
        Act::RestartConsumer { consumer } => {
            told.show("\nrestart consumer ", &consumer.0);
        }
        Act::RestartMerchant { merchant } => {
            told.show("\nrestart merchant ", &merchant.0);
        }
        Act::Inject { to, kind, body } => {
            match to {
                Addressee::Server => told.text("\ninject server"),
                Addressee::Consumer(id) => told.show("\ninject consumer ", &id.0),
                Addressee::Merchant(id) => told.show("\ninject merchant ", &id.0),
            };
            told.show(" ", kind).bytes_up_to(" ", body.as_slice(), 1000);
        }
        _ => {}
    }
}
