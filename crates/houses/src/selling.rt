// A job of selling, from its stall to its status.

ghost use Rattle.std.specs.Prelude.{◌≡◌, vec_len};

use crate::house::House;
use nb_commands::Job;
use nb_groups::{OFFERS_BYTES, Offers};
use nb_lines::Told;
use nb_link::{MemLink, MemPort, OpenGate, Port};
use nb_port::{MemClock, MemDisk, MemSink};
use nb_price::{Catalogue, MAX_SHELF};
use nb_server::Worker;
use nb_units::NoMemory;
use nb_work::{Dials, Worked, work};
use std::alloc::Global;
use std::mem;
use std::sync::Wait;
use std::thread::Threads;

impl House {
    /// `shelf HEX`: the next stalls sell what this shelf has.
    pub fn shelf(&mut self, told: &mut Told, words: &[&str]) -> Result<(), NoMemory> {
        if words.len() > 1 {
            return told.unclear();
        }
        self.shelf = nb_lines::spelled(self.alloc, words.first().copied().unwrap_or(""));
        Ok(())
    }

    /// `offers HEX`: they do so with these offers for groups; with none where nothing stands there.
    pub fn offers(&mut self, told: &mut Told, words: &[&str]) -> Result<(), NoMemory> {
        if words.len() > 1 {
            return told.unclear();
        }
        self.offers = nb_lines::spelled(self.alloc, words.first().copied().unwrap_or(""));
        Ok(())
    }

    /// `server STEP CALL..`: the house of the next job sends what was said, of which one read gives at most so many bytes; these calls of its link fail.
    pub fn server(&mut self, told: &mut Told, words: &[&str]) -> Result<(), NoMemory> {
        let [step, calls @ ..] = words else {
            return told.unclear();
        };
        let fails = nb_lines::numbers(self.alloc, calls, 0)?;
        let link = self.next_link(*step, &fails)?;
        drop(mem::replace(&mut self.server, Some(link)));
        Ok(())
    }

    /// `sell`: the job of one who sells on the links of the one worker, from the stall on the disk, with the shelf, the offers and the house's link: its status and its place,
    /// how many links are left, what the disk has then, and what was sent to the house and over each link.
    pub fn sell<R: Threads + Wait + Sync>(
        &mut self,
        rt: &R,
        told: &mut Told,
        words: &[&str],
    ) -> Result<(), NoMemory> {
        let workers = mem::replace(&mut self.workers, Vec::new(self.alloc));
        let server = mem::replace(&mut self.server, None);
        if self.shelf.len() > MAX_SHELF || self.offers.len() > OFFERS_BYTES {
            return told.unclear();
        }
        let offers = match Offers::read(self.alloc, &self.offers) {
            Ok(offers) => Some(offers),
            Err(_) => None,
        };
        if offers.is_none() && !self.offers.is_empty() {
            return told.unclear();
        }
        let (Some(server), Ok(shelf)) = (server, Catalogue::read(self.alloc, &self.shelf)) else {
            return told.unclear();
        };
        if !words.is_empty() || workers.len() != 1 {
            return told.unclear();
        }
        let worked = sold(rt, self.alloc, self.disk()?, workers, server, shelf, offers)?;
        tell(told, &worked);
        Ok(())
    }
}

fn sold<R: Threads + Wait + Sync>(
    rt: &R,
    alloc: Global,
    disk: MemDisk,
    workers: Vec<Worker<MemPort, MemClock>>,
    server: MemLink,
    shelf: Catalogue,
    offers: Option<Offers>,
) -> Result<Worked<MemDisk, MemPort, MemLink, MemClock>, NoMemory>
    requires { vec_len workers ≡ 1 }
{
    let mut sink = MemSink::new(alloc, &[])?;
    let dials = Dials {
        server: Some(server),
        seller: None,
    };
    let job = Job::Sell {
        links: 1,
        shelf,
        offers,
    };
    Ok(work(rt, alloc, job, disk, workers, dials, &OpenGate, &mut sink))
}

fn tell(told: &mut Told, worked: &Worked<MemDisk, MemPort, MemLink, MemClock>) {
    told.show("status ", &worked.ending.status)
        .show(" at ", &worked.ending.place)
        .bytes("\nstall: ", worked.disk.content());
    if let Some(server) = &worked.dials.server {
        told.bytes("\nto the house: ", server.sent());
    }
    for worker in &worked.workers {
        told.show("\nto consumers, ", &worker.port.left())
            .text(" left:");
        for link in worker.port.done() {
            told.bytes(" ", link.sent());
        }
    }
}
