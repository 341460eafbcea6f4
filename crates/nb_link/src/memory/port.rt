ghost use Rattle.std.specs.Prelude.{◌≡◌, ◌≢◌, ◌↔◌, ◌<◌, ◌-◌, ◌^◌, [], ◌∷◌, ◌++◌, IfOk, length, vec_len};
ghost use Rattle.nb_link.specs.Port.{NextGives, TakesBack};
ghost use Rattle.nb_link.specs.Memory.{new_port, link_told, port_told, IsNextToFail, PortNexts};
ghost use Rattle.nb_link.specs.declared.port.PortOut.TheVariants as outs;

use crate::memory::link::MemLink;
use crate::memory::plan::Plan;
use crate::port::{Port, PortOut};
use nb_units::NoMemory;
use std::alloc::Global;
use std::marker::Model;

/// A port of given links.
pub struct MemPort {
    // The first one to come stands last.
    coming: Vec<MemLink>,
    taken: Vec<MemLink>,
    out: u32,
    listening: bool,
    calls: Plan,
    faults: u64,
}

impl Drop for MemPort {
    fn drop(self) {
        let Self {
            coming: _,
            taken: _,
            out: _,
            listening: _,
            calls: _,
            faults: _,
        } = self;
    }
}

impl Model for MemPort {
    ghost use Rattle.std.specs.Prelude.{◌≡◌, ◌≤◌, ◌<◌, ◌+◌, ◌^◌, reverse, vec_len, vec_capacity};
    ghost use Rattle.nb_link.specs.Memory.{PortState, has_links};

    ghost Value = { PortState };

    ghost view = { λ p. record {
      coming = reverse p.coming.items;
      taken = p.taken.items;
      out = p.out;
      listening = p.listening;
      calls = p.calls;
      faults = p.faults;
    } };

    ghost invariant = { λ p. record {
      few : p.out + vec_len p.coming < 2 ^ 32;
      room : p.out + (vec_len p.coming + vec_len p.taken) ≤ vec_capacity p.taken;
      listens : p.listening ≡ has_links (reverse p.coming.items);
    } };
}

impl MemPort {
    /// A port that gives `links`, the first one first; they are fewer than 2^32. `fails` has the numbers of the calls of `next`
    /// that are to fail, counted from 1; one that is Closed is not counted.
    pub fn new(alloc: Global, links: Vec<MemLink>, fails: &[u64]) -> Result<MemPort, NoMemory>
        requires { vec_len links < 2 ^ 32 }
        // After Ok these links are to come, none is out or was taken back, no call was made; it listens where there is a link.
        ensures { IfOk result (λ port. port ≡ new_port links.items fails.now) }
    {
        let mut coming = links;
        coming.as_mut_slice().reverse();
        Ok(MemPort {
            taken: Vec::with_capacity(alloc, coming.len())?,
            listening: !coming.is_empty(),
            coming,
            out: 0,
            calls: Plan::new(alloc, fails)?,
            faults: 0,
        })
    }

    /// The links that were taken back, the first one first.
    pub fn done(&self) -> &[MemLink]
        ensures { result.now ≡ self.now.taken }
    {
        self.taken.as_slice()
    }
}

impl Port for MemPort {
    type Joined = MemLink;

    ghost seen = { port_told };

    fn left(&self) -> u32
        ensures { result ≡ length self.now.coming }
    {
        self.coming.len() as u32
    }

    fn next(&mut self) -> PortOut<MemLink>
        ensures gives { NextGives link_told (port_told self.old) (port_told self.new) result }
        // Where a link is to come it fails exactly where it is one of the calls that are to fail; one that is Closed is not counted.
        ensures fails { self.old.coming ≢ [] → ((result ≡ outs.Failed) ↔ IsNextToFail self.old.calls) }
        ensures state { PortNexts self.old self.new result }
    {
        if self.coming.is_empty() {
            return PortOut::Closed;
        }
        if self.calls.next() {
            self.faults = self.faults.saturating_add(1);
            return PortOut::Failed;
        }
        match self.coming.pop() {
            Some(link) => {
                self.listening = !self.coming.is_empty();
                self.out += 1;
                PortOut::Got(link)
            }
            None => PortOut::Closed,
        }
    }

    fn back(&mut self, link: MemLink)
        requires { 0 < self.old.out }
        ensures takes { TakesBack (port_told self.old) (port_told self.new) (link_told link) }
        // The link is the last of those taken back, one less is out, and nothing else changed.
        ensures state { self.new ≡ record self.old { taken = self.old.taken ++ link ∷ []; out = self.old.out - 1 } }
    {
        self.out -= 1;
        self.taken.push_reserved(link);
    }
}
