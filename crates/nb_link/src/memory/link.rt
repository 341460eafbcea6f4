ghost use Rattle.std.specs.Prelude.{◌≡◌, ◌⊎◌, ◌<◌, ◌≤◌, ◌+◌, length, IfOk};
ghost use Rattle.nb_link.specs.Link.{LinkReads, LinkWrites};
ghost use Rattle.nb_link.specs.Memory.{new_link, link_told, IsNextToFail, LinkTakes, LinkSends};

use crate::link::{Link, Reading};
use crate::memory::plan::Plan;
use nb_port::{ReadOut, WriteOut};
use nb_units::NoMemory;
use std::alloc::Global;
use std::marker::Model;

/// A link whose peer sent given bytes and then no more, and takes all that is written. A call for whose bytes or record there is no
/// memory fails too.
pub struct MemLink {
    content: Vec<u8>,
    at: usize,
    step: usize,
    sent: Vec<u8>,
    reads: Vec<Reading>,
    calls: Plan,
    read_faults: u64,
    write_faults: u64,
}

impl Drop for MemLink {
    fn drop(self) {
        let Self {
            content: _,
            at: _,
            step: _,
            sent: _,
            reads: _,
            calls: _,
            read_faults: _,
            write_faults: _,
        } = self;
    }
}

impl Model for MemLink {
    ghost use Rattle.std.specs.Prelude.{◌≤◌, ◌<◌, ◌-◌, drop, vec_len, vec_capacity};
    ghost use Rattle.nb_link.specs.Memory.{LinkState};

    ghost Value = { LinkState };

    ghost view = { λ l. record {
      left = drop l.at l.content.items;
      step = l.step;
      sent = l.sent.items;
      reads = l.reads.items;
      spare_reads = vec_capacity l.reads - vec_len l.reads;
      spare = vec_capacity l.sent - vec_len l.sent;
      calls = l.calls;
      read_faults = l.read_faults;
      write_faults = l.write_faults;
    } };

    ghost invariant = { λ l. (l.at ≤ vec_len l.content) × (0 < l.step) };
}

impl MemLink {
    /// A link whose peer sent the bytes of `content`, of which a read gives at most `step`. `fails` has the numbers of the calls
    /// that are to fail, reads and writes counted together from 1.
    pub fn new(
        alloc: Global,
        content: &[u8],
        step: usize,
        fails: &[u64],
    ) -> Result<MemLink, NoMemory>
        requires { 0 < step }
        // After Ok these bytes are left, this step, nothing was sent or read, no call was made; reads and writes are counted together.
        ensures { IfOk result (λ link. link ≡ record (new_link content.now step fails.now) { spare_reads = link.spare_reads; spare = link.spare }) }
    {
        Ok(MemLink {
            content: Vec::from_slice(alloc, content)?,
            at: 0,
            step,
            sent: Vec::new(alloc),
            reads: Vec::new(alloc),
            calls: Plan::new(alloc, fails)?,
            read_faults: 0,
            write_faults: 0,
        })
    }

    /// What was sent to the peer.
    pub fn sent(&self) -> &[u8]
        ensures { result.now ≡ self.now.sent }
    {
        self.sent.as_slice()
    }

    /// The reads that gave bytes, the first one first.
    pub fn reads(&self) -> &[Reading]
        ensures { result.now ≡ self.now.reads }
    {
        self.reads.as_slice()
    }
}

impl Link for MemLink {
    ghost seen = { link_told };

    fn read(&mut self, buf: &mut [u8]) -> ReadOut
        requires { 0 < length buf.old }
        ensures reads { LinkReads (link_told self.old) (link_told self.new) (length buf.old) buf.new result }
        ensures fails { IsNextToFail self.old.calls → result ≡ ReadOut.Failed }
        // It fails only at a call that is to fail, or where there was no room to record a read.
        ensures only { result ≡ ReadOut.Failed → IsNextToFail self.old.calls ⊎ (self.old.spare_reads < 1) }
        ensures state { LinkTakes self.old self.new (length buf.old) result }
        ensures spare { self.old.spare_reads ≤ self.new.spare_reads + 1 }
    {
        if self.calls.next() {
            self.read_faults = self.read_faults.saturating_add(1);
            return ReadOut::Failed;
        }
        let left = self.content.len() - self.at;
        if left == 0 {
            return ReadOut::End;
        }
        if self.reads.reserve(1).is_err() {
            self.read_faults = self.read_faults.saturating_add(1);
            return ReadOut::Failed;
        }
        let n = left.min(self.step).min(buf.len());
        let (_, rest) = self.content.as_slice().split_at(self.at);
        let (front, _) = rest.split_at(n);
        buf[..n].copy_from_slice(front);
        self.at += n;
        self.reads.push_reserved(Reading {
            asked: buf.len(),
            given: n,
        });
        ReadOut::Bytes(n)
    }

    fn write(&mut self, piece: &[u8]) -> WriteOut
        requires { 0 < length piece.now }
        ensures writes { LinkWrites (link_told self.old) (link_told self.new) piece.now result }
        ensures fails { IsNextToFail self.old.calls → result ≡ WriteOut.Failed }
        // It fails only at a call that is to fail, or where the room was smaller than the piece.
        ensures only { result ≡ WriteOut.Failed → IsNextToFail self.old.calls ⊎ (self.old.spare < length piece.now) }
        ensures state { LinkSends self.old self.new piece.now result }
        ensures spare { self.old.spare ≤ self.new.spare + length piece.now }
    {
        if self.calls.next() {
            self.write_faults = self.write_faults.saturating_add(1);
            return WriteOut::Failed;
        }
        match self.sent.extend_from_slice(piece) {
            Ok(()) => WriteOut::Took(piece.len()),
            Err(_) => {
                self.write_faults = self.write_faults.saturating_add(1);
                WriteOut::Failed
            }
        }
    }
}
