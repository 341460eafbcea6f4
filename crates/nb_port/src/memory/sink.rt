ghost use Rattle.std.specs.Prelude.{◌≡◌, ◌⊎◌, ◌<◌, ◌≤◌, ◌+◌, ◌-◌, [], Some, length, vec_len, vec_capacity, IfOk};
ghost use Rattle.nb_port.specs.Calls.{no_calls, NextFails};
ghost use Rattle.nb_port.specs.Memory.{SinkWrites};
ghost use Rattle.nb_port.specs.Sink.{WriteGives};

use crate::memory::counter::Counter;
use crate::sink::{Sink, WriteOut};
use nb_units::NoMemory;
use std::alloc::Global;
use std::marker::Model;

/// A sink that keeps what is sent. A write for which there is no memory fails too.
pub struct MemSink {
    sent: Vec<u8>,
    calls: Counter,
}

impl Drop for MemSink {
    fn drop(self) {
        let Self { sent: _, calls: _ } = self;
    }
}

impl Model for MemSink {
    ghost use Rattle.std.specs.Prelude.{◌-◌, vec_len, vec_capacity};
    ghost use Rattle.nb_port.specs.Memory.{SinkState};

    ghost Value = { SinkState };

    ghost view = { λ s. record {
      sent = s.sent.items;
      spare = vec_capacity s.sent - vec_len s.sent;
      calls = s.calls;
    } };
}

impl MemSink {
    /// A sink to which nothing was sent. `fails` has the numbers of the calls that are to fail.
    pub fn new(alloc: Global, fails: &[u64]) -> Result<MemSink, NoMemory>
        ensures sent { IfOk result (λ sink. sink.sent ≡ []) }
        ensures calls { IfOk result (λ sink. sink.calls ≡ no_calls fails.now) }
    {
        Ok(MemSink {
            sent: Vec::new(alloc),
            calls: Counter::new(alloc, fails)?,
        })
    }

    /// What was sent.
    pub fn sent(&self) -> &[u8]
        ensures { result.now ≡ self.now.sent }
    {
        self.sent.as_slice()
    }
}

impl Sink for MemSink {
    ghost faults = { λ s. s.calls.faults };

    ghost sent = { λ s. Some s.sent };

    fn write(&mut self, piece: &[u8]) -> WriteOut
        requires { 0 < length piece.now }
        ensures gives { WriteGives self.old.calls.faults self.new.calls.faults (Some self.old.sent)
            (Some self.new.sent) piece.now result }
        ensures count { self.old.calls.faults ≤ self.new.calls.faults }
        ensures fails { NextFails self.old.calls → result ≡ WriteOut.Failed }
        // It fails only at a call that is to fail, or where the room was smaller than the piece.
        ensures only { result ≡ WriteOut.Failed →
            NextFails self.old.calls ⊎ (self.old.spare < length piece.now) }
        ensures state { SinkWrites self.old self.new piece.now result }
        ensures spare { self.old.spare ≤ self.new.spare + length piece.now }
    {
        if self.calls.next() {
            return WriteOut::Failed;
        }
        match self.sent.extend_from_slice(piece) {
            Ok(()) => WriteOut::Took(piece.len()),
            Err(_) => {
                self.calls.fail();
                WriteOut::Failed
            }
        }
    }
}
