ghost use Rattle.std.specs.Prelude.{◌≡◌, ◌↔◌, ◌<◌, ◌≤◌, Some, length, drop, IfOk};
ghost use Rattle.nb_port.specs.Calls.{no_calls, NextFails};
ghost use Rattle.nb_port.specs.Memory.{SourceReads};
ghost use Rattle.nb_port.specs.Source.{ReadGives};

use crate::memory::counter::Counter;
use crate::source::{ReadOut, Source};
use nb_units::NoMemory;
use std::alloc::Global;
use std::marker::Model;

/// A source of given bytes.
pub struct MemSource {
    content: Vec<u8>,
    at: usize,
    step: usize,
    calls: Counter,
}

impl Drop for MemSource {
    fn drop(self) {
        let Self {
            content: _,
            at: _,
            step: _,
            calls: _,
        } = self;
    }
}

impl Model for MemSource {
    ghost use Rattle.std.specs.Prelude.{◌≤◌, ◌<◌, drop, vec_len};
    ghost use Rattle.nb_port.specs.Memory.{SourceState};

    ghost Value = { SourceState };

    ghost view = { λ s. record { left = drop s.at s.content.items; step = s.step; calls = s.calls } };

    ghost invariant = { λ s. (s.at ≤ vec_len s.content) × (0 < s.step) };
}

impl MemSource {
    /// A source of the bytes of `content`, of which a read gives at most `step`. `fails` has the numbers
    /// of the calls that are to fail.
    pub fn new(
        alloc: Global,
        content: &[u8],
        step: usize,
        fails: &[u64],
    ) -> Result<MemSource, NoMemory>
        requires { 0 < step }
        // After Ok these bytes are left, this step, no call was made.
        ensures { IfOk result (λ source. source ≡
            record { left = content.now; step = step; calls = no_calls fails.now }) }
    {
        Ok(MemSource {
            content: Vec::from_slice(alloc, content)?,
            at: 0,
            step,
            calls: Counter::new(alloc, fails)?,
        })
    }
}

impl Source for MemSource {
    ghost faults = { λ s. s.calls.faults };

    ghost left = { λ s. Some s.left };

    fn read(&mut self, buf: &mut [u8]) -> ReadOut
        requires { 0 < length buf.old }
        ensures gives { ReadGives self.old.calls.faults self.new.calls.faults (Some self.old.left)
            (Some self.new.left) (length buf.old) buf.new result }
        ensures count { self.old.calls.faults ≤ self.new.calls.faults }
        ensures fails { (result ≡ ReadOut.Failed) ↔ NextFails self.old.calls }
        ensures state { SourceReads self.old self.new (length buf.old) result }
    {
        if self.calls.next() {
            return ReadOut::Failed;
        }
        let left = self.content.len() - self.at;
        if left == 0 {
            return ReadOut::End;
        }
        let n = left.min(self.step).min(buf.len());
        let (_, rest) = self.content.as_slice().split_at(self.at);
        let (front, _) = rest.split_at(n);
        buf[..n].copy_from_slice(front);
        self.at += n;
        ReadOut::Bytes(n)
    }
}
