// A run of the program.

use crate::kernel::Kernel;
use crate::ports::{CountedSource, PacedSink};
use crate::telling::{self, SHOWN};
use crate::trial::Trial;
use nb_commands::Outcome;
use nb_lines::Told;
use nb_port::{Disk, MemClock, MemDisk, MemSink, MemSource};
use nb_run::run;
use nb_system::FileDisk;
use nb_units::NoMemory;
use std::alloc::Global;
use std::mem;

// What a run reads from, writes to and asks for the time.
#[derive(Drop)]
struct Ports {
    source: CountedSource,
    sink: PacedSink,
    clock: MemClock,
}

impl Trial {
    /// `run WORD..`: how the program ends on these words, how often the source is read, and what is sent.
    pub fn run(&mut self, told: &mut Told, words: &[&str]) -> Result<(), NoMemory> {
        let alloc = self.alloc();
        let words = telling::words(alloc, words)?;
        let mut ports = self.ports()?;
        let outcome = match self.kernel.take() {
            Some(kernel) => self.outcome_over(&words, &mut ports, kernel),
            None => self.outcome_in_memory(&words, &mut ports)?,
        };
        tell(told, outcome, &ports);
        Ok(())
    }

    // What the program comes to over a file, which is kept.
    fn outcome_over(&mut self, words: &[String], ports: &mut Ports, kernel: Kernel) -> Outcome {
        let (outcome, disk) = outcome_on(self.alloc(), words, ports, FileDisk::of(kernel));
        self.kernel = Some(disk.into_file());
        outcome
    }

    // What it comes to over a disk in memory, which is left.
    fn outcome_in_memory(
        &mut self,
        words: &[String],
        ports: &mut Ports,
    ) -> Result<Outcome, NoMemory> {
        let disk = MemDisk::new(self.alloc(), &self.content, &self.disk_fails)?;
        let (outcome, disk) = outcome_on(self.alloc(), words, ports, disk);
        drop(mem::replace(&mut self.left, Some(disk)));
        Ok(outcome)
    }

    fn ports(&self) -> Result<Ports, NoMemory> {
        let alloc = self.alloc();
        let from = MemSource::new(alloc, &self.input, self.step.max(1), &self.source_fails)?;
        let to = MemSink::new(alloc, &self.sink_fails)?;
        let clock = MemClock::new(alloc, &self.moments)?;
        let slow = self.slow;
        Ok(Ports {
            source: CountedSource { from, reads: 0 },
            sink: PacedSink { to, slow },
            clock,
        })
    }
}

// What the program comes to on these words over a disk.
fn outcome_on<D: Disk + Drop>(
    alloc: Global,
    words: &[String],
    ports: &mut Ports,
    disk: D,
) -> (Outcome, D) {
    run(
        alloc,
        words,
        &mut ports.source,
        &mut ports.sink,
        disk,
        &mut ports.clock,
    )
}

fn tell(told: &mut Told, outcome: Outcome, ports: &Ports) {
    telling::outcome(told, outcome);
    told.show(", ", &ports.source.reads)
        .bytes_up_to(" reads: ", ports.sink.to.sent(), SHOWN);
}
