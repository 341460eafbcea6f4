use crate::kernel::Kernel;
use nb_lines::Told;
use nb_port::MemDisk;
use nb_units::NoMemory;
use std::alloc::Global;
use std::mem;

// The most times that a line gives bytes, and the most bytes of one read.
const MOST_TIMES: u64 = 10_000;

const MOST_READ: u64 = 65_536;

/// What the next run is given, and what the last one left.
#[derive(Drop)]
pub struct Trial {
    alloc: Global,
    // The bytes of a journal, and those that the disk of the next run begins with.
    journal: Vec<u8>,
    pub(crate) content: Vec<u8>,
    // What the source gives, and the most bytes of one read.
    pub(crate) input: Vec<u8>,
    pub(crate) step: usize,
    pub(crate) moments: Vec<u64>,
    // The numbers of the calls that fail.
    pub(crate) disk_fails: Vec<u64>,
    pub(crate) source_fails: Vec<u64>,
    pub(crate) sink_fails: Vec<u64>,
    // Whether a write to the sink takes one byte.
    pub(crate) slow: bool,
    // The file that runs go over in place of a disk in memory.
    pub(crate) kernel: Option<Kernel>,
    // The disk of the last run over one in memory, and the one that is held.
    pub(crate) left: Option<MemDisk>,
    pub(crate) held: Option<MemDisk>,
}

impl Trial {
    /// Nothing is given.
    pub fn new(alloc: Global) -> Trial {
        Trial {
            alloc,
            journal: Vec::new(alloc),
            content: Vec::new(alloc),
            input: Vec::new(alloc),
            step: 1,
            moments: Vec::new(alloc),
            disk_fails: Vec::new(alloc),
            source_fails: Vec::new(alloc),
            sink_fails: Vec::new(alloc),
            slow: false,
            kernel: None,
            left: None,
            held: None,
        }
    }

    /// Where memory comes from.
    pub fn alloc(&self) -> Global {
        self.alloc
    }

    /// `journal HEX`: the disks of the next runs begin with these bytes.
    pub fn journal(&mut self, told: &mut Told, words: &[&str]) -> Result<(), NoMemory> {
        if words.len() > 1 {
            return told.unclear();
        }
        let text = words.first().copied().unwrap_or("");
        self.journal = nb_lines::spelled(self.alloc, text);
        self.content = self.journal.clone()?;
        Ok(())
    }

    /// `cut LEN`: they begin with so many of the journal's bytes.
    pub fn cut(&mut self, len: &str) -> Result<(), NoMemory> {
        let len = nb_lines::number(len).min(self.journal.len() as u64) as usize;
        let (front, _) = self.journal.as_slice().split_at(len);
        self.content = Vec::from_slice(self.alloc, front)?;
        Ok(())
    }

    /// `again`: they begin with what the last run left.
    pub fn again(&mut self, told: &mut Told) -> Result<(), NoMemory> {
        match &self.left {
            Some(disk) => {
                self.content = Vec::from_slice(self.alloc, disk.content())?;
                Ok(())
            }
            None => told.unclear(),
        }
    }

    /// `hold`: the disk that the last run left is held from now on, for the images of it, and is the last run's no more.
    pub fn hold(&mut self) {
        let left = self.left.take();
        drop(mem::replace(&mut self.held, left));
    }

    /// `input COUNT HEX`: the sources of the next runs give these bytes so many times, and nothing where none stand there.
    pub fn input(&mut self, told: &mut Told, words: &[&str]) -> Result<(), NoMemory> {
        self.input.clear();
        match words {
            [] => Ok(()),
            _ => self.more(told, words),
        }
    }

    /// `more COUNT HEX`: behind what they give already they give these bytes so many times.
    pub fn more(&mut self, told: &mut Told, words: &[&str]) -> Result<(), NoMemory> {
        let [count, text] = words else {
            return told.unclear();
        };
        let bytes = nb_lines::spelled(self.alloc, *text);
        for _ in 0..nb_lines::number(*count).min(MOST_TIMES) {
            self.input.extend_from_slice(&bytes)?;
        }
        Ok(())
    }

    /// `step COUNT`: one read of them gives at most so many bytes.
    pub fn step(&mut self, step: &str) -> Result<(), NoMemory> {
        self.step = nb_lines::number(step).min(MOST_READ) as usize;
        Ok(())
    }

    /// `clock MOMENT..`: the clocks give these moments, and then the last one again.
    pub fn clock(&mut self, words: &[&str]) -> Result<(), NoMemory> {
        self.moments = nb_lines::numbers(self.alloc, words, 0)?;
        Ok(())
    }

    /// `fails WHAT CALL..`: these calls of the disk, the source or the sink fail.
    pub fn fails(&mut self, told: &mut Told, words: &[&str]) -> Result<(), NoMemory> {
        let [what, numbers @ ..] = words else {
            return told.unclear();
        };
        let calls = nb_lines::numbers(self.alloc, numbers, 0)?;
        match *what {
            "disk" => self.disk_fails = calls,
            "source" => self.source_fails = calls,
            "sink" => self.sink_fails = calls,
            _ => return told.unclear(),
        }
        Ok(())
    }

    /// `sink slow` or `sink whole`: a write to the sinks takes one byte, or all.
    pub fn sink(&mut self, told: &mut Told, how: &str) -> Result<(), NoMemory> {
        if how != "slow" && how != "whole" {
            return told.unclear();
        }
        self.slow = how == "slow";
        Ok(())
    }
}
