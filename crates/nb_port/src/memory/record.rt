ghost use Rattle.std.specs.Prelude.{◌≡◌, ◌<◌, ◌≤◌, ◌+◌, length, vec_len, vec_capacity, OnOk, OnErr, is_ok};
ghost use Rattle.nb_port.specs.Disk.{put_at};
ghost use Rattle.nb_port.specs.Images.{Quiet, Syncs, Writes, Lands, Settles, recorded};

use crate::memory::step::DiskStep;
use nb_units::{Blob, NoMemory};
use std::alloc::Global;

/// Records a call in which nothing changes.
pub fn record_pause(steps: &mut Vec<DiskStep>) -> Result<(), NoMemory>
    ensures steps { steps.new.items ≡ recorded (is_ok result) steps.old.items DiskStep.Pause DiskStep.Pause }
    ensures quiet { Quiet steps.old.items steps.new.items }
    ensures spare { vec_capacity steps.old + vec_len steps.new ≤ vec_capacity steps.new + vec_len steps.old + 2 }
    ensures full { OnErr result (vec_capacity steps.old < vec_len steps.old + 2) }
{
    record(steps, DiskStep::Pause, DiskStep::Pause)
}

/// Records a sync that is done.
pub fn record_sync(steps: &mut Vec<DiskStep>) -> Result<(), NoMemory>
    ensures steps { steps.new.items ≡ recorded (is_ok result) steps.old.items DiskStep.Pause DiskStep.Synced }
    ensures syncs { Syncs steps.old.items steps.new.items }
    ensures only { OnOk result (Settles steps.new.items) }
    ensures spare { vec_capacity steps.old + vec_len steps.new ≤ vec_capacity steps.new + vec_len steps.old + 2 }
    ensures full { OnErr result (vec_capacity steps.old < vec_len steps.old + 2) }
{
    record(steps, DiskStep::Pause, DiskStep::Synced)
}

/// Records a write that is done.
pub fn record_write(
    alloc: Global,
    steps: &mut Vec<DiskStep>,
    place: usize,
    piece: &[u8],
) -> Result<(), NoMemory>
    ensures steps { steps.new.items ≡ recorded (is_ok result) steps.old.items (DiskStep.Wrote place piece.now) DiskStep.Pause }
    ensures writes { Writes place (length piece.now) steps.old.items steps.new.items }
    ensures ok { OnOk result (Lands (λ old. put_at old place piece.now) steps.old.items steps.new.items) }
    ensures spare { vec_capacity steps.old + vec_len steps.new ≤ vec_capacity steps.new + vec_len steps.old + 2 }
{
    let bytes = Blob::of(alloc, piece)?;
    record(steps, DiskStep::Wrote { place, bytes }, DiskStep::Pause)
}

/// Records a write that failed.
pub fn record_tear(
    alloc: Global,
    steps: &mut Vec<DiskStep>,
    place: usize,
    piece: &[u8],
) -> Result<(), NoMemory>
    ensures steps { steps.new.items ≡ recorded (is_ok result) steps.old.items (DiskStep.Tore place piece.now) DiskStep.Pause }
    ensures writes { Writes place (length piece.now) steps.old.items steps.new.items }
    ensures content { Lands (λ old. old) steps.old.items steps.new.items }
    ensures spare { vec_capacity steps.old + vec_len steps.new ≤ vec_capacity steps.new + vec_len steps.old + 2 }
{
    let bytes = Blob::of(alloc, piece)?;
    record(steps, DiskStep::Tore { place, bytes }, DiskStep::Pause)
}

// Two more steps, or none where there is no memory for both.
fn record(steps: &mut Vec<DiskStep>, first: DiskStep, second: DiskStep) -> Result<(), NoMemory>
    ensures steps { steps.new.items ≡ recorded (is_ok result) steps.old.items first second }
    ensures spare { vec_capacity steps.old + vec_len steps.new ≤ vec_capacity steps.new + vec_len steps.old + 2 }
    ensures full { OnErr result (vec_capacity steps.old < vec_len steps.old + 2) }
{
    steps.reserve(2)?;
    steps.push(first).unwrap();
    steps.push(second).unwrap();
    Ok(())
}
