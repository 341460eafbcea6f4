// A disk in memory, call by call, and what a stop leaves of it.

use crate::quiet::QuietDisk;
use crate::trial::Trial;
use nb_lines::Told;
use nb_port::{Disk, DiskOut, DiskRead, MemDisk};
use nb_units::NoMemory;

// The most bytes that a call reads or writes.
const MOST: usize = 1000;

// What a buffer holds before it is read to.
const BEFORE: u8 = b'#';

impl Trial {
    /// `disk CALL..`: a disk that holds the content, and of which the calls of `fails` fail, goes through these calls: `sync`, `PLACE+HEX`, which
    /// writes bytes, and `PLACE?COUNT`, which reads so many. It prints what each gave and what the disk has then. `images MOMENT FILL..`: what a
    /// stop at a moment leaves of it.
    pub fn of_disk(&mut self, told: &mut Told, word: &str, words: &[&str]) -> Result<(), NoMemory> {
        if word == "images" {
            return self.images(told, words);
        }
        self.disk = Some(QuietDisk::over(MemDisk::new(self.alloc, &self.content, &self.fails)?));
        match &mut self.disk {
            Some(disk) => calls(told, disk, words),
            None => Ok(()),
        }
    }

    fn images(&self, told: &mut Told, words: &[&str]) -> Result<(), NoMemory> {
        match (&self.disk, words) {
            (Some(quiet), [moment, fills @ ..]) => {
                images(told, &quiet.disk, nb_lines::number(*moment), fills)
            }
            _ => told.unclear(),
        }
    }
}

fn images(told: &mut Told, disk: &MemDisk, moment: u64, fills: &[&str]) -> Result<(), NoMemory> {
    told.show("", &moment).text(":");
    for fill in fills {
        match nb_lines::image(told.alloc(), disk, moment, *fill)? {
            Some(image) => told.bytes(" ", image.as_slice()),
            None => told.text(" none"),
        };
    }
    Ok(())
}

// Calls of the disk, and what it has then.
fn calls(told: &mut Told, disk: &mut QuietDisk, words: &[&str]) -> Result<(), NoMemory> {
    for word in words {
        call(told, disk, *word)?;
        told.text(", ");
    }
    told.show("", &disk.disk.calls())
        .show(" calls, ", &disk.fault_count())
        .bytes(" failed; ", disk.disk.content());
    Ok(())
}

// A call of the disk, and what it gave.
fn call(told: &mut Told, disk: &mut QuietDisk, word: &str) -> Result<(), NoMemory> {
    if word == "sync" {
        out(told, disk.sync());
        return Ok(());
    }
    if let Some((place, bytes)) = word.split_once('+') {
        return written(told, disk, place, &nb_lines::spelled(told.alloc(), bytes));
    }
    match word.split_once('?') {
        Some((place, count)) => read(told, disk, place, count),
        None => told.unclear(),
    }
}

fn written(
    told: &mut Told,
    disk: &mut QuietDisk,
    place: &str,
    bytes: &[u8],
) -> Result<(), NoMemory> {
    if bytes.len() > MOST {
        return told.unclear();
    }
    let place = place.parse::<u32>().unwrap_or(0);
    out(told, disk.write(u64::from(place), bytes));
    Ok(())
}

fn out(told: &mut Told, out: DiskOut) {
    told.text(match out {
        DiskOut::Done => "done",
        DiskOut::Failed => "failed",
    });
}

fn read(told: &mut Told, disk: &mut QuietDisk, place: &str, count: &str) -> Result<(), NoMemory> {
    let count = (nb_lines::number(count) as usize).min(MOST);
    let mut buffer = vec![in told.alloc(); BEFORE; count]?;
    match disk.read(nb_lines::number(place), &mut buffer) {
        DiskRead::Got(n) => told.show("", &n).bytes(": ", &buffer),
        DiskRead::Failed => told.text("failed"),
    };
    Ok(())
}
