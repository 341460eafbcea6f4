ghost use Rattle.std.specs.Prelude.{◌≡◌, ◌≤◌, ◌+◌, IfOk, OnOk, IsOk, length, vec_len, vec_capacity, is_ok, if◌then◌else◌};
ghost use Rattle.nb_port.specs.Disk.{put_at};
ghost use Rattle.nb_port.specs.Images.{image_from, filled};

use crate::memory::fill::Fill;
use crate::memory::step::DiskStep;
use nb_units::NoMemory;
use std::alloc::Global;

/// The image that `fill` gives after the steps.
pub fn replay(
    alloc: Global,
    start: &[u8],
    steps: &[DiskStep],
    fill: Fill,
) -> Result<Vec<u8>, NoMemory>
    ensures { IfOk result (λ image. image.items ≡ image_from fill start.now start.now steps.now) }
{
    let mut content = Vec::from_slice(alloc, start)?;
    let mut image = Vec::from_slice(alloc, start)?;
    for step in steps.iter() {
        match step {
            DiskStep::Pause => {}
            DiskStep::Wrote { place, bytes } => {
                put(&mut content, *place, bytes.as_slice())?;
                put_filled(alloc, &mut image, *place, bytes.as_slice(), fill)?;
            }
            DiskStep::Tore { place, bytes } => {
                put_filled(alloc, &mut image, *place, bytes.as_slice(), fill)?;
            }
            DiskStep::Synced => {
                image = Vec::from_slice(alloc, content.as_slice())?;
            }
        }
    }
    Ok(image)
}

// Puts what `fill` leaves of a write of the piece.
fn put_filled(
    alloc: Global,
    image: &mut Vec<u8>,
    place: usize,
    piece: &[u8],
    fill: Fill,
) -> Result<(), NoMemory>
    ensures { OnOk result (image.new.items ≡ filled fill image.old.items place piece.now) }
{
    match fill {
        Fill::Old => Ok(()),
        Fill::New => put(image, place, piece),
        Fill::Byte(byte) => {
            let mut same = Vec::new(alloc);
            same.resize(piece.len(), byte)?;
            put(image, place, same.as_slice())
        }
    }
}

/// Puts the piece at the place: over what stands there, and past the end. Without memory for that nothing changes.
pub fn put(bytes: &mut Vec<u8>, place: usize, piece: &[u8]) -> Result<(), NoMemory>
    ensures items { bytes.new.items ≡ (if is_ok result then put_at bytes.old.items place piece.now else bytes.old.items) }
    ensures room { vec_len bytes.old + length piece.now ≤ vec_capacity bytes.old → IsOk result }
{
    let at = place.min(bytes.len());
    let (over, behind) = piece.split_at(piece.len().min(bytes.len() - at));
    bytes.extend_from_slice(behind)?;
    write_over(bytes.as_mut_slice(), at, over);
    Ok(())
}

// Puts the piece at the place, within the bytes that are there.
#[tactic(auto, unfolding(crate::specs::Disk::put_at))]
fn write_over(bytes: &mut [u8], place: usize, piece: &[u8])
    requires { place + length piece.now ≤ length bytes.old }
    ensures value { bytes.new ≡ put_at bytes.old place piece.now }
    ensures len { length bytes.new ≡ length bytes.old }
{
    bytes[place..place + piece.len()].copy_from_slice(piece);
}
