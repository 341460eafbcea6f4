ghost use Rattle.std.specs.Prelude.{◌≡◌, ◌≤◌, ◌<◌, ◌-◌, length, IsTrue, IsErr, IfOk, Some};
ghost use Rattle.nb_play.specs.Drill.{frame_bytes};
ghost use Rattle.nb_play.specs.Feed.{Feed, IsAgain, count_of, whole};
ghost use Rattle.nb_play.specs.declared.frames.TheConstants.{MAX_ORDERS};
ghost use Rattle.nb_port.specs.Source.{ReadGives};

use crate::frames::{CONSUMERS, PARTIES, drill_frames, frame_count};
use nb_port::{ReadOut, Source};
use nb_units::{Blob, NoMemory};
use std::alloc::Global;
use std::marker::Model;

/// A source of all frames of a drill, one behind the other, from an allocator: a read for which there is no memory fails, and takes nothing.
#[derive(Drop)]
pub struct DrillSource {
    alloc: Global,
    seed: u64,
    orders: u32,
    // The frame that is being read, and how much of it was.
    frame: Blob,
    at: usize,
    // How many frames were made, with this one.
    made: u32,
    faults: u64,
}

impl Model for DrillSource {
    ghost use Rattle.std.specs.Prelude.{◌≡◌, ◌≤◌, ◌<◌, ◌-◌, ◌++◌, drop, length};
    ghost use Rattle.nb_play.specs.Drill.{frame_bytes};
    ghost use Rattle.nb_play.specs.Feed.{Feed, bytes_from, count_of};
    ghost use Rattle.nb_play.specs.declared.frames.TheConstants.{MAX_ORDERS};

    ghost Value = { Feed };

    ghost view = { λ s. record { left = drop s.at s.frame ++ bytes_from s.seed s.made (count_of s.orders - s.made); faults = s.faults } };

    ghost invariant = { λ s. record {
      few : s.orders ≤ MAX_ORDERS;
      within : s.at ≤ length s.frame;
      made : s.made ≤ count_of s.orders;
      last : 0 < s.made → s.frame ≡ frame_bytes s.seed (s.made - 1);
    } };
}

impl DrillSource {
    /// The frames of a drill with so many orders, at most [`MAX_ORDERS`](crate::MAX_ORDERS).
    pub fn new(alloc: Global, seed: u64, orders: u32) -> DrillSource
        requires { orders ≤ MAX_ORDERS }
        // What is left of the source are the bytes of all frames, one behind the other (`whole`), and no read failed.
        ensures { result ≡ whole seed orders }
    {
        DrillSource {
            alloc,
            seed,
            orders,
            frame: Blob::from_vec(Vec::new(alloc)),
            at: 0,
            made: 0,
            faults: 0,
        }
    }
}

// Makes the frame at a place out of the one before it: where it is an order's second one, that stays.
fn make_frame(
    alloc: Global,
    seed: u64,
    orders: u32,
    place: u32,
    frame: &mut Blob,
) -> Result<(), NoMemory>
    requires few { orders ≤ MAX_ORDERS }
    requires within { place < count_of orders }
    requires last { 0 < place → frame.old ≡ frame_bytes seed (place - 1) }
    ensures made { IfOk result (λ done. frame.new ≡ frame_bytes seed place) }
    ensures kept { IsErr result → frame.new ≡ frame.old }
{
    if !is_again(seed, place) {
        *frame = drill_frames(alloc, seed, orders, place)?;
    }
    Ok(())
}

// Whether the frame at a place is the second one of an order.
fn is_again(_seed: u64, place: u32) -> bool
    ensures { IsTrue result → IsAgain _seed place }
{
    PARTIES + CONSUMERS < place && (place - (PARTIES + CONSUMERS)) % 2 == 1
}

impl Source for DrillSource {
    ghost faults = { λ s. s.faults };

    ghost left = { λ s. Some s.left };

    fn read(&mut self, buf: &mut [u8]) -> ReadOut
        requires { 0 < length buf.old }
        ensures gives { ReadGives self.old.faults self.new.faults (Some self.old.left)
            (Some self.new.left) (length buf.old) buf.new result }
        ensures count { self.old.faults ≤ self.new.faults }
    {
        if self.at == self.frame.as_slice().len() {
            if self.made == frame_count(self.orders) {
                return ReadOut::End;
            }
            match make_frame(
                self.alloc,
                self.seed,
                self.orders,
                self.made,
                &mut self.frame,
            ) {
                Ok(()) => {}
                Err(NoMemory) => {
                    self.faults = self.faults.saturating_add(1);
                    return ReadOut::Failed;
                }
            }
            self.made += 1;
            self.at = 0;
        }
        let (_, left) = self.frame.as_slice().split_at(self.at);
        let n = left.len().min(buf.len());
        let (front, _) = left.split_at(n);
        buf[..n].copy_from_slice(front);
        self.at += n;
        ReadOut::Bytes(n)
    }
}
