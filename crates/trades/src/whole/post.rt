// The frames of a purchase that are under way.

use crate::whole::parties::{Frame, Parties, began, deliver, is_done, waited};
use nb_units::NoMemory;
use std::alloc::Global;
use std::collections::VecDeque;

// The most times that something is given or waited for.
const MOST: u32 = 200;

// Some of the frames of a purchase, by their numbers from 1 on.
#[derive(Clone, Copy)]
pub(crate) enum Which {
    None,
    One(u32),
    Each,
}

// Whether the frame of this number is one of them, where of each only those are that this says.
fn hits(which: Which, number: u32, each: bool) -> bool {
    match which {
        Which::None => false,
        Which::One(one) => one == number,
        Which::Each => each,
    }
}

// What is under way, what was lost, how many frames there were, and which are lost and given twice.
#[derive(Drop)]
struct Post {
    under_way: VecDeque<Frame>,
    lost: Vec<Frame>,
    frames: u32,
    losing: Which,
    doubling: Which,
}

fn send(post: &mut Post, frame: Option<Frame>) -> Result<(), NoMemory> {
    if let Some(frame) = frame {
        post.under_way.push_back(frame)?;
    }
    Ok(())
}

// Nothing was lost that has these bytes.
fn is_new(lost: &[Frame], frame: &Frame) -> bool {
    for other in lost {
        if other.bytes.as_slice() == frame.bytes.as_slice() {
            return false;
        }
    }
    true
}

// How often this frame is given, which is the last that there was.
fn times(post: &Post, frame: &Frame) -> u32 {
    if hits(post.losing, post.frames, is_new(&post.lost, frame)) {
        return 0;
    }
    if hits(post.doubling, post.frames, true) {
        2
    } else {
        1
    }
}

// Gives a frame: what is sent then is under way.
fn give(
    alloc: Global,
    parties: &mut Parties,
    post: &mut Post,
    frame: Frame,
) -> Result<(), NoMemory> {
    post.frames = post.frames.saturating_add(1);
    let times = times(post, &frame);
    for _ in 0..times {
        let sent = deliver(alloc, parties, &frame)?;
        send(post, sent)?;
    }
    if times == 0 {
        post.lost.push(frame)?;
    }
    Ok(())
}

// A purchase begins; then what is under way is given, in order, until nothing is left and it is done. It answers how many frames that took, or nothing
// where it does not end.
pub(crate) fn run(
    alloc: Global,
    parties: &mut Parties,
    losing: Which,
    doubling: Which,
) -> Result<Option<u32>, NoMemory> {
    let mut post = Post {
        under_way: VecDeque::new(alloc),
        lost: Vec::new(alloc),
        frames: 0,
        losing,
        doubling,
    };
    let frames = run_by(alloc, parties, &mut post);
    drop(post);
    frames
}

fn run_by(alloc: Global, parties: &mut Parties, post: &mut Post) -> Result<Option<u32>, NoMemory> {
    let first = began(alloc, &mut parties.consumer)?;
    send(post, first)?;
    for _ in 0..MOST {
        if let Some(frame) = post.under_way.pop_front() {
            give(alloc, parties, post, frame)?;
        } else if is_done(parties) {
            return Ok(Some(post.frames));
        } else {
            let again = waited(alloc, parties)?;
            send(post, again)?;
        }
    }
    Ok(None)
}
