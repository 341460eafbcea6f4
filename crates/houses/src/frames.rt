// The frames that come over one link, and what is sent back to it.

use crate::house::House;
use crate::telling;
use nb_frame::{Frames, MAX_PIECE};
use nb_lines::Told;
use nb_link::MemLink;
use nb_units::NoMemory;
use nb_wire::{Fetched, Sent, next_frame, send_behind};

// The most bytes of frames that are asked for.
const MOST: u64 = 1_000_000;

impl House {
    /// `frames STEP CALL..`: the frames of a link whose peer sent what was given to it, of which one read gives at most so many bytes, and of
    /// which these calls fail. The body of each is sent back as it comes.
    pub fn frames(&mut self, told: &mut Told, words: &[&str]) -> Result<(), NoMemory> {
        let [step, calls @ ..] = words else {
            return told.unclear();
        };
        let fails = nb_lines::numbers(told.alloc(), calls, 0)?;
        let mut link = self.next_link(*step, &fails)?;
        send_back(told, &mut link)?;
        told.bytes(": ", link.sent()).done()
    }
}

// Sends back the body of each frame, and tells how many came and the kind of the last one, why no more came, and how sending went.
fn send_back(told: &mut Told, link: &mut MemLink) -> Result<(), NoMemory> {
    let mut frames = Frames::new(told.alloc())?;
    let mut piece = [0u8; MAX_PIECE];
    let (mut last, mut sent) = (0, Sent::All);
    for count in 0..MOST {
        if frames.taken() > MOST {
            break;
        }
        match next_frame(link, &mut frames, &mut piece) {
            Fetched::Frame(f) => {
                last = f.kind;
                sent = send_behind(link, sent, frames.body(&f));
            }
            Fetched::End(end) => {
                told.show("", &count)
                    .show(" frames, the last of kind ", &last);
                telling::link_end(told.text("; "), end);
                return told.text("; ").text(telling::sent(sent)).done();
            }
        }
    }
    told.unclear()
}
