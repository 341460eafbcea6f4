// What a drill draws and sends.

use crate::telling;
use nb_lines::Told;
use nb_play::{MAX_ORDERS, draw, drill_frames, drill_head, frame_count, number_at};
use nb_units::NoMemory;

/// `number SEED PLACE`: a number of the generator.
pub fn number(told: &mut Told, words: &[&str]) -> Result<(), NoMemory> {
    let [seed, place] = words else {
        return told.unclear();
    };
    let number = number_at(nb_lines::number(*seed), nb_lines::number(*place));
    told.show("", &number).done()
}

/// `draw SEED PLACE`: a draw.
pub fn drawn(told: &mut Told, words: &[&str]) -> Result<(), NoMemory> {
    let [seed, place] = words else {
        return told.unclear();
    };
    let drawn = draw(nb_lines::number(*seed), u64::from(telling::short(*place)));
    told.show("", &drawn).done()
}

/// `drill-head SEED`: the head of a drill's house.
pub fn head(told: &mut Told, words: &[&str]) -> Result<(), NoMemory> {
    let [seed] = words else {
        return told.unclear();
    };
    told.bytes("", &drill_head(nb_lines::number(*seed))).done()
}

/// `drill-frame SEED ORDERS PLACE`: a frame of a drill with so many orders.
pub fn frame(told: &mut Told, words: &[&str]) -> Result<(), NoMemory> {
    let alloc = told.alloc();
    let [seed, orders, place] = words else {
        return told.unclear();
    };
    let (orders, place) = (telling::short(*orders), telling::short(*place));
    if orders > MAX_ORDERS || place >= frame_count(orders) {
        return told.unclear();
    }
    let frame = drill_frames(alloc, nb_lines::number(*seed), orders, place)?;
    told.bytes("", frame.as_slice()).done()
}

/// `drill SEED ORDERS`: how many bytes all frames of a drill with so many orders have, and their digest.
pub fn whole(told: &mut Told, words: &[&str]) -> Result<(), NoMemory> {
    let alloc = told.alloc();
    let [seed, orders] = words else {
        return told.unclear();
    };
    let (seed, orders) = (nb_lines::number(*seed), telling::short(*orders));
    if orders > MAX_ORDERS {
        return told.unclear();
    }
    let mut frames = Vec::new(alloc);
    for place in 0..frame_count(orders) {
        let frame = drill_frames(alloc, seed, orders, place)?;
        frames.extend_from_slice(frame.as_slice())?;
    }
    told.bytes_up_to("", &frames, 0).done()
}
