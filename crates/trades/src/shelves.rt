//! What shelves tell.

use nb_lines::Told;
use nb_price::{Catalogue, MAX_SHELF, PutFault, ShelfFault};
use nb_units::{NoMemory, Price};
use std::alloc::Global;

/// `catalogue SHELF NUMBER..`: a shelf is read, which these bytes are in hexadecimal. It tells its fault, or the price and the goods of each product
/// of these numbers, and what a copy of the catalogue tells of them.
pub(crate) fn catalogue(told: &mut Told, words: &[&str]) -> Result<(), NoMemory> {
    let [shelf, numbers @ ..] = words else {
        return told.unclear();
    };
    let shelf = nb_lines::spelled(told.alloc(), *shelf);
    match read(told.alloc(), &shelf) {
        Ok(catalogue) => both(told, &catalogue, numbers),
        Err(why) => fault(told, why),
    }
}

/// `puts NUMBER PRICE GOODS..`: products are put into a catalogue one after the other, their goods in hexadecimal. It tells what came of each, and
/// what the catalogue then has of its number.
pub(crate) fn puts(told: &mut Told, words: &[&str]) -> Result<(), NoMemory> {
    let mut catalogue = Catalogue::new(told.alloc());
    for words in words.chunks(3) {
        if let [number, price, goods] = words {
            let goods = nb_lines::spelled(told.alloc(), *goods);
            put(
                told,
                &mut catalogue,
                *number,
                nb_lines::number(*price),
                goods,
            );
        }
    }
    told.done()
}

fn put(told: &mut Told, catalogue: &mut Catalogue, number: &str, price: u64, goods: Vec<u8>) {
    let id = number.parse::<u32>().unwrap_or(0);
    let put = catalogue.put(id, Price(price), goods);
    told.text(came_of(put)).text(":");
    product(told, catalogue, number);
    told.text(" ");
}

// What came of a product that was put into a catalogue, in words.
fn came_of(put: Result<(), PutFault>) -> &'static str {
    match put {
        Ok(()) => "put",
        Err(PutFault::BadPrice { .. }) => "bad price",
        Err(PutFault::TooLong { .. }) => "too long",
        Err(PutFault::Taken { .. }) => "taken",
        Err(PutFault::NoMemory) => "no memory",
    }
}

/// `shortage`: what is told where there is no memory for a shelf's goods.
pub(crate) fn shortage(told: &mut Told) -> Result<(), NoMemory> {
    fault(told, ShelfFault::NoMemory)
}

// The catalogue of a shelf.
pub(crate) fn read(alloc: Global, shelf: &[u8]) -> Result<Catalogue, ShelfFault> {
    if shelf.len() > MAX_SHELF {
        return Err(ShelfFault::NoMemory);
    }
    Catalogue::read(alloc, shelf)
}

// A fault, and its words.
pub(crate) fn fault(told: &mut Told, fault: ShelfFault) -> Result<(), NoMemory> {
    match fault {
        ShelfFault::BadItem { item } => told.show("bad item ", &item).text(": "),
        ShelfFault::Twice { item, id } => {
            told.show("item ", &item).show(", ", &id).text(" again: ")
        }
        ShelfFault::NoMemory => told.text(""),
    };
    told.show("", &fault).done()
}

// What a catalogue tells of these products, and what its copy does.
fn both(told: &mut Told, catalogue: &Catalogue, numbers: &[&str]) -> Result<(), NoMemory> {
    products(told.text("read"), catalogue, numbers);
    products(told.text("\ncopy"), &catalogue.copy()?, numbers);
    told.done()
}

fn products(told: &mut Told, catalogue: &Catalogue, numbers: &[&str]) {
    for number in numbers {
        product(told, catalogue, *number);
    }
}

fn product(told: &mut Told, catalogue: &Catalogue, number: &str) {
    let number = number.parse::<u32>().unwrap_or(0);
    told.show(" ", &number).text(": ");
    match catalogue.quote(number) {
        Ok(Price(price)) => told.show("price ", &price),
        Err(none) => told.show("", &none),
    };
    match catalogue.goods(number) {
        Some(goods) => told.bytes(", ", goods),
        None => told.text(", no goods"),
    };
    told.text(";");
}
