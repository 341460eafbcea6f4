// Shelves: each round reads one of so many products with goods of 25,000 bytes each, and tells the price of the next of them.

ghost use Rattle.std.specs.Prelude.{◌≤◌, length};
ghost use Rattle.nb_price.specs.declared.limits.TheConstants.{MAX_SHELF};

use crate::Made;
use crate::pattern::pattern;
use nb_price::{Catalogue, MAX_SHELF, ShelfFault};
use nb_seal::NoMemory;
use std::alloc::Global;

// The bytes of each product's goods.
const GOODS: u32 = 25_000;

// The product whose price is told next has a number that is so much greater.
const STRIDE: u32 = 7_919;

/// The row `shelf`: SIZE products.
pub fn run(alloc: Global, row: &str, size: u32, times: u32) -> Result<Made, NoMemory> {
    match row {
        "shelf" => told(alloc, size, times),
        _ => Ok(Made::Unknown),
    }
}

// What is made is a sum over all prices that were told, in their order.
fn told(alloc: Global, size: u32, times: u32) -> Result<Made, NoMemory> {
    let shelf = shelf_of(alloc, size)?;
    if size == 0 || shelf.len() > MAX_SHELF {
        return Ok(Made::Unknown);
    }
    let mut id = 0;
    let mut sum: u64 = 0;
    for _ in 0..times {
        let Some(price) = price_of(alloc, &shelf, id)? else {
            return Ok(Made::Unknown);
        };
        sum = sum.wrapping_mul(31).wrapping_add(price);
        id = STRIDE.wrapping_add(id) % size;
    }
    Made::number(alloc, sum)
}

// The price of a product of the shelf, which is read for it.
fn price_of(alloc: Global, shelf: &[u8], id: u32) -> Result<Option<u64>, NoMemory>
    requires { length shelf.now ≤ MAX_SHELF }
{
    match Catalogue::read(alloc, shelf) {
        Ok(catalogue) => Ok(catalogue.quote(id).ok().map(|price| price.0)),
        Err(ShelfFault::NoMemory) => Err(NoMemory),
        Err(_) => Ok(None),
    }
}

// A shelf of products with the numbers from 0 on. Each costs one more than its number.
fn shelf_of(alloc: Global, size: u32) -> Result<Vec<u8>, NoMemory> {
    let goods = pattern(alloc, GOODS)?;
    let mut shelf = Vec::new(alloc);
    for id in 0..size {
        let price = u64::from(id) + 1;
        let line = format!(in alloc; "{id};{price};goods;{GOODS}\n")?;
        shelf.extend_from_slice(line.as_bytes())?;
        shelf.extend_from_slice(&goods)?;
    }
    Ok(shelf)
}
