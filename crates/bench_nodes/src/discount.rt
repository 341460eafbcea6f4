// Discounts: each round is one quote for a consumer whose credential holds, of the product in the middle of so many offers.

ghost use Rattle.std.specs.Prelude.{◌≤◌, length};

use crate::Made;
use crate::nodes::{KEY, MOMENT};
use nb_groups::{OFFERS_BYTES, Offers, credential, quote};
use nb_price::{Catalogue, MAX_SHELF};
use nb_seal::NoMemory;
use nb_units::{PartyId, Small};
use std::alloc::Global;

// The consumer, and the group for which all offers are.
const CONSUMER: PartyId = PartyId(1);

const GROUPS: [u32; 2] = [5, 9];

/// The row `quote`: SIZE offers, of the products from 0 on. What is made is a sum over all quotes, in their order.
pub fn run(alloc: Global, size: u32, times: u32) -> Result<Made, NoMemory> {
    let text = offered(alloc, size)?;
    if text.len() > OFFERS_BYTES {
        return Ok(Made::Unknown);
    }
    let Ok(offers) = Offers::read(alloc, text.as_slice()) else {
        return Ok(Made::Unknown);
    };
    let product = size / 2;
    let shelf = format!(in alloc; "{product};300;goods;2\nhi")?;
    let Some(catalogue) = sold(alloc, shelf.as_str().as_bytes()) else {
        return Ok(Made::Unknown);
    };
    let request = credential(&KEY, CONSUMER, MOMENT, &GROUPS);
    Made::number(alloc, sum(&catalogue, &offers, product, &request, times))
}

// What a shelf has, where it is good.
fn sold(alloc: Global, shelf: &[u8]) -> Option<Catalogue> {
    if shelf.len() > MAX_SHELF {
        return None;
    }
    match Catalogue::read(alloc, shelf) {
        Ok(catalogue) => Some(catalogue),
        Err(_) => None,
    }
}

// Offers of so many products.
fn offered(alloc: Global, size: u32) -> Result<Vec<u8>, NoMemory> {
    let mut text = Vec::new(alloc);
    text.extend_from_slice(b"keeper ")?;
    for _ in 0..KEY.len() {
        text.extend_from_slice(b"44")?;
    }
    text.extend_from_slice(b"\n")?;
    for product in 0..size {
        let line = format!(in alloc; "{product};5;200\n")?;
        text.extend_from_slice(line.as_str().as_bytes())?;
    }
    Ok(text)
}

// The sum of the prices and the groups that are quoted.
fn sum(c: &Catalogue, o: &Offers, product: u32, request: &Small, times: u32) -> u64
    requires { length request.now ≤ 64 }
{
    let mut sum = 0u64;
    for _ in 0..times {
        let (price, group) = match quote(c, o, product, CONSUMER, request.as_slice(), MOMENT) {
            Ok(quoted) => (quoted.price.0, quoted.group.unwrap_or(0)),
            Err(_) => (0, 0),
        };
        sum = sum
            .wrapping_mul(31)
            .wrapping_add(price)
            .wrapping_add(u64::from(group))
            .wrapping_add(1);
    }
    sum
}
