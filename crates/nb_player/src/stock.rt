//! What merchants sell: catalogues with goods, from the lines of shelves.

ghost use Rattle.std.specs.Prelude.{◌≡◌, IfOk};
ghost use Rattle.nb_script.specs.Settings.{AreShelves};
ghost use Rattle.nb_player.specs.Stock as stock;

use nb_price::{Catalogue, PutFault};
use nb_script::{Script, Shelf};
use nb_stall::Stall;
use nb_units::{NoMemory, PartyId};
use std::alloc::Global;

// The bytes of goods count up to this number, from 0 on, again and again.
const CYCLE: u32 = 251;

// Goods of so many bytes.
fn goods(alloc: Global, length: u32) -> Result<Vec<u8>, NoMemory>
    ensures { IfOk result (λ goods. goods.items ≡ stock.goods_of length) }
{
    let mut goods = Vec::with_capacity(alloc, length as usize)?;
    for i in 0..length {
        goods.push((i % CYCLE) as u8)?;
    }
    Ok(goods)
}

// Puts the product of a shelf into the catalogue of its merchant, which has it not yet.
fn put(alloc: Global, catalogue: &mut Catalogue, shelf: &Shelf) -> Result<(), NoMemory>
    requires { stock.IsNew catalogue.old shelf.now }
    ensures { IfOk result (λ _. catalogue.new ≡ stock.with_shelf catalogue.old shelf.now) }
{
    let goods = goods(alloc, shelf.length)?;
    match catalogue.put(shelf.product, shelf.price, goods) {
        Ok(()) => Ok(()),
        Err(PutFault::NoMemory) => Err(NoMemory),
        Err(PutFault::BadPrice { .. }) => unreachable!(),
        Err(PutFault::TooLong { .. }) => unreachable!(),
        Err(PutFault::Taken { .. }) => unreachable!(),
    }
}

// What a merchant sells, in the order of the lines.
fn catalogue_of(alloc: Global, merchant: PartyId, shelves: &[Shelf]) -> Result<Catalogue, NoMemory>
    requires { AreShelves shelves.now }
    ensures { IfOk result (λ c. c ≡ stock.catalogue_of merchant shelves.now) }
{
    let mut catalogue = Catalogue::new(alloc);
    for shelf in shelves {
        if shelf.merchant.0 != merchant.0 {
            continue;
        }
        put(alloc, &mut catalogue, shelf)?;
    }
    Ok(catalogue)
}

// Who sells, in the order of their lines, each with the products of its shelf lines in their order.
pub(crate) fn merchants_of(
    alloc: Global,
    script: &Script,
) -> Result<Vec<(Stall, Catalogue)>, NoMemory>
    requires { AreShelves script.now.shelves.items }
    ensures { IfOk result (λ ms. ms.items ≡ stock.merchants_of script.now.merchants.items script.now.shelves.items) }
{
    let mut merchants = Vec::new(alloc);
    for m in script.merchants.as_slice() {
        let catalogue = catalogue_of(alloc, m.id, script.shelves.as_slice())?;
        let stall = Stall {
            id: m.id,
            acct: m.acct,
            key: m.key,
            master: m.master,
        };
        merchants.push((stall, catalogue))?;
    }
    Ok(merchants)
}
