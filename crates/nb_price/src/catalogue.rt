ghost use Rattle.std.specs.Prelude.{◌≡◌, ◌≤◌, ◌++◌, ◌∷◌, [], length, nat_eq, option_copied, IfOk, OnOk, OnErr, map, None};
ghost use Rattle.std.specs.Map.{lookup, keys_of};
ghost use Rattle.nb_price.specs.declared.limits.TheConstants.{MAX_SHELF};
ghost use Rattle.nb_price.specs.Products.{Product};
ghost use Rattle.nb_price.specs.Putting.{PutsProduct};
ghost use Rattle.nb_price.specs.Reads.{ReadsShelf, Quotes, Holds, Adds};

use crate::fault::{NoProduct, PutFault, ShelfFault};
use crate::limits::MAX_PRICE;
use crate::line::{Found, item_of};
use nb_goods::MAX_GOODS;
use nb_numbers::Numbers;
use nb_units::{NoMemory, Price};
use std::alloc::{AllocError, Global};
use std::marker::Model;

// What a product costs, and its goods.
#[derive(Drop)]
pub(crate) struct Goods {
    pub(crate) price: u64,
    pub(crate) bytes: Vec<u8>,
}

impl Clone for Goods {
    ghost use Rattle.std.specs.Prelude.{◌≡◌};

    ghost is_clone = { λ g copy. (copy.price ≡ g.price) × (copy.bytes.items ≡ g.bytes.items) };

    fn clone(&self) -> Result<Goods, AllocError> {
        Ok(Goods {
            price: self.price,
            bytes: self.bytes.clone()?,
        })
    }
}

/// Products by their numbers. It is seen as the list of them, in the order of the shelf that they were read from, and behind these in that
/// in which they were put.
pub struct Catalogue {
    // The number of each product, in their order.
    numbers: Numbers,
    products: Vec<(u32, Goods)>,
}

impl Drop for Catalogue {
    fn drop(self) {
        let Self {
            numbers: _,
            products: _,
        } = self;
    }
}

impl Model for Catalogue {
    ghost use Rattle.std.specs.Prelude.{◌≡◌, List, map};
    ghost use Rattle.std.specs.Map.{keys_of};
    ghost use Rattle.nb_price.specs.Products.{Product, product_at};

    ghost Value = { List Product };

    ghost view = { λ c. map product_at c.products.items };

    ghost invariant = { λ c. c.numbers ≡ keys_of c.products.items };
}

// What is held of a product, or `None` where there is none of this number.
fn held<'a>(numbers: &Numbers, products: &'a Vec<(u32, Goods)>, product: u32) -> Option<&'a Goods>
    requires { numbers.now ≡ keys_of products.now.items }
    ensures value { option_copied result ≡ lookup (nat_eq product) products.now.items }
{
    match numbers.place_of(product as u64) {
        Some(at) => Some(&products[at].1),
        None => None,
    }
}

// A product that is not there goes behind the others. After want of memory all is as before.
fn push(
    numbers: &mut Numbers,
    products: &mut Vec<(u32, Goods)>,
    product: u32,
    goods: Goods,
) -> Result<(), NoMemory>
    requires keys { numbers.old ≡ keys_of products.old.items }
    requires new { lookup (nat_eq product) products.old.items ≡ None }
    ensures keys { numbers.new ≡ keys_of products.new.items }
    ensures added { OnOk result (products.new.items ≡ products.old.items ++ (product, goods) ∷ []) }
    ensures err { OnErr result (products.new.items ≡ products.old.items) }
{
    products.reserve(1)?;
    numbers.add(product as u64)?;
    products.push_reserved((product, goods));
    Ok(())
}

impl Catalogue {
    /// A catalogue with no product.
    pub fn new(alloc: Global) -> Catalogue
        ensures { result ≡ [] }
    {
        Catalogue {
            numbers: Numbers::new(alloc),
            products: Vec::new(alloc),
        }
    }

    /// The catalogue of a shelf of at most [`MAX_SHELF`](crate::MAX_SHELF) bytes, which is the spelling of items whose numbers differ. Each item is a
    /// line `id;price;name;length` that a line feed ends, and then so many bytes of goods. The id is from 0 to 4,294,967,295, the price from 1 to
    /// 1,000,000,000, the length from 0 to 67,108,864; each is decimal without sign or leading zero. The name has 0 to 64 bytes from 20 to
    /// 7E other than `;`. Goods alone are copied.
    ///
    /// It answers the fault of the first item that is not of this form ([`ShelfFault::BadItem`]) or has the number of one before it
    /// ([`ShelfFault::Twice`]), and [`ShelfFault::NoMemory`] where there is none for the products and their goods.
    pub fn read(alloc: Global, bytes: &[u8]) -> Result<Catalogue, ShelfFault>
        requires { length bytes.now ≤ MAX_SHELF }
        ensures { ReadsShelf bytes.now result }
    {
        let mut catalogue = Catalogue::new(alloc);
        let mut item = 0;
        let mut rest = bytes;
        'items: while !rest.is_empty() {
            item += 1;
            match item_of(rest) {
                Some(found) => {
                    catalogue.add(alloc, item, &found)?;
                    rest = found.rest;
                }
                None => return Err(ShelfFault::BadItem { item }),
            }
        }
        Ok(catalogue)
    }

    // Adds the product of an item behind the others.
    fn add(&mut self, alloc: Global, item: u32, found: &Found<'_>) -> Result<(), ShelfFault>
        ensures { Adds self.old self.new item found.now result }
    {
        if held(&self.numbers, &self.products, found.id).is_some() {
            return Err(ShelfFault::Twice { item, id: found.id });
        }
        let goods = Goods {
            price: u64::from(found.price),
            bytes: Vec::from_slice(alloc, found.goods)?,
        };
        push(&mut self.numbers, &mut self.products, found.id, goods)?;
        Ok(())
    }

    /// Puts a product behind the others: its number, its price, from 1 to [`MAX_PRICE`](crate::MAX_PRICE), and its goods, at most 67,108,864
    /// bytes, which are not copied. Where it answers a fault the catalogue is as before.
    ///
    /// It answers [`PutFault::BadPrice`] where the price is out of these limits, [`PutFault::TooLong`] where the goods are longer,
    /// [`PutFault::Taken`] where the catalogue has a product of this number, and [`PutFault::NoMemory`] where there is none for one more.
    pub fn put(&mut self, product: u32, price: Price, goods: Vec<u8>) -> Result<(), PutFault>
        ensures { PutsProduct self.old self.new product price goods.items result }
    {
        if price.0 < 1 || price.0 > u64::from(MAX_PRICE) {
            return Err(PutFault::BadPrice { price });
        }
        let len = goods.len();
        if len > MAX_GOODS {
            return Err(PutFault::TooLong { len });
        }
        match held(&self.numbers, &self.products, product) {
            Some(_) => return Err(PutFault::Taken { id: product }),
            None => {}
        }
        let goods = Goods {
            price: price.0,
            bytes: goods,
        };
        push(&mut self.numbers, &mut self.products, product, goods)?;
        Ok(())
    }

    /// What a product costs. It answers [`NoProduct`] exactly where the catalogue has none of this number.
    pub fn quote(&self, product: u32) -> Result<Price, NoProduct>
        ensures { Quotes self.now product result }
    {
        match held(&self.numbers, &self.products, product) {
            Some(goods) => Ok(Price(goods.price)),
            None => Err(NoProduct { id: product }),
        }
    }

    /// The goods of a product, or `None` where the catalogue has none of this number.
    pub fn goods(&self, product: u32) -> Option<&[u8]>
        ensures { Holds self.now product result }
    {
        match held(&self.numbers, &self.products, product) {
            Some(goods) => Some(goods.bytes.as_slice()),
            None => None,
        }
    }

    /// An equal catalogue, or [`NoMemory`] where there is none for it.
    pub fn copy(&self) -> Result<Catalogue, NoMemory>
        ensures { IfOk result (λ c. c ≡ self.now) }
    {
        let numbers = self.numbers.copy()?;
        let products = self.products.clone()?;
        Ok(Catalogue { numbers, products })
    }
}
