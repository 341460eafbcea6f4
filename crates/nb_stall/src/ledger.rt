ghost use Rattle.std.specs.Prelude.{◌≡◌, ◌<◌, ◌∷◌, ◌++◌, [], slice_get, vec_len, vec_capacity, OnOk, OnErr};
ghost use Rattle.std.specs.BTreeMap.{get};
ghost use Rattle.nb_stall.specs.Sales.{purchase_cmp, deliveries_in, sold_as};
ghost use Rattle.nb_stall.specs.Ledger.{noted_at, AreSerials, given_as};

use crate::delivery::Delivery;
use crate::item::Item;
use crate::purchase::Purchase;
use crate::sale::{Held, Progress, Sale};
use nb_goods::Parts;
use nb_units::{Epoid, NoMemory};
use std::collections::BTreeMap;

/// Notes an item at its purchase, with what the parts of the goods are made from where they were sealed with it; of a purchase that is not held a told
/// price alone is noted. Answers [`NoMemory`] where there is none for a purchase more: nothing is noted then.
pub fn note(
    sales: &mut BTreeMap<Purchase, Held>,
    item: &Item,
    parts: Option<Parts>,
) -> Result<(), NoMemory>
    // After Ok what is held at the item's purchase is what was held, with the item more and with the parts where there are some (`noted`); where nothing
    // was held a told price alone is noted. At every other purchase it is what was held.
    ensures noted { OnOk result ((q : Purchase) → get purchase_cmp sales.new q ≡ noted_at item.now parts q (get purchase_cmp sales.old q)) }
    ensures same { OnErr result (sales.new.entries ≡ sales.old.entries) }
{
    let purchase = item.purchase();
    if let Some(held) = sales.get_mut(&purchase) {
        held.sale.progress = held.sale.progress.with(item);
        match parts {
            Some(made) => held.parts = Some(made),
            None => {}
        }
        return Ok(());
    }
    if let Item::Quoted {
        product,
        price,
        request,
        ..
    } = item
    {
        let sale = Sale {
            product: *product,
            price: *price,
            request: *request,
            progress: Progress::Quoted,
        };
        sales.insert(purchase, Held { sale, parts })?;
    }
    Ok(())
}

/// Appends the goods that were sealed, where the item says so. There must be room for one more.
pub fn note_delivery(deliveries: &mut Vec<Delivery>, item: &Item)
    requires { vec_len deliveries.old < vec_capacity deliveries.old }
    // The goods that the item says were sealed stand behind the others; an item that says nothing of goods changes nothing.
    ensures { deliveries.new.items ≡ deliveries.old.items ++ deliveries_in (item.now ∷ []) }
{
    match item {
        Item::Delivered {
            purchase,
            epoid,
            ..
        } => deliveries.push_reserved(Delivery {
            purchase: *purchase,
            epoid: *epoid,
        }),
        Item::Quoted { .. } | Item::Endorsed { .. } | Item::Settled { .. } => {}
    }
}

/// The purchase whose goods were sealed under an identifier. The serial number in it tells the place of the goods: they must have the
/// numbers 1, 2 and so on.
pub fn delivery_at(deliveries: &[Delivery], epoid: &Epoid) -> Option<Purchase>
    requires { AreSerials deliveries.now }
    ensures { result ≡ sold_as deliveries.now epoid.now }
{
    if epoid.serial == 0 {
        return None;
    }
    given_as(delivery_of(deliveries, epoid.serial as usize - 1), epoid)
}

// The delivery at a place.
fn delivery_of(deliveries: &[Delivery], place: usize) -> Option<Delivery>
    ensures { result ≡ slice_get deliveries.now place }
{
    deliveries.get(place).copied()
}

// The purchase of a delivery that was looked up, where it has the identifier.
fn given_as(delivery: Option<Delivery>, epoid: &Epoid) -> Option<Purchase>
    ensures { result ≡ given_as delivery epoid.now }
{
    match delivery {
        Some(found) => {
            if found.epoid == *epoid {
                Some(found.purchase)
            } else {
                None
            }
        }
        None => None,
    }
}
