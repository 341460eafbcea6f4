ghost use Rattle.std.specs.Prelude.{◌≡◌, ◌≤◌, ◌↔◌, ◌&&◌, ◌++◌, ◌∷◌, [], map, IfOk, IfSome, IsTrue};
ghost use Rattle.nb_units.specs.Charter.{MayRule};
ghost use Rattle.nb_units.specs.declared.limits.TheConstants.{MAX_CAP};
ghost use Rattle.nb_escrow.specs.Head.{IsRuling};
ghost use Rattle.nb_consumer.specs.State.{new_buyer};
ghost use Rattle.nb_simulator.specs.Setups as setups;

use nb_book::{Book, Party};
use nb_buyers::Buyers;
use nb_entry::{CONSUMER, Entry, MERCHANT};
use nb_escrow::Head;
use nb_price::Catalogue;
use nb_sellers::Sellers;
use nb_stall::Stall;
use nb_units::{AcctId, FEE_VERSION, FIRST_VERSION, HEAD, MAX_CAP, MAX_RATE, NoMemory, Secret};
use nb_wallet::Wallet;
use std::alloc::Global;

/// What a world is made of.
#[derive(Drop)]
pub struct Setup {
    /// The bytes of the house's head: its own key, the operator's, and the key of its index.
    pub head: [u8; HEAD],
    /// The version of the house's journal, 1 byte wide: [`FIRST_VERSION`](nb_units::FIRST_VERSION) or [`FEE_VERSION`](nb_units::FEE_VERSION).
    pub version: u8,
    /// The rate of the fee in thousandths of a price, 2 bytes wide, at most [`MAX_RATE`](nb_units::MAX_RATE).
    pub rate: u16,
    /// How many entries the house can have, from 1 to [`MAX_CAP`](nb_units::MAX_CAP), 4 bytes wide.
    pub cap: u32,
    /// Who buys. Each is listed once, and enrolled by the entries as it is here.
    pub consumers: Vec<Wallet>,
    /// Who sells, and what. Each is listed once, and enrolled by the entries as it is here.
    pub merchants: Vec<(Stall, Catalogue)>,
    /// The entries that the house has, at most as many as the cap, and Legal under the version and the rate.
    pub entries: Vec<Entry>,
}

/// Why a world is not made.
#[derive(Clone, Copy, PartialEq, Eq)]
pub enum SetupFault {
    /// The set-up is not as it must be.
    Unlawful,
    /// There is no memory for what it holds.
    NoMemory,
}

impl From<NoMemory> for SetupFault {
    ghost use Rattle.std.specs.Prelude.{◌≡◌};
    ghost use Rattle.nb_simulator.specs.declared.setup.SetupFault.TheVariants as fault;

    ghost from_gives = { λ _ f. f ≡ fault.NoMemory };

    fn from(_none: NoMemory) -> SetupFault {
        SetupFault::NoMemory
    }
}

// Whether a house may decide under a version and a rate.
fn may_rule(version: u8, rate: u16) -> bool
    ensures { IsTrue result ↔ MayRule version rate }
{
    (version == FIRST_VERSION || version == FEE_VERSION) && rate <= MAX_RATE
}

// Whether a house of this cap may start under a version and a rate.
pub(crate) fn may_start(version: u8, rate: u16, cap: u32) -> bool
    ensures { IsTrue result ↔ MayRule version rate × (1 ≤ cap) × (cap ≤ MAX_CAP) }
{
    may_rule(version, rate) && cap >= 1 && cap <= MAX_CAP
}

// A book of the entries, for as many as the cap; none where they are more, or not Legal under the version and the rate.
pub(crate) fn book_of(
    alloc: Global,
    head: &Head,
    cap: u32,
    entries: &[Entry],
) -> Result<Option<Book>, NoMemory>
    requires terms { IsRuling head.now }
    requires some { 1 ≤ cap }
    requires most { cap ≤ MAX_CAP }
    ensures { IfOk result (setups.Fills head.now cap entries.now) }
{
    nb_book::laws::legal_under();
    let mut book = Book::new(alloc, cap, &head.index)?;
    for entry in entries {
        if book.len() == cap {
            drop(book);
            return Ok(None);
        }
        if !book.legal(entry, head.version, head.rate) {
            drop(book);
            return Ok(None);
        }
        book.apply(entry);
    }
    Ok(Some(book))
}

// Whether a party is enrolled so.
fn is_enrolled(
    party: Option<Party>,
    role: u8,
    acct: AcctId,
    nonce: Option<u64>,
    key: &Secret,
) -> bool
    ensures { result ≡ setups.is_enrolled party role acct nonce key.now }
{
    match party {
        Some(party) => {
            party.role == role
                && party.acct == acct
                && match nonce {
                    Some(nonce) => party.nonce == nonce,
                    None => true,
                }
                && party.key == *key
        }
        None => false,
    }
}

// Adds a consumer; false where it is listed already, or not enrolled as it is here.
fn add_buyer(
    alloc: Global,
    book: &Book,
    buyers: &mut Buyers,
    wallet: &Wallet,
) -> Result<bool, NoMemory>
    ensures may { IfOk result (λ added. added ≡ setups.wallets_may book.now.entries buyers.old (wallet.now ∷ [])) }
    ensures added { IfOk result (λ added. IsTrue added → buyers.new ≡ buyers.old ++ new_buyer wallet.now ∷ []) }
{
    if !is_enrolled(
        book.party(wallet.id),
        CONSUMER,
        wallet.acct,
        Some(wallet.nonce),
        &wallet.key,
    ) {
        return Ok(false);
    }
    if buyers.find(wallet.id).is_some() {
        return Ok(false);
    }
    buyers.add(alloc, *wallet)?;
    Ok(true)
}

// The consumers; none where one is listed twice, or not enrolled as it is here.
fn buyers_of(alloc: Global, book: &Book, wallets: &[Wallet]) -> Result<Option<Buyers>, NoMemory>
    ensures { IfOk result (setups.Makes (setups.wallets_may book.now.entries [] wallets.now) (map new_buyer wallets.now)) }
{
    let mut buyers = Buyers::new(alloc);
    for wallet in wallets {
        match add_buyer(alloc, book, &mut buyers, wallet) {
            Ok(true) => {}
            Ok(false) => {
                drop(buyers);
                return Ok(None);
            }
            Err(none) => {
                drop(buyers);
                return Err(none);
            }
        }
    }
    Ok(Some(buyers))
}

// The numbers of a stall have their widths.
fn stall_fits(stall: &Stall)
    ensures { setups.StallFits stall.now }
{
    let _id = stall.id.0;
    let _acct = stall.acct.0;
}

// Adds a merchant; false where it is listed already, or not enrolled as it is here.
fn add_seller(
    alloc: Global,
    book: &Book,
    sellers: &mut Sellers,
    seller: (Stall, Catalogue),
) -> Result<bool, NoMemory>
    ensures may { IfOk result (λ added. added ≡ setups.stalls_may book.now.entries sellers.old (seller ∷ [])) }
    ensures added { IfOk result (λ added. IsTrue added → sellers.new ≡ sellers.old ++ setups.shop_of seller ∷ []) }
    ensures fits { setups.StallFits seller.0 }
{
    let (stall, catalogue) = seller;
    stall_fits(&stall);
    if !is_enrolled(book.party(stall.id), MERCHANT, stall.acct, None, &stall.key) {
        drop(catalogue);
        return Ok(false);
    }
    if sellers.find(stall.id).is_some() {
        drop(catalogue);
        return Ok(false);
    }
    sellers.add(alloc, stall, catalogue)?;
    Ok(true)
}

// The merchants; none where one is listed twice, or not enrolled as it is here.
fn sellers_of(
    alloc: Global,
    book: &Book,
    merchants: Vec<(Stall, Catalogue)>,
) -> Result<Option<Sellers>, NoMemory>
    ensures makes { IfOk result (setups.Makes (setups.stalls_may book.now.entries [] merchants.items) (map setups.shop_of merchants.items)) }
    ensures fit { IfOk result (λ made. IfSome made (λ _. setups.SellersFit merchants.items)) }
{
    let mut sellers = Sellers::new(alloc);
    for seller in merchants {
        match add_seller(alloc, book, &mut sellers, seller) {
            Ok(true) => {}
            Ok(false) => {
                drop(sellers);
                return Ok(None);
            }
            Err(none) => {
                drop(sellers);
                return Err(none);
            }
        }
    }
    Ok(Some(sellers))
}

// Who buys and who sells.
#[derive(Drop)]
pub(crate) struct Parties {
    pub(crate) consumers: Buyers,
    pub(crate) merchants: Sellers,
}

// The consumers and the merchants; none where one is listed twice, or not enrolled as it is here.
pub(crate) fn parties_of(
    alloc: Global,
    book: &Book,
    wallets: &[Wallet],
    merchants: Vec<(Stall, Catalogue)>,
) -> Result<Option<Parties>, NoMemory>
    ensures makes { IfOk result (setups.Makes (setups.wallets_may book.now.entries [] wallets.now && setups.stalls_may book.now.entries [] merchants.items)
        (record { consumers = map new_buyer wallets.now; merchants = map setups.shop_of merchants.items })) }
    ensures fit { IfOk result (λ made. IfSome made (λ _. setups.SellersFit merchants.items)) }
{
    let consumers = match buyers_of(alloc, book, wallets) {
        Ok(Some(consumers)) => consumers,
        Ok(None) => {
            drop(merchants);
            return Ok(None);
        }
        Err(none) => {
            drop(merchants);
            return Err(none);
        }
    };
    match sellers_of(alloc, book, merchants) {
        Ok(Some(merchants)) => Ok(Some(Parties {
            consumers,
            merchants,
        })),
        Ok(None) => {
            drop(consumers);
            Ok(None)
        }
        Err(none) => {
            drop(consumers);
            Err(none)
        }
    }
}
