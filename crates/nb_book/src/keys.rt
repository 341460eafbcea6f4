ghost use Rattle.std.specs.Prelude.{◌≡◌, ◌<◌, ◌^◌};
ghost use Rattle.nb_book.specs.Indexes as indexes;

use nb_entry::Entry;

// The key of a number of 4 bytes in an index.
#[tactic(auto, unfolding(crate::specs::Indexes::name_key))]
pub(crate) fn name_key(number: u32) -> [u8; 16]
    ensures key { result ≡ indexes.name_key number }
    ensures fits { number < 2 ^ 32 }
{
    let mut key = [0; 16];
    key[..4].copy_from_slice(&number.to_be_bytes());
    key
}

// Under which key an entry stands in each index, if it stands there.
#[derive(Clone, Copy)]
pub(crate) struct Keys {
    pub(crate) party: Option<[u8; 16]>,
    pub(crate) account: Option<[u8; 16]>,
    pub(crate) reference: Option<[u8; 16]>,
    pub(crate) order: Option<[u8; 16]>,
}

// The keys of an entry.
pub(crate) fn keys_of(entry: &Entry) -> Keys
    ensures party { result.party ≡ indexes.party_key entry.now }
    ensures account { result.account ≡ indexes.account_key entry.now }
    ensures reference { result.reference ≡ indexes.reference_key entry.now }
    ensures order { result.order ≡ indexes.order_key entry.now }
    ensures fit { indexes.KeysFit entry.now }
{
    match *entry {
        Entry::Enrol { id, acct, .. } => Keys {
            party: Some(name_key(id.0)),
            account: Some(name_key(acct.0)),
            reference: None,
            order: None,
        },
        Entry::Fund { reference, .. } => Keys {
            party: None,
            account: None,
            reference: Some(reference),
            order: None,
        },
        Entry::Paid { epoid, .. } | Entry::Charged { epoid, .. } | Entry::Refused { epoid, .. } =>
            Keys {
                party: None,
                account: None,
                reference: None,
                order: Some(epoid.write()),
            },
    }
}
