ghost use Rattle.std.specs.Prelude.{◌≡◌};
ghost use Rattle.nb_book.specs.Searches as searches;

use crate::funded::Funded;
use crate::kept::Kept;
use crate::party::Party;
use nb_entry::Entry;
use nb_units::{AcctId, Epoid, PartyId};

// The party that an entry, at this place, enrols under this number.
pub(crate) fn party_at(entry: &Entry, at: u32, number: PartyId) -> Option<Party>
    ensures { result ≡ searches.party_at number at entry.now }
{
    match *entry {
        Entry::Enrol {
            id,
            role,
            acct,
            nonce,
            key,
        } if id == number => Some(Party {
            at: u64::from(at),
            role,
            acct,
            nonce,
            key,
        }),
        _ => None,
    }
}

// The party for whom an entry opens this account.
pub(crate) fn holder_at(entry: &Entry, account: AcctId) -> Option<PartyId>
    ensures { result ≡ searches.holder_at account 0 entry.now }
{
    match *entry {
        Entry::Enrol { id, acct, .. } if acct == account => Some(id),
        _ => None,
    }
}

// The fund that an entry, at this place, makes under this reference.
pub(crate) fn funded_at(entry: &Entry, at: u32, named: &[u8; 16]) -> Option<Funded>
    ensures { result ≡ searches.funded_at named.now at entry.now }
{
    match *entry {
        Entry::Fund {
            acct,
            amount,
            reference,
        } if reference == *named => Some(Funded {
            at: u64::from(at),
            acct,
            amount,
        }),
        _ => None,
    }
}

// An entry with its place, where it pays or refuses the order of this identifier.
pub(crate) fn order_at(entry: &Entry, at: u32, order: &Epoid) -> Option<Kept>
    ensures { result ≡ searches.order_at order.now at entry.now }
{
    if settles(entry, order) {
        Some(Kept {
            at: u64::from(at),
            entry: *entry,
        })
    } else {
        None
    }
}

// Whether an entry pays or refuses the order of this identifier.
fn settles(entry: &Entry, order: &Epoid) -> bool
    ensures { result ≡ searches.settles order.now entry.now }
{
    match *entry {
        Entry::Paid { epoid, .. } | Entry::Charged { epoid, .. } | Entry::Refused { epoid, .. } =>
            epoid == *order,
        _ => false,
    }
}
