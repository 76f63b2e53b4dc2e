// Fetches and planted offers.
use mc_base::{Bytes, Cid, Counted};
use mc_fetch::{Fetch, FetchError, PeerFetch, Planted, Plants, first_match};
use mc_keep::Keeper;
use std::alloc::{AllocError, Global};
use std::sync::Wait;
use std::test::Fail;

// The SHA-256 of no bytes and of `abc` (FIPS 180-4, and its examples).
const EMPTY: Cid = Cid([
    0xe3, 0xb0, 0xc4, 0x42, 0x98, 0xfc, 0x1c, 0x14, 0x9a, 0xfb, 0xf4, 0xc8, 0x99, 0x6f, 0xb9, 0x24,
    0x27, 0xae, 0x41, 0xe4, 0x64, 0x9b, 0x93, 0x4c, 0xa4, 0x95, 0x99, 0x1b, 0x78, 0x52, 0xb8, 0x55,
]);

const ABC: Cid = Cid([
    0xba, 0x78, 0x16, 0xbf, 0x8f, 0x01, 0xcf, 0xea, 0x41, 0x41, 0x40, 0xde, 0x5d, 0xae, 0x22, 0x23,
    0xb0, 0x03, 0x61, 0xa3, 0x96, 0x17, 0x7a, 0x9c, 0xb4, 0x10, 0xff, 0x61, 0xf2, 0x00, 0x15, 0xad,
]);

// Places that offer the same for each block. The call with the number `failing`, counted from 1, fails.
#[derive(Drop)]
struct Listed {
    offers: Vec<Option<Bytes>>,
    failing: u64,
    asked: u64,
    faults: u64,
}

impl Counted for Listed {
    ghost faults = { λ fetch. fetch.faults };

    fn faults(&self) -> u64 {
        self.faults
    }
}

impl Fetch for Listed {
    ghost use Rattle.std.specs.Prelude.{◌≡◌, ⊤, Some, false, length, refl};
    ghost use Rattle.mc_part_tests.specs.Leading.{few_all};

    ghost offers = { λ fetch. Some (λ cid. fetch.offers.items) };

    ghost leading = { λ fetch cid. fetch.offers.items };

    ghost places = { λ fetch. length fetch.offers.items };

    ghost quiet = { λ fetch. false };

    ghost follows = { λ old new. ⊤ };

    ghost placed = { λ fetch cid. refl };

    ghost whole = { λ fetch cid. refl };

    ghost few = { λ fetch cid. few_all (length fetch.offers.items) };

    ghost follows_itself = { λ fetch. tt };

    ghost follows_on = { λ first second third before after. tt };

    fn places(&self) -> u64 {
        self.offers.as_slice().len() as u64
    }

    fn offer<W: Wait>(
        &mut self,
        alloc: Global,
        _cid: &Cid,
        place: u64,
        _wait: &W,
    ) -> Result<Option<Bytes>, FetchError> {
        self.asked = self.asked.saturating_add(1);
        if self.asked == self.failing {
            self.faults = self.faults.saturating_add(1);
            return Err(FetchError::Failed);
        }
        match &self.offers[place as usize] {
            Some(bytes) => Ok(Some(bytes.try_clone(alloc)?)),
            None => Ok(None),
        }
    }
}

#[derive(Drop)]
struct Row {
    cid: Cid,
    offers: [Option<&'static [u8]>; 3],
    failing: u64,
    found: Result<Option<&'static [u8]>, FetchError>,
    asked: u64,
}

fn places_with(
    alloc: Global,
    offers: &[Option<&'static [u8]>],
    failing: u64,
) -> Result<Listed, AllocError> {
    let mut fetch = Listed {
        offers: Vec::new(alloc),
        failing,
        asked: 0,
        faults: 0,
    };
    for offer in offers {
        let bytes = match offer {
            Some(bytes) => Some(Bytes::from_slice(alloc, bytes)?),
            None => None,
        };
        fetch.offers.push(bytes)?;
    }
    Ok(fetch)
}

fn is_found(
    found: &Result<Option<Bytes>, FetchError>,
    wanted: Result<Option<&'static [u8]>, FetchError>,
) -> bool {
    match (found, wanted) {
        (Ok(Some(bytes)), Ok(Some(wanted))) => bytes.as_slice() == wanted,
        (Ok(None), Ok(None)) => true,
        (Err(error), Err(wanted)) => *error == wanted,
        _ => false,
    }
}

fn row_of(
    cid: Cid,
    offers: [Option<&'static [u8]>; 3],
    found: Option<&'static [u8]>,
    asked: u64,
) -> Row {
    Row {
        cid,
        offers,
        failing: 0,
        found: Ok(found),
        asked,
    }
}

#[test]
fn the_first_match_decides(rt: HostRuntime) -> Result<(), Fail> {
    let alloc = rt.alloc();
    let rows = [
        row_of(ABC, [Some(b"abc"), Some(b"abd"), None], Some(b"abc"), 1),
        row_of(ABC, [Some(b"abd"), None, Some(b"abc")], Some(b"abc"), 3),
        row_of(ABC, [Some(b"abd"), Some(b""), Some(b"abcd")], None, 3),
        row_of(ABC, [None, None, None], None, 3),
        row_of(EMPTY, [Some(b"abc"), Some(b""), Some(b"")], Some(b""), 2),
    ];
    for row in rows {
        let mut fetch = places_with(alloc, &row.offers, row.failing)?;
        let found = first_match(alloc, &mut fetch, &row.cid, &rt);
        assert!(rt; is_found(&found, row.found));
        assert!(rt; fetch.asked == row.asked && fetch.faults() == 0);
    }
    Ok(())
}

#[test]
fn a_failed_place_ends_the_search(rt: HostRuntime) -> Result<(), Fail> {
    let alloc = rt.alloc();
    let mut fetch = places_with(alloc, &[Some(b"abd"), None, Some(b"abc")], 2)?;
    let failed = first_match(alloc, &mut fetch, &ABC, &rt);
    assert!(rt; is_found(&failed, Err(FetchError::Failed)));
    assert!(rt; fetch.asked == 2 && fetch.faults() == 1);
    let found = first_match(alloc, &mut fetch, &ABC, &rt);
    assert!(rt; is_found(&found, Ok(Some(b"abc"))) && fetch.faults() == 1);
    Ok(())
}

#[test]
fn a_later_planted_offer_replaces_an_older_one(rt: HostRuntime) -> Result<(), Fail> {
    let alloc = rt.alloc();
    let mut plants = Plants::new(alloc);
    for (cid, bytes) in [(ABC, b"abd"), (EMPTY, b"abc"), (ABC, b"abe")] {
        let bytes = Bytes::from_slice(alloc, bytes)?;
        plants.plant(Planted { cid, bytes })?;
    }
    assert!(rt; plants.get(&ABC) == Some(b"abe") && plants.get(&EMPTY) == Some(b"abc"));
    assert!(rt; plants.get(&Cid([0; 32])).is_none());
    Ok(())
}

fn sent<T: Send>(value: T) -> T {
    value
}

// A fetch from peers may be sent to the thread of a worker.
fn sent_to_a_worker<'a, K: Keeper + Send + Sync>(fetch: PeerFetch<'a, K>) -> PeerFetch<'a, K>
where
    K::Desk: Send,
{
    sent(fetch)
}

// The first match may be asked of peers.
fn ask_peers<'a, K: Keeper, W: Wait>(
    alloc: Global,
    fetch: &mut PeerFetch<'a, K>,
    cid: &Cid,
    wait: &W,
) -> Result<Option<Bytes>, FetchError> {
    first_match(alloc, fetch, cid, wait)
}
