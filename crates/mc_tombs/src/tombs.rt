// The table of tombstones, with room for the next commits. A map whose key is a pair of texts can't be asked by two
// borrowed texts, so the keys and the ids are numbered, and a tombstone is a pair of numbers.
ghost use Rattle.std.specs.Prelude.{◌≡◌, ℕ, ◌<◌, ◌≤◌, ◌+◌, ◌||◌, ◌&&◌, true, false, List, [], OnOk};
ghost use Rattle.std.specs.List.{list_any};
ghost use Rattle.std.specs.HashSet.{spare};
ghost use Rattle.indexmap.specs.IndexSet.{insert_key};
ghost use Rattle.std.specs.String.{string_bytes, string_eq};
ghost use Rattle.std.specs.declared.string.String.{String};
ghost use Rattle.std.proofs.Common.{Global};
ghost use Rattle.std.specs.Str.{bytes_eq};
ghost use Rattle.mc_tombs.specs.Tombs.{has_tomb_in, AreNumbers, number_of, same_pair};

use indexmap::IndexSet;
use mc_base::Text;
use std::alloc::{AllocError, Global};
use std::collections::HashSet;
use std::hash::BuildHasher;

/// The tombstones.
#[derive(Drop)]
pub struct Tombs<S: BuildHasher + Drop> {
    pub(crate) keys: IndexSet<String, S>,
    pub(crate) ids: IndexSet<String, S>,
    pub(crate) pairs: HashSet<(usize, usize)>,
    ghost numbers: { AreNumbers keys.keys ids.keys pairs.keys },
}

impl<S: BuildHasher + Copy + Drop> Tombs<S> {
    /// No tombstones, with this hasher for the tables of texts. Takes no memory.
    pub fn with_hasher(alloc: Global, hasher: S) -> Tombs<S>
        ensures pairs { result.pairs.keys ≡ [] }
    {
        Tombs {
            keys: IndexSet::with_hasher(alloc, hasher),
            ids: IndexSet::with_hasher(alloc, hasher),
            pairs: HashSet::new(alloc),
        }
    }
}

/// Whether a tombstone of the key may be there. It takes no memory.
pub fn has_key<S: BuildHasher + Drop>(tombs: &Tombs<S>, key: &str) -> bool
    ensures { result ≡ false → (id : List ℕ) →
        has_tomb_in tombs.now.keys.keys tombs.now.ids.keys tombs.now.pairs.keys key.now id ≡ false }
{
    if tombs.pairs.is_empty() {
        return false;
    }
    match tombs.keys.get_index_of(key) {
        Some(_) => true,
        None => false,
    }
}

/// Whether the tombstone is there. It takes no memory.
pub fn has_tomb<S: BuildHasher + Drop>(tombs: &Tombs<S>, key: &str, id: &str) -> bool
    ensures { result ≡ has_tomb_in tombs.now.keys.keys tombs.now.ids.keys tombs.now.pairs.keys key.now id.now }
{
    if tombs.pairs.is_empty() {
        return false;
    }
    let Some(key) = tombs.keys.get_index_of(key) else {
        return false;
    };
    let Some(id) = tombs.ids.get_index_of(id) else {
        return false;
    };
    tombs.pairs.contains(&(key, id))
}

// The number of a text, which is put at the end unless it is there.
fn number<S: BuildHasher + Drop>(texts: &mut IndexSet<String, S>, text: Text) -> usize
    requires room { 0 < spare texts.old }
    ensures number { result ≡ number_of texts.old.keys text }
    ensures texts { (name : String Global) × (string_bytes name ≡ text)
        × (texts.new.keys ≡ insert_key string_eq texts.old.keys name) }
    ensures spare { spare texts.old ≤ spare texts.new + 1 }
{
    match texts.insert_full(text.into_string()) {
        Ok((at, _)) => at,
        Err(_) => unreachable!(),
    }
}

/// Puts the tombstone of a key with an id in. It takes no memory.
pub fn put_tomb<S: BuildHasher + Drop>(tombs: &mut Tombs<S>, key: Text, id: Text)
    requires keys_room { 0 < spare tombs.old.keys }
    requires ids_room { 0 < spare tombs.old.ids }
    requires pairs_room { 0 < spare tombs.old.pairs }
    ensures tombs { (other name : List ℕ) →
        has_tomb_in tombs.new.keys.keys tombs.new.ids.keys tombs.new.pairs.keys other name
        ≡ ((bytes_eq key other && bytes_eq id name)
        || has_tomb_in tombs.old.keys.keys tombs.old.ids.keys tombs.old.pairs.keys other name) }
    ensures keys_spare { spare tombs.old.keys ≤ spare tombs.new.keys + 1 }
    ensures ids_spare { spare tombs.old.ids ≤ spare tombs.new.ids + 1 }
    ensures pairs_spare { spare tombs.old.pairs ≤ spare tombs.new.pairs + 1 }
{
    let key = number(&mut tombs.keys, key);
    let id = number(&mut tombs.ids, id);
    let _added = tombs.pairs.insert((key, id));
}

/// Makes room for so many tombstones.
pub fn reserve_tombs<S: BuildHasher + Drop>(
    tombs: &mut Tombs<S>,
    rows: usize,
) -> Result<(), AllocError>
    ensures ok { OnOk result ((rows ≤ spare tombs.new.keys) × (rows ≤ spare tombs.new.ids)
        × (rows ≤ spare tombs.new.pairs)) }
    ensures tombs { (key id : List ℕ) → has_tomb_in tombs.new.keys.keys tombs.new.ids.keys tombs.new.pairs.keys key id
        ≡ has_tomb_in tombs.old.keys.keys tombs.old.ids.keys tombs.old.pairs.keys key id }
    ensures keys_spare { spare tombs.old.keys ≤ spare tombs.new.keys }
    ensures ids_spare { spare tombs.old.ids ≤ spare tombs.new.ids }
    ensures pairs_spare { spare tombs.old.pairs ≤ spare tombs.new.pairs }
{
    tombs.keys.reserve(rows)?;
    tombs.ids.reserve(rows)?;
    reserve_pairs(&mut tombs.pairs, rows)
}

fn reserve_pairs(pairs: &mut HashSet<(usize, usize)>, rows: usize) -> Result<(), AllocError>
    ensures ok { OnOk result (rows ≤ spare pairs.new) }
    ensures pairs { (pair : ℕ × ℕ) → list_any (same_pair pair) pairs.new.keys
        ≡ list_any (same_pair pair) pairs.old.keys }
    ensures spare { spare pairs.old ≤ spare pairs.new }
{
    pairs.reserve(rows)
}
