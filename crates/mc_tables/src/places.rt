// The table of the keys, in the order in which they came: where the rows of each key are.
ghost use Rattle.std.specs.Prelude.{◌≡◌, ℕ, ◌<◌, ◌≤◌, ◌+◌, List, true, OnOk, IfSome, cond, is_some, Some, None};
ghost use Rattle.std.specs.Option.{option_map};
ghost use Rattle.std.specs.HashMap.{spare, get_by_text};
ghost use Rattle.std.specs.Str.{bytes_eq};
ghost use Rattle.mc_tables.specs.Places.{last_in, value_in, texts_in, stands_at, KeepsTexts};

use indexmap::IndexMap;
use mc_base::Text;
use mc_graph::Spot;
use std::alloc::AllocError;
use std::hash::BuildHasher;

/// Where the rows of a key are: the one that came last, and the one with the key's value, where it has a value.
#[derive(Debug, Drop)]
pub(crate) struct Places {
    pub(crate) last: usize,
    pub(crate) value: Spot,
}

/// The place of the last row of a key, or none where it has no row. It takes no memory.
pub(crate) fn last_of<S: BuildHasher>(
    keys: &IndexMap<String, Places, S>,
    key: &str,
) -> Option<usize>
    ensures { result ≡ last_in keys.now key.now }
{
    match keys.get(key) {
        Some(places) => Some(places.last),
        None => None,
    }
}

/// The place of the row with the value of a key, or none where it has no value. It takes no memory.
pub(crate) fn value_place<S: BuildHasher>(
    keys: &IndexMap<String, Places, S>,
    key: &str,
) -> Option<usize>
    ensures { result ≡ value_in keys.now key.now }
{
    match keys.get(key) {
        Some(places) => places.value.place(),
        None => None,
    }
}

/// The place of a key in the table, and that of its last row, or none where it has no row. It takes no memory.
pub(crate) fn find_key<S: BuildHasher>(
    keys: &IndexMap<String, Places, S>,
    key: &str,
) -> Option<(usize, usize)>
    ensures last { option_map (λ found. found.1) result ≡ last_in keys.now key.now }
    ensures place { IfSome result (λ found. stands_at (texts_in keys.now) key.now found.0 ≡ true) }
{
    match keys.get_full(key) {
        Some((number, _, places)) => Some((number, places.last)),
        None => None,
    }
}

/// Makes a place the last of a key, and gives the one that was. It takes no memory.
pub(crate) fn set_last<S: BuildHasher>(
    keys: &mut IndexMap<String, Places, S>,
    key: Text,
    place: usize,
) -> Option<usize>
    requires room { 0 < spare keys.old }
    ensures before { result ≡ last_in keys.old key }
    ensures lasts { (other : List ℕ) → last_in keys.new other
        ≡ cond (bytes_eq key other) (Some place) (last_in keys.old other) }
    ensures values { (other : List ℕ) → value_in keys.new other ≡ value_in keys.old other }
    ensures texts { KeepsTexts (texts_in keys.old) (texts_in keys.new) }
    ensures spare { spare keys.old ≤ spare keys.new + 1 }
{
    let (number, before) = put_first(keys, key, place);
    match before {
        Some(before) => {
            let _none = set_value(keys, number, before.value);
            Some(before.last)
        }
        None => None,
    }
}

// Makes a place the first and last of a key, without a value, and gives the place of the key, and its places before.
fn put_first<S: BuildHasher>(
    keys: &mut IndexMap<String, Places, S>,
    key: Text,
    place: usize,
) -> (usize, Option<Places>)
    requires room { 0 < spare keys.old }
    ensures before { result.1 ≡ get_by_text keys.old key }
    ensures place { stands_at (texts_in keys.new) key result.0 ≡ true }
    ensures lasts { (other : List ℕ) → last_in keys.new other
        ≡ cond (bytes_eq key other) (Some place) (last_in keys.old other) }
    ensures values { (other : List ℕ) → value_in keys.new other
        ≡ cond (bytes_eq key other) None (value_in keys.old other) }
    ensures texts { KeepsTexts (texts_in keys.old) (texts_in keys.new) }
    ensures spare { spare keys.old ≤ spare keys.new + 1 }
{
    let places = Places {
        last: place,
        value: Spot::none(),
    };
    let Ok(found) = keys.insert_full(key.into_string(), places) else {
        unreachable!();
    };
    found
}

/// Gives the key at a place of the table a value, by the place of its row, or takes the value away, and tells whether
/// it had one. It takes no memory.
pub(crate) fn set_value<S: BuildHasher>(
    keys: &mut IndexMap<String, Places, S>,
    number: usize,
    value: Spot,
) -> bool
    ensures before { (key : List ℕ) → stands_at (texts_in keys.old) key number ≡ true →
        result ≡ is_some (value_in keys.old key) }
    ensures lasts { (other : List ℕ) → last_in keys.new other ≡ last_in keys.old other }
    ensures values { (key : List ℕ) → stands_at (texts_in keys.old) key number ≡ true → (other : List ℕ) →
        value_in keys.new other ≡ cond (bytes_eq key other) value (value_in keys.old other) }
    ensures texts { texts_in keys.new ≡ texts_in keys.old }
    ensures spare { spare keys.old ≤ spare keys.new }
{
    match keys.get_index_mut(number) {
        Some(places) => {
            let had = places.value.place().is_some();
            places.value = value;
            had
        }
        None => false,
    }
}

/// Makes room for so many keys.
pub(crate) fn reserve_keys<S: BuildHasher>(
    keys: &mut IndexMap<String, Places, S>,
    more: usize,
) -> Result<(), AllocError>
    ensures ok { OnOk result (more ≤ spare keys.new) }
    ensures lasts { (key : List ℕ) → last_in keys.new key ≡ last_in keys.old key }
    ensures values { (key : List ℕ) → value_in keys.new key ≡ value_in keys.old key }
    ensures texts { texts_in keys.new ≡ texts_in keys.old }
    ensures spare { spare keys.old ≤ spare keys.new }
{
    keys.reserve(more)
}
