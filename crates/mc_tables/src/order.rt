// The keys with a value in their order: those that wait and still have one are put there, and those that lose it taken
// out.
ghost use Rattle.std.specs.Prelude.{◌≡◌, ◌≤◌, ℕ, List, [], true, false, cond, vec_len, vec_capacity, OnOk, OnErr};
ghost use Rattle.std.specs.Str.{bytes_eq};
ghost use Rattle.std.specs.BTreeSet.{contains_text};
ghost use Rattle.std.specs.Option.{option_copied};
ghost use Rattle.mc_tables.specs.Places.{texts_in, value_in, is_named, has_value_at};
ghost use Rattle.mc_tables.specs.Values.{waits_in, IsCovered};

use crate::elements::Elements;
use crate::places::Places;
use crate::values::Values;
use indexmap::IndexMap;
use std::alloc::{AllocError, Global};
use std::cmp::Ordering;
use std::collections::BTreeSet;
use std::hash::BuildHasher;

/// Puts copies of the keys that wait into order, the greatest first, but for those that lost their value meanwhile.
/// After want of memory some have been, and the others still wait.
pub(crate) fn settle<S: BuildHasher + Drop>(
    alloc: Global,
    values: &mut Values,
    elements: &Elements<S>,
) -> Result<(), AllocError>
    ensures covered { IsCovered (texts_in elements.now.keys) (value_in elements.now.keys)
        values.old.ordered values.old.pending.items →
        IsCovered (texts_in elements.now.keys) (value_in elements.now.keys)
        values.new.ordered values.new.pending.items }
    ensures settled { OnOk result (values.new.pending.items ≡ []) }
    ensures len { vec_len values.new.pending ≤ vec_len values.old.pending }
    ensures capacity { vec_capacity values.old.pending ≤ vec_capacity values.new.pending }
{
    sort_waiting(&mut values.pending, &elements.keys);
    while let Some(number) = values.pending.pop() {
        if let Err(AllocError) = put_in_order(alloc, &mut values.ordered, &elements.keys, number) {
            values.pending.push_reserved(number);
            return Err(AllocError);
        }
    }
    Ok(())
}

// Sorts the places of keys by these, the least first. Taken from the end, each key is below those that were put into
// order before it, so of each node on its way it is compared with the first key alone.
fn sort_waiting<S: BuildHasher + Drop>(pending: &mut Vec<usize>, keys: &IndexMap<String, Places, S>)
    ensures waits { (key : List ℕ) → waits_in (texts_in keys.now) pending.new.items key
        ≡ waits_in (texts_in keys.now) pending.old.items key }
    ensures len { vec_len pending.new ≡ vec_len pending.old }
    ensures capacity { vec_capacity pending.new ≡ vec_capacity pending.old }
{
    pending.sort_unstable_by(|a, b| key_order(keys, *a, *b));
}

// How the keys at two places compare.
fn key_order<S: BuildHasher + Drop>(
    keys: &IndexMap<String, Places, S>,
    a: usize,
    b: usize,
) -> Ordering {
    match (keys.get_index(a), keys.get_index(b)) {
        (Some((a, _)), Some((b, _))) => a.as_bytes().cmp(b.as_bytes()),
        _ => Ordering::Equal,
    }
}

// Puts a copy of the key at a place into order, where it has a value.
fn put_in_order<S: BuildHasher + Drop>(
    alloc: Global,
    ordered: &mut BTreeSet<String>,
    keys: &IndexMap<String, Places, S>,
    number: usize,
) -> Result<(), AllocError>
    ensures ok { OnOk result ((other : List ℕ) → contains_text ordered.new other
        ≡ cond (has_value_at keys.now other number) true (contains_text ordered.old other)) }
    ensures err { OnErr result ((other : List ℕ) → contains_text ordered.new other ≡ contains_text ordered.old other) }
{
    let Some(key) = key_with_value(keys, number) else {
        return Ok(());
    };
    let copy = String::from_str(alloc, key.as_str())?;
    ordered.insert(copy)?;
    Ok(())
}

// The key at a place, where it has a value.
fn key_with_value<S: BuildHasher>(
    keys: &IndexMap<String, Places, S>,
    number: usize,
) -> Option<&String>
    ensures { (other : List ℕ) → has_value_at keys.now other number ≡ is_named other (option_copied result) }
{
    let Some((key, places)) = keys.get_index(number) else {
        return None;
    };
    if places.value.place().is_none() {
        return None;
    }
    Some(key)
}

/// Takes a key out, where it is there.
pub(crate) fn drop_key(ordered: &mut BTreeSet<String>, key: &str)
    ensures { (other : List ℕ) → contains_text ordered.new other
        ≡ cond (bytes_eq key.now other) false (contains_text ordered.old other) }
{
    ordered.remove(key);
}
